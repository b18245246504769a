//! Worked rows of the reasons of lines: a halted token, and a line of no bytes.
ghost use Rattle.law_telling.specs.Passing.{AGetIsPassed, NothingNotedIsWrong, LeftUnreadIsWrong};
ghost use Rattle.law_telling.specs.Lengths.{ErrorIsToldAsError, StallIsToldAsStall, ErrorAsStallIsWrong, StallAsErrorIsWrong, ErrorAsDoneIsWrong, NoBytesIsWrong};

/// A token that used up its errors tells an error, and one that a STALL halted a stall.
pub fn halted_tokens_tell_their_causes()
    ensures error { ErrorIsToldAsError }
    ensures stall { StallIsToldAsStall }
{}

/// They don't tell each other's cause, nor that all was done.
pub fn reasons_are_broken_by_the_other_cause()
    ensures stall { ErrorAsStallIsWrong }
    ensures error { StallAsErrorIsWrong }
    ensures done { ErrorAsDoneIsWrong }
{}

/// Where bytes were moved a line of none isn't right.
pub fn reasons_are_broken_by_lines_of_no_bytes()
    ensures { NoBytesIsWrong }
{}

/// Of a qTD with 512 bytes whose token left 100, 412 are noted.
pub fn a_qtd_that_is_done_is_passed()
    ensures { AGetIsPassed }
{}

/// A driver that notes none, or leaves the token unread, isn't right.
pub fn reading_is_broken_by_noting_nothing()
    ensures noted { NothingNotedIsWrong }
    ensures unread { LeftUnreadIsWrong }
{}
