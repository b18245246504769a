//! Whose the words of a queue head are that rests, and who may write them (EHCI 1.0, 3.6, 3.6.3 and 4.10.4).
ghost use Rattle.worked_claims.specs.OwnerRows.{TokenIsControllers, LinkIsNot, NineWordsAreItsOwn, TwelveWordsAreNot, LinkStoreLeaves, TokenStoreTakes};
ghost use Rattle.worked_claims.specs.OwnerRows.{LastByteIsItsOwn, ByteBehindIsNot};

/// Its token is the controller's, its link isn't.
pub fn a_token_is_the_controllers_and_a_link_is_not()
    ensures token { TokenIsControllers }
    ensures link { LinkIsNot }
{}

/// A write-back of nine words, whatever they are, writes words of the controller alone; one of twelve words doesn't.
pub fn owners_are_broken_by_a_write_back_of_twelve_words()
    ensures nine { NineWordsAreItsOwn }
    ensures twelve { TwelveWordsAreNot }
{}

/// The driver may store its link, and not its token.
pub fn owners_are_broken_by_a_store_of_the_token()
    ensures link { LinkStoreLeaves }
    ensures token { TokenStoreTakes }
{}

/// Where one byte is still to come in, its word may be written, and not the one behind it.
pub fn owners_are_broken_by_a_byte_past_the_last_one()
    ensures last { LastByteIsItsOwn }
    ensures behind { ByteBehindIsNot }
{}
