ghost use Rattle.law_frames.specs.ItdBacks.{ItdIsSent, ItdIsWrittenBack};

/// What a transaction of an active microframe sends are the bytes of its buffer, and the controller may read all of them (4.7.1).
pub fn itd_is_sent()
    ensures { ItdIsSent }
{}

/// Its write-back is refused nothing: what was received is in its buffer, its microframe isn't active any more and tells how many bytes were moved,
/// which for an IN are just those that were received, and nothing else is changed (3.3.2 and 4.7.1).
pub fn itd_is_written_back()
    ensures { ItdIsWrittenBack }
{}
