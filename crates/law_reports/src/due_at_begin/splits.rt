//! The split transactions of interrupt endpoints below hubs that are due as their microframe begins (EHCI 1.0, 4.12.2.4; USB 2.0, 11.20).
ghost use Rattle.law_reports.specs.due_at_begin.BelowStays.{TextsLeaveBelow};
ghost use Rattle.law_reports.specs.due_at_begin.Splits.{TextsMakeSplits, TextsTakeResults, TextsKeepSplitFrames};
ghost use Rattle.law_reports.specs.due_at_begin.SplitsFollow.{TextsFollowStarts};

/// Where the walk of the frames is over in a microframe, each start-split that was due as the microframe began was made in it, and its
/// queue head was written back waiting for its complete-splits; and so was each complete-split of one that waited, in each microframe of
/// its C-mask, unless the endpoint was cancelled since.
pub fn texts_make_splits()
    ensures { TextsMakeSplits }
{}

/// Where neither such a complete-split nor its answer is lost, the host heard in it what the translator had for the endpoint as the
/// microframe began; and where that is data with the queue head's toggle for which it has room, or the acknowledgement of what it sent,
/// these bytes moved, and the queue head was written back so.
pub fn texts_take_results()
    ensures { TextsTakeResults }
{}

/// Each start-split that was due as its microframe began leaves its queue head waiting once the walk of the frames is over, with no
/// complete-split made since the frame began. What it left stands until a complete-split of it comes; so that one is due as its microframe
/// begins, where none before it was missed and the bus may be used, unless the endpoint was cancelled.
pub fn texts_follow_starts()
    ensures { TextsFollowStarts }
{}

/// After a start-split that was due as its microframe began, each microframe of the C-mask in the same frame begins with a complete-split due,
/// until one is answered otherwise than NYET, unless the endpoint is cancelled, where the bus may be used in each microframe. Where neither
/// the start-split nor a complete-split nor its answer is lost, the host heard by the last what the device said, and took it if it fits
/// what the queue head came to as the start-split was due.
pub fn texts_keep_split_frames()
    ensures { TextsKeepSplitFrames }
{}

/// Within a microframe no device below a hub changes, nor the number of the next packet of an endpoint below: so what a translator asks as
/// the next microframe begins is asked of a device that is as this Begin left it, but for what else is asked of it then.
pub fn texts_leave_below()
    ensures { TextsLeaveBelow }
{}
