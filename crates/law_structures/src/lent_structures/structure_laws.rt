//! The laws.
ghost use Rattle.law_structures.specs.lent_structures.StructureLaws.{QueueHeadIsRead, ElementIsRead, IsochronousIsRead, SplitIsochronousIsRead, BytesAreRead};
ghost use Rattle.law_structures.specs.lent_structures.StructureLaws.{RestIsTold, ChangeIsTold, NewIsTold, AnotherIsTold, FewerAreTold};
ghost use Rattle.law_structures.specs.lent_structures.StructureLaws.{QueueHeadWordIsTold, ElementWordIsTold, IsochronousWordIsTold, SplitIsochronousWordIsTold, TableWordIsTold};
ghost use Rattle.law_structures.specs.lent_structures.StructureLaws.{KeptWordIsTold, OverlayIsTold, TokenIsTold, BytesAreTold, LentIsTold, GotBackIsTold, ReleasedIsTold};

/// The controller reads a structure that is told, and isn't refused (3.3 to 3.6).
pub fn what_is_told_is_read()
    ensures queue_head { QueueHeadIsRead }
    ensures element { ElementIsRead }
    ensures isochronous { IsochronousIsRead }
    ensures split { SplitIsochronousIsRead }
    ensures bytes { BytesAreRead }
{}

/// What is told stays told where its blocks stay, where one structure changes in its place, and where one more is in blocks of its own.
pub fn changes_are_told()
    ensures rest { RestIsTold }
    ensures change { ChangeIsTold }
    ensures new { NewIsTold }
    ensures another { AnotherIsTold }
    ensures fewer { FewerAreTold }
{}

/// A word that the driver stores changes one structure, or none where it alone may touch the block.
pub fn stored_words_are_told()
    ensures queue_head { QueueHeadWordIsTold }
    ensures element { ElementWordIsTold }
    ensures isochronous { IsochronousWordIsTold }
    ensures split { SplitIsochronousWordIsTold }
    ensures table { TableWordIsTold }
    ensures kept { KeptWordIsTold }
{}

/// What the controller writes changes one structure: the overlay of a queue head, whose link stays that in memory, the token of a qTD, and
/// received bytes in a buffer (4.10.4 to 4.10.6).
pub fn controller_writes_are_told()
    ensures overlay { OverlayIsTold }
    ensures token { TokenIsTold }
    ensures bytes { BytesAreTold }
{}

/// A run is lent with a structure in it, is got back once no structure has a block of it, and is released.
pub fn runs_are_told()
    ensures lent { LentIsTold }
    ensures back { GotBackIsTold }
    ensures released { ReleasedIsTold }
{}
