//! Laws of a disk over all bytes (Bulk-Only Transport 1.0, 5.3 and 6.7): each whole command is obeyed once, in the order in which they
//! come, however their bytes are cut.
ghost use Rattle.bulk_only.specs.Laws.{BlocksAreReadBack, BytesAreCutAnywhere, CommandsAreFound, CommandsAreObeyed, FrontsAreParts, RepliesGrow};

/// A command block is read as what was written (5.1).
pub fn blocks_are_read_back()
    ensures { BlocksAreReadBack }
{}

/// Bytes that are commands and a front part of one more are just these commands, in their order.
pub fn commands_are_found()
    ensures { CommandsAreFound }
{}

/// After bytes that are commands and a front part of one more the disk has the contents after just these commands, in their order, each
/// once; their answers wait behind the replies that waited before.
pub fn commands_are_obeyed()
    ensures { CommandsAreObeyed }
{}

/// Each front part of a command that isn't whole is one.
pub fn fronts_are_parts()
    ensures { FrontsAreParts }
{}

/// Bytes that a disk takes together leave it as when they come in two parts, wherever they are cut.
pub fn bytes_are_cut_anywhere()
    ensures { BytesAreCutAnywhere }
{}

/// More bytes make more replies, and those to fewer bytes are their front part.
pub fn replies_grow()
    ensures { RepliesGrow }
{}
