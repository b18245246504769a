//! The laws.
ghost use Rattle.law_queues.specs.fed_lends.Commands.{OpenStands, AskedStands, RequestedStands};

/// An endpoint that was opened has no transfer yet, and isn't met yet.
pub fn open_stands()
    ensures { OpenStands }
{}

/// Of a get, a put or a request that was accepted nothing is lent yet.
pub fn a_transfer_leaves_queues()
    ensures asked { AskedStands }
    ensures requested { RequestedStands }
{}
