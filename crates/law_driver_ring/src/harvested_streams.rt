//! What a harvest reads (EHCI 1.0, 3.5.4 and 4.10): of a qTD that is done a driver reads exactly the bytes that were moved.
//!
//! The module has no code of its own: its function is a law over the definitions of `drv_table` and `law_ring`, and its body is empty.

ghost use Rattle.law_driver_ring.specs.harvested_streams.Harvested.{TokenIsRead, BytesAreRead, DoneIsHarvested};

/// A harvest reads the token and the bytes that memory has, and of a qTD that is done all bytes that were moved.
pub fn a_harvest_reads_what_is_told()
    ensures token { TokenIsRead }
    ensures bytes { BytesAreRead }
    ensures done { DoneIsHarvested }
{}
