//! The room that descriptors leave.
ghost use Rattle.std.specs.Prelude.{◌≡◌, ◌≤◌, ◌*◌};
ghost use Rattle.drv_table.specs.IsoOffers.{with_descriptors};

use drv_table::Reserve;

/// The room once `count` descriptors of `most` bytes each are accepted.
pub fn room_for_descriptors(room: Reserve, count: u8, most: u16) -> Reserve
    requires transfers { count ≤ room.transfers }
    requires reports { count ≤ room.reports }
    requires bytes { count * most ≤ room.report_bytes }
    ensures { result ≡ with_descriptors room count most }
{
    Reserve {
        endpoints: room.endpoints,
        transfers: room.transfers - count as u32,
        reports: room.reports - count as u32,
        report_bytes: room.report_bytes - count as u32 * most as u32,
        rules: room.rules,
    }
}
