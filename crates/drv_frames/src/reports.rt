//! The line of a descriptor.
ghost use Rattle.std.specs.Prelude.{◌≡◌, ◌≤◌, ◌<◌, ◌+◌, ◌^◌, ◌++◌, ◌∷◌, [], length, vec_len, vec_capacity};
ghost use Rattle.usb_base.specs.declared.reports.What.TheVariants.{Iso};
ghost use Rattle.drv_frames.specs.Listing.{told_in};

use drv_iso::append_told;
use drv_periodic_table::DescriptorNote;
use drv_table::Transfer;
use usb_base::{EpName, Report, What};
use word_mem::WordMem;

/// One more line of the report: the bytes that were moved in the slots of this descriptor, and how many of its slots have an error bit.
pub fn report_descriptor(
    reports: &mut Vec<Report>,
    store: &mut Vec<u8>,
    mem: &WordMem,
    note: &DescriptorNote,
    transfer: &Transfer,
    name: EpName,
    errors: u8,
)
    requires line { vec_len reports.old < vec_capacity reports.old }
    requires bytes { vec_len store.old + transfer.now.most ≤ vec_capacity store.old }
    requires fits { vec_len store.old + transfer.now.most < 2 ^ 32 }
    ensures store { store.new.items ≡ store.old.items ++ told_in note.now mem.now transfer.now }
    ensures line { reports.new.items ≡ reports.old.items ++ (record { name = name; what = Iso errors; from = length store.old.items; len = length (told_in note.now mem.now transfer.now) }) ∷ [] }
    ensures len { vec_len reports.new ≡ vec_len reports.old + 1 }
    ensures capacity { vec_capacity reports.new ≡ vec_capacity reports.old }
    ensures store_len { vec_len store.new ≤ vec_len store.old + transfer.now.most }
    ensures store_capacity { vec_capacity store.new ≡ vec_capacity store.old }
{
    let from = store.len();
    append_told(store, mem, note, transfer.first, transfer.most);
    reports.push_reserved(Report {
        name,
        what: What::Iso { errors },
        from: from as u32,
        len: (store.len() - from) as u32,
    });
}
