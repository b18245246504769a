//! Worked rows of the definitions, which the check computes.
ghost use Rattle.std.specs.Prelude.{◌≡◌, true, false};
ghost use Rattle.usb_base.specs.declared.packets.Dir.TheVariants as Directions;
ghost use Rattle.usb_base.specs.declared.packets.EpKind.TheVariants.{Bulk, Control, Interrupt};
ghost use Rattle.usb_base.specs.declared.packets.Pid.TheVariants as Packets;
ghost use Rattle.usb_base.specs.declared.packets.Speed.TheVariants.{Full, Low, High};
ghost use Rattle.usb_base.specs.declared.packets.Split.TheVariants.{Plain};
ghost use Rattle.hub_keys.specs.Asks.{classic_of, work_of, stuffed};
ghost use Rattle.hub_keys.specs.Keys.{key_of, is_same_key};
ghost use Rattle.hub_keys.specs.Worked.{start, key};

/// A SETUP and an OUT have one key, an IN another.
pub fn keys()
    ensures setup { key_of (start Packets.Setup Full Control) ≡ key Directions.Out Control }
    ensures out { key_of (start Packets.Out Full Control) ≡ key Directions.Out Control }
    ensures inward { key_of (start Packets.In Full Control) ≡ key Directions.In Control }
    ensures bulk { key_of (start Packets.In Full Bulk) ≡ key Directions.In Bulk }
    ensures same { is_same_key (key Directions.In Bulk) (key Directions.In Bulk) ≡ true }
    ensures direction { is_same_key (key Directions.In Bulk) (key Directions.Out Bulk) ≡ false }
    ensures kind { is_same_key (key Directions.In Bulk) (key Directions.In Interrupt) ≡ false }
{}

/// The ask below is plain and takes up to 1,024 bytes; its work counts the start's limit or the bytes sent.
pub fn asks()
    ensures plain { (classic_of (start Packets.In Full Bulk)).split ≡ Plain }
    ensures limit { (classic_of (start Packets.In Full Bulk)).limit ≡ 1024 }
    ensures token { (classic_of (start Packets.In Full Bulk)).pid ≡ Packets.In }
    ensures full_in { work_of (start Packets.In Full Bulk) 0 ≡ 77 }
    ensures full_out { work_of (start Packets.Out Full Bulk) 8 ≡ 21 }
    ensures setup { work_of (start Packets.Setup Low Control) 8 ≡ 168 }
    ensures low_in { work_of (start Packets.In Low Interrupt) 0 ≡ 616 }
{}

/// Stuffed bits lengthen by at most 7/6, rounded down: 77 byte-times to 89, and 21 to 24.
pub fn stuffed_bits()
    ensures none { stuffed 77 0 ≡ 77 }
    ensures most { stuffed 77 6 ≡ 89 }
    ensures few { stuffed 21 6 ≡ 24 }
    ensures rounded { stuffed 35 1 ≡ 35 }
    ensures whole { stuffed 36 1 ≡ 37 }
{}
