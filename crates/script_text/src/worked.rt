//! Laws of the definitions, and worked texts, which the check computes.
ghost use Rattle.std.specs.Prelude.{◌≡◌, ℕ, ◌<◌, ◌⊎◌, List, [], ◌∷◌, Some, None, true, length};
ghost use Rattle.script_types.specs.declared.scripts.Script.{Script as Told};
ghost use Rattle.script_text.specs.Faults.{Spells, first_fault, HasScript, HasFault};

use script_forms::TextWhy;
use script_types::{Event, Item, Line};
use usb_base::{Cmd, EpKind, Speed, Way};

/// A text spells at most one script.
pub fn one_script()
    ensures { (text : List ℕ) (s t : Told) → Spells text s → Spells text t → s ≡ t }
{}

/// Each text spells a script and has no fault, or has a fault and spells no script.
pub fn script_or_fault()
    ensures { (text : List ℕ) → HasScript text ⊎ HasFault text }
{}

/// A text of more than 1,048,576 bytes is too long before any of its lines is.
pub fn too_long()
    ensures { (text : List ℕ) → 1048576 < length text → first_fault text ≡ Some (0, TextWhy.Long) }
{}

pub const BYTE: &[u8] = b"ehci 1\ndev 3\thigh";

pub const VERSION: &[u8] = b"ehci 3\n";

pub const WORD: &[u8] = b"ehci 1\n\n# a device\ndevice 3 high\n";

pub const UNBUILT: &[u8] = b"ehci 2\npark 2\n";

pub const BEFORE: &[u8] = b"ehci 1\nstuff 3 1 in 6\n";

pub const LATE: &[u8] = b"ehci 1\norder d 1\nmem 1\n";

pub const COUNT: &[u8] = b"ehci 1\ndev 3";

pub const ONE_TRANSLATOR: &[u8] = b"ehci 1\nhub 9 4 multi\n";

pub const NUMBER: &[u8] = b"ehci 1\ndev 03 high\n";

pub const HEX: &[u8] = b"ehci 1\nput 3 1 out full\n";

pub const RANGE: &[u8] = b"ehci 1\ndev 200 high\n";

pub const UNKNOWN: &[u8] = b"ehci 1\nopen 3 1 in\n";

pub const TWICE: &[u8] = b"ehci 1\nmem 2048\nmem 4096\n";

pub const LIMIT: &[u8] = b"ehci 1\norder d 1000001\n";

/// A text for each cause but the first, each with its line.
pub fn causes()
    ensures byte { first_fault BYTE.now ≡ Some (2, TextWhy.Byte) }
    ensures version { first_fault VERSION.now ≡ Some (1, TextWhy.Version) }
    ensures word { first_fault WORD.now ≡ Some (4, TextWhy.Word) }
    ensures unbuilt { first_fault UNBUILT.now ≡ Some (2, TextWhy.Word) }
    ensures before { first_fault BEFORE.now ≡ Some (2, TextWhy.Word) }
    ensures late { first_fault LATE.now ≡ Some (3, TextWhy.Late) }
    ensures count { first_fault COUNT.now ≡ Some (2, TextWhy.Count) }
    ensures one_translator { first_fault ONE_TRANSLATOR.now ≡ Some (2, TextWhy.Count) }
    ensures number { first_fault NUMBER.now ≡ Some (2, TextWhy.Number) }
    ensures hex { first_fault HEX.now ≡ Some (2, TextWhy.Hex) }
    ensures range { first_fault RANGE.now ≡ Some (2, TextWhy.Range) }
    ensures unknown { first_fault UNKNOWN.now ≡ Some (2, TextWhy.Unknown) }
    ensures twice { first_fault TWICE.now ≡ Some (3, TextWhy.Twice) }
    ensures limit { first_fault LIMIT.now ≡ Some (2, TextWhy.Limit) }
{}

/// A script of one device.
pub const ONE_DEVICE: &[u8] =
    b"ehci 1\nmem 2048\ndev 3 high\nep 3 1 in bulk 512\nreply 3 1 in data 01ff\nreply 3 1 in nak 2\nopen 3 1 in\nget 3 1 in 5\norder m 20\n";

/// What it spells.
pub fn one_device()
    ensures { Spells ONE_DEVICE.now (record {
      words = 2048;
      hubs = [];
      devices = record {
        addr = 3;
        speed = Speed.High;
        eps = record {
          desc = record { name = record { addr = 3; num = 1; way = Way.In }; speed = Speed.High; kind = EpKind.Bulk; max = 512; period = 0; multi = 1; hub = None; port = 0; tt = 0 };
          items = Item.Bytes (1 ∷ 255 ∷ []) ∷ Item.Nak 2 ∷ [];
          room = 0;
          stuff = 0;
          clears = 0;
        } ∷ [];
      } ∷ [];
      endpoints = record { addr = 3; num = 1; way = Way.In } ∷ [];
      fates = [];
      holds = [];
      lines = (7, Line.Command (Cmd.OpenEp (record { name = record { addr = 3; num = 1; way = Way.In }; speed = Speed.High; kind = EpKind.Bulk; max = 512; period = 0; multi = 1; hub = None; port = 0; tt = 0 })))
          ∷ (8, Line.Command (Cmd.Get (record { addr = 3; num = 1; way = Way.In }) 5 20480))
          ∷ (9, Line.Micro 20)
          ∷ [];
      version = 1;
      frames = 1024;
      park = 0;
      roots = [];
      classics = [];
      disks = [];
    }) }
{}

/// A script of a hub with a translator for each port, and of stuffed bits behind it.
pub const TRANSLATORS: &[u8] =
    b"ehci 2\nmem 2048\nhub 9 2 multi\ndev 3 full 9 2\nep 3 1 in iso 512 8 1\nstuff 3 1 in 6\n";

/// What it spells.
pub fn translators()
    ensures { Spells TRANSLATORS.now (record {
      words = 2048;
      hubs = record { addr = 9; ports = 2; attached = None ∷ Some Speed.Full ∷ []; multi = true } ∷ [];
      devices = record {
        addr = 3;
        speed = Speed.Full;
        eps = record {
          desc = record {
            name = record { addr = 3; num = 1; way = Way.In };
            speed = Speed.Full;
            kind = EpKind.Iso;
            max = 512;
            period = 8;
            multi = 1;
            hub = Some 9;
            port = 2;
            tt = 2;
          };
          items = [];
          room = 0;
          stuff = 6;
          clears = 0;
        } ∷ [];
      } ∷ [];
      endpoints = record { addr = 3; num = 1; way = Way.In } ∷ [];
      fates = [];
      holds = [];
      lines = [];
      version = 2;
      frames = 1024;
      park = 0;
      roots = [];
      classics = [];
      disks = [];
    }) }
{}
