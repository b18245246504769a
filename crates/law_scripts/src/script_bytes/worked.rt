//! A worked text, which the check computes: a reply that is filled with three bytes from 254 on.
ghost use Rattle.std.specs.Prelude.{[], ◌∷◌, None};
ghost use Rattle.script_text.specs.Faults.{Spells};

use script_types::Item;
use usb_base::{EpKind, Speed, Way};

/// The text.
pub const FILLED: &[u8] =
    b"ehci 1\nmem 2048\ndev 3 high\nep 3 1 in bulk 512\nreply 3 1 in fill 3 254\n";

/// It spells this script, whose bytes follow each other modulo 256.
pub fn filled()
    ensures { Spells FILLED.now (record {
      words = 2048;
      hubs = [];
      devices = record {
        addr = 3;
        speed = Speed.High;
        eps = record {
          desc = record { name = record { addr = 3; num = 1; way = Way.In }; speed = Speed.High; kind = EpKind.Bulk; max = 512; period = 0; multi = 1; hub = None; port = 0; tt = 0 };
          items = Item.Bytes (254 ∷ 255 ∷ 0 ∷ []) ∷ [];
          room = 0;
          stuff = 0;
          clears = 0;
        } ∷ [];
      } ∷ [];
      endpoints = record { addr = 3; num = 1; way = Way.In } ∷ [];
      fates = [];
      holds = [];
      lines = [];
      version = 1;
      frames = 1024;
      park = 0;
      roots = [];
      classics = [];
      disks = [];
    }) }
{}
