//! Worked values, which the check computes.
ghost use Rattle.std.specs.Prelude.{◌≡◌, ℕ, List, [], ◌∷◌, Some, None, true, false};
ghost use Rattle.std.specs.Option.{option_map};
ghost use Rattle.script_world.specs.Draft.{empty, filled, packets, ep_text, device_ep};
ghost use Rattle.script_world.specs.Ranges.{is_size, is_rate, out_len};
ghost use Rattle.script_world.specs.Rows.{cause_of, after};
ghost use Rattle.script_world.specs.Samples.{bulk_line, iso_line, stuff_line, two_devices, a_bulk, epoch_line, begun, behind_a_hub, behind_its_own};

use script_forms::{Answer, Statement, TextWhy};
use script_types::{Item, Line};
use usb_base::{Cmd, EpKind, Speed, Way};

/// Bytes of a seed, and packets.
pub fn contents()
    ensures bytes { filled 3 254 ≡ 254 ∷ 255 ∷ 0 ∷ [] }
    ensures cut { packets 2 (1 ∷ 2 ∷ 3 ∷ []) ≡ Item.Bytes (1 ∷ 2 ∷ []) ∷ Item.Bytes (3 ∷ []) ∷ [] }
    ensures none { packets 512 [] ≡ [] }
    ensures whole { packets 2 (1 ∷ 2 ∷ []) ≡ Item.Bytes (1 ∷ 2 ∷ []) ∷ [] }
{}

/// Sizes and rates.
pub fn sizes()
    ensures bulk { is_size EpKind.Bulk Speed.High 512 ≡ true }
    ensures bulk_below { is_size EpKind.Bulk Speed.High 64 ≡ false }
    ensures low { is_size EpKind.Interrupt Speed.Low 9 ≡ false }
    ensures rate { is_rate Speed.High 8192 3 ≡ true }
    ensures power { is_rate Speed.High 6 1 ≡ false }
    ensures translator { is_rate Speed.Full 4 1 ≡ false }
    ensures stage { out_len (0 ∷ 9 ∷ 1 ∷ 0 ∷ 0 ∷ 0 ∷ 2 ∷ 1 ∷ []) ≡ 258 }
    ensures no_stage { out_len (128 ∷ 6 ∷ 0 ∷ 1 ∷ 0 ∷ 0 ∷ 18 ∷ 0 ∷ []) ≡ 0 }
{}

/// Causes of lines at the beginning of a script, and behind another line.
pub fn causes()
    ensures range { cause_of empty (Statement.Mem 2049) ≡ Some TextWhy.Range }
    ensures unknown { cause_of empty (Statement.Open (record { addr = 3; num = 1; way = Way.In })) ≡ Some TextWhy.Unknown }
    ensures twice { cause_of (after empty 2 (Statement.DevHigh 3)) (Statement.DevHigh 3) ≡ Some TextWhy.Twice }
    ensures limit { cause_of empty (Statement.Micro 16385) ≡ Some TextWhy.Limit }
    ensures translator { cause_of behind_a_hub (iso_line 3 1 Way.In) ≡ None }
    ensures fine { cause_of empty (Statement.DevHigh 3) ≡ None }
    ensures hub { cause_of empty (Statement.Hub 9 4 false) ≡ None }
{}

/// Endpoints of two devices keep the order of their lines.
pub fn order()
    ensures { (after (after (after two_devices 4 (bulk_line 4 2 Way.Out)) 5 (bulk_line 3 1 Way.In)) 6 (bulk_line 4 1 Way.In)).endpoints
        ≡ record { addr = 4; num = 2; way = Way.Out } ∷ record { addr = 3; num = 1; way = Way.In } ∷ record { addr = 4; num = 1; way = Way.In } ∷ [] }
{}

/// Stuffed bits are said once for an endpoint below a hub, from 0 to 6 bytes in 36.
pub fn stuffed_bits()
    ensures fine { cause_of behind_its_own (stuff_line 3 1 Way.In 6) ≡ None }
    ensures many { cause_of behind_its_own (stuff_line 3 1 Way.In 7) ≡ Some TextWhy.Range }
    ensures hub { cause_of behind_its_own (stuff_line 9 0 Way.Ctl 0) ≡ Some TextWhy.Range }
    ensures high { cause_of (after two_devices 4 (bulk_line 3 1 Way.In)) (stuff_line 3 1 Way.In 0) ≡ Some TextWhy.Range }
    ensures unknown { cause_of behind_its_own (stuff_line 3 2 Way.In 6) ≡ Some TextWhy.Unknown }
    ensures twice { cause_of (after behind_its_own 5 (stuff_line 3 1 Way.In 0)) (stuff_line 3 1 Way.In 6) ≡ Some TextWhy.Twice }
    ensures said { (after behind_its_own 5 (stuff_line 3 1 Way.In 6)).stuffed ≡ record { addr = 3; num = 1; way = Way.In } ∷ [] }
{}

/// Epochs are of bulk and interrupt endpoints, at most 16 behind the first of each.
pub fn epochs()
    ensures fine { cause_of a_bulk (epoch_line 3 1 Way.In) ≡ None }
    ensures item { option_map (λ e. e.items) (ep_text (after a_bulk 5 (epoch_line 3 1 Way.In)) (record { addr = 3; num = 1; way = Way.In }))
        ≡ Some (Item.Epoch ∷ []) }
    ensures last { cause_of (begun 15 a_bulk) (epoch_line 3 1 Way.In) ≡ None }
    ensures limit { cause_of (begun 16 a_bulk) (epoch_line 3 1 Way.In) ≡ Some TextWhy.Limit }
    ensures others { cause_of (begun 16 a_bulk) (Statement.Reply (record { addr = 3; num = 1; way = Way.In }) Answer.Stall) ≡ None }
    ensures hub { cause_of behind_its_own (epoch_line 9 0 Way.Ctl) ≡ Some TextWhy.Range }
    ensures iso { cause_of behind_its_own (epoch_line 3 1 Way.In) ≡ Some TextWhy.Range }
    ensures unknown { cause_of a_bulk (epoch_line 3 2 Way.In) ≡ Some TextWhy.Unknown }
    ensures unknown_control { cause_of a_bulk (epoch_line 3 0 Way.Ctl) ≡ Some TextWhy.Unknown }
{}

/// The clear of an endpoint is a command of its line; the endpoint has to be declared.
pub fn clears()
    ensures fine { cause_of a_bulk (Statement.Clear (record { addr = 3; num = 1; way = Way.In })) ≡ None }
    ensures unknown { cause_of a_bulk (Statement.Clear (record { addr = 3; num = 2; way = Way.In })) ≡ Some TextWhy.Unknown }
    ensures line { (after a_bulk 5 (Statement.Clear (record { addr = 3; num = 1; way = Way.In }))).lines
        ≡ (5, Line.Command (Cmd.Clear (record { addr = 3; num = 1; way = Way.In }))) ∷ [] }
{}

/// The translator of an endpoint: its port where the hub has one for each, else 0.
pub fn translators()
    ensures each { option_map (λ d. d.tt) (device_ep behind_its_own (record { addr = 3; num = 1; way = Way.In })) ≡ Some 2 }
    ensures one { option_map (λ d. d.tt) (device_ep (after behind_a_hub 4 (iso_line 3 1 Way.In))
        (record { addr = 3; num = 1; way = Way.In })) ≡ Some 0 }
{}
