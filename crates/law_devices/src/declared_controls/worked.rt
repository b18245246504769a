//! A worked text, which the check computes: a control endpoint beside a bulk one, and a hub. Its script has what the laws say.
ghost use Rattle.std.specs.Prelude.{◌≡◌, [], ◌∷◌, true, false, Some, None};
ghost use Rattle.std.specs.Option.{option_map};
ghost use Rattle.dev_control.specs.Stages.{opened};
ghost use Rattle.script_text.specs.Faults.{Spells};
ghost use Rattle.bus_wire.specs.Bus.{opening_bus, opening_wired};
ghost use Rattle.claims_report.specs.Requests.{requests};
ghost use Rattle.claims_report.specs.Controls.{is_of_hub};
ghost use Rattle.law_devices.specs.Controls.{control_of};
ghost use Rattle.law_devices.specs.Senders.{sender_of};
ghost use Rattle.law_devices.specs.scripted_takers.Takers.{taker_of};
ghost use Rattle.law_devices.specs.declared_controls.Opened.{OpensControls};
ghost use Rattle.law_devices.specs.declared_controls.Names.{NamesEndpoints};
ghost use Rattle.law_devices.specs.declared_controls.Requests.{AsksRequests};
ghost use Rattle.law_devices.specs.declared_controls.Zero.{AreZeroesAlone};
ghost use Rattle.law_devices.specs.declared_controls.Samples.{zero, reading, writing, beside_bulk};

/// The text.
pub const BESIDE_BULK: &[u8] =
    b"ehci 1\nmem 2048\nhub 4 1\ndev 3 high\nep 3 0 ctl control 64\nep 3 2 in bulk 512\nreply 3 0 ctl nak 2\nreply 3 0 ctl request 8006000100001200 1201\nreply 3 0 ctl nak 1\nreply 3 2 in data 0709\nopen 3 0 ctl\nopen 3 2 in\nopen 4 0 ctl\ncontrol 3 8006000100001200\ncontrol 3 0007000100000200 0506\n";

/// It spells this script.
pub fn spelled()
    ensures { Spells BESIDE_BULK.now beside_bulk }
{}

/// The control endpoint: three NAKs, one reply, and none to other requests.
pub fn opened_control()
    ensures of_device { is_of_hub beside_bulk 3 ≡ false }
    ensures stages { option_map (λ d. d.stages) (control_of (opening_wired beside_bulk) 3 0) ≡ Some (opened 64 3) }
    ensures reply { option_map (λ d. d.known reading) (control_of (opening_wired beside_bulk) 3 0) ≡ Some (Some (18 ∷ 1 ∷ [])) }
    ensures no_reply { option_map (λ d. d.known writing) (control_of (opening_wired beside_bulk) 3 0) ≡ Some None }
    ensures opens { OpensControls beside_bulk }
{}

/// The hub's own endpoint isn't one of these.
pub fn of_a_hub()
    ensures of_hub { is_of_hub beside_bulk 4 ≡ true }
    ensures no_control { control_of (opening_wired beside_bulk) 4 0 ≡ None }
{}

/// At number 0 nothing is sent or taken; at number 2 bytes are sent.
pub fn beside_a_stream()
    ensures alone { AreZeroesAlone (opening_bus beside_bulk) }
    ensures no_sender { sender_of (opening_wired beside_bulk) 3 0 ≡ None }
    ensures no_taker { taker_of (opening_wired beside_bulk) 3 0 ≡ None }
    ensures sender { sender_of (opening_wired beside_bulk) 3 2 ≡ Some (record { left = (7 ∷ 9 ∷ []) ∷ []; sends = false }) }
    ensures no_control { control_of (opening_wired beside_bulk) 3 2 ≡ None }
{}

/// The names, and the requests: a read of 18 bytes, and a write of two. A report that refuses neither has both.
pub fn names_and_requests()
    ensures names { NamesEndpoints beside_bulk }
    ensures asks { AsksRequests beside_bulk }
    ensures accepted { requests beside_bulk (record { lines = []; store = []; closings = [] }) zero.name
        ≡ record { setup = reading; bytes = [] } ∷ record { setup = writing; bytes = 5 ∷ 6 ∷ [] } ∷ [] }
{}
