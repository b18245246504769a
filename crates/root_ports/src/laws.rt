//! Worked rows of the machine, which the check computes, and what each bit of PORTSC tells. Each function does nothing; its contract is the law.
ghost use Rattle.std.specs.Prelude.{◌≡◌, true, false, [], ◌∷◌};
ghost use Rattle.root_ports.specs.declared.port.Port.{Port};
ghost use Rattle.root_ports.specs.declared.port_event.PortEvent.TheVariants.{Plug, Unplug, Write, Route};
ghost use Rattle.root_ports.specs.Ports.{bit, port_word, opened, played, has_change, has_new_change};
ghost use Rattle.root_ports.specs.Samples.{things, after, word_after, ready_after_all, reset_2};

/// What is read of the ports as they open: nothing is at port 1, a high-speed thing at 2, a low-speed one at 3, a full-speed one at 4.
pub fn opening_rows()
    ensures nothing { word_after 1 [] ≡ 0x1000 }
    ensures high { word_after 2 [] ≡ 0x1803 }
    ensures low { word_after 3 [] ≡ 0x1403 }
    ensures full { word_after 4 [] ≡ 0x1803 }
    ensures outside { word_after 5 [] ≡ 0 }
    ensures port_0 { word_after 0 [] ≡ 0 }
{}

/// A reset while the controller runs makes a high-speed port ready; it does nothing for the other things, and nothing begins while Run is 0.
pub fn reset_rows()
    ensures begun { word_after 2 (Write 2 0x1100 true ∷ []) ≡ 0x1103 }
    ensures ended { word_after 2 reset_2 ≡ 0x1007 }
    ensures ready { ready_after_all 2 reset_2 ≡ true }
    ensures other_port { ready_after_all 4 reset_2 ≡ false }
    ensures halted { word_after 2 (Write 2 0x1100 false ∷ Write 2 0x1000 false ∷ []) ≡ 0x1803 }
    ensures not_ready { ready_after_all 2 (Write 2 0x1100 false ∷ Write 2 0x1000 false ∷ []) ≡ false }
    ensures low { word_after 3 (Write 3 0x1100 true ∷ Write 3 0x1000 true ∷ []) ≡ 0x1403 }
    ensures nothing { word_after 1 (Write 1 0x1100 true ∷ Write 1 0x1000 true ∷ []) ≡ 0x1000 }
    // the unplug ends the reset, so the second write ends none
    ensures unplugged { word_after 2 (Write 2 0x1100 true ∷ Unplug 2 ∷ Plug 2 ∷ Write 2 0x1000 true ∷ []) ≡ 0x1803 }
{}

/// What unmakes a ready port, and what leaves it.
pub fn unmaking_rows()
    ensures unplug { word_after 2 (after reset_2 (Unplug 2)) ≡ 0x1002 }
    ensures unplug_unmakes { ready_after_all 2 (after reset_2 (Unplug 2)) ≡ false }
    ensures plug_again { ready_after_all 2 (after reset_2 (Plug 2)) ≡ true }
    ensures disable { word_after 2 (after reset_2 (Write 2 0x1000 true)) ≡ 0x1803 }
    ensures keep { word_after 2 (after reset_2 (Write 2 0x1006 true)) ≡ 0x1005 }
    ensures keep_ready { ready_after_all 2 (after reset_2 (Write 2 0x1006 true)) ≡ true }
    ensures given { word_after 2 (after reset_2 (Write 2 0x3004 true)) ≡ 0x3002 }
    ensures power_off { word_after 2 (after reset_2 (Write 2 0x0004 true)) ≡ 0 }
    ensures routed_away { word_after 2 (after reset_2 (Route false)) ≡ 0x3002 }
    ensures routed { word_after 2 (after reset_2 (Route true)) ≡ 0x1007 }
    ensures routed_ready { ready_after_all 2 (after reset_2 (Route true)) ≡ true }
    ensures in_reset { ready_after_all 2 (after reset_2 (Write 2 0x1104 true)) ≡ false }
    // without Run no reset begins
    ensures not_in_reset { ready_after_all 2 (after reset_2 (Write 2 0x1104 false)) ≡ true }
{}

/// A port that was given away tells nothing of its thing, and tells of it again when it is taken back.
pub fn owner_rows()
    ensures given { word_after 3 (Write 3 0x3000 true ∷ []) ≡ 0x3002 }
    ensures plug_there { word_after 3 (Write 3 0x3002 true ∷ Unplug 3 ∷ Plug 3 ∷ []) ≡ 0x3002 }
    ensures taken_back { word_after 3 (Write 3 0x3000 true ∷ Write 3 0x1002 true ∷ []) ≡ 0x1403 }
    ensures power { word_after 3 (Write 3 0x0000 true ∷ Write 3 0x1000 true ∷ []) ≡ 0x1403 }
    ensures changed { has_change (played (opened things 4) []) ≡ true }
    ensures forgotten { has_change (played (opened things 1) []) ≡ false }
{}

/// A connection change that goes from 0 to 1 is told once.
pub fn change_rows()
    ensures unplug { let cleared = played (opened things 4) (Write 2 0x1002 true ∷ []) in has_new_change cleared (played cleared (Unplug 2 ∷ [])) ≡ true }
    ensures stands { let before = opened things 4 in has_new_change before (played before (Unplug 2 ∷ [])) ≡ false }
    // the write clears the change and sets it again
    ensures in_one_write { let before = opened things 4 in has_new_change before (played before (Write 2 0x3002 true ∷ [])) ≡ false }
{}

/// Each bit of PORTSC tells what it stands for.
#[tactic(auto, using(crate::proofs::Readings::port_bits))]
pub fn bits_tell()
    ensures connection { (p : Port) → bit (port_word p) 0 ≡ p.connection }
    ensures change { (p : Port) → bit (port_word p) 1 ≡ p.connection_changed }
    ensures enable { (p : Port) → bit (port_word p) 2 ≡ p.enable }
    ensures reset { (p : Port) → bit (port_word p) 8 ≡ p.reset }
    ensures power { (p : Port) → bit (port_word p) 12 ≡ p.power }
    ensures owner { (p : Port) → bit (port_word p) 13 ≡ p.owner }
{}
