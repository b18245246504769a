//! Worked rows of bulk and interrupt endpoints below hubs, which the check computes.
ghost use Rattle.std.specs.Prelude.{◌≡◌, [], ◌∷◌, true, false, Some, None};
ghost use Rattle.claims_world.specs.Streams.{IsToldTaken, IsTakenSent};
ghost use Rattle.usb_base.specs.declared.packets.EpKind.TheVariants.{Bulk, Interrupt, Control};
ghost use Rattle.usb_base.specs.declared.packets.Pid.TheVariants as Pids;
ghost use Rattle.usb_base.specs.declared.packets.Reply.TheVariants as Replies;
ghost use Rattle.usb_base.specs.declared.packets.Speed.TheVariants as speeds;
ghost use Rattle.hub_class.specs.Requesting.{requested};
ghost use Rattle.hub_class.specs.Translating.{transact_reply};
ghost use Rattle.hub_class.specs.Worked as hubs;
ghost use Rattle.claims_world.specs.BelowStreams.{is_claimed_below, is_claimed_in, heard_clear};
ghost use Rattle.law_reports.specs.pipes.below_hubs.Behind.{kind_at, its_key, sent_in};
ghost use Rattle.law_reports.specs.pipes.below_hubs.BehindLaws.{spots_of};
ghost use Rattle.law_reports.specs.pipes.below_hubs.Inward.{is_inlet};
ghost use Rattle.law_reports.specs.pipes.below_hubs.InwardLaws.{inlet_of, takes_in};
ghost use Rattle.law_reports.specs.pipes.below_hubs.Samples.{page, printer, keys, board, sheet, scanner, asks_hub};
ghost use Rattle.law_reports.specs.pipes.below_hubs.DeafLaws.{IsUnopenedHub};

/// An endpoint is in the claim where a hub of the script has its port: the last of four; not a fifth, none, or one of another hub.
pub fn an_endpoint_has_its_hub()
    ensures last { is_claimed_below printer (page (Some 9) 4) ≡ true }
    ensures fifth { is_claimed_below printer (page (Some 9) 5) ≡ false }
    ensures unnumbered { is_claimed_below printer (page (Some 9) 0) ≡ false }
    ensures other { is_claimed_below printer (page (Some 8) 4) ≡ false }
    ensures alone { is_claimed_below printer (page None 4) ≡ false }
{}

/// A script's line that opens it gives it its spot: the first hub, and its one translator.
pub fn a_printer_has_its_spot()
    ensures has { (spots_of printer).has 3 2 ≡ true }
    ensures hub { (spots_of printer).hub 3 2 ≡ 0 }
    ensures place { (spots_of printer).place 3 2 ≡ 0 }
    ensures other { (spots_of printer).has 3 1 ≡ false }
{}

/// So are interrupt OUT endpoints: behind a port of the hub, at full or low speed, and not at high speed; control endpoints aren't.
pub fn an_interrupt_out_has_its_hub()
    ensures last { is_claimed_below board (keys (Some 9) 4) ≡ true }
    ensures low { is_claimed_below board (record (keys (Some 9) 4) { speed = speeds.Low }) ≡ true }
    ensures high { is_claimed_below board (record (keys (Some 9) 4) { speed = speeds.High }) ≡ false }
    ensures fifth { is_claimed_below board (keys (Some 9) 5) ≡ false }
    ensures control { is_claimed_below board (record (keys (Some 9) 4) { kind = Control }) ≡ false }
{}

/// The line that opens it tells the kind by which the hub knows it.
pub fn a_spot_has_its_kind()
    ensures keys { kind_at (spots_of board) 3 2 ≡ Interrupt }
    ensures page { kind_at (spots_of printer) 3 2 ≡ Bulk }
    ensures unopened { (spots_of board).has 3 1 ≡ false }
    ensures key { (its_key (spots_of board) 3 2).kind ≡ Interrupt }
{}

/// Behind a reported end a device may take the packet that its hub still had, but no byte that wasn't put; and no byte is told that it
/// didn't take.
pub fn a_hub_works_on()
    ensures later { sent_in (7 ∷ []) (Some (8 ∷ [])) ≡ 7 ∷ 8 ∷ [] }
    ensures told { IsToldTaken (7 ∷ []) (Some (7 ∷ 8 ∷ [])) }
    ensures untaken { IsToldTaken (7 ∷ 8 ∷ []) (Some (7 ∷ [])) → ⊥ }
    ensures unput { IsTakenSent (Some (7 ∷ 9 ∷ [])) (7 ∷ 8 ∷ []) → ⊥ }
{}

/// So is an IN endpoint, which no row of OUT endpoints names.
pub fn an_in_endpoint_has_its_hub()
    ensures last { is_claimed_in scanner (sheet (Some 9) 4) ≡ true }
    ensures fifth { is_claimed_in scanner (sheet (Some 9) 5) ≡ false }
    ensures other { is_claimed_in scanner (sheet (Some 8) 4) ≡ false }
    ensures outward { is_claimed_in printer (page (Some 9) 4) ≡ false }
    ensures inward { is_claimed_below scanner (sheet (Some 9) 4) ≡ false }
{}

/// So are interrupt IN endpoints, at full or low speed behind a port of the hub; not at high speed, nor OUT, nor control endpoints.
pub fn an_interrupt_in_has_its_hub()
    ensures bulk { takes_in scanner (sheet (Some 9) 4) ≡ true }
    ensures interrupt { takes_in scanner (record (sheet (Some 9) 4) { kind = Interrupt; period = 8 }) ≡ true }
    ensures low { takes_in scanner (record (sheet (Some 9) 4) { kind = Interrupt; period = 8; speed = speeds.Low }) ≡ true }
    ensures high { takes_in scanner (record (sheet (Some 9) 4) { kind = Interrupt; period = 8; speed = speeds.High }) ≡ false }
    ensures fifth { takes_in scanner (record (sheet (Some 9) 5) { kind = Interrupt; period = 8 }) ≡ false }
    ensures outward { takes_in board (keys (Some 9) 4) ≡ false }
    ensures control { takes_in scanner (record (sheet (Some 9) 4) { kind = Control }) ≡ false }
{}

/// Its inlet: the first hub, and its one translator, with the packets that the script gives its device.
pub fn a_scanner_has_its_inlet()
    ensures hub { (inlet_of scanner (sheet (Some 9) 4)).hub ≡ 0 }
    ensures place { (inlet_of scanner (sheet (Some 9) 4)).place ≡ 0 }
    ensures packets { (inlet_of scanner (sheet (Some 9) 4)).packets ≡ (7 ∷ 8 ∷ []) ∷ (9 ∷ []) ∷ [] }
    ensures own { is_inlet (inlet_of scanner (sheet (Some 9) 4)) 3 1 ≡ true }
    ensures other { is_inlet (inlet_of scanner (sheet (Some 9) 4)) 3 2 ≡ false }
{}

/// A hub is spared that heard to reset a port, or heard nothing; not one that heard to clear a buffer or to reset a translator.
pub fn a_hub_is_spared()
    ensures silence { heard_clear hubs.hub ≡ false }
    ensures port { heard_clear (hubs.told hubs.set_reset hubs.hub) ≡ false }
    ensures buffer { heard_clear (hubs.told hubs.clear_first hubs.hub) ≡ true }
    ensures translator { heard_clear (hubs.told hubs.reset_translator hubs.hub) ≡ true }
{}

/// What such requests do to a start that a translator holds: the reset of its port leaves it; it is thrown away where its buffer is
/// cleared, and where its translator is reset.
pub fn a_clear_throws_away()
    ensures kept { transact_reply (hubs.complete Bulk) (requested hubs.set_reset hubs.both_started) ≡ Replies.Hand Pids.Nyet }
    ensures cleared { transact_reply (hubs.complete Bulk) (requested hubs.clear_first hubs.both_started) ≡ Replies.Silent }
    ensures reset { transact_reply (hubs.complete Bulk) (requested hubs.reset_translator hubs.both_started) ≡ Replies.Silent }
{}

/// The scanner's script doesn't open endpoint 0 of its hub; another does.
pub fn a_hub_is_unopened()
    ensures unopened { IsUnopenedHub scanner (sheet (Some 9) 4) }
    ensures opened { IsUnopenedHub asks_hub (sheet (Some 9) 4) → ⊥ }
{}
