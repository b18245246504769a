//! Worked rows of complete-splits that are made again at once (EHCI 1.0, 4.12.2.4.2; USB 2.0, 11.20 and 11.21).
ghost use Rattle.std.specs.Prelude.{◌≡◌, true, false, [], ◌∷◌};
ghost use Rattle.usb_base.specs.declared.packets.EpKind.TheVariants.{Interrupt};
ghost use Rattle.usb_base.specs.declared.packets.Pid.TheVariants.{In, Out, Data0, Data1, Mdata, Ack, Nak, Nyet, Err};
ghost use Rattle.usb_base.specs.declared.packets.Reply.TheVariants.{Silent, Bytes, Hand};
ghost use Rattle.toggle_error.specs.Worked.{host, complete};
ghost use Rattle.tt_pipeline.specs.declared.entry.Exchange.TheVariants.{Made};
ghost use Rattle.law_microframes.specs.time.Repeats.{IsSaidBy, IsCompleteOf, asks_again};

/// The complete-split of a keyboard's IN, with errors left: after NYET, ERR, NAK, or data with a toggle it isn't made again at once, in
/// the last microframe of the frame or before it; after silence it is.
pub fn a_keyboard_is_asked_once()
    ensures complete { IsCompleteOf true (complete In Interrupt) }
    ensures not_yet { asks_again (complete In Interrupt) 0 false (Hand Nyet) (record host { waiting = true }) ≡ false }
    ensures last { asks_again (complete In Interrupt) 0 true (Hand Nyet) (record host { waiting = true }) ≡ false }
    ensures broke { asks_again (complete In Interrupt) 0 false (Hand Err) (record host { waiting = true }) ≡ false }
    ensures refused { asks_again (complete In Interrupt) 0 false (Hand Nak) (record host { waiting = true }) ≡ false }
    ensures told { asks_again (complete In Interrupt) 0 false (Bytes Data0 (1 ∷ [])) (record host { waiting = true }) ≡ false }
    ensures repeated { asks_again (complete In Interrupt) 0 false (Bytes Data1 (1 ∷ [])) (record host { waiting = true }) ≡ false }
    ensures silent { asks_again (complete In Interrupt) 0 false Silent (record host { waiting = true }) ≡ true }
{}

/// So is one that an ACK or an MDATA answers, which no translator says to an IN of an interrupt endpoint; nor does a device answer an IN
/// with an ACK, but an OUT.
pub fn other_words_are_asked_again()
    ensures acked { asks_again (complete In Interrupt) 0 false (Hand Ack) (record host { waiting = true }) ≡ true }
    ensures more { asks_again (complete In Interrupt) 0 false (Bytes Mdata (1 ∷ [])) (record host { waiting = true }) ≡ true }
    ensures said { IsSaidBy true (Made (Bytes Data0 (1 ∷ []))) }
    ensures silence { IsSaidBy true (Made Silent) }
    ensures out { IsSaidBy false (Made (Hand Ack)) }
    ensures never { IsSaidBy true (Made (Hand Ack)) → ⊥ }
{}
