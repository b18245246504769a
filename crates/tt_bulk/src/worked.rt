//! Worked rows of the table, which the check computes.
ghost use Rattle.std.specs.Prelude.{◌≡◌, true, false, [], ◌∷◌};
ghost use Rattle.usb_base.specs.declared.packets.Pid.TheVariants as Packets;
ghost use Rattle.usb_base.specs.declared.packets.Reply.TheVariants as Replies;
ghost use Rattle.usb_base.specs.declared.packets.Speed.TheVariants.{Low};
ghost use Rattle.hub_keys.specs.Keys.{key_of};
ghost use Rattle.tt_bulk.specs.declared.answers.Answer.TheVariants as Answers;
ghost use Rattle.tt_bulk.specs.declared.rows.BufferIndex.TheVariants.{First, Second};
ghost use Rattle.tt_bulk.specs.Answers.{result_of};
ghost use Rattle.tt_bulk.specs.Contents.{Free, Pending, Ready, opening};
ghost use Rattle.tt_bulk.specs.Rows.{start_answer, started, complete_answer, completed, cleared};
ghost use Rattle.tt_bulk.specs.Work.{Tries, Rests, due, turn_of, earlier_turn, later_turn, worked, silent_after};
ghost use Rattle.tt_bulk.specs.Worked.{in_1, in_2, in_4, control_out, control_in, of_ask, two_bytes, heard_data, pending, ready, old, both};

/// A start is taken once: its repeats change nothing until its result was given.
pub fn repeated_starts()
    ensures taken { started in_1 [] 0 opening ≡ record (both (pending in_1) Free) { latest = First } }
    ensures taken_ack { start_answer in_1 opening ≡ Replies.Hand Packets.Ack }
    ensures pending_stays { started in_1 two_bytes 0 (both (pending in_1) (old in_2)) ≡ both (pending in_1) (old in_2) }
    ensures pending_ack { start_answer in_1 (both (pending in_1) (old in_2)) ≡ Replies.Hand Packets.Ack }
    ensures ready_stays { started in_1 [] 0 (both Free (ready in_1)) ≡ both Free (ready in_1) }
    ensures ready_ack { start_answer in_1 (both Free (ready in_1)) ≡ Replies.Hand Packets.Ack }
    ensures old_starts_again { started in_1 [] 0 (both Free (old in_1)) ≡ both Free (pending in_1) }
    ensures old_ack { start_answer in_1 (both Free (old in_1)) ≡ Replies.Hand Packets.Ack }
{}

/// A new key goes into a Free buffer, else into an Old one of another key, else nowhere.
pub fn new_keys()
    ensures free_first { started in_4 [] 0 (both (old in_1) Free) ≡ both (old in_1) (pending in_4) }
    ensures first_free { started in_4 [] 0 (both Free Free) ≡ record (both (pending in_4) Free) { latest = First } }
    ensures old_else { started in_4 [] 0 (both (ready in_1) (old in_2)) ≡ both (ready in_1) (pending in_4) }
    ensures first_old { started in_4 [] 0 (both (old in_1) (old in_2)) ≡ record (both (pending in_4) (old in_2)) { latest = First } }
    ensures full_stays { started in_4 [] 0 (both (pending in_1) (ready in_2)) ≡ both (pending in_1) (ready in_2) }
    ensures full_nak { start_answer in_4 (both (pending in_1) (ready in_2)) ≡ Replies.Hand Packets.Nak }
    ensures other_way { start_answer control_in (both (pending control_out) (ready in_2)) ≡ Replies.Hand Packets.Nak }
{}

/// A complete-split is answered NYET, then the result, as often as it is asked, and nothing where the key is unknown.
pub fn complete_splits()
    ensures waits { complete_answer (key_of in_1) (both (pending in_1) (old in_2)) ≡ Replies.Hand Packets.Nyet }
    ensures waits_on { completed (key_of in_1) (both (pending in_1) (old in_2)) ≡ both (pending in_1) (old in_2) }
    ensures gives { complete_answer (key_of in_2) (both (pending in_1) (ready in_2)) ≡ heard_data }
    ensures gives_once { completed (key_of in_2) (both (pending in_1) (ready in_2)) ≡ both (pending in_1) (old in_2) }
    ensures gives_again { complete_answer (key_of in_2) (both (pending in_1) (old in_2)) ≡ heard_data }
    ensures stays { completed (key_of in_2) (both (pending in_1) (old in_2)) ≡ both (pending in_1) (old in_2) }
    ensures unknown { complete_answer (key_of in_4) (both (pending in_1) (ready in_2)) ≡ Replies.Silent }
    ensures free { complete_answer (key_of in_4) (both Free Free) ≡ Replies.Silent }
{}

/// One attempt a buffer, in the order of taking, where it fits the room; the third silence is a STALL.
pub fn work_of_a_microframe()
    ensures tries { turn_of 77 (pending in_1) ≡ Tries (of_ask in_1) }
    ensures too_long { turn_of 76 (pending in_1) ≡ Rests }
    ensures heard { worked 188 heard_data Replies.Silent (both (pending in_1) Free) ≡ both (ready in_1) Free }
    ensures nak { worked 188 (Replies.Hand Packets.Nak) Replies.Silent (both (pending in_1) Free) ≡ both (Ready (of_ask in_1) Answers.Nak) Free }
    ensures no_answer { worked 188 (Replies.Hand Packets.Nyet) Replies.Silent (both (pending in_1) Free) ≡ both (Pending (of_ask in_1) 1) Free }
    ensures first_silence { silent_after (pending in_1) ≡ Pending (of_ask in_1) 1 }
    ensures second_silence { silent_after (Pending (of_ask in_1) 1) ≡ Pending (of_ask in_1) 2 }
    ensures third_silence { silent_after (Pending (of_ask in_1) 2) ≡ Ready (of_ask in_1) Answers.Stall }
    ensures oldest_first { earlier_turn 100 (record (both (pending in_1) (pending in_2)) { latest = First }) ≡ Tries (of_ask in_2) }
    ensures no_room_left { later_turn 100 (both (pending in_1) (pending in_2)) ≡ Rests }
    ensures room_left { later_turn 154 (both (pending in_1) (pending in_2)) ≡ Tries (of_ask in_2) }
    ensures the_other_fits { later_turn 20 (both (pending in_1) (pending control_out)) ≡ Tries (of_ask control_out) }
    ensures ready_rests { turn_of 188 (ready in_1) ≡ Rests }
{}

/// A clear frees the buffer of its key, and both of a control endpoint.
pub fn clears()
    ensures own { cleared (key_of in_1) (both (old in_1) (ready in_2)) ≡ both Free (ready in_2) }
    ensures pending { cleared (key_of in_2) (both (old in_1) (pending in_2)) ≡ both (old in_1) Free }
    ensures none { cleared (key_of in_4) (both (old in_1) (ready in_2)) ≡ both (old in_1) (ready in_2) }
    ensures control { cleared (key_of control_out) (both (old control_in) (pending control_out)) ≡ both Free Free }
    ensures control_by_in { cleared (key_of control_in) (both (old control_in) (pending control_out)) ≡ both Free Free }
{}

/// Without a clear an old result comes back after a new start is worked on; with one it doesn't.
pub fn old_bytes_come_back()
    ensures again { complete_answer (key_of in_1) (both (old in_1) Free) ≡ heard_data }
    ensures cleared_first { complete_answer (key_of in_1) (started in_1 [] 0 (cleared (key_of in_1) (both (ready in_1) Free))) ≡ Replies.Hand Packets.Nyet }
    ensures not_cleared { complete_answer (key_of in_1) (started in_1 [] 0 (both (ready in_1) Free)) ≡ heard_data }
{}

/// Stuffed bits take byte-times, as far as a microframe goes: a packet is tried in one of its own at the latest.
pub fn stuffed_packets()
    ensures plain { due (of_ask in_1) ≡ 77 }
    ensures longest { due (record (of_ask in_1) { stuff = 6 }) ≡ 89 }
    ensures taken { started in_1 [] 6 opening ≡ record (both (Pending (record (of_ask in_1) { stuff = 6 }) 0) Free) { latest = First } }
    ensures fits { turn_of 89 (Pending (record (of_ask in_1) { stuff = 6 }) 0) ≡ Tries (record (of_ask in_1) { stuff = 6 }) }
    ensures too_long { turn_of 88 (Pending (record (of_ask in_1) { stuff = 6 }) 0) ≡ Rests }
    ensures whole_microframe { due (record (of_ask in_1) { ask = record in_1 { speed = Low; limit = 8 }; stuff = 6 }) ≡ 188 }
{}
