//! Worked slots of keys, which the check computes.
ghost use Rattle.std.specs.Prelude.{◌≡◌, [], true, false};
ghost use Rattle.usb_base.specs.declared.packets.Pid.TheVariants as Pids;
ghost use Rattle.usb_base.specs.declared.packets.Reply.TheVariants.{Silent as Nothing, Hand as Handshake};
ghost use Rattle.hub_keys.specs.Keys.{key_of};
ghost use Rattle.tt_bulk.specs.Contents.{Free};
ghost use Rattle.tt_bulk.specs.Rows.{started, completed, cleared};
ghost use Rattle.tt_bulk.specs.Worked.{in_1, in_2, in_4, of_ask, two_bytes, heard_data, pending, ready, old, both};
ghost use Rattle.tt_pipeline.specs.Worked.{three, after_more};
ghost use Rattle.tt_pipeline.specs.Working.{worked_with};
ghost use Rattle.law_translated.specs.Lift.{Empty, Asked, Hidden, There, Told};
ghost use Rattle.law_translated.specs.KeySlots.{slot_of, slot_at};
ghost use Rattle.law_translated.specs.WorkedSlots.{one_told, EachHasItsOwn, TwiceBreaks, third_in, of_start, seven, third_after, ThirdHasItsOwn, TwoEntriesBreak};

/// A repeated start changes nothing, another key takes what was told, but not where a buffer is free; two buffers with one key break it.
pub fn slots_of_buffers()
    ensures own { EachHasItsOwn }
    ensures repeats { slot_of (key_of in_1) (started in_1 two_bytes 0 one_told) ≡ Asked (of_ask in_1) }
    ensures starts { slot_of (key_of in_2) (started in_2 [] 0 one_told) ≡ Asked (of_ask in_2) }
    ensures is_full { slot_of (key_of in_4) (started in_4 [] 0 (both (pending in_1) (ready in_2))) ≡ Empty }
    ensures forgets { slot_of (key_of in_2) (started in_4 [] 0 one_told) ≡ Empty }
    ensures stays { slot_of (key_of in_1) (started in_4 [] 0 one_told) ≡ Asked (of_ask in_1) }
    ensures free_first { slot_of (key_of in_1) (started in_4 [] 0 (both (old in_1) Free)) ≡ Told (of_ask in_1) heard_data }
    ensures tells { slot_of (key_of in_2) (completed (key_of in_2) (both (pending in_1) (ready in_2))) ≡ Told (of_ask in_2) heard_data }
    ensures clears { slot_of (key_of in_1) (cleared (key_of in_1) one_told) ≡ Empty }
    ensures breaks { TwiceBreaks }
{}

/// A result is hidden until its last byte-time is worked, and goes where a frame begins; two entries of one key break it.
pub fn slots_of_entries()
    ensures own { ThirdHasItsOwn }
    ensures asked { third_after 6 1 ≡ Asked (of_start 6) }
    ensures hidden { third_after 6 2 ≡ Hidden (of_start 6) seven }
    ensures there { third_after 6 3 ≡ There (of_start 6) seven }
    ensures at_once { third_after 0 2 ≡ There (of_start 0) seven }
    ensures told { slot_at true [] (key_of third_in) (after_more 2 seven three) ≡ Told (of_start 0) seven }
    ensures silent { slot_at false [] (key_of third_in) (after_more 2 Nothing three) ≡ There (of_start 0) (Handshake Pids.Err) }
    ensures drops { slot_at false [] (key_of third_in) (worked_with 8 [] (after_more 2 seven three)) ≡ Empty }
    ensures breaks { TwoEntriesBreak }
{}
