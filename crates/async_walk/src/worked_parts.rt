//! Worked rows of a walk's parts, which the check computes.
ghost use Rattle.std.specs.Prelude.{◌≡◌, [], None, Some};
ghost use Rattle.usb_base.specs.declared.packets.Reply.TheVariants.{Silent};
ghost use Rattle.link_words.specs.declared.kinds.Link.TheVariants as links;
ghost use Rattle.hc_copy.specs.Samples.{bulk_in};
ghost use Rattle.async_walk.specs.declared.state.Cursor.TheVariants as cursors;
ghost use Rattle.async_walk.specs.Samples.{in_hand};
ghost use Rattle.async_walk.specs.Parts.{ring_parts, walk_from};

/// A copy in hand and its walk are got back. A cursor or a copy that isn't at a multiple of 32 is no walk's.
#[tactic(auto, unfolding(qh_qtd::specs::QueueHead::qh_words))]
pub fn parts_of_a_walk()
    ensures none { let w = record (in_hand bulk_in 5).walk { held = None } in
        walk_from (ring_parts w) Silent ≡ Some w }
    ensures cursor { walk_from (record (ring_parts (in_hand bulk_in 5).walk) { cursor = cursors.At (links.Qh 0x1048) }) Silent ≡ None }
    ensures copy { let p = ring_parts (in_hand bulk_in 5).walk in
        walk_from (record p { held = Some (record { at = 0x1048; words = []; settled = None }) }) Silent ≡ None }
{}
