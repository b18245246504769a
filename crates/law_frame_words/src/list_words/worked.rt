//! A worked row, which the check computes.
ghost use Rattle.std.specs.Prelude.{◌≡◌, ◌<◌, true, false};
ghost use Rattle.drv_chains.specs.declared.members.Member.TheVariants.{Each};
ghost use Rattle.drv_chains.specs.declared.members.Predecessor.TheVariants.{Element, After};
ghost use Rattle.drv_members.specs.Members.{is_linked};
ghost use Rattle.drv_periodic.specs.Periodic.{address_of};
ghost use Rattle.law_frame_words.specs.list_words.Spared.{IsItsWord};
ghost use Rattle.law_frame_words.specs.list_words.Worked.{queue, one_queue};

/// A list of one queue head needs its elements, and the link of that queue head, the first word of block 130.
pub fn one_queue_head()
    ensures linked { IsItsWord one_queue (After (Each queue)) }
    ensures last { IsItsWord one_queue (Element 1023) }
    ensures element { address_of 0 (Element 1023) ≡ 4092 }
    ensures link { address_of 0 (After (Each queue)) ≡ 4160 }
    ensures other { is_linked one_queue.members.schedule (Each (record queue { phase = 4 })) ≡ false }
{}
