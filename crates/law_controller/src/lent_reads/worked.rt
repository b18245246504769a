//! Worked rows, which the check computes.
ghost use Rattle.std.specs.Prelude.{◌≡◌, None, true, false};
ghost use Rattle.word_mem.specs.Memory.{reaches};
ghost use Rattle.mem_queues.specs.Structures.{queue_head_at_address, queue_head_was_read};
ghost use Rattle.law_controller.specs.lent_reads.Samples.{sevens, eights};

/// Two memories differ in a block of the driver's: a queue head that would lie in both blocks is read from neither, and its reading is refused once.
pub fn the_second_block_is_not_read()
    ensures lent { reaches sevens 0 ≡ true }
    ensures kept { reaches sevens 32 ≡ false }
    ensures one { queue_head_at_address sevens 0 ≡ None }
    ensures other { queue_head_at_address eights 0 ≡ None }
    ensures counted { (queue_head_was_read eights 0).foreign ≡ 1 }
{}
