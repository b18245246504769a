ghost use Rattle.std.specs.Prelude.{◌≡◌, ◌&&◌, ◌%◌, IfSome};
ghost use Rattle.word_mem.specs.Memory.{reaches};
ghost use Rattle.word_mem.specs.Access.{IsByController};
ghost use Rattle.link_words.specs.Layout.{IsWordInRange};
ghost use Rattle.qh_qtd.specs.Token.{token_rows};
ghost use Rattle.qh_qtd.specs.Qtd.{IsQtdInRange};
ghost use Rattle.qh_qtd.specs.QueueHead.{IsQhInRange};
ghost use Rattle.mem_queues.specs.Structures.{qtd_at_address, qtd_was_read, queue_head_at_address, queue_head_was_read, reaches_queue_head, overlay_words, overlay_written, token_written};

use crate::blocks::{read_eight, read_twelve, write_nine};
use hc_memory::HcMemory;
use qh_qtd::{Qh, Qtd, Token};

/// The controller reads the qTD at the byte address `at`, a multiple of 32 (EHCI 1.0, 4.10.2). None: its block isn't Lent, and one more
/// refusal is counted; or one of its words has a reserved bit or value (3.5), and nothing changes.
pub fn read_qtd<M: HcMemory>(mem: &mut M, at: u32) -> Option<Qtd>
    requires { at % 32 ≡ 0 }
    ensures structure { result ≡ qtd_at_address (M.mem mem.old) at }
    ensures range { IfSome result IsQtdInRange }
    ensures memory { M.mem mem.new ≡ qtd_was_read (M.mem mem.old) at }
    ensures only_lent { IsByController (M.mem mem.old) (M.mem mem.new) }
{
    let words = read_eight(mem, at)?;
    Qtd::read(&words).ok()
}

/// The controller reads the queue head at the byte address `at`, a multiple of 32 (EHCI 1.0, 4.10.1). None: one of its two blocks isn't
/// Lent, and one more refusal is counted; or one of its words has a reserved bit or value (3.6), and nothing changes.
#[inline(always)]
pub fn read_queue_head<M: HcMemory>(mem: &mut M, at: u32) -> Option<Qh>
    requires { at % 32 ≡ 0 }
    ensures structure { result ≡ queue_head_at_address (M.mem mem.old) at }
    ensures range { IfSome result IsQhInRange }
    ensures memory { M.mem mem.new ≡ queue_head_was_read (M.mem mem.old) at }
    ensures only_lent { IsByController (M.mem mem.old) (M.mem mem.new) }
{
    let words = read_twelve(mem, at)?;
    Qh::read(&words).ok()
}

/// The controller writes words 3 to 11 of a queue head, each of whose fields is in its range, to the queue head at the byte address `at`,
/// a multiple of 32 (EHCI 1.0, 4.10.4). False: one of its two blocks isn't Lent; then the words before it are written, and one more
/// refusal is counted.
#[inline(always)]
pub fn write_overlay<M: HcMemory>(mem: &mut M, at: u32, queue_head: &Qh) -> bool
    requires aligned { at % 32 ≡ 0 }
    requires range { IsQhInRange queue_head.now }
    ensures written { result ≡ reaches_queue_head (M.mem mem.old) at }
    ensures memory { M.mem mem.new ≡ overlay_written (M.mem mem.old) at (overlay_words queue_head.now) }
    ensures only_lent { IsByController (M.mem mem.old) (M.mem mem.new) }
{
    let words = queue_head.write();
    write_nine(mem, at, &words[3..])
}

/// The controller writes the token of the qTD at the byte address `at`, a multiple of 32 (EHCI 1.0, 4.10.4). False: its block isn't Lent,
/// and one more refusal is counted.
pub fn write_token<M: HcMemory>(mem: &mut M, at: u32, token: &Token) -> bool
    requires aligned { at % 32 ≡ 0 }
    requires range { IsWordInRange token_rows token.now }
    ensures written { result ≡ reaches (M.mem mem.old) at }
    ensures memory { M.mem mem.new ≡ token_written (M.mem mem.old) at token.now }
    ensures only_lent { IsByController (M.mem mem.old) (M.mem mem.new) }
{
    mem.hc_write(at + 8, token.to_word())
}
