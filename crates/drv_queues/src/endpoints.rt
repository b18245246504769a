ghost use Rattle.std.specs.Prelude.{◌≡◌, ◌≤◌};
ghost use Rattle.mem_runs.specs.Book.{holding, Stands};
ghost use Rattle.drv_table.specs.Accepting.{newest_of, oldest_of};
ghost use Rattle.drv_table.specs.Offers.{written_open, written_chain};

use bandwidth::Placement;
use drv_table::Endpoint;
use drv_words::{HEAD_BLOCK, inactive_qtd, new_interrupt_head, new_queue_head};
use mem_runs::RunBook;
use usb_base::EpDesc;
use word_mem::WordMem;

/// The block of the newest of these endpoints that is in the ring, or that of the head.
pub fn newest(endpoints: &[Endpoint]) -> u16
    ensures { result ≡ newest_of endpoints.now }
{
    endpoints.iter().fold(
        HEAD_BLOCK,
        |block, x| if x.linked { x.queue } else { block },
    )
}

/// The block of the oldest of these endpoints that is in the ring, or that of the head.
pub fn oldest(endpoints: &[Endpoint]) -> u16
    ensures { result ≡ oldest_of endpoints.now }
{
    for x in endpoints {
        if x.linked {
            return x.queue;
        }
    }
    HEAD_BLOCK
}

/// Writes the queue head and the dummy of a new endpoint, whose queue head leads to the one in the block `link`.
pub fn write_endpoint(
    book: &RunBook,
    mem: &mut WordMem,
    desc: &EpDesc,
    link: u16,
    queue: u16,
    dummy: u16,
)
    requires max { desc.now.max ≤ 1024 }
    requires port { desc.now.port ≤ 127 }
    requires stands { Stands (holding book.now mem.old) }
    ensures memory { mem.new ≡ written_open book.now mem.old desc.now link queue dummy }
    ensures stands { Stands (holding book.now mem.new) }
{
    let head = new_queue_head(desc, link, dummy).write();
    book.store_words(mem, queue, 32 * queue as u32, &head);
    let last = inactive_qtd().write();
    book.store_words(mem, dummy, 32 * dummy as u32, &last);
}

/// Writes the queue head and the dummy of a new interrupt endpoint, whose queue head has this link word.
pub fn write_interrupt_endpoint(
    book: &RunBook,
    mem: &mut WordMem,
    desc: &EpDesc,
    placement: &Placement,
    link: u32,
    queue: u16,
    dummy: u16,
)
    requires max { desc.now.max ≤ 1024 }
    requires port { desc.now.port ≤ 127 }
    requires multi { desc.now.multi ≤ 3 }
    requires stands { Stands (holding book.now mem.old) }
    ensures memory { mem.new ≡ written_chain book.now mem.old desc.now placement.now link queue dummy }
    ensures stands { Stands (holding book.now mem.new) }
{
    let head = new_interrupt_head(desc, placement.smask, placement.cmask, link, dummy).write();
    book.store_words(mem, queue, 32 * queue as u32, &head);
    let last = inactive_qtd().write();
    book.store_words(mem, dummy, 32 * dummy as u32, &last);
}
