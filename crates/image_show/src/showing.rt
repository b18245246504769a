ghost use Rattle.std.specs.Prelude.{◌≡◌, ℕ, ◌≤◌, ◌/◌, length, replicate, IfOk, IfErr, OnOk, OnErr};
ghost use Rattle.std.specs.Io.KnownBytes.{Appends};
ghost use Rattle.usb_base.specs.Outside.{AppendsPrefix, Prints, one_more};
ghost use Rattle.image_show.specs.ImageAt.{IsAlignedAt};
ghost use Rattle.image_show.specs.Marks.{AreMarks};
ghost use Rattle.image_show.specs.Shown.{seen_before, shown, units};
ghost use Rattle.image_show.specs.Text.{refusal_line};
ghost use Rattle.image_show.specs.Show.{OnFailed, OnMemory};

use crate::failure::ShowError;
use crate::frames::{put_frames, put_ring};
use crate::image_at::ImageAt;
use crate::lines::{line_of_header, line_of_refusal};
use image_codec::{Page, Refusal};
use std::alloc::Global;
use usb_base::{Failed, Memory, Sink, write_all};

/// The mark of a unit that no queue has marked: it is the place of no queue head.
const NO_HEAD: u32 = 1;

/// Writes the text that shows an image whose fields and number of words keep their ranges and alignments: its lists of
/// structures, as the words have them. All memory is taken before the first write. `Failed` comes only where the sink's
/// count of faults rose, with a front part of the text written; `Memory` comes with nothing written.
pub fn show<K: Sink>(alloc: Global, image: &ImageAt, sink: &mut K) -> Result<(), ShowError>
    requires { IsAlignedAt image.now }
    ensures ok { OnOk result (Appends (K.written sink.old) (K.written sink.new) (shown image.now)) }
    ensures written { IfErr result (λ e. OnFailed e (AppendsPrefix (K.written sink.old) (K.written sink.new) (shown image.now))) }
    ensures stays { OnOk result (K.faults sink.new ≡ K.faults sink.old) }
    ensures rises { IfErr result (λ e. OnFailed e (K.faults sink.new ≡ one_more (K.faults sink.old))) }
    ensures memory { IfErr result (λ e. OnMemory e (sink.new ≡ sink.old)) }
    ensures counted { K.faults sink.old ≤ K.faults sink.new }
{
    let units = image.words.as_slice().len() / 8;
    let mut lists = match marks_of(alloc, units, 0) {
        Ok(lists) => lists,
        Err(memory) => return Err(ShowError::Memory(memory)),
    };
    let mut queues = match marks_of(alloc, units, NO_HEAD) {
        Ok(queues) => queues,
        Err(memory) => return Err(ShowError::Memory(memory)),
    };
    match put_image(sink, image, &mut lists, &mut queues) {
        Ok(()) => Ok(()),
        Err(failed) => Err(ShowError::Failed(failed)),
    }
}

/// Writes the line that says why bytes are no image, `offset <n>: <why>`. It takes no memory. `Failed` comes only where
/// the sink's count of faults rose, with a front part of the line written.
pub fn print_refusal<K: Sink>(refusal: Refusal, sink: &mut K) -> Result<(), Failed>
    ensures { Prints K.written K.faults sink.old sink.new result (refusal_line refusal) }
{
    write_all(sink, line_of_refusal(refusal).as_slice())
}

fn marks_of(alloc: Global, units: usize, mark: u32) -> Result<Vec<u32>, Memory>
    ensures { IfOk result (λ marks. marks.items ≡ replicate units mark) }
{
    let marks = vec![in alloc; mark; units]?;
    Ok(marks)
}

fn put_image<K: Sink>(
    sink: &mut K,
    image: &ImageAt,
    lists: &mut [u32],
    queues: &mut [u32],
) -> Result<(), Failed>
    requires image { IsAlignedAt image.now }
    requires lists { lists.old ≡ replicate (units image.now.words) 0 }
    requires queues { queues.old ≡ replicate (units image.now.words) 1 }
    ensures { Prints K.written K.faults sink.old sink.new result (shown image.now) }
{
    let mut page = Page::new();
    page.put(sink, line_of_header(image).as_slice())?;
    put_frames(&mut page, sink, image, lists, queues)?;
    put_ring(&mut page, sink, image, lists, queues)?;
    page.flush(sink)
}
