ghost use Rattle.std.specs.Prelude.{◌≡◌, ◌≢◌, None};
ghost use Rattle.image_show.specs.ImageAt.{any_fault, any_image, IsAlignedAt};
ghost use Rattle.app_ends.specs.Ends.{IsWriteFault, WritesNothing};
ghost use Rattle.app_forms.specs.Output.{IsAnswer};
ghost use Rattle.bus_world.specs.RunsAtWork.{IsRunOfAtWork};

use crate::form::Form;
use crate::refusing::refuse_image;
use app_ends::Status;
use image_codec::{ImageError, Refusal};
use image_show::{ImageAt, ShowError, decode_any, show};
use std::alloc::Global;
use usb_base::Sink;

/// Shows the image that the input is.
fn show_image<K: Sink>(alloc: Global, input: &[u8], image: &ImageAt, sink: &mut K) -> Status
    requires sound { any_fault input.now ≡ None }
    requires image { image.now ≡ any_image input.now }
    requires aligned { IsAlignedAt image.now }
    ensures answer { IsAnswer IsRunOfAtWork Form.Dump result input.now (K.written sink.old) (K.written sink.new) }
    ensures end { (result ≢ Status.Words) × (result ≢ Status.ReadFault) × (result ≢ Status.Refused) }
    ensures nothing { WritesNothing result → sink.new ≡ sink.old }
    ensures fault { IsWriteFault result (K.faults sink.old) (K.faults sink.new) }
{
    match show(alloc, image, sink) {
        Ok(()) => Status::Ok,
        Err(ShowError::Failed(_)) => Status::WriteFault,
        Err(ShowError::Memory(_)) => Status::Memory,
    }
}

/// The form `dump`: the text that shows the image that the input is, or its refusal. All memory is taken before the
/// first write.
pub fn dump<K: Sink>(alloc: Global, input: &[u8], sink: &mut K) -> Status
    ensures answer { IsAnswer IsRunOfAtWork Form.Dump result input.now (K.written sink.old) (K.written sink.new) }
    ensures end { (result ≢ Status.Words) × (result ≢ Status.ReadFault) }
    ensures nothing { WritesNothing result → sink.new ≡ sink.old }
    ensures fault { IsWriteFault result (K.faults sink.old) (K.faults sink.new) }
{
    match decode_any(alloc, input) {
        Ok(image) => show_image(alloc, input, &image, sink),
        Err(ImageError::Refused { offset, why }) => {
            refuse_image(input, Refusal { offset, why }, sink)
        }
        Err(ImageError::Memory(_)) => Status::Memory,
    }
}
