ghost use Rattle.std.specs.Prelude.{◌≡◌, ◌⊎◌, true, false, Some};
ghost use Rattle.image_show.specs.ImageAt.{any_fault};
ghost use Rattle.script_text.specs.Faults.{first_fault, is_image};
ghost use Rattle.app_ends.specs.Ends.{IsWriteFault, WritesNothing};
ghost use Rattle.app_forms.specs.Output.{IsAnswer};
ghost use Rattle.bus_world.specs.RunsAtWork.{IsRunOfAtWork};

use crate::form::Form;
use app_ends::Status;
use image_codec::Refusal;
use image_show::print_refusal;
use script_text::{TextWhy, print_fault};
use usb_base::Sink;

/// Refuses an input that is no script, by the line of its first fault.
pub fn refuse_script<K: Sink>(input: &[u8], line: u32, why: TextWhy, sink: &mut K) -> Status
    requires { first_fault input.now ≡ Some (line, why) }
    ensures run { IsAnswer IsRunOfAtWork Form.Run result input.now (K.written sink.old) (K.written sink.new) }
    ensures image { IsAnswer IsRunOfAtWork Form.Image result input.now (K.written sink.old) (K.written sink.new) }
    ensures check { is_image input.now ≡ false
        → IsAnswer IsRunOfAtWork Form.Check result input.now (K.written sink.old) (K.written sink.new) }
    ensures end { (result ≡ Status.Refused) ⊎ (result ≡ Status.WriteFault) }
    ensures nothing { WritesNothing result → sink.new ≡ sink.old }
    ensures fault { IsWriteFault result (K.faults sink.old) (K.faults sink.new) }
{
    match print_fault(line, why, sink) {
        Ok(()) => Status::Refused,
        Err(_) => Status::WriteFault,
    }
}

/// Refuses an input that is no image, by the line of what is wrong with it first.
pub fn refuse_image<K: Sink>(input: &[u8], refusal: Refusal, sink: &mut K) -> Status
    requires { any_fault input.now ≡ Some refusal }
    ensures dump { IsAnswer IsRunOfAtWork Form.Dump result input.now (K.written sink.old) (K.written sink.new) }
    ensures check { is_image input.now ≡ true
        → IsAnswer IsRunOfAtWork Form.Check result input.now (K.written sink.old) (K.written sink.new) }
    ensures end { (result ≡ Status.Refused) ⊎ (result ≡ Status.WriteFault) }
    ensures nothing { WritesNothing result → sink.new ≡ sink.old }
    ensures fault { IsWriteFault result (K.faults sink.old) (K.faults sink.new) }
{
    match print_refusal(refusal, sink) {
        Ok(()) => Status::Refused,
        Err(_) => Status::WriteFault,
    }
}
