ghost use Rattle.std.specs.Prelude.{◌≡◌, ◌≢◌, true, false, None};
ghost use Rattle.image_show.specs.ImageAt.{any_fault};
ghost use Rattle.script_text.specs.Faults.{first_fault, is_image};
ghost use Rattle.app_ends.specs.Ends.{IsWriteFault, WritesNothing};
ghost use Rattle.app_forms.specs.Output.{IsAnswer};
ghost use Rattle.bus_world.specs.RunsAtWork.{IsRunOfAtWork};

use crate::form::Form;
use crate::refusing::{refuse_image, refuse_script};
use app_ends::Status;
use image_codec::{ImageError, Refusal};
use image_show::decode_any;
use script_text::{TextError, is_image, parse, print_check};
use std::alloc::Global;
use usb_base::{Sink, write_all};

/// Says that the input is an image.
fn accept_image<K: Sink>(input: &[u8], sink: &mut K) -> Status
    requires image { is_image input.now ≡ true }
    requires sound { any_fault input.now ≡ None }
    ensures answer { IsAnswer IsRunOfAtWork Form.Check result input.now (K.written sink.old) (K.written sink.new) }
    ensures end { (result ≢ Status.Words) × (result ≢ Status.ReadFault) }
    ensures nothing { WritesNothing result → sink.new ≡ sink.old }
    ensures fault { IsWriteFault result (K.faults sink.old) (K.faults sink.new) }
{
    match write_all(sink, b"image ok\n") {
        Ok(()) => Status::Ok,
        Err(_) => Status::WriteFault,
    }
}

/// Checks an input that begins as an image.
fn check_image<K: Sink>(alloc: Global, input: &[u8], sink: &mut K) -> Status
    requires { is_image input.now ≡ true }
    ensures answer { IsAnswer IsRunOfAtWork Form.Check result input.now (K.written sink.old) (K.written sink.new) }
    ensures end { (result ≢ Status.Words) × (result ≢ Status.ReadFault) }
    ensures nothing { WritesNothing result → sink.new ≡ sink.old }
    ensures fault { IsWriteFault result (K.faults sink.old) (K.faults sink.new) }
{
    match decode_any(alloc, input) {
        Ok(_) => accept_image(input, sink),
        Err(ImageError::Refused { offset, why }) => {
            refuse_image(input, Refusal { offset, why }, sink)
        }
        Err(ImageError::Memory(_)) => Status::Memory,
    }
}

/// Says that the input is a script.
fn accept_script<K: Sink>(input: &[u8], sink: &mut K) -> Status
    requires text { is_image input.now ≡ false }
    requires sound { first_fault input.now ≡ None }
    ensures answer { IsAnswer IsRunOfAtWork Form.Check result input.now (K.written sink.old) (K.written sink.new) }
    ensures end { (result ≢ Status.Words) × (result ≢ Status.ReadFault) }
    ensures nothing { WritesNothing result → sink.new ≡ sink.old }
    ensures fault { IsWriteFault result (K.faults sink.old) (K.faults sink.new) }
{
    match print_check(None, sink) {
        Ok(()) => Status::Ok,
        Err(_) => Status::WriteFault,
    }
}

/// Checks an input that is a text.
fn check_script<K: Sink>(alloc: Global, input: &[u8], sink: &mut K) -> Status
    requires { is_image input.now ≡ false }
    ensures answer { IsAnswer IsRunOfAtWork Form.Check result input.now (K.written sink.old) (K.written sink.new) }
    ensures end { (result ≢ Status.Words) × (result ≢ Status.ReadFault) }
    ensures nothing { WritesNothing result → sink.new ≡ sink.old }
    ensures fault { IsWriteFault result (K.faults sink.old) (K.faults sink.new) }
{
    match parse(alloc, input) {
        Ok(_) => accept_script(input, sink),
        Err(TextError::Fault { line, why }) => refuse_script(input, line, why, sink),
        Err(TextError::Memory(_)) => Status::Memory,
    }
}

/// The form `check`: that the input is a script or an image, or what is wrong with it first.
pub fn check<K: Sink>(alloc: Global, input: &[u8], sink: &mut K) -> Status
    ensures answer { IsAnswer IsRunOfAtWork Form.Check result input.now (K.written sink.old) (K.written sink.new) }
    ensures end { (result ≢ Status.Words) × (result ≢ Status.ReadFault) }
    ensures nothing { WritesNothing result → sink.new ≡ sink.old }
    ensures fault { IsWriteFault result (K.faults sink.old) (K.faults sink.new) }
{
    if is_image(input) {
        return check_image(alloc, input, sink);
    }
    check_script(alloc, input, sink)
}
