ghost use Rattle.hc_core.specs.Controller.{content, microframe_row, kind_of, HasRow};
ghost use Rattle.example_ring.specs.Runs.{EventIsTold, StaysUnderWay, made_by, AllAreMade, EventsFollow};
ghost use Rattle.std.specs.Prelude.{◌≡◌, ◌≤◌, ◌⊎◌, ◌↔◌, false};

use hc_core::{Controller, HcStep};
use op_registers::Registers;
use usb_base::Wire;
use word_mem::WordMem;

/// Makes one event of the controller, and answers its kind. Over a ring whose queue heads are sound it is one transaction of one endpoint, or
/// begins a microframe, or asks nothing; it is never idle nor the fault. An idle one changes nothing.
pub fn event<W: Wire>(
    controller: &mut Controller,
    regs: &mut Registers,
    mem: &mut WordMem,
    wire: &mut W,
) -> HcStep
    ensures kind { result ≡ kind_of (microframe_row regs.old controller.old) (content controller.old regs.old mem.old) }
    ensures halted { (result ≡ HcStep.Idle) ↔ (regs.old.run ≡ false) }
    ensures row { HasRow W.begins W.transacts (microframe_row regs.old controller.old) (content controller.old regs.old mem.old) wire.old (content controller.new regs.new mem.new) wire.new }
    ensures idle { result ≡ HcStep.Idle → (content controller.new regs.new mem.new ≡ content controller.old regs.old mem.old) × (wire.new ≡ wire.old) }
    ensures told { EventIsTold W.begins W.transacts (content controller.old regs.old mem.old) wire.old (content controller.new regs.new mem.new) wire.new }
    ensures under_way { StaysUnderWay W.transacts (content controller.old regs.old mem.old) (content controller.new regs.new mem.new) }
    ensures going { AllAreMade W.transacts (content controller.old regs.old mem.old) 1 (made_by result) }
{
    controller.step(regs, mem, wire)
}

/// Makes so many events of the controller, or as many as there are while Run is 1, and answers how many it made: over a ring all of them.
pub fn run<W: Wire>(
    events: u64,
    controller: &mut Controller,
    regs: &mut Registers,
    mem: &mut WordMem,
    wire: &mut W,
) -> u64
    ensures most { result ≤ events }
    ensures stops { (result ≡ events) ⊎ (regs.new.run ≡ false) }
    ensures made { EventsFollow W.begins W.transacts (content controller.old regs.old mem.old) wire.old result (content controller.new regs.new mem.new) wire.new }
    ensures under_way { StaysUnderWay W.transacts (content controller.old regs.old mem.old) (content controller.new regs.new mem.new) }
    ensures going { AllAreMade W.transacts (content controller.old regs.old mem.old) events result }
{
    for made in 0..events {
        match event(controller, regs, mem, wire) {
            HcStep::Idle => return made,
            _ => {}
        }
    }
    events
}
