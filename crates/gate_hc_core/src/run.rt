use crate::cases::{Act, Case};
use crate::ring::{halted, memory};
use crate::wire::SilentWire;
use hc_core::{Controller, HcStep};
use op_registers::Registers;
use std::alloc::{AllocError, Global};
use word_mem::WordMem;

fn letter(step: HcStep) -> &'static str {
    match step {
        HcStep::Begin => "B",
        HcStep::Fetch => "F",
        HcStep::Advance => "A",
        HcStep::Transact => "T",
        HcStep::WriteBack => "W",
        HcStep::Skip => "S",
        HcStep::End => "E",
        HcStep::Idle => "I",
    }
}

/// What a row gives: the letters of its events with the address in hand after each run of them, and what stands at the end.
pub(crate) fn describe(alloc: Global, case: &Case) -> Result<String, AllocError> {
    let Ok(mut mem) = memory(alloc, case) else {
        return format!(in alloc; "no memory");
    };
    let mut regs = halted();
    let mut wire = SilentWire {
        allows: true,
        asked: 0,
    };
    let mut controller = Controller::new();
    let mut text = format!(in alloc; "{}:", case.name)?;
    for act in case.acts {
        match act {
            Act::Step(events) => {
                text.push_str(" ")?;
                for _event in 0..*events {
                    text.push_str(letter(controller.step(&mut regs, &mut mem, &mut wire)))?;
                }
                let held = format!(in alloc; " {:x}", controller.held().unwrap_or(0))?;
                text.push_str(held.as_str())?;
            }
            Act::Command(word) => {
                regs.driver_write(0x00, *word);
            }
            Act::List(word) => {
                regs.driver_write(0x14, *word);
            }
            Act::Allow(allows) => wire.allows = *allows,
        }
    }
    text.push_str(ends(alloc, &regs, &mem, &wire)?.as_str())?;
    Ok(text)
}

fn ends(
    alloc: Global,
    regs: &Registers,
    mem: &WordMem,
    wire: &SilentWire,
) -> Result<String, AllocError> {
    format!(in alloc;
        ", status {:x}, microframe {}, {} asked, {} refused",
        regs.driver_read(4).unwrap_or(0),
        regs.frame_index(),
        wire.asked,
        mem.foreign()
    )
}
