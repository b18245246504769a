//! The run of a script, with the lines of its events.
ghost use Rattle.std.specs.Prelude.{◌≡◌, ◌≢◌, [], IfOk};
ghost use Rattle.std.specs.List.{AllByRecursion};
ghost use Rattle.script_fits.specs.Fits.{IsFit, IsFitLine, IsFitCommand};
ghost use Rattle.app_trace.specs.Traced.{Puts, Goes, IsRunOf, IsTraceOf};

use crate::choice::{Choice, Form};
use crate::host::Host;
use app_trace_lines::{Entry, Happening};
use hc_core::HcStep;
use report_schedule::{put_refusal, schedule};
use script_types::{Event, Line, Script};
use std::alloc::Global;
use usb_base::{Cmd, Memory, OfferError};

/// The most turns of one microframe.
const MOST_TURNS: u32 = 67_108_864;

/// The most events of the driver for which a command waits. The one under way has at most 255 of its own, and a store for each of 1,024
/// frames.
const MOST_WAITED: u32 = 4096;

/// A long run says that it goes on each time that so many microframes have ended.
const PROGRESS: u32 = 1024;

/// A run under way: the host, the events that are wanted, and their text so far; and what is told behind a schedule of opens that found no placement.
#[derive(Drop)]
struct Run {
    host: Host,
    choice: Choice,
    text: Vec<u8>,
    refusals: Vec<u8>,
}

fn is_begin(entry: &Entry) -> bool {
    match entry.happening {
        Happening::Began(_) => true,
        _ => false,
    }
}

fn is_end(entry: &Entry) -> bool {
    match entry.happening {
        Happening::Controller { step, .. } => step == HcStep::End,
        _ => false,
    }
}

impl Run {
    /// Appends the line of an entry, if it is wanted.
    fn put(&mut self, entry: &Entry) -> Result<(), Memory>
        ensures { IfOk result (λ _. Puts self.old.choice self.old.host self.old.text.items entry.now self.new.choice self.new.host self.new.text.items) }
    {
        self.choice.put(
            &mut self.text,
            entry,
            self.host.works(),
            self.host.passed(),
            self.host.sent(),
            self.host.got(),
        )
    }

    /// Notes what translators did below, where a microframe began.
    fn note(&mut self, entry: &Entry) -> Result<(), Memory>
        ensures host { IfOk result (λ _. self.new.host ≡ self.old.host) }
        ensures choice { IfOk result (λ _. self.new.choice ≡ self.old.choice) }
        ensures text { IfOk result (λ _. self.new.text.items ≡ self.old.text.items) }
    {
        if is_begin(entry) {
            return self.host.note_works();
        }
        Ok(())
    }

    /// One event of the controller; whether it ended the microframe.
    #[tactic(auto, using(crate::proofs::Going::goes_controlled))]
    fn controller(&mut self) -> Result<bool, Memory>
        ensures { IfOk result (λ _. Goes self.old.choice self.old.host self.old.text.items self.new.choice self.new.host self.new.text.items) }
    {
        let entry = self.host.controller_event();
        self.note(&entry)?;
        self.put(&entry)?;
        Ok(is_end(&entry))
    }

    /// One event of the driver.
    #[tactic(auto, using(crate::proofs::Going::if_driven))]
    fn driver(&mut self) -> Result<(), Memory>
        ensures { IfOk result (λ _. Goes self.old.choice self.old.host self.old.text.items self.new.choice self.new.host self.new.text.items) }
    {
        let entry = self.host.driver_event();
        self.put(&entry)
    }

    /// Notes why an open found no placement, where a schedule is wanted.
    fn note_refusal(&mut self, cmd: &Cmd, entry: &Entry) -> Result<(), Memory>
        requires { IsFitCommand cmd.now }
        ensures host { IfOk result (λ _. self.new.host ≡ self.old.host) }
        ensures choice { IfOk result (λ _. self.new.choice ≡ self.old.choice) }
        ensures text { IfOk result (λ _. self.new.text.items ≡ self.old.text.items) }
    {
        if self.choice.form != Form::Schedule {
            return Ok(());
        }
        match (cmd, &entry.happening) {
            (Cmd::OpenEp(desc), Happening::Offered(line, Some(OfferError::NoPlacement))) => {
                put_refusal(
                    &mut self.refusals,
                    *line,
                    desc,
                    self.host.endpoints(),
                    self.host.plan(),
                )
            }
            (_, _) => Ok(()),
        }
    }

    /// Lets the driver finish the command under way.
    #[tactic(auto, using(crate::proofs::Going::goes_on, crate::proofs::Going::goes_none))]
    fn wait(&mut self) -> Result<(), Memory>
        ensures { IfOk result (λ _. Goes self.old.choice self.old.host self.old.text.items
            self.new.choice self.new.host self.new.text.items) }
    {
        for _event in 0..MOST_WAITED {
            if !self.host.is_busy() {
                return Ok(());
            }
            self.driver()?;
        }
        Ok(())
    }

    /// Lets the driver finish the command under way, where that is wanted.
    #[tactic(auto, using(crate::proofs::Going::goes_none))]
    fn prepare(&mut self) -> Result<(), Memory>
        ensures { IfOk result (λ _. Goes self.old.choice self.old.host self.old.text.items
            self.new.choice self.new.host self.new.text.items) }
    {
        if self.choice.wait {
            return self.wait();
        }
        Ok(())
    }

    /// A command, once the driver is ready for it.
    #[tactic(auto, using(crate::proofs::Going::goes_on))]
    fn command(&mut self, line: u32, cmd: &Cmd) -> Result<(), Memory>
        requires { IsFitCommand cmd.now }
        ensures { IfOk result (λ _. Goes self.old.choice self.old.host self.old.text.items self.new.choice self.new.host self.new.text.items) }
    {
        self.prepare()?;
        self.offer(line, cmd)?;
        Ok(())
    }

    /// Offers a command.
    #[tactic(auto, using(crate::proofs::Going::goes_commanded))]
    fn offer(&mut self, line: u32, cmd: &Cmd) -> Result<(), Memory>
        requires { IsFitCommand cmd.now }
        ensures { IfOk result (λ _. Goes self.old.choice self.old.host self.old.text.items
            self.new.choice self.new.host self.new.text.items) }
    {
        match self.host.offer(line, cmd) {
            Some(answer) => {
                self.note_refusal(cmd, &answer)?;
                self.put(&answer)?;
                Ok(())
            }
            None => Err(Memory),
        }
    }

    /// One turn: an event of the controller, then one of the driver. Whether the first ended the microframe.
    #[tactic(auto, using(crate::proofs::Going::goes_on, crate::proofs::Going::goes_none))]
    fn turn(&mut self) -> Result<bool, Memory>
        ensures { IfOk result (λ _. Goes self.old.choice self.old.host self.old.text.items self.new.choice self.new.host self.new.text.items) }
    {
        let ended = self.controller()?;
        self.driver()?;
        Ok(ended)
    }

    /// Turns until the microframe has ended; false where it hasn't after the most turns.
    #[tactic(auto, using(crate::proofs::Going::goes_on, crate::proofs::Going::goes_none))]
    fn microframe(&mut self) -> Result<bool, Memory>
        ensures { IfOk result (λ _. Goes self.old.choice self.old.host self.old.text.items self.new.choice self.new.host self.new.text.items) }
    {
        for _turn in 0..MOST_TURNS {
            if self.turn()? {
                return Ok(true);
            }
        }
        Ok(false)
    }

    /// Says on standard error that a long run goes on, where that is wanted. Where that fails, the run goes on all the same.
    fn tell_progress(&self, rt: &impl Eprint) {
        let microframe = self.host.microframe();
        if self.choice.progress && microframe % PROGRESS == 0 {
            let _told = eprintln!(rt; "microframe {microframe}");
        }
    }

    /// So many microframes; false where one of them doesn't end.
    #[tactic(auto, using(crate::proofs::Going::goes_on, crate::proofs::Going::goes_none))]
    fn microframes(&mut self, rt: &impl Eprint, count: u32) -> Result<bool, Memory>
        ensures { IfOk result (λ _. Goes self.old.choice self.old.host self.old.text.items self.new.choice self.new.host self.new.text.items) }
    {
        for _microframe in 0..count {
            if !self.microframe()? {
                return Ok(false);
            }
            self.tell_progress(rt);
        }
        Ok(true)
    }

    /// One event of a kind.
    fn event(&mut self, event: Event) -> Result<(), Memory>
        ensures { IfOk result (λ _. Goes self.old.choice self.old.host self.old.text.items self.new.choice self.new.host self.new.text.items) }
    {
        match event {
            Event::D => self.driver(),
            Event::C => {
                self.controller()?;
                Ok(())
            }
        }
    }

    /// So many events of a kind.
    #[tactic(auto, using(crate::proofs::Going::goes_on, crate::proofs::Going::goes_none))]
    fn events(&mut self, event: Event, count: u32) -> Result<(), Memory>
        ensures { IfOk result (λ _. Goes self.old.choice self.old.host self.old.text.items self.new.choice self.new.host self.new.text.items) }
    {
        for _event in 0..count {
            self.event(event)?;
        }
        Ok(())
    }

    /// One action line; false where a microframe of it doesn't end.
    #[tactic(auto, using(crate::proofs::Going::goes_on, crate::proofs::Going::goes_none))]
    fn line(&mut self, rt: &impl Eprint, number: u32, line: &Line) -> Result<bool, Memory>
        requires { IsFitLine line.now }
        ensures { IfOk result (λ _. Goes self.old.choice self.old.host self.old.text.items self.new.choice self.new.host self.new.text.items) }
    {
        match line {
            Line::Order(event, count) => {
                self.events(*event, *count)?;
                Ok(true)
            }
            Line::Micro(count) => self.microframes(rt, *count),
            Line::Command(cmd) => {
                self.command(number, cmd)?;
                Ok(true)
            }
            Line::Plug(_) | Line::Unplug(_) => Ok(true),
        }
    }

    /// The action lines, in their order.
    #[tactic(auto, using(crate::proofs::Going::goes_on, crate::proofs::Going::goes_none))]
    fn lines(&mut self, rt: &impl Eprint, lines: &[(u32, Line)]) -> Result<(), Memory>
        requires { AllByRecursion (λ x. IsFitLine x.1) lines.now }
        ensures { IfOk result (λ _. Goes self.old.choice self.old.host self.old.text.items self.new.choice self.new.host self.new.text.items) }
    {
        for entry in lines {
            if !self.line(rt, entry.0, &entry.1)? {
                return Ok(());
            }
        }
        Ok(())
    }
}

/// The run of a script, up to its end.
fn run_of(rt: &impl Eprint, alloc: Global, script: &Script, choice: &Choice) -> Result<Run, Memory>
    requires { IsFit script.now }
    ensures { IfOk result (λ run. IsRunOf script.now choice.now run.text.items) }
{
    let mut run = Run {
        host: Host::build(alloc, script)?,
        choice: *choice,
        text: Vec::new(alloc),
        refusals: Vec::new(alloc),
    };
    run.lines(rt, script.lines.as_slice())?;
    Ok(run)
}

/// What comes last: the schedule with the opens that found no placement, where it is wanted.
fn end_of(alloc: Global, run: &Run, form: Form) -> Result<Vec<u8>, Memory>
    ensures { IfOk result (λ end. form ≢ Form.Schedule → end.items ≡ []) }
{
    match form {
        Form::Schedule => {
            let mut text = schedule(alloc, run.host.endpoints(), run.host.plan())?;
            text.extend_from_slice(run.refusals.as_slice())?;
            Ok(text)
        }
        Form::Lines | Form::Capture => Ok(Vec::new(alloc)),
    }
}

/// Runs a script, and gives what is told of the events that are wanted. A microframe that doesn't end within 67,108,864 turns ends the run.
///
/// # Errors
///
/// `Memory` where the host or the text finds no room.
pub fn trace(
    rt: &impl Eprint,
    alloc: Global,
    script: &Script,
    choice: &Choice,
) -> Result<Vec<u8>, Memory>
    requires { IsFit script.now }
    ensures { IfOk result (λ text. IsTraceOf script.now choice.now text.items) }
{
    let mut text = choice.head(alloc)?;
    let run = run_of(rt, alloc, script, choice)?;
    let end = end_of(alloc, &run, choice.form)?;
    text.extend_from_slice(run.text.as_slice())?;
    text.extend_from_slice(end.as_slice())?;
    Ok(text)
}
