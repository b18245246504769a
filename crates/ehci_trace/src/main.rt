//! The program `ehci_trace`: its words, standard input and standard output for the top call of `app_trace_cli`.
//!
//! What it reads and writes with, and the exit status of each end, stand in `app_ends`.
#![tactic(auto)]

ghost use Rattle.std.specs.Process.{exit_status};
ghost use Rattle.app_ends.specs.Ends.{ExitsBy, IsFault, IsWriteFault};

use app_ends::{Status, StdSink, StdSource, ended, tell};
use app_trace_cli::ehci_trace;
use std::alloc::Global;
use std::process::ExitCode;
use std::rt::Env;
use std::{env, io};
use usb_base::{Sink, Source};

const USAGE: &str =
    "usage: ehci-trace [--endpoint EP] [--from N] [--to N] [--quiet] [--wait] [--pcap] [--schedule] [--progress] < SCRIPT";

const HELP: &str = "\
ehci-trace: what happens in the run of a script, a line an event

  ehci-trace < SCRIPT  runs a script and prints each event of controller and driver, with the packets
    --endpoint 3.1.in  only transactions with this endpoint, and its packets below a hub
    --from N           only from microframe N on
    --to N             only up to microframe N
    --quiet            only events that move something, or find it moved
    --wait             before each command the driver finishes the one under way
    --pcap             the packets on the high-speed bus as a capture, in the place of lines
    --schedule         where periodic endpoints stand once the run has ended, and what they cost, in the place of lines
    --progress         a line on standard error each 1,024 microframes
  ehci-trace --help    prints this text
  ehci-trace --version prints the version

Exit status: 0 all is written, 2 other words, 3 the input is refused, 4 reading failed, 5 writing failed,
6 out of memory.
";

const VERSION: &str = "ehci-trace 0.1.0\n";

/// The words behind the program's own name, or how the program ends without them.
fn words(rt: &(impl Env + AllocGlobal)) -> Result<Vec<String>, Status> {
    let args = match env::args(rt) {
        Ok(args) => args,
        Err(error) if error.kind() == io::ErrorKind::OutOfMemory => return Err(Status::Memory),
        Err(_) => return Err(Status::Words),
    };
    let mut words = Vec::new(rt.alloc());
    for word in args.skip(1) {
        if words.push(word).is_err() {
            return Err(Status::Memory);
        }
    }
    Ok(words)
}

/// What the program says of itself where its one word asks for it.
fn about(words: &[String]) -> Option<&'static str> {
    match words {
        [word] if word.as_str() == "--help" => Some(HELP),
        [word] if word.as_str() == "--version" => Some(VERSION),
        _ => None,
    }
}

/// The program on these words: what it says of itself, or its forms.
fn program<S: Source, K: Sink>(
    rt: &impl Eprint,
    alloc: Global,
    words: &[String],
    source: &mut S,
    sink: &mut K,
) -> Status
    ensures read { IsFault result (S.faults source.old) (S.faults source.new) }
    ensures write { IsWriteFault result (K.faults sink.old) (K.faults sink.new) }
{
    match about(words) {
        Some(text) => tell(text, sink),
        None => ehci_trace(rt, alloc, words, source, sink),
    }
}

/// Runs the program on these words and gives its exit status, by which a read or a write that failed is told.
fn run<S: Source, K: Sink>(
    rt: &impl Eprint,
    alloc: Global,
    words: &[String],
    source: &mut S,
    sink: &mut K,
) -> ExitCode
    ensures { ExitsBy (exit_status result) (S.faults source.old) (S.faults source.new) (K.faults sink.old) (K.faults sink.new) }
{
    let status = program(rt, alloc, words, source, sink);
    ended(rt, USAGE, status)
}

fn main(rt: HostRuntime) -> ExitCode {
    let words = match words(&rt) {
        Ok(words) => words,
        Err(status) => return ended(&rt, USAGE, status),
    };
    let mut source = StdSource::new(rt.stdin());
    let mut sink = StdSink::new(rt.stdout());
    run(&rt, rt.alloc(), words.as_slice(), &mut source, &mut sink)
}
