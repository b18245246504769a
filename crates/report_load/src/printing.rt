//! Writing the line of a summary.
ghost use Rattle.std.specs.Prelude.{◌≡◌};
ghost use Rattle.usb_base.specs.Outside.{Prints};
ghost use Rattle.report_load.specs.Summary.{summary_line};

use crate::summary::Summary;
use crate::text::Line;
use usb_base::{Failed, Sink, write_all};

/// The line of a summary.
fn line_of(n: u32, summary: &Summary) -> Line
    ensures { result ≡ summary_line n summary.now }
{
    let mut line = Line::new();
    line.put_count("load ", n as u128);
    line.put_count(" endpoints 40 refused ", summary.refused as u128);
    line.put_count(" done ", summary.done as u128);
    line.put_count(" halted ", summary.halted as u128);
    line.put_count(" pending ", summary.pending);
    line.put_count(" bytes ", summary.bytes);
    line.put("\n");
    line
}

/// Writes the line `load <n> endpoints 40 refused <r> done <d> halted <h> pending <p> bytes <b>` of the load script of n. `Failed` comes
/// only where the sink's count of faults rose, with a front part of the line written. It takes no memory.
pub fn print_summary<K: Sink>(n: u32, summary: &Summary, sink: &mut K) -> Result<(), Failed>
    ensures { Prints K.written K.faults sink.old sink.new result (summary_line n summary.now) }
{
    write_all(sink, line_of(n, summary).as_bytes())
}
