//! Worked values, which the check computes.
ghost use Rattle.std.specs.Prelude.{◌≡◌, sum_by, codes};
ghost use Rattle.usb_base.specs.declared.endpoints.EpName.{EpName as Named};
ghost use Rattle.report_load.specs.Samples.{mixed};
ghost use Rattle.report_load.specs.Summary.{is_refused, is_done, is_halted, lines_of, done_bytes, summary_line};

/// What is counted of six lines: those that are done, and their bytes alone; a miss is a halt, and a cancel is neither.
pub fn six_lines()
    ensures refused { (name : Named) → lines_of is_refused (mixed name) ≡ 1 }
    ensures done { (name : Named) → lines_of is_done (mixed name) ≡ 2 }
    ensures halted { (name : Named) → lines_of is_halted (mixed name) ≡ 2 }
    ensures bytes { (name : Named) → sum_by done_bytes (mixed name) ≡ 515 }
{}

/// The line of a run in which all forty transfers are done.
pub fn all_done()
    ensures { summary_line 1 (record { refused = 0; done = 40; halted = 0; pending = 0; bytes = 102836 }) ≡ codes "load 1 endpoints 40 refused 0 done 40 halted 0 pending 0 bytes 102836\n" }
{}
