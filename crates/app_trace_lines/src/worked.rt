//! Worked rows of the definitions, which the check computes.
ghost use Rattle.std.specs.Prelude.{◌≡◌, codes, true, false, [], ◌∷◌, ◌++◌, None, Some};
ghost use Rattle.usb_base.specs.declared.packets.Pid.TheVariants as pids;
ghost use Rattle.usb_base.specs.declared.packets.Split.TheVariants as splits;
ghost use Rattle.usb_base.specs.declared.packets.DataPart.TheVariants as parts;
ghost use Rattle.hc_core.specs.declared.controller.HcStep.TheVariants as steps;
ghost use Rattle.drv_table.specs.declared.rows.DriverRow.TheVariants as rows;
ghost use Rattle.drv_jobs.specs.declared.jobs.JobRow.TheVariants as works;
ghost use Rattle.usb_base.specs.declared.packets.Way.TheVariants.{In};
ghost use Rattle.app_trace_lines.specs.declared.entries.Happening.TheVariants as happenings;
ghost use Rattle.app_trace_lines.specs.Words.{hex};
ghost use Rattle.app_trace_lines.specs.Lines.{token_text, packet_text, moment_text, happening_text, entry_line};

/// Tokens, with the SPLIT before them.
pub fn tokens()
    ensures plain { token_text splits.Plain pids.Ping ≡ codes "ping" }
    ensures start { token_text (splits.Start 9 1 parts.Begin) pids.Out ≡ codes "start-split 9.1 begin out" }
    ensures complete { token_text (splits.Complete 9 12) pids.In ≡ codes "complete-split 9.12 in" }
{}

/// Whole lines.
pub fn lines()
    ensures began { entry_line (record { microframe = 9; frame_index = 17; happening = happenings.Began false }) [] [] ≡ codes "9 2.1 controller begin held" ++ 10 ∷ [] }
    ensures stored { entry_line (record { microframe = 0; frame_index = 0; happening = happenings.Driver (works.Plain (rows.Store 130 0x1040 0x80008d80)) (Some (0x1040, 0x80008d80)) }) [] []
        ≡ codes "0 0.0 driver store 00001040 becomes 80008d80" ++ 10 ∷ [] }
    ensures reset { entry_line (record {
      microframe = 5;
      frame_index = 4;
      happening = happenings.Driver (works.Resets (record { addr = 3; num = 1; way = In })) None;
    }) [] []
        ≡ codes "5 0.4 driver reset 3.1.in" ++ 10 ∷ [] }
    ensures fetched { entry_line (record { microframe = 1; frame_index = 1; happening = happenings.Controller steps.Fetch (Some 0x1000) None 0 5 }) [] []
        ≡ codes "1 0.1 controller fetch 00001000" ++ 10 ∷ [] }
{}
