//! Worked rows of the definitions, which the check computes.
ghost use Rattle.std.specs.Prelude.{◌≡◌, ℕ, true, false, [], ◌∷◌, Some, None, Ok, Err};
ghost use Rattle.drv_chains.specs.declared.boundary.Boundary.TheVariants.{Unread, Since};
ghost use Rattle.drv_table.specs.declared.content.Endpoint.{Endpoint as EndpointContent};
ghost use Rattle.drv_table.specs.Harvesting.{mends_of};
ghost use Rattle.drv_table.specs.Parts.{Parts};
ghost use Rattle.drv_table.specs.Rows.{driver_row, after_driver_row};
ghost use Rattle.drv_jobs.specs.declared.jobs.OverlayWord.TheVariants.{Next, Alternate, Token};
ghost use Rattle.drv_table.specs.declared.content.Transfer.{Transfer as TransferContent};
ghost use Rattle.drv_table.specs.declared.rows.DriverRow.TheVariants.{Harvest};
ghost use Rattle.drv_table.specs.declared.rows.Found.TheVariants.{Active, Ended};
ghost use Rattle.drv_jobs.specs.declared.jobs.Job.{Job as JobContent};
ghost use Rattle.drv_jobs.specs.declared.jobs.Job.TheVariants.{Reads, Resets, Mends, Reopens};
ghost use Rattle.drv_jobs.specs.declared.jobs.JobRow.TheVariants.{Plain, EndsRequest};
ghost use Rattle.drv_jobs.specs.Clearing.{mend_of, still_has};
ghost use Rattle.drv_jobs.specs.HubRequests.{clear_setup, cause_of};
ghost use Rattle.drv_jobs.specs.JobOffers.{offered_any, offered_clear, cleared_by, asked_hub, is_shut};
ghost use Rattle.drv_jobs.specs.Jobs.{job_row, parted, after_job_row, stage_after, stage_read};
ghost use Rattle.drv_table.specs.DriverContent.{DriverContent};
ghost use Rattle.usb_base.specs.declared.commands.Cmd.{Cmd as Command};
ghost use Rattle.usb_base.specs.declared.endpoints.EndCause.TheVariants.{Stall, Error, Babble, Miss, Cancel};
ghost use Rattle.usb_base.specs.declared.packets.EpKind.TheVariants.{Iso, Bulk, Interrupt};
ghost use Rattle.usb_base.specs.declared.packets.Speed.TheVariants.{Full, Low, High};
ghost use Rattle.usb_base.specs.declared.packets.Way.TheVariants.{In};
ghost use Rattle.usb_base.specs.declared.reports.What.TheVariants.{Done, Halt, Miss as Missed};
ghost use Rattle.usb_base.specs.declared.reports.OfferError.TheVariants.{Busy, NoEndpoint, Closed, NotEnded, HubClosed};
ghost use Rattle.word_mem.specs.Memory.{Mem};

/// The stores of a clear are those that a stalled control endpoint is owed.
pub fn words_stored()
    ensures { (x : EndpointContent) → mends_of x ≡ mend_of x Next ∷ mend_of x Alternate ∷ mend_of x Token ∷ [] }
{}

/// Without a job an event is the driver's own, and there is no job after it.
pub fn jobless_events()
    ensures { (p : Parts) → after_job_row (job_row (record { parts = p; job = None })) (record { parts = p; job = None })
        ≡ record { parts = after_driver_row (driver_row p) p; job = None } }
{}

/// The stages of a clear: the reset, three words, and the end.
pub fn stages_passed()
    ensures reset { (e : ℕ) → stage_after (Some (Resets e)) ≡ Some (Mends e Next) }
    ensures last { (e : ℕ) → stage_after (stage_after (stage_after (stage_after (Some (Resets e))))) ≡ Some (Reopens e) }
    ensures end { (e : ℕ) → stage_after (Some (Reopens e)) ≡ None }
{}

/// The request for the bulk IN endpoint 1 of device 3, on port 2 of a hub: with one translator for all ports, and with one for each.
pub fn buffers_asked_for()
    ensures one { clear_setup (record {
      name = record { addr = 3; num = 1; way = In };
      speed = Full;
      kind = Bulk;
      max = 64;
      period = 0;
      multi = 1;
      hub = Some 9;
      port = 2;
      tt = 0;
    }) ≡ 0x23 ∷ 8 ∷ 0x31 ∷ 0x90 ∷ 1 ∷ 0 ∷ 0 ∷ 0 ∷ [] }
    ensures each { clear_setup (record {
      name = record { addr = 3; num = 1; way = In };
      speed = Full;
      kind = Bulk;
      max = 64;
      period = 0;
      multi = 1;
      hub = Some 9;
      port = 2;
      tt = 2;
    }) ≡ 0x23 ∷ 8 ∷ 0x31 ∷ 0x90 ∷ 2 ∷ 0 ∷ 0 ∷ 0 ∷ [] }
{}

/// What refuses a clear: an endpoint that was never opened, one that is isochronous, cancelled or hasn't ended, a hub whose endpoint 0
/// isn't open, has ended or has a request, and a job that is under way.
pub fn clears_refused()
    ensures stranger { (d : DriverContent) (m : Mem) (e : ℕ) → offered_clear d m e None ≡ Err NoEndpoint }
    ensures iso { (d : DriverContent) (m : Mem) (e : ℕ) (x : EndpointContent)
        → offered_clear d m e (Some (record x { desc = record x.desc { kind = Iso } })) ≡ Err NoEndpoint }
    ensures cancelled { (d : DriverContent) (m : Mem) (e : ℕ) (x : EndpointContent)
        → offered_clear d m e (Some (record x { desc = record x.desc { kind = Bulk }; cancelled = true })) ≡ Err (Closed Cancel) }
    ensures open { (d : DriverContent) (m : Mem) (e : ℕ) (x : EndpointContent)
        → offered_clear d m e (Some (record x { desc = record x.desc { kind = Bulk }; cancelled = false; ended = None })) ≡ Err NotEnded }
    ensures no_hub { (d : DriverContent) (m : Mem) (e : ℕ) (x : EndpointContent)
        → asked_hub (record d { endpoints = [] }) m e x ≡ Err HubClosed }
    ensures ended { (d : DriverContent) (y : EndpointContent) (h : ℕ) → is_shut d (Some (record y { ended = Some Error })) (Some h) ≡ true }
    ensures asked { (d : DriverContent) (y : EndpointContent) (u : TransferContent)
        → is_shut (record d { transfers = record u { endpoint = 4; reported = false } ∷ [] }) (Some (record y { ended = None })) (Some 4)
        ≡ true }
    ensures idle { (d : DriverContent) (y : EndpointContent)
        → is_shut (record d { transfers = [] }) (Some (record y { ended = None })) (Some 4) ≡ false }
    ensures busy { (d : DriverContent) (m : Mem) (job : JobContent) (cmd : Command)
        → offered_any (record { driver = record d { command = None }; job = Some job }) m cmd ≡ Err Busy }
{}

/// The clear of a bulk endpoint at high speed that was halted is accepted with no store; that of an interrupt endpoint behind a hub reads
/// the frame index first.
pub fn clears_begun()
    ensures high { (d : DriverContent) (m : Mem) (x : EndpointContent) → cleared_by d m 3
        (record x { desc = record x.desc { kind = Bulk; speed = High } }) (Some Stall)
        ≡ Ok (record { driver = record { driver = d; job = Some (Resets 3) }; memory = m }) }
    ensures behind { (d : DriverContent) (m : Mem) (x : EndpointContent) → cleared_by d m 3
        (record x { desc = record x.desc { kind = Interrupt; speed = Low } }) (Some Stall)
        ≡ Ok (record { driver = record { driver = d; job = Some (Reads 3 Unread) }; memory = m }) }
{}

/// Two readings in one frame show nothing, one in the next frame shows that the frame is over.
pub fn frames_read()
    ensures first { stage_read 8 (Some (Reads 3 Unread)) ≡ Some (Reads 3 (Since 1)) }
    ensures same { stage_read 15 (Some (Reads 3 (Since 1))) ≡ Some (Reads 3 (Since 1)) }
    ensures next { stage_read 16 (Some (Reads 3 (Since 1))) ≡ Some (Resets 3) }
{}

/// Of the harvests while a hub is asked the end of the request alone is the job's.
pub fn requests_ended()
    ensures its_own { parted 7 (Harvest 2 7 (Ended 0 Done)) ≡ EndsRequest 2 7 0 Done }
    ensures active { parted 7 (Harvest 2 7 Active) ≡ Plain (Harvest 2 7 Active) }
    ensures other { parted 7 (Harvest 2 6 (Ended 0 Done)) ≡ Plain (Harvest 2 6 (Ended 0 Done)) }
    ensures passed { cause_of (Halt Babble) ≡ Babble }
    ensures missed { cause_of Missed ≡ Miss }
{}

/// A clear gives back what its endpoint still has: not a transfer of another endpoint, nor one that was given back or waits for that.
pub fn transfers_kept()
    ensures halted { (d : DriverContent) (x : TransferContent)
        → still_has (record d { harvested = 5 ∷ [] }) 3 4 (record x { endpoint = 3; reported = true; released = false }) ≡ true }
    ensures queued { (d : DriverContent) (x : TransferContent)
        → still_has (record d { harvested = [] }) 3 4 (record x { endpoint = 3; reported = false; released = false }) ≡ true }
    ensures other { (d : DriverContent) (x : TransferContent) → still_has d 3 4 (record x { endpoint = 2 }) ≡ false }
    ensures gone { (d : DriverContent) (x : TransferContent) → still_has d 3 4 (record x { endpoint = 3; released = true }) ≡ false }
    ensures waits { (d : DriverContent) (x : TransferContent)
        → still_has (record d { harvested = 4 ∷ [] }) 3 4 (record x { endpoint = 3; released = false }) ≡ false }
{}
