//! Worked rows of accepted commands, which the check computes.
ghost use Rattle.std.specs.Prelude.{◌≡◌, true, false, slice_get, Some, None};
ghost use Rattle.usb_base.specs.declared.endpoints.EndCause.TheVariants as causes;
ghost use Rattle.usb_base.specs.declared.packets.EpKind.TheVariants as kinds;
ghost use Rattle.usb_base.specs.declared.packets.Speed.TheVariants as speeds;
ghost use Rattle.drv_table.specs.declared.content.Command.TheVariants as unfinished;
ghost use Rattle.drv_table.specs.Offers.{accepted_open};
ghost use Rattle.law_driver.specs.run_owners.Worked.{interrupt, busy_driver};
ghost use Rattle.law_driver.specs.queued_drivers.Queued.{queued_desc, queued};
ghost use Rattle.law_driver.specs.queued_drivers.CommandsWorked.{keyboard, camera, busy_holding, opened_keyboard, opened_camera, second, left_interrupt, left_isochronous};

/// An interrupt endpoint is opened: the queues have one more in the ring, a bulk one at high speed, and are to link it there. What the driver of the queues alone
/// would make of it is the same.
pub fn an_interrupt_endpoint_is_opened()
    ensures linking { opened_keyboard.command ≡ Some unfinished.Chain }
    ensures command { (queued opened_keyboard).command ≡ Some (unfinished.Open 160) }
    ensures endpoint { slice_get (queued opened_keyboard).endpoints 3
        ≡ Some (record {
          desc = record keyboard { kind = kinds.Bulk; speed = speeds.High };
          placement = None;
          queue = 160;
          dummy = 162;
          next = None;
          ended = None;
          cancelled = false;
          linked = true;
          chained = false;
          gone = false;
        }) }
    ensures alike { (queued opened_keyboard).endpoints ≡ (accepted_open (queued busy_driver) (queued_desc keyboard) busy_holding 160 162).driver.endpoints }
{}

/// An isochronous endpoint is opened: the queues have one more that was given back, and nothing is to be done.
pub fn an_isochronous_endpoint_is_opened()
    ensures command { (queued opened_camera).command ≡ None }
    ensures gone { slice_get (queued opened_camera).endpoints 3
        ≡ Some (record {
          desc = record camera { kind = kinds.Bulk; speed = speeds.High };
          placement = None;
          queue = 0;
          dummy = 0;
          next = None;
          ended = Some causes.Cancel;
          cancelled = true;
          linked = false;
          chained = false;
          gone = true;
        }) }
{}

/// An interrupt endpoint is cancelled: it has ended, and stands in the ring until it is given back; nothing is to be unlinked there. Of an isochronous one nothing is
/// seen.
pub fn endpoints_of_frames_are_cancelled()
    ensures command { (queued left_interrupt).command ≡ None }
    ensures endpoint { slice_get (queued left_interrupt).endpoints 1
        ≡ Some (record second {
          desc = record interrupt { kind = kinds.Bulk; speed = speeds.High };
          placement = None;
          ended = Some causes.Cancel;
          cancelled = true;
          linked = true;
          chained = false;
        }) }
    ensures nothing { (queued left_isochronous).endpoints ≡ (queued busy_driver).endpoints }
    ensures idle { (queued left_isochronous).command ≡ None }
{}
