ghost use Rattle.std.specs.Prelude.{◌≡◌, Ok};
ghost use Rattle.usb_base.specs.declared.commands.Cmd.{Cmd};
ghost use Rattle.word_mem.specs.Memory.{Mem};
ghost use Rattle.drv_table.specs.DriverContent.{DriverContent};
ghost use Rattle.drv_table.specs.Accepting.{Offered};
ghost use Rattle.drv_table.specs.Offers.{offered};
ghost use Rattle.law_driver.specs.run_owners.Accepts.{Chains, Transfers, Describes};
ghost use Rattle.law_frame_list.specs.list_opens.Kept.{KeepsList};

/// The accepted open of an interrupt endpoint: its queue head is written with the link that it will have, and its linking begins.
pub fn opens_of_interrupt_endpoints_keep_it_standing()
    ensures { (d : DriverContent) → (m : Mem) → (o : Offered) → Chains d m o → KeepsList d m o }
{}

/// An accepted transfer or request: its qTDs and the bytes that it sends.
pub fn transfers_keep_it_standing()
    ensures { (d : DriverContent) → (m : Mem) → (o : Offered) → Transfers d m o → KeepsList d m o }
{}

/// Accepted isochronous descriptors, and the bytes that they send.
pub fn descriptors_keep_it_standing()
    ensures { (d : DriverContent) → (m : Mem) → (o : Offered) → Describes d m o → KeepsList d m o }
{}

/// Any accepted command.
pub fn commands_keep_it_standing()
    ensures { (d : DriverContent) → (m : Mem) → (cmd : Cmd) → (o : Offered) → offered d m cmd ≡ Ok o → KeepsList d m o }
{}
