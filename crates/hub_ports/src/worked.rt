//! Worked rows of the tables, which the check computes.
ghost use Rattle.std.specs.Prelude.{◌≡◌, List, [], ◌∷◌, None, Some, true, false};
ghost use Rattle.usb_base.specs.declared.packets.Dir.TheVariants as Directions;
ghost use Rattle.usb_base.specs.declared.packets.EpKind.TheVariants.{Control, Bulk};
ghost use Rattle.hub_ports.specs.declared.rows.HubReply.TheVariants as Replies;
ghost use Rattle.hub_ports.specs.declared.rows.HubRequest.TheVariants.{HubStatus, PortStatus, ChangePort, ClearBuffer, ResetTranslator};
ghost use Rattle.hub_ports.specs.declared.rows.PortChange.TheVariants.{PowerOn, Reset, Disable, PowerOff, ForgetConnection, ForgetEnable, ForgetReset};
ghost use Rattle.hub_ports.specs.Ports.{opened_port, changed_port, status_bytes, is_enabled, ports_changed, reply_of};
ghost use Rattle.hub_ports.specs.Requests.{request_of};
ghost use Rattle.hub_ports.specs.Worked.{setup, full, low, empty, four};

/// The requests to a hub of four ports.
pub fn requests()
    ensures hub_status { request_of false 4 (setup 160 0 0 0 0 4) ≡ Some HubStatus }
    ensures port_status { request_of false 4 (setup 163 0 0 0 1 4) ≡ Some (PortStatus 1) }
    ensures power_on { request_of false 4 (setup 35 3 8 0 4 0) ≡ Some (ChangePort 4 PowerOn) }
    ensures reset { request_of false 4 (setup 35 3 4 0 2 0) ≡ Some (ChangePort 2 Reset) }
    ensures disable { request_of false 4 (setup 35 1 1 0 2 0) ≡ Some (ChangePort 2 Disable) }
    ensures power_off { request_of false 4 (setup 35 1 8 0 2 0) ≡ Some (ChangePort 2 PowerOff) }
    ensures forget_connection { request_of false 4 (setup 35 1 16 0 2 0) ≡ Some (ChangePort 2 ForgetConnection) }
    ensures forget_enable { request_of false 4 (setup 35 1 17 0 2 0) ≡ Some (ChangePort 2 ForgetEnable) }
    ensures forget_reset { request_of false 4 (setup 35 1 20 0 2 0) ≡ Some (ChangePort 2 ForgetReset) }
    // endpoint 1 IN of device 3, bulk: 3 * 16 + 1, type 2, bit 15
    ensures clear_bulk { request_of false 4 (setup 35 8 49 144 1 0) ≡ Some (ClearBuffer 1 (record { addr = 3; ep = 1; dir = Directions.In; kind = Bulk })) }
    ensures clear_control { request_of false 4 (setup 35 8 48 0 1 0) ≡ Some (ClearBuffer 1 (record { addr = 3; ep = 0; dir = Directions.Out; kind = Control })) }
    ensures reset_translator { request_of false 4 (setup 35 9 0 0 1 0) ≡ Some (ResetTranslator 1) }
{}

/// Where a hub has a translator for each port, wIndex names the port.
pub fn requests_by_port()
    ensures clear { request_of true 4 (setup 35 8 49 144 3 0)
        ≡ Some (ClearBuffer 3 (record { addr = 3; ep = 1; dir = Directions.In; kind = Bulk })) }
    ensures reset { request_of true 4 (setup 35 9 0 0 4 0) ≡ Some (ResetTranslator 4) }
    ensures no_clear { request_of false 4 (setup 35 8 49 144 3 0) ≡ None }
    ensures port_0 { request_of true 4 (setup 35 9 0 0 0 0) ≡ None }
    ensures port_5 { request_of true 4 (setup 35 8 49 144 5 0) ≡ None }
{}

/// Everything else is stalled.
pub fn refusals()
    ensures descriptor { request_of false 4 (160 ∷ 6 ∷ 0 ∷ 41 ∷ 0 ∷ 0 ∷ 9 ∷ 0 ∷ []) ≡ None }
    ensures port_0 { request_of false 4 (setup 163 0 0 0 0 4) ≡ None }
    ensures port_5 { request_of false 4 (setup 163 0 0 0 5 4) ≡ None }
    ensures high_index { request_of false 4 (163 ∷ 0 ∷ 0 ∷ 0 ∷ 1 ∷ 1 ∷ 4 ∷ 0 ∷ []) ≡ None }
    ensures short_read { request_of false 4 (setup 163 0 0 0 1 2) ≡ None }
    ensures long_write { request_of false 4 (setup 35 3 8 0 1 1) ≡ None }
    ensures no_feature { request_of false 4 (setup 35 3 2 0 1 0) ≡ None }
    ensures isochronous_buffer { request_of false 4 (setup 35 8 49 8 1 0) ≡ None }
    ensures interrupt_buffer { request_of false 4 (setup 35 8 49 24 1 0) ≡ None }
    ensures reserved_bits { request_of false 4 (setup 35 8 49 48 1 0) ≡ None }
    ensures second_translator { request_of false 4 (setup 35 9 0 0 2 0) ≡ None }
{}

/// The changes of a port.
pub fn changes()
    ensures power_on_again { changed_port PowerOn full ≡ full }
    ensures power_off { changed_port PowerOff full ≡ record full { power = false; connection = false; enable = false } }
    ensures power_on { changed_port PowerOn (changed_port PowerOff full) ≡ record full { enable = false; connection_changed = true } }
    ensures power_on_empty { changed_port PowerOn (changed_port PowerOff empty) ≡ empty }
    ensures disable { changed_port Disable full ≡ record full { enable = false } }
    ensures reset { changed_port Reset (changed_port Disable full) ≡ record full { reset_changed = true } }
    ensures reset_empty { changed_port Reset empty ≡ empty }
    ensures reset_without_power { changed_port Reset (changed_port PowerOff full) ≡ changed_port PowerOff full }
    ensures forget_reset { changed_port ForgetReset (changed_port Reset full) ≡ full }
    ensures forget_connection { changed_port ForgetConnection (record full { connection_changed = true }) ≡ full }
    ensures forget_enable { changed_port ForgetEnable full ≡ full }
{}

/// What is read of the ports, and which are enabled.
pub fn statuses()
    ensures hub { reply_of HubStatus four ≡ Replies.Bytes (0 ∷ 0 ∷ 0 ∷ 0 ∷ []) }
    ensures device { reply_of (PortStatus 1) four ≡ Replies.Bytes (3 ∷ 1 ∷ 0 ∷ 0 ∷ []) }
    ensures nobody { reply_of (PortStatus 2) four ≡ Replies.Bytes (0 ∷ 1 ∷ 0 ∷ 0 ∷ []) }
    ensures low_speed { reply_of (PortStatus 3) four ≡ Replies.Bytes (3 ∷ 3 ∷ 0 ∷ 0 ∷ []) }
    ensures after_reset { reply_of (PortStatus 1) (ports_changed 1 Reset four) ≡ Replies.Bytes (3 ∷ 1 ∷ 16 ∷ 0 ∷ []) }
    ensures after_power { status_bytes (changed_port PowerOn (changed_port PowerOff low)) ≡ 1 ∷ 3 ∷ 1 ∷ 0 ∷ [] }
    ensures without_power { status_bytes (changed_port PowerOff low) ≡ 0 ∷ 0 ∷ 0 ∷ 0 ∷ [] }
    ensures change { reply_of (ChangePort 1 Reset) four ≡ Replies.Done }
    ensures enabled { is_enabled 1 four ≡ true }
    ensures empty { is_enabled 2 four ≡ false }
    ensures port_0 { is_enabled 0 four ≡ false }
    ensures port_5 { is_enabled 5 four ≡ false }
    ensures one_port_only { ports_changed 3 Disable four ≡ full ∷ empty ∷ record low { enable = false } ∷ empty ∷ [] }
{}
