//! Worked rows: requests over their three stages, and split asks, which the check computes.
ghost use Rattle.std.specs.Prelude.{◌≡◌, List, [], ◌∷◌, Some, None, true, false};
ghost use Rattle.usb_base.specs.declared.packets.EpKind.TheVariants.{Bulk, Interrupt};
ghost use Rattle.usb_base.specs.declared.packets.Pid.TheVariants as Pids;
ghost use Rattle.usb_base.specs.declared.packets.Reply.TheVariants as Replies;
ghost use Rattle.tt_pipeline.specs.Working.{used_by, worked_with};
ghost use Rattle.hub_ports.specs.declared.rows.HubReply.TheVariants as Answers;
ghost use Rattle.hub_ports.specs.Ports.{opened_port, is_enabled};
ghost use Rattle.hub_class.specs.Requesting.{requested, request_answer};
ghost use Rattle.hub_class.specs.EndpointZero.{hub_reply, hub_answered, hub_acked};
ghost use Rattle.hub_class.specs.Translating.{transact_reply, transacted};
ghost use Rattle.hub_class.specs.Worked.{hub, ask, setup_ask, in_ask, status_ask, multi_hub, both_started, start, complete, second, pipeline_at, get_status, set_reset, power_off, reset_translator, reset_second, clear_first, get_descriptor, told};

/// The status of a port is read in the data stage, and its status stage acts once.
pub fn status_is_read()
    ensures setup { hub_reply setup_ask get_status hub ≡ Replies.Hand Pids.Ack }
    ensures data { hub_reply in_ask [] (told get_status hub) ≡ Replies.Bytes Pids.Data1 (3 ∷ 1 ∷ 0 ∷ 0 ∷ []) }
    ensures status { hub_reply status_ask [] (hub_acked in_ask (hub_answered in_ask [] (told get_status hub))) ≡ Replies.Hand Pids.Ack }
    ensures acted { (hub_answered status_ask [] (hub_acked in_ask (hub_answered in_ask [] (told get_status hub)))).control.acted ≡ 1 }
    ensures ports { (hub_answered status_ask [] (hub_acked in_ask (hub_answered in_ask [] (told get_status hub)))).ports ≡ hub.ports }
{}

/// A change is made at the status stage, not at the SETUP, and once.
pub fn change_is_made()
    ensures not_yet { (told power_off hub).ports ≡ hub.ports }
    ensures confirmed { hub_reply in_ask [] (told power_off hub) ≡ Replies.Bytes Pids.Data1 [] }
    ensures made { is_enabled 1 (hub_answered in_ask [] (told power_off hub)).ports ≡ false }
    ensures as_requested { (hub_answered in_ask [] (told power_off hub)).ports ≡ (requested power_off hub).ports }
    ensures repeated { (hub_answered in_ask [] (hub_answered in_ask [] (told set_reset hub))).control.acted ≡ 1 }
    ensures reset { request_answer get_status (hub_answered in_ask [] (told set_reset hub)) ≡ Answers.Bytes (3 ∷ 1 ∷ 16 ∷ 0 ∷ []) }
{}

/// A request that the hub doesn't know is stalled at each later stage, and changes nothing.
pub fn unknown_is_stalled()
    ensures setup { hub_reply setup_ask get_descriptor hub ≡ Replies.Hand Pids.Ack }
    ensures data { hub_reply in_ask [] (told get_descriptor hub) ≡ Replies.Hand Pids.Stall }
    ensures status { hub_reply status_ask [] (told get_descriptor hub) ≡ Replies.Hand Pids.Stall }
    ensures same { hub_answered in_ask [] (told get_descriptor hub) ≡ told get_descriptor hub }
    ensures directly { requested get_descriptor hub ≡ hub }
    ensures answer { request_answer get_descriptor hub ≡ Answers.Stall }
{}

/// Split asks go into the buffers or the pipeline of the one translator, whatever their port; its reset empties both.
pub fn splits()
    ensures bulk_start { transact_reply (start Bulk) hub ≡ Replies.Hand Pids.Ack }
    ensures bulk_pending { transact_reply (complete Bulk) (transacted (start Bulk) [] 0 hub) ≡ Replies.Hand Pids.Nyet }
    ensures bulk_unknown { transact_reply (complete Bulk) hub ≡ Replies.Silent }
    ensures interrupt_start { transact_reply (start Interrupt) hub ≡ Replies.Silent }
    ensures interrupt_pending { transact_reply (complete Interrupt) (transacted (start Interrupt) [] 0 hub) ≡ Replies.Hand Pids.Nyet }
    ensures interrupt_unknown { transact_reply (complete Interrupt) hub ≡ Replies.Hand Pids.Nyet }
    ensures emptied { requested reset_translator (transacted (start Interrupt) [] 0 (transacted (start Bulk) [] 0 hub)) ≡ hub }
    ensures stuffed { used_by 188 (worked_with 1 [] (pipeline_at 1 (transacted (start Interrupt) [] 6 hub))) ≡ 89 }
    ensures one_for_all { transact_reply (second (complete Bulk)) (transacted (second (start Bulk)) [] 0 hub) ≡ Replies.Hand Pids.Nyet }
    ensures one_wire_index { requested reset_second (transacted (start Bulk) [] 0 hub) ≡ transacted (start Bulk) [] 0 hub }
    ensures ports_stay { (transacted (start Bulk) [] 0 hub).ports ≡ hub.ports }
{}

/// Where each port has a translator, a split and a request go to that of their port.
pub fn splits_by_port()
    ensures first { transact_reply (complete Bulk) (transacted (start Bulk) [] 0 multi_hub) ≡ Replies.Hand Pids.Nyet }
    ensures second { transact_reply (second (complete Bulk)) (transacted (start Bulk) [] 0 multi_hub) ≡ Replies.Silent }
    ensures second_reset { requested reset_second (transacted (start Bulk) [] 0 multi_hub) ≡ transacted (start Bulk) [] 0 multi_hub }
    ensures first_reset { requested reset_translator (transacted (start Bulk) [] 0 multi_hub) ≡ multi_hub }
    ensures first_cleared { transact_reply (complete Bulk) (requested clear_first both_started) ≡ Replies.Silent }
    ensures second_kept { transact_reply (second (complete Bulk)) (requested clear_first both_started) ≡ Replies.Hand Pids.Nyet }
{}
