//! Worked windows, which the check computes. Packets have at most four bytes.
ghost use Rattle.std.specs.Prelude.{◌≡◌, ℕ, List, [], ◌∷◌, map, length};
ghost use Rattle.usb_base.specs.declared.endpoints.EndCause.TheVariants as Ends;
ghost use Rattle.dev_control.specs.Stages.{opened};
ghost use Rattle.dev_control.specs.Worked.{read_of, write_of};
ghost use Rattle.law_request.specs.Host.{Setup, Data, Status, Done, Halted};
ghost use Rattle.law_request.specs.Windows.{windows, left_after, IsRequest, AreRequests};
ghost use Rattle.law_request.specs.Samples.{endpoint, device, descriptor, described, get_device, three_turns, read, write, good, token_lost, answer_lost, ack_lost, turn, window, told, tells};

/// The eight setup bytes of a read, and of a write that submits what it announces.
pub fn premises()
    ensures read { IsRequest (read 8) }
    ensures write { IsRequest (write 6 (1 ∷ 2 ∷ 3 ∷ 4 ∷ 5 ∷ 6 ∷ [])) }
    ensures size { device.max ≡ endpoint.max }
{}

/// A read whose ACK of the SETUP is lost: the SETUP is sent again. A packet shorter than the maximum ends the data stage.
pub fn repeated_setup()
    ensures begun { told (window (read 8) (answer_lost ∷ [])) ≡ tells Setup [] [] }
    ensures done { told (window (read 8) (answer_lost ∷ good ∷ good ∷ good ∷ good ∷ [])) ≡ tells Done (1 ∷ 2 ∷ 3 ∷ 4 ∷ 5 ∷ 6 ∷ []) (read_of 8 ∷ []) }
    ensures before_status { told (window (read 8) (good ∷ good ∷ good ∷ [])) ≡ tells Status (1 ∷ 2 ∷ 3 ∷ 4 ∷ 5 ∷ 6 ∷ []) [] }
    ensures cut { told (window (read 4) (good ∷ good ∷ good ∷ [])) ≡ tells Done (1 ∷ 2 ∷ 3 ∷ 4 ∷ []) (read_of 4 ∷ []) }
{}

/// A status whose answer is lost is sent again, and the device doesn't act again.
pub fn repeated_status()
    ensures read { told (window (read 8) (good ∷ good ∷ good ∷ answer_lost ∷ [])) ≡ tells Status (1 ∷ 2 ∷ 3 ∷ 4 ∷ 5 ∷ 6 ∷ []) (read_of 8 ∷ []) }
    ensures read_again { told (window (read 8) (good ∷ good ∷ good ∷ answer_lost ∷ good ∷ good ∷ [])) ≡ tells Done (1 ∷ 2 ∷ 3 ∷ 4 ∷ 5 ∷ 6 ∷ []) (read_of 8 ∷ []) }
    ensures unasked { told (window (write 0 []) (good ∷ token_lost ∷ [])) ≡ tells Status [] [] }
    ensures no_data { told (window (write 0 []) (good ∷ answer_lost ∷ answer_lost ∷ good ∷ [])) ≡ tells Done [] (write_of 0 ∷ []) }
    ensures halted { told (window (write 0 []) (good ∷ answer_lost ∷ answer_lost ∷ answer_lost ∷ good ∷ [])) ≡ tells (Halted Ends.Error) [] (write_of 0 ∷ []) }
{}

/// A lost acknowledgement of data repeats a packet, which moves once.
pub fn repeated_data()
    ensures read { told (window (read 8) (good ∷ ack_lost ∷ good ∷ good ∷ good ∷ [])) ≡ tells Done (1 ∷ 2 ∷ 3 ∷ 4 ∷ 5 ∷ 6 ∷ []) (read_of 8 ∷ []) }
    ensures write { told (window (write 6 (1 ∷ 2 ∷ 3 ∷ 4 ∷ 5 ∷ 6 ∷ [])) (good ∷ answer_lost ∷ good ∷ good ∷ good ∷ good ∷ [])) ≡ tells Done (1 ∷ 2 ∷ 3 ∷ 4 ∷ 5 ∷ 6 ∷ []) (write_of 6 ∷ []) }
    ensures write_once { told (window (write 6 (1 ∷ 2 ∷ 3 ∷ 4 ∷ 5 ∷ 6 ∷ [])) (good ∷ answer_lost ∷ token_lost ∷ [])) ≡ tells Data [] [] }
{}

/// A request that the device has no reply to is stalled, and never acted on. Three errors halt; what moved before is a beginning.
pub fn halts()
    ensures stalled { told (window (read 2) (good ∷ good ∷ good ∷ [])) ≡ tells (Halted Ends.Stall) [] [] }
    ensures error { told (window (read 8) (good ∷ good ∷ token_lost ∷ answer_lost ∷ token_lost ∷ [])) ≡ tells (Halted Ends.Error) (1 ∷ 2 ∷ 3 ∷ 4 ∷ []) [] }
    ensures two_errors { told (window (read 8) (token_lost ∷ token_lost ∷ good ∷ token_lost ∷ good ∷ token_lost ∷ good ∷ good ∷ [])) ≡ tells Done (1 ∷ 2 ∷ 3 ∷ 4 ∷ 5 ∷ 6 ∷ []) (read_of 8 ∷ []) }
{}

/// A device descriptor, with a lost ACK of the SETUP; a descriptor that the device doesn't have; and the first again. It acted twice.
pub fn three_requests()
    ensures windows { map told (windows described three_turns (opened 64 0))
        ≡ tells Done descriptor (get_device.setup ∷ []) ∷ tells (Halted Ends.Stall) [] [] ∷ tells Done descriptor (get_device.setup ∷ []) ∷ [] }
    ensures acted { (left_after described three_turns (opened 64 0)).acted ≡ 2 }
    ensures requests { AreRequests three_turns }
{}

/// A device that an earlier request left busy: what it still had to do is never done, and the new request is acted on alone.
pub fn left_unfinished()
    ensures windows { map told (windows endpoint (turn (write 0 []) (good ∷ token_lost ∷ token_lost ∷ token_lost ∷ []) ∷ turn (read 8) (token_lost ∷ good ∷ good ∷ good ∷ good ∷ []) ∷ []) device)
        ≡ tells (Halted Ends.Error) [] [] ∷ tells Done (1 ∷ 2 ∷ 3 ∷ 4 ∷ 5 ∷ 6 ∷ []) (read_of 8 ∷ []) ∷ [] }
{}
