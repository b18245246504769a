//! Worked rows of streams, which the check computes. Packets have at most two bytes.
ghost use Rattle.std.specs.Prelude.{◌≡◌, ℕ, List, [], ◌∷◌, ◌++◌, codes, Some};
ghost use Rattle.script_types.specs.declared.devices.Item.TheVariants.{Bytes, Nak};
ghost use Rattle.usb_base.specs.declared.commands.Cmd.TheVariants.{Get, Put};
ghost use Rattle.usb_base.specs.declared.reports.OfferError.TheVariants.{Busy};
ghost use Rattle.claims_report.specs.Reports.{Taken, whole_text, taken};
ghost use Rattle.claims_report.specs.Streams.{stream, told};
ghost use Rattle.claims_report.specs.Samples.{AreRightStreams};
ghost use Rattle.claims_report.specs.Samples.{script_of, commanded, line_of, halted_lines, report_of, sender, receiver, bulk};

use usb_base::{EndCause, What};

/// A packet that is shorter than the maximum ends a get: what is told is all of the stream.
pub fn short_packet()
    ensures stream { stream (script_of (bulk sender) (Nak 1 ∷ Bytes (1 ∷ 2 ∷ []) ∷ Bytes (3 ∷ []) ∷ []) (commanded 7 (Get sender 8 20480) ∷ [])) (report_of [] [] []) sender ≡ 1 ∷ 2 ∷ 3 ∷ [] }
    ensures told { told (report_of (line_of sender What.Done 0 3 ∷ []) (1 ∷ 2 ∷ 3 ∷ []) []) sender ≡ 1 ∷ 2 ∷ 3 ∷ [] }
    ensures right { AreRightStreams (script_of (bulk sender) (Nak 1 ∷ Bytes (1 ∷ 2 ∷ []) ∷ Bytes (3 ∷ []) ∷ []) (commanded 7 (Get sender 8 20480) ∷ []))
        (report_of (line_of sender What.Done 0 3 ∷ []) (1 ∷ 2 ∷ 3 ∷ []) []) }
    ensures text { whole_text (report_of (line_of sender What.Done 0 3 ∷ []) (1 ∷ 2 ∷ 3 ∷ []) []) ≡ codes "done 3.1.in 3 010203" ++ 10 ∷ [] }
{}

/// An IN that halts in its second get, and a command that is refused then: both gets together begin the stream.
pub fn halted_in()
    ensures told { told (report_of (halted_lines sender) (1 ∷ 2 ∷ 3 ∷ []) []) sender ≡ 1 ∷ 2 ∷ 3 ∷ [] }
    ensures ended { told (report_of (line_of sender (What.Halt EndCause.Error) 0 2 ∷ line_of sender What.Done 2 2 ∷ []) (1 ∷ 2 ∷ 3 ∷ 4 ∷ []) []) sender ≡ 1 ∷ 2 ∷ [] }
    ensures right { AreRightStreams (script_of (bulk sender) (Bytes (1 ∷ 2 ∷ []) ∷ Bytes (3 ∷ 4 ∷ []) ∷ []) [])
        (report_of (halted_lines sender) (1 ∷ 2 ∷ 3 ∷ []) []) }
    ensures not_after { AreRightStreams (script_of (bulk sender) (Bytes (1 ∷ 2 ∷ []) ∷ Bytes (3 ∷ 4 ∷ []) ∷ []) [])
        (report_of (line_of sender (What.Halt EndCause.Error) 0 2 ∷ line_of sender What.Done 2 2 ∷ []) (1 ∷ 2 ∷ 3 ∷ 4 ∷ []) []) → ⊥ }
{}

/// An OUT whose last acknowledgements were lost: more was taken than is told. A refused put isn't in the stream.
pub fn lost_acknowledgement()
    ensures stream { stream (script_of (bulk receiver) [] (commanded 7 (Put receiver (1 ∷ 2 ∷ 3 ∷ 4 ∷ []) 20480) ∷ commanded 8 (Put receiver (5 ∷ []) 20480) ∷ []))
        (report_of (line_of receiver (What.Refused 8 Busy) 0 0 ∷ []) [] []) receiver ≡ 1 ∷ 2 ∷ 3 ∷ 4 ∷ [] }
    ensures taken { taken (report_of (line_of receiver (What.Halt EndCause.Error) 0 2 ∷ []) (1 ∷ 2 ∷ []) (Taken receiver (1 ∷ 2 ∷ 3 ∷ 4 ∷ []) ∷ [])) receiver ≡ Some (1 ∷ 2 ∷ 3 ∷ 4 ∷ []) }
    ensures right { AreRightStreams (script_of (bulk receiver) [] (commanded 7 (Put receiver (1 ∷ 2 ∷ 3 ∷ 4 ∷ []) 20480) ∷ []))
        (report_of (line_of receiver (What.Halt EndCause.Error) 0 2 ∷ []) (1 ∷ 2 ∷ []) (Taken receiver (1 ∷ 2 ∷ 3 ∷ 4 ∷ []) ∷ [])) }
    ensures not_counted { AreRightStreams (script_of (bulk receiver) [] (commanded 7 (Put receiver (1 ∷ 2 ∷ 3 ∷ 4 ∷ []) 20480) ∷ []))
        (report_of (line_of receiver What.Done 0 4 ∷ []) (1 ∷ 2 ∷ 3 ∷ 4 ∷ []) (Taken receiver (1 ∷ 2 ∷ []) ∷ [])) → ⊥ }
{}

/// A report that tells a byte twice isn't right, nor is one that says a device took a packet twice.
pub fn duplicated_byte()
    ensures told_twice { AreRightStreams (script_of (bulk sender) (Bytes (1 ∷ 2 ∷ []) ∷ Bytes (3 ∷ []) ∷ []) (commanded 7 (Get sender 8 20480) ∷ []))
        (report_of (line_of sender What.Done 0 4 ∷ []) (1 ∷ 2 ∷ 2 ∷ 3 ∷ []) []) → ⊥ }
    ensures taken_twice { AreRightStreams (script_of (bulk receiver) [] (commanded 7 (Put receiver (1 ∷ 2 ∷ 3 ∷ []) 20480) ∷ []))
        (report_of (line_of receiver What.Done 0 3 ∷ []) (1 ∷ 2 ∷ 3 ∷ []) (Taken receiver (1 ∷ 2 ∷ 1 ∷ 2 ∷ 3 ∷ []) ∷ [])) → ⊥ }
{}
