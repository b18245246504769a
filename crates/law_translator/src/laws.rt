//! The laws, each a function whose contract is the law.
ghost use Rattle.std.specs.Prelude.{◌≡◌, ℕ, List};
ghost use Rattle.usb_base.specs.declared.packets.Reply.{Reply};
ghost use Rattle.tt_pipeline.specs.Working.{Works, turned_all};
ghost use Rattle.tt_pipeline.specs.declared.entry.Entry.{Entry};
ghost use Rattle.law_translator.specs.Frames.{Event, Frame, entries_of, run, run_contents};
ghost use Rattle.law_translator.specs.Laws.{KeepsUpWithPlans, KeepsUpWithBits, AnswersInTime, AnswersStay, WorksByFunctions};

use usb_base::Wire;

/// Whatever the wire answers, whichever starts are lost or short, and whatever else is asked: where each start that
/// comes is one that the plan of its frame calls for, no endpoint has stuffed bits, and each plan lays at most 188
/// byte-times in a microframe, each entry has had what is laid for it. An interrupt that is laid whole has its answer there.
pub fn keeps_up_with_plans()
    ensures { KeepsUpWithPlans }
{}

/// With stuffed bits, at most one in six: an entry of which all is laid up to the last microframe but two has had all
/// that its starts call for, and an interrupt has its answer (7.1.9).
pub fn keeps_up_with_bits()
    ensures { KeepsUpWithBits }
{}

/// Where no endpoint has stuffed bits, the result of an interrupt is there from the second microframe after its last
/// laid one on, and so are the last bytes of an isochronous IN.
pub fn answers_are_there()
    ensures { AnswersInTime 0 1 }
{}

/// With stuffed bits they are there one microframe later: by the last complete-split that a plan has for them.
pub fn stuffed_answers_are_there()
    ensures { AnswersInTime 6 2 }
{}

/// The answer of an interrupt that is there stays: the work of a microframe leaves it as it is, until the entries are
/// dropped at the frame's end.
pub fn answers_stay()
    ensures { AnswersStay }
{}

/// The count of missing parts is beside the pipeline and changes nothing in it: the entries are those that the words of
/// the pipeline give.
pub fn the_watch_only_watches()
    ensures { (events : List Event) → (frame : Frame) → entries_of (run events frame).watched ≡ run_contents events (entries_of frame.watched) }
{}

/// Over any wire, the work of a microframe is the event `Work` with some replies: so the laws speak of every run of a
/// pipeline.
pub fn the_work_is_an_event<W: Wire>()
    ensures { (room : ℕ) → (es : List Entry) → (before : W) → (after : W) → (new : List Entry) →
        Works W.transacts room es before after new → (replies : List Reply) × (new ≡ turned_all room replies es) }
{}

/// Over a wire that answers and changes by functions of its content, so does the work.
pub fn works_by_functions<W: Wire>()
    ensures { WorksByFunctions W.transacts }
{}
