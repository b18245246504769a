ghost use Rattle.std.specs.Prelude.{◌≡◌, ℕ, ◌≤◌, ◌↔◌, map, string_bytes, IfSome};
ghost use Rattle.bus_world.specs.BudgetsAtWork.{AdmitsAtWork};
ghost use Rattle.claims_headline.specs.Due.{MovesPackets};
ghost use Rattle.claims_headline.specs.Headline.{KeepsHeadline};
ghost use Rattle.claims_headline.specs.Pipes.{PipesAgree};
ghost use Rattle.claims_world.specs.Schedule.{KeepsScheduleThroughout};
ghost use Rattle.claims_world.specs.Lent.{KeepsToLentThroughout};
ghost use Rattle.claims_world.specs.Owned.{OwnsItsBlocksThroughout};
ghost use Rattle.app_ends.specs.Ends.{IsFault, IsWriteFault, WritesNothing};
ghost use Rattle.app_ends.specs.Input.{input_of};
ghost use Rattle.app_forms.specs.Finished.{Finishes};
ghost use Rattle.app_forms.specs.Form.{AreWordsOf, AreNoForm};
ghost use Rattle.bus_world.specs.Plain.{IsPlain};
ghost use Rattle.bus_world.specs.PlainEnds.{IsRunCarriedOut, RunsPlain};
ghost use Rattle.app_forms.specs.Output.{IsLoad, IsProgram, Leaves};
ghost use Rattle.claims_world.specs.Memory.{KeepsMemory};
ghost use Rattle.claims_world.specs.Links.{KeepsLinks};
ghost use Rattle.claims_world.specs.Reach.{ReachesLentThroughout};
ghost use Rattle.claims_world.specs.Owners.{KeepsToOwnersThroughout};
ghost use Rattle.claims_world.specs.Releases.{GivesBackLast, StaysUntouched};
ghost use Rattle.claims_world.specs.Visits.{KeepsVisits};
ghost use Rattle.claims_world.specs.WithinLoad.{PaysWithinLoad};
ghost use Rattle.claims_world.specs.InTime.{ArriveInTime};
ghost use Rattle.claims_world.specs.Due.{KeepsDue};
ghost use Rattle.claims_world.specs.DueAtBegin.{DueAtBeginIsDone};
ghost use Rattle.claims_world.specs.Losses.{RepeatAfterLosses};
ghost use Rattle.claims_world.specs.Translators.{KeepsTranslators};
ghost use Rattle.claims_world.specs.Results.{KeepsAnswers};
ghost use Rattle.claims_world.specs.Slots.{SlotsAreDone};
ghost use Rattle.claims_world.specs.Sitds.{SitdsAreServed};
ghost use Rattle.claims_world.specs.SitdsAtBegin.{SitdsAtBeginAreServed};
ghost use Rattle.claims_world.specs.SlotsAtBegin.{SlotsAtBeginAreDone};
ghost use Rattle.claims_world.specs.SplitFrames.{KeepsSplitFrames};
ghost use Rattle.claims_world.specs.SplitsAtBegin.{KeepsSplits};
ghost use Rattle.claims_world.specs.Unfinished.{KeepsToWork};
ghost use Rattle.claims_world.specs.Microframes.{MicroframesEnd};
ghost use Rattle.claims_world.specs.Requests.{KeepsRequests};
ghost use Rattle.app_forms.specs.Scripts.{FirstIsPlain, OfEachScript, OfEachPlainScript};
ghost use Rattle.claims_world.specs.BelowStreams.{KeepsStreams};
ghost use Rattle.claims_world.specs.Ends.{EndsOnce};
ghost use Rattle.claims_world.specs.Misses.{MissesAreBelowThroughout};
ghost use Rattle.claims_world.specs.Quiet.{KeepsErrors};
ghost use Rattle.claims_world.specs.Heard.{HearsThroughout};
ghost use Rattle.claims_world.specs.Pending.{PendingIsCounted};
ghost use Rattle.claims_world.specs.Refused.{CommandsHaveCauses};
ghost use Rattle.claims_world.specs.Rests.{RestsThroughout};
ghost use Rattle.claims_world.specs.Told.{LinesHaveReasons};
ghost use Rattle.claims_world.specs.Places.{OpensHavePlaces};
ghost use Rattle.script_load.specs.Load.{load_text};
ghost use Rattle.script_text.specs.Faults.{Spells};
ghost use Rattle.script_types.specs.declared.scripts.Script.{Script};

use app_ends::Status;
use app_forms::Form;
use app_machine::ehci_machine;
use std::alloc::Global;
use usb_base::{Sink, Source};

/// The program on these words (without its own name), which reads from the source and writes to the sink.
///
/// It reads all that the source has, or its first 1,048,601 bytes, and writes only once all of the input was read; for `load`
/// it reads nothing.
///
/// - `Words` exactly where the words have none of the forms; nothing is read or written.
/// - `ReadFault` exactly where a read failed, which is the last one: the source's count of faults rose by one. Nothing is
///   written.
/// - `Refused` only where the input isn't what the form reads; its one line is written.
/// - `WriteFault` exactly where a write failed, which is the last one: the sink's count of faults rose by one. A front part of
///   the output is written.
/// - `Memory` only before the first write.
///
/// Where the words have a form, the input is one that it reads, and neither count of faults rises, it ends with `Ok` and the whole output
/// is written, or with `Memory`. The script that is drawn for `load` is always one, so `load` ends with `Ok`, `WriteFault` or `Memory`.
///
/// What the clauses after `output` say is said of the table machine over the script that the input spells, and, for `load`, over the
/// one that is drawn from the number; `output` and `load` say that what is printed is the report of its run, or what that counts. All of
/// these clauses but `budgets` speak of scripts that clear no halt: at each moment of the run of such a script the driver is at no job,
/// no endpoint was reset, and the machine is that of a driver without jobs. Of a script with clears the run is that of the driver with its
/// job, as far as each microframe ended within 67,108,864 turns. The script that is drawn for `load` clears none. docs/THEOREM.md has each
/// clause with its definitions.
///
/// `headline` joins in one sentence what the clauses after it say: the bytes told of each endpoint begin its stream, and its requests are
/// right; a periodic endpoint is admitted exactly where a placement keeps every budget; what is due is done; and the controller touches no
/// word after its release. Its definition names the endpoints of each part.
///
/// Each microframe of a script's run ends, after at most 17,957,823 events of the controller, each followed by one of the driver; so
/// every line is carried out, and what is reported stands after the whole run.
///
/// At each moment of a script's run, clears and all, what is placed keeps the budgets of bus time, and with no clear under way the
/// open of a periodic endpoint is refused for want of a placement exactly where no allowed one fits beside it. The controller's next
/// event reads and writes words of Lent blocks alone, and what the driver's next event gives back is Free right after it. Just the
/// blocks of what the driver still needs are Lent, each run of them with one owner, but for what its unfinished command has still to
/// lend. Each frame of the driver's list has the queue heads of the interrupt endpoints that are placed in it, each once and no
/// others, those of cancelled endpoints until they are unlinked, and of each isochronous endpoint at most one descriptor that waits. A
/// cancelled endpoint stays placed until it is given back.
///
/// And at each such moment, whatever endpoints it opens and cancels, the words of the ring stand for its live queue heads, each once, and
/// those of the frame list and of its members for the driver's list, also while a structure is linked or unlinked; words 1 and 2 of the
/// ring's queue heads are those of their endpoints; the walk of the ring stands at queue heads of the ring, or at those that left since
/// the last answered doorbell was rung; and the controller runs with both schedules on, meets no fault and is refused no word. All that
/// it can come to from where it stands, by the frame list, the ring, its cursors and copies, by links, and by what works to qTDs and
/// bytes of buffers, is Lent. Of what overlays and qTDs hold this says nothing else.
///
/// From each such moment to the next the controller writes words of its own alone, and no one else writes one of these. Of what it can
/// come to these are its own: words 3 to 11 of a queue head that isn't halted, the token of an active qTD, the word of an active
/// microframe of an iTD, words 3 to 5 of an active siTD, and the words of the bytes that are still to come into a buffer.
///
/// What left the ring is given back only after the doorbell was rung since its unlinking and Async Advance was then read, and what left the
/// frame list only after FRINDEX was read twice since then with different frame numbers. What was given back each later event of the
/// controller leaves alone until it is lent again: it writes none of it, and it leaves the same whatever stands there.
///
/// The link of each live queue head of the ring leads to a live one, and each link of the frame list and of its members to a member or to
/// the end, also while one is linked or unlinked. The link of a queue head that left the ring leads to a live one, or to one that left
/// later, and that of a queue head that left the frame list to the end of a frame, to a live member, or to one that left later, each until
/// it is given back; and while the doorbell is pending, and until Async Advance is cleared after it, one batch is rung: all of it left
/// before the one ringing, and what waits left since.
///
/// In one microframe the walk of the frames visits no structure twice, and each in its frame, or, where it was unlinked in this
/// microframe, in a frame from which it was, while members are linked and unlinked; and once it is over, it has visited each to which
/// the links of the frame led as the microframe began, and to which they lead still.
/// In a microframe that is held no time is left. The asynchronous part ends where the head of the ring was read with Reclamation 0, or
/// where the next price passes the time left, and then the ring goes on at the same queue head. A structure that is visited has its
/// transaction, or is passed without it for one of the standard's reasons alone, in the ring and in the frames.
///
/// Words 1 and 2 of the queue head of each interrupt endpoint that wasn't given back are those of its description and of its placement, and
/// each placement is one that its endpoint may have. What is deducted for the transactions of the walk of the frames in a microframe is the
/// sum of their prices. It comes, but for complete-splits that are made again at once, to no more than the plan's load there, nor to more
/// than 100 microseconds; so no transaction of the periodic part is skipped for want of time, but in a held microframe or where more than 4
/// microseconds went for those made again. None is made again where all periodic endpoints are of high speed, nor
/// while no packet of the walk of the frames was lost or damaged in the microframe.
///
/// Each entry of a translator's pipeline has had, after the work of each microframe, the byte-times that are laid for it in the microframes
/// before the last, less 188 for each that brought no part of an isochronous OUT, or all that its start-splits call for; and one microframe
/// after the last in which something is laid for it the result of an interrupt, and the last bytes of an isochronous IN, are there. Where
/// endpoints have stuffed bits, that is so one microframe later.
///
/// Once the walk of the frames is over in a microframe, it came to the queue head of each interrupt endpoint that has this frame, was in
/// the frame list as the microframe began and is in it still; and of each of high speed that had a transfer then, in a microframe of its
/// S-mask that isn't held, with its device ready and none of the transaction's packets lost, the packet moved and was written back, where
/// no more than 4 microseconds went for complete-splits made again. So it was of each of high speed for which all this stood as the
/// microframe began, whatever the walk came to before, but of one of which a cancel was accepted since; and it stood for an IN whose
/// transfer was stored and unfinished, and whose device had a packet for it and knew all that was accepted. So is each slot of an iTD to
/// which the walk came while it was active: it is written back in its microframe; and each that was active as the microframe began, in an
/// iTD that stays linked. Of an interrupt endpoint below a hub of which a complete-split was due as the microframe began, where neither it
/// nor its answer is lost, the host heard what its translator had for it then; data that fit moved, and so did what was acknowledged,
/// unless a cancel of it was accepted since. And at each moment the queue head of a bulk or
/// interrupt endpoint that goes on and isn't halted, with a transfer that is stored and isn't done, works on an active qTD or goes on to
/// one; so does its copy in the hand of either walk.
///
/// Whatever the script opens and cancels, the bytes that the report tells of each bulk and interrupt IN endpoint at high speed begin its
/// stream, each once and in order, and nothing follows its end; those that it tells of each such OUT endpoint begin what its device took,
/// and these begin what was put to it: after the run, and at each moment of it, when the puts are those that weren't refused so far;
/// whatever is lost, damaged or held, and whatever else is asked and answers. After the run these are all its streams at high speed.
/// The same holds of the bytes of each bulk and interrupt OUT endpoint behind a hub of the script, whatever is asked of the hub; but its
/// device may take more behind the line that tells its end.
/// The bytes that the report tells of each such IN endpoint there begin its stream, too, and nothing follows its end, at each moment before
/// which the hub never heard as its last request that it clears a buffer or resets a translator, and after a run in which it never did: so
/// throughout and after the run of a script none of whose `control` lines to the hub is such a request.
///
/// At each moment the host has accepted the packets that the device of a bulk or interrupt IN endpoint at high speed knows to be accepted,
/// or one more, with the toggle that belongs to it; and that of such an OUT endpoint took what the host counts as moved, or one packet
/// more, with the other toggle.
///
/// Whatever the script opens, no line follows the one that tells the end of a bulk, interrupt or isochronous endpoint, and nothing of it is
/// pending then, at each moment and after the run. No line tells a missed microframe of an endpoint at high speed.
/// Where no `fate` loses or damages a packet between the controller and a hub or a device at high speed, and no interrupt endpoint at high
/// speed answers with NYET, no line tells `halt error` of an endpoint at high speed, whatever the script holds, cancels and asks of hubs.
/// Where besides no request to a hub clears a buffer or resets a translator, none is of a bulk or control endpoint.
///
/// Whatever the script opens, at each moment each device but a hub acted at most once on each request of its control endpoint at high
/// speed, and only on its setup bytes; the report tells of its requests in their order: a request that is done was acted on exactly once,
/// and the bytes told of it are those of its data; those of one that halted begin its data; the line of a cancel tells beginnings of the
/// data of the requests left, joined; and `acted` is told as the number of requests that were acted on. After the run these are all its
/// requests.
///
/// Each command of a script is refused for the first cause that stands, of busy, no endpoint, closed, already open, too long, no
/// placement and no blocks, and its line tells this one; where none stands it is accepted, and adds what it asks for: an endpoint, a
/// transfer whose qTDs have just its bytes, isochronous transfers, or the end of its endpoint. None of the endpoints of the script that is
/// drawn for `load` is refused for want of a placement. Each ask of the controller is heard as the
/// script's lines on lost packets, its holds and the ports of its hubs say: by its endpoint alone, or by none; and its endpoints, and no
/// fewer, stand on the bus.
///
/// The driver rests only where no command is unfinished, each cancelled endpoint is given back, and of each that hasn't ended all that
/// was asked for has its line, and its blocks are given back; until then, and with no command unfinished, at every second event at the
/// latest it does something of what can be given back, and reads a transfer that has no line. What was moved in a qTD it notes as it
/// reads its token, and it leaves none unread but while it is active. Each line that it writes has its reason in the token or the
/// descriptor that it reads there, in the STALL of a request before, or in the cancel; and it tells as many bytes as were moved: of each
/// qTD its length less what its token left, or, at a cancel, what the active overlay leaves. Each line leaves one transfer less of its
/// endpoint without a line, that of a cancel none; at each moment the accepted transfers of an endpoint of which no line tells a cancel
/// are those that have a line and those that have none yet; and `pending` is told after the run just of each endpoint that hasn't ended
/// and has such transfers, with their number.
#[tactic(auto, using(crate::proofs::Whole::whole_load, crate::proofs::Whole::whole_program))]
pub fn ehci<S: Source, K: Sink>(
    alloc: Global,
    words: &[String],
    source: &mut S,
    sink: &mut K,
) -> Status
    ensures words { (result ≡ Status.Words) ↔ AreNoForm (map string_bytes words.now) }
    ensures untouched { result ≡ Status.Words → (source.new ≡ source.old) × (sink.new ≡ sink.old) }
    ensures unread { (n : ℕ) → AreWordsOf (map string_bytes words.now) (Form.Load n) → source.new ≡ source.old }
    ensures load { IsLoad IsRunCarriedOut (map string_bytes words.now) result (K.written sink.old) (K.written sink.new) }
    ensures output { IfSome (S.left source.old) (λ xs. IsProgram IsRunCarriedOut (map string_bytes words.now) result (input_of xs) (K.written sink.old) (K.written sink.new)) }
    ensures plain { OfEachScript RunsPlain (map string_bytes words.now) (S.left source.old) }
    ensures first { OfEachScript FirstIsPlain (map string_bytes words.now) (S.left source.old) }
    ensures drawn { (n : ℕ) → AreWordsOf (map string_bytes words.now) (Form.Load n) → (s : Script) → Spells (load_text n) s → IsPlain s }
    ensures headline { OfEachPlainScript KeepsHeadline (map string_bytes words.now) (S.left source.old) }
    ensures budgets { OfEachScript AdmitsAtWork (map string_bytes words.now) (S.left source.old) }
    ensures lent { OfEachPlainScript KeepsToLentThroughout (map string_bytes words.now) (S.left source.old) }
    ensures owned { OfEachPlainScript OwnsItsBlocksThroughout (map string_bytes words.now) (S.left source.old) }
    ensures schedule { OfEachPlainScript KeepsScheduleThroughout (map string_bytes words.now) (S.left source.old) }
    ensures memory { OfEachPlainScript KeepsMemory (map string_bytes words.now) (S.left source.old) }
    ensures reach { OfEachPlainScript ReachesLentThroughout (map string_bytes words.now) (S.left source.old) }
    ensures owners { OfEachPlainScript KeepsToOwnersThroughout (map string_bytes words.now) (S.left source.old) }
    ensures releases { OfEachPlainScript GivesBackLast (map string_bytes words.now) (S.left source.old) }
    ensures given_back { OfEachPlainScript StaysUntouched (map string_bytes words.now) (S.left source.old) }
    ensures links { OfEachPlainScript KeepsLinks (map string_bytes words.now) (S.left source.old) }
    ensures visits { OfEachPlainScript KeepsVisits (map string_bytes words.now) (S.left source.old) }
    ensures microframes { OfEachPlainScript MicroframesEnd (map string_bytes words.now) (S.left source.old) }
    ensures within_load { OfEachPlainScript PaysWithinLoad (map string_bytes words.now) (S.left source.old) }
    ensures in_time { OfEachPlainScript ArriveInTime (map string_bytes words.now) (S.left source.old) }
    ensures repeats { OfEachPlainScript RepeatAfterLosses (map string_bytes words.now) (S.left source.old) }
    ensures translators { OfEachPlainScript KeepsTranslators (map string_bytes words.now) (S.left source.old) }
    ensures due { OfEachPlainScript KeepsDue (map string_bytes words.now) (S.left source.old) }
    ensures due_at_begin { OfEachPlainScript DueAtBeginIsDone (map string_bytes words.now) (S.left source.old) }
    ensures packets { OfEachPlainScript MovesPackets (map string_bytes words.now) (S.left source.old) }
    ensures slots { OfEachPlainScript SlotsAreDone (map string_bytes words.now) (S.left source.old) }
    ensures slots_at_begin { OfEachPlainScript SlotsAtBeginAreDone (map string_bytes words.now) (S.left source.old) }
    ensures splits_at_begin { OfEachPlainScript KeepsSplits (map string_bytes words.now) (S.left source.old) }
    ensures results { OfEachPlainScript KeepsAnswers (map string_bytes words.now) (S.left source.old) }
    ensures splits_go_on { OfEachPlainScript KeepsSplitFrames (map string_bytes words.now) (S.left source.old) }
    ensures sitds { OfEachPlainScript SitdsAreServed (map string_bytes words.now) (S.left source.old) }
    ensures sitds_at_begin { OfEachPlainScript SitdsAtBeginAreServed (map string_bytes words.now) (S.left source.old) }
    ensures goes_on { OfEachPlainScript KeepsToWork (map string_bytes words.now) (S.left source.old) }
    ensures streams { OfEachPlainScript KeepsStreams (map string_bytes words.now) (S.left source.old) }
    ensures pipes { OfEachPlainScript PipesAgree (map string_bytes words.now) (S.left source.old) }
    ensures ends { OfEachPlainScript EndsOnce (map string_bytes words.now) (S.left source.old) }
    ensures misses { OfEachPlainScript MissesAreBelowThroughout (map string_bytes words.now) (S.left source.old) }
    ensures errors { OfEachPlainScript KeepsErrors (map string_bytes words.now) (S.left source.old) }
    ensures requests { OfEachPlainScript KeepsRequests (map string_bytes words.now) (S.left source.old) }
    ensures answers { OfEachPlainScript CommandsHaveCauses (map string_bytes words.now) (S.left source.old) }
    ensures places { (n : ℕ) → AreWordsOf (map string_bytes words.now) (Form.Load n) → (s : Script) → Spells (load_text n) s
        → OpensHavePlaces s }
    ensures hears { OfEachPlainScript HearsThroughout (map string_bytes words.now) (S.left source.old) }
    ensures works { OfEachPlainScript RestsThroughout (map string_bytes words.now) (S.left source.old) }
    ensures lines { OfEachPlainScript LinesHaveReasons (map string_bytes words.now) (S.left source.old) }
    ensures pending { OfEachPlainScript PendingIsCounted (map string_bytes words.now) (S.left source.old) }
    ensures left { IfSome (S.left source.old) (λ xs. Leaves (map string_bytes words.now) result xs (S.left source.new)) }
    ensures nothing { WritesNothing result → sink.new ≡ sink.old }
    ensures read { IsFault result (S.faults source.old) (S.faults source.new) }
    ensures write { IsWriteFault result (K.faults sink.old) (K.faults sink.new) }
    ensures finishes { Finishes IsRunCarriedOut (map string_bytes words.now) result
        (record {
          read_before = S.faults source.old;
          read_after = S.faults source.new;
          written_before = K.faults sink.old;
          written_after = K.faults sink.new;
        })
        (S.left source.old) (K.written sink.old) (K.written sink.new) }
{
    ehci_machine(alloc, words, source, sink)
}
