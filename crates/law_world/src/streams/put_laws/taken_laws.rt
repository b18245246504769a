ghost use Rattle.law_world.specs.streams.put_laws.TakenLaws.{EventKeepsPuts, CommandTakesPuts, TickTakesPuts, PutsStay, MomentsTakePuts, AllAreTaken, StreamsAreOfPuts, TextsRise};

/// An event of the driver or of the controller leaves what was put.
pub fn event_keeps_puts()
    ensures { EventKeepsPuts }
{}

/// A command with a later number than those of the lines before it is one more of them: where it is accepted, a put of it is one of the driver's, and where it is
/// refused, the report refuses it.
pub fn command_takes_puts()
    ensures { CommandTakesPuts }
{}

/// So each event and command of a run of a script whose numbers rise takes the puts along.
pub fn tick_takes_puts()
    ensures { TickTakesPuts }
{}

/// It changes none of those that the driver has.
pub fn puts_stay()
    ensures { PutsStay }
{}

/// So at each moment some of the lines were taken, and their puts are those of the driver's transfers.
pub fn moments_take_puts()
    ensures { MomentsTakePuts }
{}

/// Once no order is left, all lines were taken.
pub fn all_are_taken()
    ensures { AllAreTaken }
{}

/// At each moment the puts of an OUT endpoint begin its stream in the report, and once no order is left they are that stream; each endpoint that the report knows as
/// opened is one of the driver then.
pub fn streams_are_of_puts()
    ensures { StreamsAreOfPuts }
{}

/// The numbers of the lines of each script that a text spells rise.
pub fn texts_rise()
    ensures { TextsRise }
{}
