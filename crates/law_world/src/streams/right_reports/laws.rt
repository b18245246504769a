ghost use Rattle.law_world.specs.streams.right_reports.Laws.{ReportIsPrinted, ReportIsRight};

/// The report of a world as a value is what is printed of it.
pub fn report_is_printed()
    ensures { ReportIsPrinted }
{}

/// Where its lines, and what is held back behind them, begin the packets of each IN endpoint, its IN streams are right.
pub fn report_is_right()
    ensures { ReportIsRight }
{}
