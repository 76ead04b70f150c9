//! Laws of what a call has printed and left.
ghost use Rattle.run_laws.specs.Laws.{AnsweredCallsGoOn, AnsweredOverflowsPass, FinishedCallsList, FirstRecordIsLegal, FrontsStayLegal, FrontsStayText, OverflowsPass};

/// Where a call finishes that went on from legal records under honest workers, the rows that its records list are the
/// extreme vectors, each once: the text is the listing of the polyhedron, with so many rows and lines.
pub fn finished_calls_list()
    ensures { FinishedCallsList }
{}

/// Wherever such a call stops, a file that has its records and some first ones of what it accepted has legal records.
pub fn fronts_stay_legal()
    ensures { FrontsStayLegal }
{}

/// Wherever a call stops, whatever its workers gave, a file that has its records and some first ones of what it accepted has
/// records that are a ledger text, if the records were one: so no record of it is bad.
pub fn fronts_stay_text()
    ensures { FrontsStayText }
{}

/// The first record of a feasible polyhedron, at a root at which its search may begin, is legal.
pub fn first_record_is_legal()
    ensures { FirstRecordIsLegal }
{}

/// Where a call under honest workers is ended by an overflow that a reply tells, a product passes.
pub fn overflows_pass()
    ensures { OverflowsPass }
{}

/// A call that goes on from legal records does not give up where each attempt is answered in full: nothing is lost, and nothing
/// leads nowhere.
pub fn answered_calls_go_on()
    ensures { AnsweredCallsGoOn }
{}

/// Where such a call is ended by an overflow that a reply tells, a product passes.
pub fn answered_overflows_pass()
    ensures { AnsweredOverflowsPass }
{}
