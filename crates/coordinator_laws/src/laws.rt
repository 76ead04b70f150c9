//! Laws of the machine and its records: functions with an empty body.
ghost use Rattle.coordinator_laws.specs.Ends.{CoursesEnd, NoneWaitsAtFinish, StepsLower};
ghost use Rattle.coordinator_laws.specs.Answered.{AnsweredLoseNothing};
ghost use Rattle.coordinator_laws.specs.Laws.{EventsKeepLegal, EventsKeepText, HonestIsAccepted, HonestOverflowsPass, TracesTellTheRun};
ghost use Rattle.coordinator_laws.specs.Restarts.{FrontsAreLegal, RestartsKeepLegal};

/// Whatever the workers gave, the records stay a ledger text.
pub fn events_keep_text()
    ensures { EventsKeepText }
{}

/// The run of the state that a trace leads to is that of all the replies.
pub fn traces_tell_the_run()
    ensures { TracesTellTheRun }
{}

/// Under honest workers legal records stay legal.
pub fn events_keep_legal()
    ensures { EventsKeepLegal }
{}

/// Honest workers cause no clash: an honest whole reply that ends in `end`, to an attempt that is out, is accepted.
pub fn honest_is_accepted()
    ensures { HonestIsAccepted }
{}

/// Under honest workers a product passes where a reply ends the call by an overflow.
pub fn honest_overflows_pass()
    ensures { HonestOverflowsPass }
{}

/// Where each attempt is answered in full, a call that goes on from legal records loses nothing.
pub fn answered_lose_nothing()
    ensures { AnsweredLoseNothing }
{}

/// A front of legal records that is not empty is legal.
pub fn fronts_are_legal()
    ensures { FrontsAreLegal }
{}

/// However often a call is stopped and begun anew, legal records stay legal.
pub fn restarts_keep_legal()
    ensures { RestartsKeepLegal }
{}

/// Each step lowers what is left to do, or adds bytes to the records.
pub fn steps_lower()
    ensures { StepsLower }
{}

/// So a call has no more steps than it has left to do where it begins and bytes are added to the records.
pub fn courses_end()
    ensures { CoursesEnd }
{}

/// Where the machine finishes no key waits.
pub fn none_waits_at_finish()
    ensures { NoneWaitsAtFinish }
{}
