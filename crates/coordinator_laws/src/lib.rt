//! What the steps of the coordinator machine make of the records: a ledger text stays one, under honest workers legal
//! records stay legal, however often a call is stopped and begun anew, and each call comes to an end.
#![tactic(auto)]

mod laws;

pub use laws::{
    answered_lose_nothing, courses_end, events_keep_legal, events_keep_text, fronts_are_legal,
    honest_is_accepted, honest_overflows_pass, none_waits_at_finish, restarts_keep_legal,
    steps_lower, traces_tell_the_run,
};
