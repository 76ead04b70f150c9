//! What a run has printed and left, where its workers are honest, and that it goes on to its end, where each attempt is
//! answered in full: laws of the coordinator's calls, functions with an empty body.
#![tactic(auto)]

mod laws;

pub use laws::{
    answered_calls_go_on, answered_overflows_pass, finished_calls_list, first_record_is_legal,
    fronts_stay_legal, fronts_stay_text, overflows_pass,
};
