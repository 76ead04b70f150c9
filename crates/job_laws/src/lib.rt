//! Laws of jobs: what becomes of the keys that a run meets is a function of its job, so there is one outcome; and what a
//! reply may be follows from it.
//!
//! Each function is a law: its contract is the statement, which stands in `specs/`.
#![tactic(auto)]

mod laws;

pub use laws::{
    jobs_have_one_outcome, jobs_have_one_run, outcomes_split, runs_in_space_are_runs,
    same_rows_and_keys_serve, works_have_branches,
};
