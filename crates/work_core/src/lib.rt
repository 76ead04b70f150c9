//! What a job is: a listing that is parted by keys, the two works that part it, and the rule of a run under a budget.
//!
//! What is stated stands in `specs/`.
#![tactic(auto)]

mod budget;
mod call;
mod counting;
mod laws;
mod lines;
mod stops;
mod work;

pub use budget::{Budget, MOST_BASES, MOST_DEPTH};
pub use call::JobCall;
pub use counting::{one_base, one_job, one_row};
pub use laws::{
    each_has_one_list, first_key_has_all, shares_are_of_vectors, shares_hold, walks_split,
    works_show,
};
pub use lines::{give_back, write_given, write_row};
pub use stops::{JobStop, WorkStop};
pub use work::Work;
