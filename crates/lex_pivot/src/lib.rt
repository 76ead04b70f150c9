//! The lexicographic pivots of a search, read off a dictionary: the ratio test, the parent, the test of a child.
#![tactic(auto)]

mod before_root;
mod candidates;
mod child;
mod feasible;
mod leads;
mod negatives;
mod orderings;
mod parents;
mod ratio;
mod reading;
mod relative;
mod rows;
mod scan;
mod ties;
mod word_child;
mod word_ratio;
mod word_reading;
mod word_table;
mod word_ties;
mod word_zeros;

pub use child::{is_child, leads_down, leads_up};
pub use feasible::{is_lex_feasible, is_lex_feasible_by};
pub use leads::Leads;
pub use parents::{Pivot, parent, parent_along, parent_by};
pub use ratio::{leaving, leaving_along, leaving_by, none_leaves};
pub use reading::Reading;
pub use relative::Order;
pub use rows::{comes_before, is_outside, label_of_column, row_at};
pub use scan::{differs, is_greater, is_less, outside_sign, root_sign};
pub use word_ratio::none_leaves_in_words;
pub use word_table::{WordTable, is_zero_at};
pub use word_zeros::{outside_sign_on_zeros, root_sign_on_zeros};
