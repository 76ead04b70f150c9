//! The last of some labels whose number in a column is not 0.
ghost use Rattle.std.specs.Prelude.{◌≡◌, ◌≢◌, ◌<◌, ◌↔◌, IsTrue, MatchOption, suc, pos, length};
ghost use Rattle.std.specs.List.{All, Contains, slice_index_or};
ghost use Rattle.dictionary.specs.Views.{number};
ghost use Rattle.dictionary.specs.Positions.{AreZeroFrom, IsCellColumn, IsLead};

use crate::{Dict, Position};
use columns::Column;
use poly_model::Label;

impl Dict {
    /// The place of the last label in `order` whose number in column j is not 0, and `None` where the numbers of all are 0.
    /// An order is any list of labels that its caller asks about, such as that relative to a root. Column 0 has the
    /// constants.
    pub fn lead(&self, order: &[Label], j: usize) -> Option<usize>
        requires labels { All (λ l. Contains self.now.labels l) order.now }
        requires column { j < suc (length self.now.columns) }
        ensures { MatchOption result (AreZeroFrom self.now order.now j 0) (λ n. IsLead self.now order.now j n) }
    {
        let column = self.column(j);
        'places: for n in (0..order.len()).rev() {
            if self.is_nonzero(&column, label_at(order, n), j) {
                return Some(n);
            }
        }
        None
    }

    // Whether the number of a label in column j, whose cells these are, is not 0.
    fn is_nonzero(&self, cells: &Column, label: Label, j: usize) -> bool
        requires cells { IsCellColumn self.now j cells.now }
        requires label { Contains self.now.labels label }
        ensures { IsTrue result ↔ (number self.now label j ≢ pos 0) }
    {
        let _ = &self.phase;
        match self.position(label) {
            Position::Row(i) => cells.is_nonzero(i as usize),
            Position::Column(own) => own as usize == j,
        }
    }
}

// The label at a place.
fn label_at(labels: &[Label], place: usize) -> Label
    requires { place < length labels.now }
    ensures { result ≡ slice_index_or labels.now place 0 }
{
    labels[place]
}
