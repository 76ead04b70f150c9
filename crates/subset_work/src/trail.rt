//! What the levels of a walk share, so that none has to hold it.
ghost use Rattle.std.specs.Prelude.{◌≡◌, ◌+◌, ◌≤◌, ◌<◌, ◌++◌, ◌∷◌, [], length, take, ok_or, IfSome, IsErrOf};
ghost use Rattle.poly_io.specs.Causes.{RisesAt};
ghost use Rattle.poly_model.specs.Keys.{IsKey};
ghost use Rattle.poly_model.specs.Limits.{most_labels};
ghost use Rattle.poly_model.specs.declared.overflow.Overflow.{Overflow as Passed};
ghost use Rattle.work_core.specs.Splits.{most_lines};
ghost use Rattle.subset_work.specs.Walked.{GivesBack};

use poly_io::Sink;
use poly_model::{Count, Key, Label, MOST_LABELS};
use work_core::{WorkStop, give_back};

/// The rows of the list at which a walk stands: each level knows how many are its own, and writes behind them alone. And
/// why the walk stopped, once it has.
#[derive(Drop)]
pub struct Trail {
    pub labels: [Label; MOST_LABELS],
    pub stop: WorkStop,
}

/// What was counted; where the walk stopped, why is noted.
fn noted(ended: Result<Count, WorkStop>, stop: &mut WorkStop) -> Option<Count>
    ensures { ok_or result stop.new ≡ ended }
{
    match ended {
        Ok(count) => Some(count),
        Err(why) => {
            *stop = why;
            None
        }
    }
}

impl Trail {
    /// The one of a walk that begins at this list.
    pub fn of(key: &Key) -> Trail
        ensures { take (length key.now) result.labels ≡ key.now }
    {
        let rows = key.labels();
        let mut labels = [Label::EXTRA; MOST_LABELS];
        labels[..key.len()].copy_from_slice(rows);
        Trail {
            labels,
            stop: WorkStop::WriteFault,
        }
    }

    /// A label comes behind so many.
    pub fn put(&mut self, len: usize, label: Label)
        requires { len < most_labels }
        ensures value { take (len + 1) self.new.labels ≡ take len self.old.labels ++ label ∷ [] }
        ensures kept { take len self.new.labels ≡ take len self.old.labels }
    {
        self.labels[len] = label;
    }

    /// Gives the list of so many labels back, if it is a key.
    #[inline(never)]
    pub fn give_list<S: Sink>(&mut self, len: usize, count: Count, out: &mut S) -> Option<Count>
        requires len { len ≤ most_labels }
        requires few { count.jobs < most_lines }
        ensures given { IsKey (take len self.old.labels) →
            GivesBack (take len self.old.labels) count (S.written out.old) (S.written out.new) (ok_or result self.new.stop) }
        ensures len { length (take len self.old.labels) ≡ len }
        ensures rows { IfSome result (λ d. d.rows ≡ count.rows) }
        ensures jobs { IfSome result (λ d. d.jobs ≤ count.jobs + 1) }
        ensures bases { IfSome result (λ d. d.bases ≡ count.bases) }
        ensures kept { self.new.labels ≡ self.old.labels }
        ensures overflow { (o : Passed) → IsErrOf (ok_or result self.new.stop) (WorkStop.Overflow o) → ⊥ }
        ensures cause { RisesAt WorkStop.WriteFault (S.faults out.old) (S.faults out.new) (ok_or result self.new.stop) }
    {
        let Some(key) = Key::from_ascending(&self.labels[..len]) else {
            return Some(count);
        };
        noted(give_back(&key, count, out), &mut self.stop)
    }
}
