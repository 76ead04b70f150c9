//! The numbers of a run, one more of each kind.
ghost use Rattle.std.specs.Prelude.{◌≡◌, ◌+◌, ◌<◌};
ghost use Rattle.work_core.specs.Splits.{most_bases, most_lines};

use poly_model::Count;

/// One base more was visited.
pub fn one_base(count: Count) -> Count
    requires { count.bases < most_bases }
    ensures rows { result.rows ≡ count.rows }
    ensures jobs { result.jobs ≡ count.jobs }
    ensures bases { result.bases ≡ count.bases + 1 }
{
    Count {
        bases: count.bases + 1,
        ..count
    }
}

/// One row more was shown.
pub fn one_row(count: Count) -> Count
    requires { count.rows < most_lines }
    ensures rows { result.rows ≡ count.rows + 1 }
    ensures jobs { result.jobs ≡ count.jobs }
    ensures bases { result.bases ≡ count.bases }
{
    Count {
        rows: count.rows + 1,
        ..count
    }
}

/// One key more was given back.
pub fn one_job(count: Count) -> Count
    requires { count.jobs < most_lines }
    ensures rows { result.rows ≡ count.rows }
    ensures jobs { result.jobs ≡ count.jobs + 1 }
    ensures bases { result.bases ≡ count.bases }
{
    Count {
        jobs: count.jobs + 1,
        ..count
    }
}
