//! How a disk counts its faults.
ghost use Rattle.std.specs.Prelude.{◌≡◌, Ok, IfOk};
ghost use Rattle.poly_io.specs.Causes.{HasCause};

use poly_io::Failed;

/// What was done, with one fault more where it is an error.
pub(crate) fn counted<T, E: Drop>(done: Result<T, E>, faults: &mut u64) -> Result<T, Failed>
    ensures value { IfOk result (λ x. done ≡ Ok x) }
    ensures cause { HasCause faults.old faults.new result }
{
    match done {
        Ok(value) => Ok(value),
        Err(_) => {
            *faults = faults.saturating_add(1);
            Err(Failed)
        }
    }
}
