//! One action of the machine.
ghost use Rattle.std.specs.Prelude.{◌≡◌, ◌⊎◌, ◌<◌, ℕ, List, IfOk, OnOk, OnErr, IsErrOf};
ghost use Rattle.poly_io.specs.Causes.{RisesAt};
ghost use Rattle.coordinator_core.specs.Machine.{next_action};
ghost use Rattle.coordinator.specs.Following.{AreOut, StepsTo, IsMove, most_actions};
ghost use Rattle.coordinator.specs.Leaving.{Adds};
ghost use Rattle.coordinator.specs.Stops.{StopsTurns};

use crate::TurnStop;
use crate::starting::{job_head, start_job};
use crate::taking::take;
use coordinator_core::{Action, Core};
use disk_core::Disk;
use job_ledger::Ledger;
use std::alloc::{AllocError, Global};
use workers_io::Workers;

/// Does what comes next, and answers it. What it accepts is acknowledged in the ledger when it returns. At `Finish` and
/// at `GiveUp` it does nothing. After an error the core and the ledger are given up.
///
/// `Overflow` is that of a reply: nothing is recorded then. `LedgerLimit` comes where the reply that was accepted does not
/// fit; the file is as it was.
pub fn turn<D: Disk, W: Workers>(
    alloc: Global,
    ledger: &mut Ledger,
    disk: &mut D,
    core: &mut Core,
    workers: &mut W,
) -> Result<Action, TurnStop>
    requires { AreOut core.old (W.out workers.old) }
    ensures action { IfOk result (λ a. a ≡ next_action core.old) }
    ensures out { OnOk result (AreOut core.new (W.out workers.new)) }
    // One step of the machine at most, which the workers tell; the ledger has what it accepts.
    ensures went { OnOk result ((texts : List (List ℕ))
        × StepsTo core.old core.new (W.history workers.old) (W.history workers.new) texts
        × Adds D.Disk disk.old disk.new ledger.old ledger.new texts) }
    ensures falls { IfOk result (λ a. IsMove a → most_actions core.new ledger.new < most_actions core.old ledger.old) }
    ensures rests { IfOk result (λ a. IsMove a ⊎ ((core.new ≡ core.old) × (workers.new ≡ workers.old)
        × (disk.new ≡ disk.old) × (ledger.new ≡ ledger.old))) }
    // An error comes only where something is to be done.
    ensures tries { OnErr result (IsMove (next_action core.old)) }
    ensures stopped { StopsTurns D.Disk disk.old disk.new ledger.old ledger.new
        core.old (W.history workers.old) (W.history workers.new) result }
    ensures past { (need most : ℕ) → IsErrOf result (TurnStop.LedgerLimit need most) → disk.new ≡ disk.old }
    ensures cause { RisesAt TurnStop.DiskFault (D.faults disk.old) (D.faults disk.new) result }
    ensures honest { W.honest workers.old → W.honest workers.new }
{
    core.is_sound();
    let action = core.next();
    match action {
        Action::Hand {
            attempt,
            key,
            budget,
        } => {
            let head = job_head(core, key, budget);
            match start_job(alloc, core, workers, attempt, &head) {
                Ok(()) => Ok(action),
                Err(stop) => Err(stop),
            }
        }
        Action::Collect => match workers.collect() {
            Ok(collected) => match take(alloc, ledger, disk, core, &collected) {
                Ok(()) => Ok(action),
                Err(stop) => Err(stop),
            },
            Err(AllocError) => Err(TurnStop::Memory),
        },
        Action::Finish => Ok(action),
        Action::GiveUp { lost: _, strays: _ } => Ok(action),
    }
}
