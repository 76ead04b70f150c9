//! All actions of a call, one after the other.
ghost use Rattle.std.specs.Prelude.{◌≡◌, ℕ, List, IfOk, OnOk, IfSome, IsNone};
ghost use Rattle.poly_io.specs.Causes.{RisesAt};
ghost use Rattle.coordinator_core.specs.declared.action.Action.TheVariants.{Finish};
ghost use Rattle.coordinator_core.specs.Machine.{next_action};
ghost use Rattle.coordinator.specs.Following.{AreOut, LeadsTo, IsMove, last_action};
ghost use Rattle.coordinator.specs.Leaving.{Adds};
ghost use Rattle.coordinator.specs.Stops.{StopsTurns};

use crate::ending::Ending;
use crate::{TurnStop, turn};
use coordinator_core::{Action, Core};
use disk_core::Disk;
use job_ledger::Ledger;
use std::alloc::Global;
use workers_io::Workers;

// Where an action is none that starts or collects, the work has come to its end.
fn ending_of(action: &Action) -> Option<Ending>
    ensures none { IsNone result → IsMove action.now }
    ensures some { IfSome result (λ ending. action.now ≡ last_action ending) }
{
    match action {
        Action::Hand { .. } => None,
        Action::Collect => None,
        Action::Finish => Some(Ending::Whole),
        Action::GiveUp { lost, strays } => Some(Ending::GivenUp {
            lost: *lost,
            strays: *strays,
        }),
    }
}

// Turns until nothing is left to do, or too much was lost.
pub(crate) fn follow<D: Disk, W: Workers>(
    alloc: Global,
    ledger: &mut Ledger,
    disk: &mut D,
    core: &mut Core,
    workers: &mut W,
) -> Result<Ending, TurnStop>
    requires { AreOut core.old (W.out workers.old) }
    ensures went { OnOk result ((texts : List (List ℕ))
        × LeadsTo core.old core.new (W.history workers.old) (W.history workers.new) texts
        × Adds D.Disk disk.old disk.new ledger.old ledger.new texts) }
    ensures ended { IfOk result (λ ending. next_action core.new ≡ last_action ending) }
    // Where nothing is left to do at the beginning nothing is done.
    ensures idle { next_action core.old ≡ Finish → workers.new ≡ workers.old }
    ensures stopped { StopsTurns D.Disk disk.old disk.new ledger.old ledger.new
        core.old (W.history workers.old) (W.history workers.new) result }
    ensures cause { RisesAt TurnStop.DiskFault (D.faults disk.old) (D.faults disk.new) result }
    ensures honest { W.honest workers.old → W.honest workers.new }
{
    'turns: loop {
        match turn(alloc, ledger, disk, core, workers) {
            Ok(action) => {
                if let Some(ending) = ending_of(&action) {
                    return Ok(ending);
                }
            }
            Err(stop) => return Err(stop),
        }
    }
}
