//! How a job that was handed out is given to a worker.
ghost use Rattle.std.specs.Prelude.{◌≡◌, ◌⊎◌, [], ◌∷◌, ℕ, OnOk, OnErr, IfErr, IfOk};
ghost use Rattle.workers_io.specs.History.{Tells, refused};
ghost use Rattle.coordinator.specs.Starting.{IsStarted};
ghost use Rattle.coordinator_laws.specs.Courses.{job_head_of, text_for};

use crate::TurnStop;
use coordinator_core::{Core, Event};
use job_text::{JobHead, write_job};
use poly_model::Key;
use std::alloc::Global;
use work_core::Budget;
use workers_io::Workers;

// What the job of a key asks for.
pub(crate) fn job_head(core: &Core, key: Key, budget: Budget) -> JobHead
    ensures { result ≡ job_head_of core.now.run.search key budget }
{
    let run = core.state();
    JobHead {
        work: run.work(),
        root: *run.root(),
        key,
        budget,
    }
}

// Gives the job of an attempt to a worker. A start that fails is a loss.
pub(crate) fn start_job<W: Workers>(
    alloc: Global,
    core: &mut Core,
    workers: &mut W,
    attempt: u64,
    head: &JobHead,
) -> Result<(), TurnStop>
    requires { head.now ≡ job_head_of core.old.run.search head.now.key head.now.budget }
    ensures started { OnOk result (IsStarted core.old core.new attempt (text_for core.old.run.search head.now.key head.now.budget)
        (W.out workers.old) (W.out workers.new) (W.history workers.old) (W.history workers.new)) }
    ensures stopped { OnErr result (Tells (W.history workers.old) (W.history workers.new) []
        ⊎ Tells (W.history workers.old) (W.history workers.new)
        (refused attempt (text_for core.old.run.search head.now.key head.now.budget) ∷ [])) }
    ensures memory { IfErr result (λ stop. stop ≡ TurnStop.Memory) }
    ensures honest { W.honest workers.old → W.honest workers.new }
{
    let text = write_job(alloc, head, core.state().poly())?;
    if workers.start(attempt, text.as_slice()).is_ok() {
        return Ok(());
    }
    core.on(Event::Lost { attempt })?;
    Ok(())
}
