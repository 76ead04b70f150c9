//! Laws, functions with an empty body: a call of `resume` goes on from what an earlier call has left. Each speaks of the disk
//! before and after the earlier call, and of the disk that the later call finds; each image of that disk was left since the
//! earlier call began.
ghost use Rattle.std.specs.Prelude.{◌⊎◌, ◌∷◌, [], ℕ, List};
ghost use Rattle.disk_core.specs.Moments.{LeavesOnly};
ghost use Rattle.job_ledger.specs.Records.{HasNoRun};
ghost use Rattle.job_text.specs.FirstPayloads.{first_payload};
ghost use Rattle.lrs_cli.specs.Ledgers.{AllGoOnFrom, GoesOnFrom};
ghost use Rattle.lrs_cli.specs.Run.{IsLeftByRun, IsTextOf};
ghost use Rattle.work_core.specs.Searches.{Search as Searched};

use disk_core::Disk;

/// After `run` in a file without a run there is none, or one that `resume` goes on from: the one search of the text that was
/// read.
pub fn resume_goes_on_after_a_run<D: Disk, E: Disk>(
    _before: &D,
    _after: &D,
    _found: &E,
    _text: &[u8],
)
    ensures { ((c : List ℕ) → D.images _before.now c → HasNoRun c)
        → ((c : List ℕ) → E.images _found.now c → D.since _after.now (D.moment _before.now) c)
        → IsLeftByRun D.Disk _before.now _after.now _text.now
        → ((c : List ℕ) → E.images _found.now c → HasNoRun c)
        ⊎ ((s : Searched) × IsTextOf s _text.now × AllGoOnFrom (first_payload s ∷ []) (E.images _found.now)) }
{}

/// After `resume` another goes on, from the same records.
pub fn resume_goes_on_after_a_resume<D: Disk, E: Disk>(_before: &D, _after: &D, _found: &E)
    ensures { (records : List (List ℕ)) → AllGoOnFrom records (D.images _before.now)
        → ((c : List ℕ) → E.images _found.now c → D.since _after.now (D.moment _before.now) c)
        → LeavesOnly D.moment D.since _before.now _after.now (λ c. D.images _before.now c ⊎ GoesOnFrom records c)
        → AllGoOnFrom records (E.images _found.now) }
{}
