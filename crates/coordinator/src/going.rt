//! A call from its first action to its end.
ghost use Rattle.std.specs.Prelude.{◌≡◌, ◌⊎◌, ◌≤◌, ◌++◌, [], ℕ, List, length, IfOk, OnErr, IsErrOf};
ghost use Rattle.poly_model.specs.declared.overflow.Overflow.{Overflow as Passed};
ghost use Rattle.poly_model.specs.FreeColumns.{AreLines};
ghost use Rattle.poly_model.specs.Limits.{most_columns};
ghost use Rattle.poly_model.specs.Systems.{cone_of};
ghost use Rattle.poly_io.specs.Causes.{RisesAt};
ghost use Rattle.work_core.specs.Searches.{Search};
ghost use Rattle.job_text.specs.declared.reply.Reply.{Reply as TheReply};
ghost use Rattle.job_ledger.specs.Ledgers.{IsLedgerAt};
ghost use Rattle.run_state.specs.Payloads.{IsLedgerText};
ghost use Rattle.coordinator_core.specs.declared.action.Action.TheVariants.{Finish};
ghost use Rattle.coordinator_core.specs.Machine.{next_action};
ghost use Rattle.coordinator.specs.Following.{AreOut, EndsBy, Finishes, GivesUp, LeadsSomewhere};
ghost use Rattle.coordinator.specs.Leaving.{IsRefusedBy, LeavesFronts};
ghost use Rattle.coordinator.specs.Ending.{PrintsWith, RestsWith};
ghost use Rattle.coordinator.specs.Stops.{IsOfPrinting};

use crate::TurnStop;
use crate::ending::Ending;
use crate::following::follow;
use crate::stops::GoStop;
use coordinator_core::Core;
use disk_core::Disk;
use job_ledger::Ledger;
use poly_io::Sink;
use poly_model::{Lines, Listed};
use run_ledger::{PrintStop, PrintedRun, print_run};
use std::alloc::Global;
use workers_io::Workers;

// A call on its way: its ledger, its core, and the lines of what is searched.
#[derive(Drop)]
pub(crate) struct Going {
    pub(crate) ledger: Ledger,
    pub(crate) core: Core,
    pub(crate) lines: Lines,
}

// Prints what the ledger records.
fn print<D: Disk, O: Sink>(
    alloc: Global,
    going: &Going,
    disk: &mut D,
    out: &mut O,
) -> Result<Listed, GoStop>
    requires lines { AreLines (cone_of going.now.core.run.search.polyhedron) going.now.lines }
    requires few { length going.now.lines ≤ most_columns }
    ensures rests { RestsWith D.Disk disk.old disk.new going.now.ledger [] }
    ensures prints { PrintsWith D.Disk disk.old going.now.ledger [] going.now.core.run.search.polyhedron
        (O.written out.old) (O.written out.new) result }
    ensures leaves { LeavesFronts D.Disk disk.old disk.new going.now.ledger [] }
    ensures bad { (place : ℕ) → IsErrOf result (GoStop.BadLedger place) → (records : List (List ℕ)) (s : Search) (replies : List TheReply)
        → IsLedgerAt going.now.ledger records (D.seen disk.old) (D.images disk.old) → IsLedgerText s replies records
        → s.polyhedron ≡ going.now.core.run.search.polyhedron → ⊥ }
    ensures printing { IsOfPrinting result }
    ensures disk_cause { RisesAt GoStop.DiskFault (D.faults disk.old) (D.faults disk.new) result }
    ensures sink_cause { RisesAt GoStop.WriteFault (O.faults out.old) (O.faults out.new) result }
{
    let run = PrintedRun {
        ledger: &going.ledger,
        poly: going.core.state().poly(),
        lines: going.lines.as_slice(),
    };
    match print_run(alloc, &run, disk, out) {
        Ok(listed) => Ok(listed),
        Err(PrintStop::BadLedger { place }) => Err(GoStop::BadLedger { place }),
        Err(PrintStop::DiskFault) => Err(GoStop::DiskFault),
        Err(PrintStop::WriteFault) => Err(GoStop::WriteFault),
        Err(PrintStop::Memory) => Err(GoStop::Memory),
    }
}

// Turns until nothing is left to do, and then prints what the ledger records.
pub(crate) fn go_on<D: Disk, W: Workers, O: Sink>(
    alloc: Global,
    going: &mut Going,
    disk: &mut D,
    workers: &mut W,
    out: &mut O,
) -> Result<Listed, GoStop>
    requires out { AreOut going.old.core (W.out workers.old) }
    requires lines { AreLines (cone_of going.old.core.run.search.polyhedron) going.old.lines }
    requires few { length going.old.lines ≤ most_columns }
    // Whatever the answer.
    ensures goes { (texts : List (List ℕ)) × LeadsSomewhere going.old.core (W.history workers.old) (W.history workers.new) texts
        × LeavesFronts D.Disk disk.old disk.new going.old.ledger texts }
    // At the end nothing is left to do, and what the ledger records then is printed.
    ensures done { IfOk result (λ listed. (texts : List (List ℕ)) × Finishes going.old.core (W.history workers.old) (W.history workers.new) texts
        × RestsWith D.Disk disk.old disk.new going.old.ledger texts
        × PrintsWith D.Disk disk.old going.old.ledger texts going.old.core.run.search.polyhedron (O.written out.old) (O.written out.new) result) }
    ensures part { OnErr result ((out.new ≡ out.old)
        ⊎ ((texts : List (List ℕ)) × Finishes going.old.core (W.history workers.old) (W.history workers.new) texts
        × RestsWith D.Disk disk.old disk.new going.old.ledger texts
        × PrintsWith D.Disk disk.old going.old.ledger texts going.old.core.run.search.polyhedron (O.written out.old) (O.written out.new) result)) }
    ensures lost { (lost strays : ℕ) → IsErrOf result (GoStop.Lost lost strays) → (out.new ≡ out.old)
        × (texts : List (List ℕ)) × GivesUp going.old.core lost strays (W.history workers.old) (W.history workers.new) texts
        × RestsWith D.Disk disk.old disk.new going.old.ledger texts }
    ensures overflow { (o : Passed) → IsErrOf result (GoStop.Overflow o) → (out.new ≡ out.old)
        × (texts : List (List ℕ)) × EndsBy going.old.core o (W.history workers.old) (W.history workers.new) texts
        × RestsWith D.Disk disk.old disk.new going.old.ledger texts }
    ensures past { (need most : ℕ) → IsErrOf result (GoStop.LedgerLimit need most) → (out.new ≡ out.old)
        × (texts : List (List ℕ)) × LeadsSomewhere going.old.core (W.history workers.old) (W.history workers.new) texts
        × LeavesFronts D.Disk disk.old disk.new going.old.ledger texts × IsRefusedBy going.old.ledger texts need most }
    // Only over a disk that does not keep its model.
    ensures bad { (place : ℕ) → IsErrOf result (GoStop.BadLedger place) →
        (texts : List (List ℕ)) × Finishes going.old.core (W.history workers.old) (W.history workers.new) texts
        × ((records : List (List ℕ)) (s : Search) (replies : List TheReply)
        → IsLedgerAt going.old.ledger records (D.seen disk.old) (D.images disk.old) → IsLedgerText s replies (records ++ texts)
        → s.polyhedron ≡ going.old.core.run.search.polyhedron → ⊥) }
    // Where nothing is left to do at the beginning nothing is started.
    ensures idle { next_action going.old.core ≡ Finish → workers.new ≡ workers.old }
    ensures disk_cause { RisesAt GoStop.DiskFault (D.faults disk.old) (D.faults disk.new) result }
    ensures sink_cause { RisesAt GoStop.WriteFault (O.faults out.old) (O.faults out.new) result }
    ensures honest { W.honest workers.old → W.honest workers.new }
{
    match follow(alloc, &mut going.ledger, disk, &mut going.core, workers) {
        Ok(Ending::Whole) => print(alloc, going, disk, out),
        Ok(Ending::GivenUp { lost, strays }) => Err(GoStop::Lost { lost, strays }),
        Err(TurnStop::DiskFault) => Err(GoStop::DiskFault),
        Err(TurnStop::LedgerLimit { need, limit }) => Err(GoStop::LedgerLimit { need, limit }),
        Err(TurnStop::Overflow(overflow)) => Err(GoStop::Overflow(overflow)),
        Err(TurnStop::Memory) => Err(GoStop::Memory),
    }
}
