//! How what was collected is handed to the core.
ghost use Rattle.std.specs.Prelude.{◌≡◌, ◌⊎◌, ◌≤◌, ◌<◌, ◌^◌, ◌∷◌, [], ℕ, List, length, OnOk, OnErr, IfOk, IsErrOf};
ghost use Rattle.poly_io.specs.Causes.{RisesAt};
ghost use Rattle.poly_model.specs.declared.overflow.Overflow.{Overflow as Passed};
ghost use Rattle.job_ledger.specs.Ledgers.{IsPastLimit, end_of};
ghost use Rattle.workers_io.specs.Collects.{happening_of};
ghost use Rattle.coordinator_core.specs.declared.event.Event.{Event as TheEvent};
ghost use Rattle.coordinator_core.specs.declared.verdict.Verdict.TheVariants.{Ends};
ghost use Rattle.coordinator_core.specs.Events.{IsEventOf};
ghost use Rattle.coordinator_core.specs.Machine.{after, verdict_of};
ghost use Rattle.coordinator_core.specs.Traces.{GoesOn};
ghost use Rattle.coordinator_laws.specs.Courses.{IsToldAsEvent, kept_text};
ghost use Rattle.coordinator.specs.Leaving.{Adds, LeavesFronts};

use crate::TurnStop;
use crate::keeping::keep;
use coordinator_core::{Core, Event, Verdict};
use disk_core::Disk;
use job_ledger::Ledger;
use std::alloc::{AllocError, Global};
use workers_io::Collected;

// How many bytes there are: no slice has 2^64.
fn size_of(bytes: &[u8]) -> usize
    ensures { length bytes.now < 2 ^ 64 }
{
    bytes.len()
}

// What bytes are to the core: whatever they are, an event.
fn event_of<'a>(
    alloc: Global,
    core: &Core,
    attempt: u64,
    bytes: &'a [u8],
) -> Result<Event<'a>, AllocError>
    ensures event { IfOk result (IsEventOf core.now attempt bytes.now) }
    ensures there { OnErr result ((e : TheEvent) × IsEventOf core.now attempt bytes.now e) }
{
    let _ = size_of(bytes);
    core.event_of(alloc, attempt, bytes)
}

// What was collected is to the core.
fn event_in<'a>(
    alloc: Global,
    core: &Core,
    collected: &'a Collected,
) -> Result<Event<'a>, AllocError>
    ensures event { IfOk result (λ e. IsToldAsEvent core.now e (happening_of collected.now)) }
    ensures there { OnErr result ((e : TheEvent) × IsToldAsEvent core.now e (happening_of collected.now)) }
{
    match collected {
        Collected::Reply { attempt, bytes } => event_of(alloc, core, *attempt, bytes.as_slice()),
        Collected::Broken { attempt } => Ok(Event::Lost { attempt: *attempt }),
    }
}

// What becomes of an event.
fn verdict_in(core: &Core, event: &Event) -> Result<Verdict, AllocError>
    ensures { IfOk result (λ v. v ≡ verdict_of core.now event.now) }
{
    match event {
        Event::Answer { attempt, reply } => core.judge(*attempt, reply),
        Event::Lost { attempt: _ } => Ok(Verdict::Loss),
    }
}

// Takes in what was collected: an accepted reply comes into the ledger, and only then to the core.
pub(crate) fn take<D: Disk>(
    alloc: Global,
    ledger: &mut Ledger,
    disk: &mut D,
    core: &mut Core,
    collected: &Collected,
) -> Result<(), TurnStop>
    ensures taken { OnOk result ((e : TheEvent) × IsToldAsEvent core.old e (happening_of collected.now)
        × GoesOn (verdict_of core.old e) × (core.new ≡ after core.old e)
        × Adds D.Disk disk.old disk.new ledger.old ledger.new (kept_text (verdict_of core.old e) (happening_of collected.now))) }
    ensures fits { OnOk result ((ledger.new ≡ ledger.old) ⊎ (end_of ledger.new.sizes ≤ ledger.new.limit)) }
    ensures stopped { OnErr result ((e : TheEvent) × IsToldAsEvent core.old e (happening_of collected.now)
        × LeavesFronts D.Disk disk.old disk.new ledger.old (kept_text (verdict_of core.old e) (happening_of collected.now))) }
    ensures overflow { (o : Passed) → IsErrOf result (TurnStop.Overflow o) →
        (e : TheEvent) × IsToldAsEvent core.old e (happening_of collected.now)
        × (verdict_of core.old e ≡ Ends o) × (disk.new ≡ disk.old) × (ledger.new ≡ ledger.old) }
    ensures past { (need most : ℕ) → IsErrOf result (TurnStop.LedgerLimit need most) →
        (e : TheEvent) × IsToldAsEvent core.old e (happening_of collected.now)
        × (bytes : List ℕ) × (kept_text (verdict_of core.old e) (happening_of collected.now) ≡ bytes ∷ [])
        × IsPastLimit ledger.old (length bytes) need most × (disk.new ≡ disk.old) × (ledger.new ≡ ledger.old) }
    ensures cause { RisesAt TurnStop.DiskFault (D.faults disk.old) (D.faults disk.new) result }
{
    let event = match event_in(alloc, core, collected) {
        Ok(event) => event,
        Err(AllocError) => return Err(TurnStop::Memory),
    };
    let verdict = match verdict_in(core, &event) {
        Ok(verdict) => verdict,
        Err(AllocError) => return Err(TurnStop::Memory),
    };
    if let Verdict::Ends(overflow) = verdict {
        return Err(TurnStop::Overflow(overflow));
    }
    if let Err(stop) = keep(ledger, disk, verdict, collected) {
        return Err(stop);
    }
    match core.on(event) {
        Ok(_) => Ok(()),
        Err(AllocError) => Err(TurnStop::Memory),
    }
}
