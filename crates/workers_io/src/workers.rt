//! The trait of all workers.
ghost use Rattle.std.specs.Prelude.{◌≡◌, ◌<◌, ◌≤◌, ◌++◌, ◌∷◌, [], List, ℕ, Option, Some, length, IfOk, OnOk, OnErr};
ghost use Rattle.poly_io.specs.Causes.{HasCause, Rose};
ghost use Rattle.workers_io.specs.History.{Happening, IsHonest, Tells, refused, started};
ghost use Rattle.workers_io.specs.Collects.{IsBroken, collected_attempt, happening_of, out_after};

use crate::Collected;
use poly_io::Failed;
use std::alloc::AllocError;

/// Workers that are given texts, each with the number of an attempt. What they did may be untold, as that of real
/// processes is; so what a clause says of it stands under that premise, and no call asks for it.
pub trait Workers {
    /// The attempts that are out: started, and named by no collect since. This is always told.
    ghost out: { Self → List ℕ };

    /// What was started and collected, in order, where the workers tell it.
    ghost history: { Self → Option (List Happening) };

    /// The replies that a text allows.
    ghost allows: { List ℕ → List ℕ → Type 0 };

    /// Each reply that they give begins one that the text of the last start with its number allows.
    ghost honest: { Self → Type 0 };

    /// How often a start or an attempt has failed. Past 2^64 - 1 failures the count may stand still.
    ghost faults: { Self → ℕ };

    /// Starts an attempt on a text.
    fn start(&mut self, attempt: u64, text: &[u8]) -> Result<(), Failed>
        ensures out { OnOk result (out self.new ≡ out self.old ++ attempt ∷ []) }
        ensures not_out { OnErr result (out self.new ≡ out self.old) }
        ensures told { OnOk result (Tells (history self.old) (history self.new) (started attempt text.now ∷ [])) }
        ensures told_refused { OnErr result
            (Tells (history self.old) (history self.new) (refused attempt text.now ∷ [])) }
        ensures honest { honest self.old → honest self.new }
        ensures cause { HasCause (faults self.old) (faults self.new) result };

    /// Waits for what comes next. It may name an attempt that is not out. Where the memory is refused nothing was
    /// collected.
    fn collect(&mut self) -> Result<Collected, AllocError>
        requires { 0 < length (out self.old) }
        ensures out { IfOk result (λ c. out self.new ≡ out_after (out self.old) (collected_attempt c)) }
        ensures told { IfOk result (λ c. Tells (history self.old) (history self.new) (happening_of c ∷ [])) }
        ensures broken { IfOk result (λ c. IsBroken c → Rose (faults self.old) (faults self.new)) }
        ensures still_out { OnErr result (out self.new ≡ out self.old) }
        ensures told_nothing { OnErr result (Tells (history self.old) (history self.new) []) }
        ensures honest { honest self.old → honest self.new }
        ensures later { faults self.old ≤ faults self.new };

    /// The history that honest workers tell is honest.
    ghost honest_history: { (workers : Self) (happenings : List Happening) → honest workers
        → history workers ≡ Some happenings → IsHonest allows [] happenings };
}
