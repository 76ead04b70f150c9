//! A history, kept in memory.
ghost use Rattle.std.specs.Prelude.{◌≡◌, ◌∷◌, [], Some, None, IfOk, OnOk, OnErr, IsTrue, IsFalse, ◌++◌};
ghost use Rattle.workers_io.specs.History.{Tells, started, refused};
ghost use Rattle.workers_io.specs.Collects.{happening_of};
ghost use Rattle.workers_io.specs.Telling.{told_of};

use crate::Collected;
use crate::told::Told;
use poly_io::{Bytes, Failed};
use std::alloc::{AllocError, Global};
use std::marker::Model;

/// What happened, in order. Once the memory for more is refused it tells nothing.
#[derive(Drop)]
pub(crate) struct Log {
    alloc: Global,
    told: Vec<Told>,
    whole: bool,
}

impl Model for Log {
    ghost use Rattle.std.specs.Prelude.{List, Option, Some, None, map, if◌then◌else◌};
    ghost use Rattle.workers_io.specs.History.{Happening};
    ghost use Rattle.workers_io.specs.Telling.{told_of};

    ghost Value = { Option (List Happening) };

    ghost view = { λ l. if l.whole then Some (map told_of l.told.items) else None };
}

// These bytes once more.
fn copied(alloc: Global, bytes: &[u8]) -> Result<Bytes, AllocError>
    ensures { IfOk result (λ b. b ≡ bytes.now) }
{
    Ok(Bytes::from_vec(bytes.to_vec(alloc)?))
}

// What is told of a start.
fn told_start(
    alloc: Global,
    attempt: u64,
    text: &[u8],
    begun: Result<(), Failed>,
) -> Result<Told, AllocError>
    ensures ok { OnOk begun (IfOk result (λ t. told_of t ≡ started attempt text.now)) }
    ensures err { OnErr begun (IfOk result (λ t. told_of t ≡ refused attempt text.now)) }
{
    let text = copied(alloc, text)?;
    match begun {
        Ok(()) => Ok(Told::Started { attempt, text }),
        Err(Failed) => Ok(Told::Refused { attempt, text }),
    }
}

// What is told of a collect.
fn told_collect(alloc: Global, collected: &Collected) -> Result<Told, AllocError>
    ensures { IfOk result (λ t. told_of t ≡ happening_of collected.now) }
{
    match collected {
        Collected::Reply { attempt, bytes } => Ok(Told::Replied {
            attempt: *attempt,
            bytes: copied(alloc, bytes.as_slice())?,
        }),
        Collected::Broken { attempt } => Ok(Told::Broken { attempt: *attempt }),
    }
}

// Keeps one thing more, if it is there, and answers whether it is kept.
fn push(all: &mut Vec<Told>, told: Result<Told, AllocError>) -> bool
    ensures kept { IsTrue result → IfOk told (λ t. all.new.items ≡ all.old.items ++ t ∷ []) }
    ensures err { OnErr told (IsFalse result) }
{
    match told {
        Ok(told) => all.push(told).is_ok(),
        Err(AllocError) => false,
    }
}

impl Log {
    /// Nothing has happened yet. Takes no memory.
    pub(crate) fn new(alloc: Global) -> Log
        ensures { result ≡ Some [] }
    {
        Log {
            alloc,
            told: Vec::new(alloc),
            whole: true,
        }
    }

    // Keeps one thing more. Where there is none, nothing is told from here on.
    fn keep(&mut self, told: Result<Told, AllocError>)
        ensures ok { IfOk told (λ t. Tells self.old self.new (told_of t ∷ [])) }
        ensures err { OnErr told (self.new ≡ None) }
    {
        self.whole = push(&mut self.told, told) && self.whole;
    }

    /// A start, which succeeded or not.
    pub(crate) fn start(&mut self, attempt: u64, text: &[u8], begun: Result<(), Failed>)
        ensures ok { OnOk begun (Tells self.old self.new (started attempt text.now ∷ [])) }
        ensures err { OnErr begun (Tells self.old self.new (refused attempt text.now ∷ [])) }
    {
        let told = told_start(self.alloc, attempt, text, begun);
        self.keep(told);
    }

    /// A collect.
    pub(crate) fn collect(&mut self, collected: &Collected)
        ensures { Tells self.old self.new (happening_of collected.now ∷ []) }
    {
        let told = told_collect(self.alloc, collected);
        self.keep(told);
    }
}
