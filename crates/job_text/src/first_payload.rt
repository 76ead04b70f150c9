//! Reads the first payload of a ledger.
ghost use Rattle.std.specs.Prelude.{◌≡◌, ◌↔◌, ◌<◌, ◌^◌, ⊤, ℕ, List, length, IfOk, IfSome, IsNone, IsErrOf, IsTrue};
ghost use Rattle.plain_text.specs.Texts.{IsLineReadOf, IsReadOf};
ghost use Rattle.work_core.specs.Searches.{Search};
ghost use Rattle.job_text.specs.FirstPayloads.{IsFirstPayload, IsRootText, ledger_line};
ghost use Rattle.job_text.specs.Jobs.{sized};
ghost use Rattle.job_text.specs.KeyTexts.{HasKeyText};

use crate::PayloadStop;
use crate::lines::{has_size, key_behind, size_behind};
use plain_text::{is_text, split_line};
use poly_model::{Key, Poly, Root, WorkKind};
use poly_reader::{ParseStop, poly_of};
use std::alloc::Global;

/// What a ledger's first payload tells: which work is done on which polyhedron, and the root of the search.
#[derive(Drop)]
pub struct FirstPayload {
    pub work: WorkKind,
    pub root: Root,
    pub poly: Poly,
}

fn read_ledger_line(line: &[u8]) -> Option<WorkKind>
    ensures { IsReadOf (λ _. ⊤) ledger_line line.now result }
{
    if is_text(line, b"lrs-ledger 1 subsets") {
        Some(WorkKind::Subsets)
    } else if is_text(line, b"lrs-ledger 1 subtrees") {
        Some(WorkKind::Subtrees)
    } else {
        None
    }
}

// The work that the first line names.
fn work_behind(payload: &[u8]) -> Option<(WorkKind, &[u8])>
    ensures { IsLineReadOf (λ _. ⊤) ledger_line payload.now result }
{
    let (line, rest) = split_line(payload)?;
    let work = read_ledger_line(line)?;
    Some((work, rest))
}

// Whether a key that has a text may be the root of a search by this work.
fn is_root_of(work: WorkKind, root: &Key) -> bool
    requires { HasKeyText root.now }
    ensures { IsTrue result ↔ IsRootText work root.now }
{
    match work {
        WorkKind::Subsets => root.is_empty(),
        WorkKind::Subtrees => true,
    }
}

// The file behind the line that says how many bytes it has.
fn file_behind(text: &[u8]) -> Option<&[u8]>
    ensures some { IfSome result (λ file. text.now ≡ sized file.now) }
    ensures small { IfSome result (λ file. length file.now < 2 ^ 64) }
    ensures none { IsNone result → (file : List ℕ) → length file < 2 ^ 64 → text.now ≡ sized file → ⊥ }
{
    let (size, file) = size_behind(text)?;
    if has_size(file, size) {
        Some(file)
    } else {
        None
    }
}

/// What a ledger's first payload tells. `Bad` where it is the first payload of no search.
pub fn read_first_payload(alloc: Global, payload: &[u8]) -> Result<FirstPayload, PayloadStop>
    ensures ok { IfOk result (λ f. IsFirstPayload (record { work = f.work; polyhedron = f.poly; root = f.root.key }) payload.now) }
    ensures bad { IsErrOf result PayloadStop.Bad → (s : Search) → IsFirstPayload s payload.now → ⊥ }
{
    let (work, rest) = match work_behind(payload) {
        Some(found) => found,
        None => return Err(PayloadStop::Bad),
    };
    let (root, rest) = match key_behind(rest, b"root ") {
        Some(found) => found,
        None => return Err(PayloadStop::Bad),
    };
    if !is_root_of(work, &root) {
        return Err(PayloadStop::Bad);
    }
    let file = match file_behind(rest) {
        Some(found) => found,
        None => return Err(PayloadStop::Bad),
    };
    match poly_of(alloc, file) {
        Ok(poly) => Ok(FirstPayload {
            work,
            root: Root::new(root),
            poly,
        }),
        Err(ParseStop::Bad(_)) => Err(PayloadStop::Bad),
        Err(ParseStop::Memory) => Err(PayloadStop::Memory),
    }
}
