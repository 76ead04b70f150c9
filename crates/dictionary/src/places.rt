//! Places of labels in lists of labels.
ghost use Rattle.std.specs.Prelude.{◌≡◌, ◌<◌, IfOk, length};
ghost use Rattle.std.specs.List.{Contains};
ghost use Rattle.poly_model.specs.Keys.{IsKey};
ghost use Rattle.dictionary_laws.specs.Keys.{place_in};

use poly_model::{Key, Label, OutOfMemory};

/// How many labels stand before the first that is `label`.
#[tactic(auto, using(crate::proofs::PlaceLemmas::place_within))]
pub fn place_of(labels: &[Label], label: Label) -> usize
    ensures value { result ≡ place_in labels.now label }
    ensures within { Contains labels.now label → result < length labels.now }
{
    'labels: for (i, l) in labels.iter().enumerate() {
        if l.is_same(label) {
            return i;
        }
    }
    labels.len()
}

/// The same labels, in memory of their own.
pub fn copied(labels: &Vec<Label>) -> Result<Vec<Label>, OutOfMemory>
    ensures { IfOk result (λ v. v.items ≡ labels.now.items) }
{
    Ok(labels.clone()?)
}

/// The key of ascending labels.
pub fn key_of(labels: &[Label]) -> Key
    requires { IsKey labels.now }
    ensures { result ≡ labels.now }
{
    Key::from_ascending(labels).unwrap_or(Key::empty())
}
