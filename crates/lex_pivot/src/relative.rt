//! The order of rows relative to a root: the rows outside it come first, ascending, and then its own.
ghost use Rattle.std.specs.Prelude.{◌≡◌, ◌≤◌, ◌++◌, ◌∷◌, [], ℕ, List, IfOk, length};
ghost use Rattle.poly_model.specs.Limits.{most_labels};
ghost use Rattle.poly_model.specs.Keys.{IsAscending};
ghost use Rattle.poly_model.specs.Spaces.{is_member};
ghost use Rattle.lex_pivot.specs.Earlier.{is_before_root, is_earlier, AreMarks};

use poly_model::{Key, Label, OutOfMemory, Root};
use std::alloc::Global;
use std::marker::Model;

/// The order of rows relative to a root, which contracts see as the labels of the root.
#[derive(Drop)]
pub struct Order {
    key: Key,
    // for each row whether it is one of the root, where memory was taken for that
    marks: Option<Vec<bool>>,
}

impl Model for Order {
    ghost use Rattle.std.specs.Prelude.{ℕ, List, IfSome};
    ghost use Rattle.lex_pivot.specs.Earlier.{AreMarks};

    ghost Value = { List ℕ };

    ghost view = { λ o. o.key };

    ghost invariant = { λ o. IfSome o.marks (λ v. AreMarks o.key v.items) };
}

impl Order {
    /// The order relative to this root. Takes no memory: each question goes along the labels of the root.
    pub fn of(root: &Root) -> Order
        ensures { result ≡ root.now.key }
    {
        Order {
            key: root.key(),
            marks: None,
        }
    }

    /// The same with a mark for each row, so that each question is answered at once. Takes memory for the marks.
    pub fn marked(alloc: Global, root: &Root) -> Result<Order, OutOfMemory>
        ensures { IfOk result (λ o. o ≡ root.now.key) }
    {
        let key = root.key();
        let marks = marks_of(alloc, key.labels())?;
        Ok(Order {
            key,
            marks: Some(marks),
        })
    }

    /// The labels of the root, ascending.
    pub fn root_labels(&self) -> &[Label]
        ensures value { result.now ≡ self.now }
        ensures ascending { IsAscending result.now }
    {
        self.key.labels()
    }

    /// How many labels the root has, at most `MOST_LABELS`.
    pub(crate) fn root_count(&self) -> usize
        ensures value { result ≡ length self.now }
        ensures room { result ≤ most_labels }
    {
        self.key.len()
    }

    /// Whether the label is one of the root.
    #[inline(always)]
    pub fn has(&self, label: Label) -> bool
        ensures { result ≡ is_member label self.now }
    {
        match &self.marks {
            Some(marks) => is_marked(marks, self.key.labels(), label),
            None => is_one_of(self.key.labels(), label),
        }
    }

    /// Whether the label is that of a row outside the root.
    #[inline(always)]
    pub fn is_before_root(&self, label: Label) -> bool
        ensures { result ≡ is_before_root self.now label }
    {
        label.is_row() && !self.has(label)
    }

    /// Whether row `k` comes before row `i`.
    #[inline(always)]
    pub fn is_earlier(&self, k: Label, i: Label) -> bool
        ensures { result ≡ is_earlier self.now k i }
    {
        if self.has(k) {
            self.has(i) && k.number() < i.number()
        } else {
            self.has(i) || k.number() < i.number()
        }
    }
}

// Whether the label is one of them.
fn is_one_of(labels: &[Label], label: Label) -> bool
    ensures { result ≡ is_member label labels.now }
{
    labels.iter().any(|k| k.is_same(label))
}

// The same by their marks.
#[inline(always)]
fn is_marked(marks: &[bool], labels: &[Label], label: Label) -> bool
    requires { AreMarks labels.now marks.now }
    ensures { result ≡ is_member label labels.now }
{
    let place = label.number() as usize;
    if place < marks.len() {
        marks[place]
    } else {
        is_one_of(labels, label)
    }
}

// For each row whether it is one of these labels.
fn marks_of(alloc: Global, labels: &[Label]) -> Result<Vec<bool>, OutOfMemory>
    ensures { IfOk result (λ v. AreMarks labels.now v.items) }
{
    let mut marks = Vec::new(alloc);
    marks.resize(Label::coordinate(0).number() as usize, false)?;
    'labels: for label in labels {
        mark(&mut marks, *label);
    }
    Ok(marks)
}

// Marks one label more; one that is no row has no mark.
fn mark(marks: &mut [bool], label: Label)
    ensures room { length marks.new ≡ length marks.old }
    ensures marks { (labels : List ℕ) → AreMarks labels marks.old → AreMarks (labels ++ label ∷ []) marks.new }
{
    let place = label.number() as usize;
    if place < marks.len() {
        marks[place] = true;
    }
}
