//! Reads labels from their texts.
ghost use Rattle.std.specs.Prelude.{◌≡◌, ◌≤◌, ◌<◌, decimal};
ghost use Rattle.plain_text.specs.Texts.{IsReadOf};
ghost use Rattle.poly_model.specs.Labels.{coordinates_from, coordinate_index};
ghost use Rattle.poly_model.specs.LabelText.{label_text};
ghost use Rattle.job_text.specs.KeyTexts.{IsKeyLabel, IsPlaceLabel};

use plain_text::{is_text, read_count, strip_front};
use poly_model::Label;

/// How many labels are those of rows, `t` with them, and how many are those of coordinates.
const EACH_KIND: u64 = 8192;

fn read_row(word: &[u8]) -> Option<Label>
    ensures { IsReadOf (λ l. (1 ≤ l) × (l < coordinates_from)) decimal word.now result }
{
    let row = read_count(word)?;
    if row == 0 {
        return None;
    }
    if row >= EACH_KIND {
        return None;
    }
    Some(Label::row(row as u32))
}

fn read_coordinate(column: &[u8]) -> Option<Label>
    ensures { IsReadOf (λ l. (coordinates_from ≤ l) × IsKeyLabel l) (λ l. decimal (coordinate_index l)) column.now result }
{
    let j = read_count(column)?;
    if j >= EACH_KIND {
        return None;
    }
    Some(Label::coordinate(j as u32))
}

/// The label of a word: `t`, a row's number from 1 on, or `x` and a coordinate's.
pub(crate) fn read_label(word: &[u8]) -> Option<Label>
    ensures { IsReadOf IsKeyLabel label_text word.now result }
{
    if is_text(word, b"t") {
        return Some(Label::EXTRA);
    }
    match strip_front(word, b"x") {
        Some(column) => read_coordinate(column),
        None => read_row(word),
    }
}

/// The label of a word: one that `read_label` reads, or `c` for the constant column.
pub(crate) fn read_place_label(word: &[u8]) -> Option<Label>
    ensures { IsReadOf IsPlaceLabel label_text word.now result }
{
    if is_text(word, b"c") {
        return Some(Label::CONSTANT);
    }
    read_label(word)
}
