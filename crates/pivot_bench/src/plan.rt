//! What the words of a call ask for.
ghost use Rattle.std.specs.Prelude.{◌≡◌, ◌<◌, ◌≤◌, ◌+◌};
ghost use Rattle.poly_model.specs.Limits.{most_columns, most_file_rows};

use poly_model::{Label, MOST_COLUMNS, MOST_FILE_ROWS};

/// What is done: a table is printed; or pivots are timed, those of a dictionary, or of a plain table with
/// each number checked, to and fro; or a dictionary goes on at random from the coordinates.
#[derive(Clone, Copy)]
pub enum Mode {
    Print,
    Dictionary,
    Checked,
    Walk,
}

/// How large the numbers of a system are: all below one bound; or those of every other row far larger than
/// the rest; or all of them products of 2 and 3.
#[derive(Clone, Copy)]
pub enum Entries {
    Uniform,
    Graded,
    Smooth,
}

/// The pivots that are asked for, and the table that they are done in.
#[derive(Clone, Copy)]
pub struct Plan {
    pub mode: Mode,
    pub entries: Entries,
    pub rows: u32,
    pub columns: u32,
    pub bits: u32,
    pub pivots: u64,
    pub seed: u64,
    ghost some: { 0 < rows },
    ghost few: { rows ≤ most_file_rows },
    ghost wide: { 0 < columns },
    ghost narrow: { columns < most_columns },
}

impl Plan {
    /// How many labels its dictionary has.
    pub fn labels(&self) -> u32
        ensures { result ≡ self.now.rows + self.now.columns }
    {
        self.rows + self.columns
    }

    /// Its label at a place: those of the rows, and then those of the coordinates from 1 on.
    pub fn label(&self, place: u32) -> Label
        requires { place < self.now.rows + self.now.columns }
    {
        if place < self.rows {
            Label::row(place + 1)
        } else {
            Label::coordinate(place - self.rows + 1)
        }
    }
}

/// What these words ask for; the first is the program's name.
pub fn plan_of(words: &[String]) -> Option<Plan> {
    let [_, mode, entries, rows, columns, bits, pivots, seed] = words else {
        return None;
    };
    let mode = mode_of(mode.as_str())?;
    let entries = entries_of(entries.as_str())?;
    let rows: u32 = rows.parse().ok()?;
    let columns: u32 = columns.parse().ok()?;
    if rows == 0 || rows > MOST_FILE_ROWS {
        return None;
    }
    if columns == 0 || columns >= MOST_COLUMNS {
        return None;
    }
    Some(Plan {
        mode,
        entries,
        rows,
        columns,
        bits: bits.parse().ok()?,
        pivots: pivots.parse().ok()?,
        seed: seed.parse().ok()?,
    })
}

fn mode_of(word: &str) -> Option<Mode> {
    match word {
        "print" => Some(Mode::Print),
        "dictionary" => Some(Mode::Dictionary),
        "checked" => Some(Mode::Checked),
        "walk" => Some(Mode::Walk),
        _ => None,
    }
}

fn entries_of(word: &str) -> Option<Entries> {
    match word {
        "uniform" => Some(Entries::Uniform),
        "graded" => Some(Entries::Graded),
        "smooth" => Some(Entries::Smooth),
        _ => None,
    }
}
