//! Whether a file says that no coordinate is negative.
ghost use Rattle.std.specs.Prelude.{◌≡◌};
ghost use Rattle.poly_reader.specs.Head.{head_of, nonnegative_line, nonnegative_line_of};

use crate::head::begins_with;
use crate::lines::{LineWords, Lines, is};

// The number of a line, where it begins with `nonnegative`.
#[tactic(auto, unfolding(crate::specs::Head::nonnegative_line))]
fn nonnegative_line(line: &LineWords) -> Option<u64>
    ensures { result ≡ nonnegative_line line.now }
{
    match line.next() {
        Some((w, _)) => {
            if is(w.text, b"nonnegative") {
                Some(w.line)
            } else {
                None
            }
        }
        None => None,
    }
}

/// The number of the first line before `begin` that begins with `nonnegative`; none where no line does.
pub fn nonnegative_line_of(lines: Lines) -> Option<u64>
    ensures { result ≡ nonnegative_line_of (head_of lines.entry) }
{
    let mut lines = lines;
    'lines: loop {
        let (line, after) = match lines.next() {
            Some(next) => next,
            None => return None,
        };
        if begins_with(&line, b"begin") {
            return None;
        }
        match nonnegative_line(&line) {
            Some(number) => return Some(number),
            None => {}
        }
        lines = after;
    }
}
