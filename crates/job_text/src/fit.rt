//! Whether a line of a reply fits, and what it says.
ghost use Rattle.std.specs.Prelude.{◌≡◌, ◌++◌, codes, length, ⊤, IsTrue};
ghost use Rattle.plain_text.specs.Cuts.{GoesOnWith};
ghost use Rattle.poly_model.specs.ListingText.{entries_text};
ghost use Rattle.work_core.specs.ReplyLines.{row_line};
ghost use Rattle.job_text.specs.LineTexts.{IsReplyLine};
ghost use Rattle.plain_text.specs.Texts.{IsReadOf};
ghost use Rattle.job_text.specs.declared.keyword.Keyword.TheVariants.{Row, Job, End, Overflow, Memory};
ghost use Rattle.job_text.specs.Fits.{said_by, MaySay, MaySayAs, said_text, behind_keyword};
ghost use Rattle.job_text.specs.Keywords.{keyword_text};

use crate::Tail;
use crate::ends::read_end;
use crate::entries::read_row;
use crate::keyword::Keyword;
use crate::overflow::read_overflow;
use crate::said::Fit;
use crate::words::next_key;
use plain_text::{goes_on, is_text, split_word, strip_front};
use poly_num::Num;

fn read_keyword(word: &[u8]) -> Option<Keyword>
    ensures { IsReadOf (λ _. ⊤) keyword_text word.now result }
{
    if is_text(word, b"row") {
        Some(Keyword::Row)
    } else if is_text(word, b"job") {
        Some(Keyword::Job)
    } else if is_text(word, b"end") {
        Some(Keyword::End)
    } else if is_text(word, b"overflow") {
        Some(Keyword::Overflow)
    } else if is_text(word, b"memory") {
        Some(Keyword::Memory)
    } else {
        None
    }
}

/// Whether a line shows a row. Then its entries are read into place; else the place may have anything.
pub(crate) fn is_row(line: &[u8], row: &mut [Num]) -> bool
    ensures size { length row.new ≡ length row.old }
    ensures yes { IsTrue result → IsReplyLine (length row.old) (row_line row.new)
        × (line.now ≡ codes "row" ++ entries_text row.new) }
{
    match strip_front(line, b"row") {
        Some(entries) => goes_on(entries) && read_row(row, entries),
        None => false,
    }
}

fn fit_row(rest: &[u8], row: &mut [Num], rows: u64, jobs: u64) -> Fit
    requires { GoesOnWith 32 rest.now }
    ensures size { length row.new ≡ length row.old }
    ensures fits { IsReadOf (MaySayAs Row (length row.old) rows jobs) behind_keyword rest.now (said_by row.new result) }
{
    if read_row(row, rest) {
        Fit::Row
    } else {
        Fit::No
    }
}

fn fit_job(rest: &[u8], row: &[Num], rows: u64, jobs: u64) -> Fit
    ensures { IsReadOf (MaySayAs Job (length row.now) rows jobs) behind_keyword rest.now (said_by row.now result) }
{
    let (key, behind) = match next_key(rest) {
        Some(found) => found,
        None => return Fit::No,
    };
    if behind.is_empty() {
        Fit::Job(key)
    } else {
        Fit::No
    }
}

fn fit_end(rest: &[u8], row: &[Num], rows: u64, jobs: u64) -> Fit
    ensures { IsReadOf (MaySayAs End (length row.now) rows jobs) behind_keyword rest.now (said_by row.now result) }
{
    match read_end(rest, rows, jobs) {
        Some(count) => Fit::Last(Tail::End(count)),
        None => Fit::No,
    }
}

fn fit_overflow(rest: &[u8], row: &[Num], rows: u64, jobs: u64) -> Fit
    ensures { IsReadOf (MaySayAs Overflow (length row.now) rows jobs) behind_keyword rest.now (said_by row.now result) }
{
    match strip_front(rest, b" ") {
        Some(written) => match read_overflow(written) {
            Some(overflow) => Fit::Last(Tail::Overflow(overflow)),
            None => Fit::No,
        },
        None => Fit::No,
    }
}

fn fit_memory(rest: &[u8], row: &[Num], rows: u64, jobs: u64) -> Fit
    ensures { IsReadOf (MaySayAs Memory (length row.now) rows jobs) behind_keyword rest.now (said_by row.now result) }
{
    if rest.is_empty() {
        Fit::Last(Tail::Memory)
    } else {
        Fit::No
    }
}

/// What a line says, behind so many rows and jobs. Where it is a row, its entries are read into place.
pub(crate) fn fit_line(line: &[u8], row: &mut [Num], rows: u64, jobs: u64) -> Fit
    ensures size { length row.new ≡ length row.old }
    ensures fits { IsReadOf (MaySay (length row.old) rows jobs) said_text line.now (said_by row.new result) }
{
    let (word, rest) = split_word(line);
    let keyword = match read_keyword(word) {
        Some(keyword) => keyword,
        None => return Fit::No,
    };
    match keyword {
        Keyword::Row => fit_row(rest, row, rows, jobs),
        Keyword::Job => fit_job(rest, row, rows, jobs),
        Keyword::End => fit_end(rest, row, rows, jobs),
        Keyword::Overflow => fit_overflow(rest, row, rows, jobs),
        Keyword::Memory => fit_memory(rest, row, rows, jobs),
    }
}
