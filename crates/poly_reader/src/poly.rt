//! The whole reader.
ghost use Rattle.std.specs.Prelude.{◌≡◌, ◌≤◌, ◌<◌, length, IfOk, IsOk};
ghost use Rattle.poly_model.specs.Limits.{most_file_rows};
ghost use Rattle.poly_model.specs.Tables.{IsShaped};
ghost use Rattle.poly_reader.specs.FirstFault.{Gives, Parses};
ghost use Rattle.poly_reader.specs.Limits.{most_file_bytes};
ghost use Rattle.poly_reader.specs.Reading.{length_fault, empty_fault, is_given, nonnegative_fault, polyhedron, reading, IsOfItsText};

use crate::bad::bad;
use crate::head::head_of;
use crate::header::header_of;
use crate::late::check_late;
use crate::lines::{Lines, last_line_of};
use crate::marks::linear_marks;
use crate::matrix::extent_of;
use crate::nonnegative::nonnegative_line_of;
use crate::rows::table;
use crate::{BadFile, BadKind, MOST_FILE_BYTES, ParseStop};
use poly_model::{Kind, Poly};
use poly_num::Num;
use std::alloc::Global;

/// A polyhedron but for its text.
#[derive(Drop)]
struct Parts {
    kind: Kind,
    width: usize,
    cells: Vec<Num>,
    linear: Vec<bool>,
    nonnegative: bool,
}

fn check_length(bytes: usize) -> Result<(), BadFile>
    ensures gives { Gives (λ x. x) result (length_fault bytes) }
    ensures within { IsOk result → bytes ≤ most_file_bytes }
{
    if bytes > MOST_FILE_BYTES {
        return Err(bad(BadKind::TooLong, 0));
    }
    Ok(())
}

fn check_some_row(kind: Kind, rows: usize, line: u64) -> Result<(), BadFile>
    ensures { Gives (λ x. x) result (empty_fault kind rows line) }
{
    if kind == Kind::V && rows == 0 {
        return Err(bad(BadKind::NoRows, line));
    }
    Ok(())
}

fn check_nonnegative(kind: Kind, line: Option<u64>) -> Result<(), BadFile>
    ensures { Gives (λ x. x) result (nonnegative_fault kind line) }
{
    if let Some(line) = line {
        if kind == Kind::V {
            return Err(bad(BadKind::MisplacedNonnegative, line));
        }
    }
    Ok(())
}

fn is_given(line: Option<u64>) -> bool
    ensures { result ≡ is_given line }
{
    line.is_some()
}

#[tactic(auto, unfolding(crate::specs::Reading::reading))]
fn parts_of(alloc: Global, text: &[u8]) -> Result<Parts, ParseStop>
    ensures reads { Parses (polyhedron text.now) result (reading text.now) }
    ensures shaped { IfOk result (λ p. IsShaped most_file_rows (length p.linear.items) p.width p.cells.items) }
{
    check_length(text.len())?;
    let last = last_line_of(text);
    let head = head_of(Lines::new(text), last)?;
    let header = header_of(head.words, last)?;
    let width = header.width;
    let extent = extent_of(header.rows, width, header.words.copied(), last)?;
    check_late(extent.words, extent.end_line)?;
    let rows = extent.count / width;
    let linear = linear_marks(alloc, rows, Lines::new(text))?;
    check_some_row(head.kind, rows, extent.end_line)?;
    let given = nonnegative_line_of(Lines::new(text));
    check_nonnegative(head.kind, given)?;
    let cells = table(alloc, head.kind, header, &linear, last)?;
    Ok(Parts {
        kind: head.kind,
        width,
        cells,
        linear,
        nonnegative: is_given(given),
    })
}

// The polyhedron of these parts and a text.
fn made_of(parts: Parts, text: Vec<u8>) -> Poly
    requires { IsShaped most_file_rows (length parts.linear.items) parts.width parts.cells.items }
    ensures { result ≡ polyhedron text.items parts }
{
    let poly = Poly::new(
        parts.kind,
        parts.width as u32,
        parts.cells,
        parts.linear,
        text,
    );
    poly.with_nonnegative(parts.nonnegative)
}

/// The polyhedron of a text, or the first thing that is wrong with it. Besides the polyhedron, with
/// its text, no more memory is taken than for one row.
pub fn poly_of(alloc: Global, text: &[u8]) -> Result<Poly, ParseStop>
    ensures reads { Parses (λ p. p) result (reading text.now) }
    ensures text { IfOk result (λ p. p.text ≡ text.now) }
    ensures own_text { IfOk result IsOfItsText }
{
    let parts = parts_of(alloc, text)?;
    let copy = Vec::from_slice(alloc, text)?;
    Ok(made_of(parts, copy))
}

/// The polyhedron of a text that it keeps, or the first thing that is wrong with it.
pub fn poly_with(alloc: Global, text: Vec<u8>) -> Result<Poly, ParseStop>
    ensures reads { Parses (λ p. p) result (reading text.items) }
    ensures text { IfOk result (λ p. p.text ≡ text.items) }
    ensures own_text { IfOk result IsOfItsText }
{
    let parts = parts_of(alloc, &text)?;
    Ok(made_of(parts, text))
}
