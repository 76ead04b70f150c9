//! The cobases of rows that one pivot reaches from another.
ghost use Rattle.std.specs.Prelude.{◌≡◌, ◌<◌};
ghost use Rattle.dictionary.specs.Blanks.{IsBlankOf};

use crate::stop::Stop;
use dictionary::{Dict, Steps};
use lex_pivot::Pivot;
use poly_model::{Key, Label, Overflow};
use std::marker::Brand;
use std::sync::ledger::{Blank, Ledger};

/// Puts those behind the others that do not stand among them.
pub fn push_neighbours(dicts: &mut Vec<Dict>, dict: &Dict) -> Result<(), Stop> {
    for row in dict.rows() {
        if row.is_row() {
            push_exchanges(dicts, dict, *row)?;
        }
    }
    Ok(())
}

// Those in which this row takes the place of a label.
fn push_exchanges(dicts: &mut Vec<Dict>, dict: &Dict, row: Label) -> Result<(), Stop> {
    for col in dict.cobasis() {
        let mut next = dict.copy()?;
        if exchange(&mut next, &Pivot { row, col: *col })? && !has_key(dicts, &next.key()) {
            let Ok(()) = dicts.push(next) else {
                return Err(Stop::Memory);
            };
        }
    }
    Ok(())
}

fn has_key(dicts: &[Dict], key: &Key) -> bool {
    dicts.iter().any(|dict| dict.key().is_same(key))
}

// Exchanges the row and the column of a pivot, and says whether the two can be exchanged.
fn exchange(dict: &mut Dict, pivot: &Pivot) -> Result<bool, Overflow> {
    exchange_counted::<Brand>(dict, pivot, Blank::new(1))
}

// The same with a blank for the pivot's counter, of which nothing is said.
fn exchange_counted<L: Ledger>(
    dict: &mut Dict,
    pivot: &Pivot,
    blank: Blank,
) -> Result<bool, Overflow>
    requires blank { IsBlankOf blank.name blank.parts L.name L.parts }
{
    if !dict.can_pivot(pivot.row, pivot.col) {
        return Ok(false);
    }
    dict.pivot(pivot.row, pivot.col, &mut Steps::<L>::new(blank))?;
    Ok(true)
}
