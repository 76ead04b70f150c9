//! A dictionary of rows at random, with numbers as large as is asked.
ghost use Rattle.std.specs.Prelude.{◌≡◌, ◌<◌};
ghost use Rattle.dictionary.specs.Blanks.{IsBlankOf};

use crate::plan::{Entries, Plan};
use crate::random::Random;
use crate::table::Table;
use dictionary::{Dict, Steps};
use poly_model::{Kind, Label, OutOfMemory, Overflow, Phase, RowKind, System};
use poly_num::{Num, neg};
use std::alloc::Global;
use std::marker::Brand;
use std::sync::ledger::{Blank, Ledger};

/// A dictionary of rows at random, in which rows took the places of coordinates until its largest number
/// has the bits of the plan, or none is left.
pub fn enlarged(alloc: Global, plan: &Plan, random: &mut Random) -> Result<Dict, OutOfMemory> {
    let mut dict = drawn(alloc, plan, random)?;
    'columns: for j in 0..plan.columns {
        if Table::of(alloc, &dict, plan)?.bits() >= plan.bits {
            break;
        }
        'tries: for _ in 0..64 {
            let row = Label::row(random.below(u64::from(plan.rows)) as u32 + 1);
            if exchange(&mut dict, row, Label::coordinate(j + 1)).unwrap_or(false) {
                break;
            }
        }
    }
    Ok(dict)
}

/// The dictionary of the coordinates, of rows at random.
pub fn drawn(alloc: Global, plan: &Plan, random: &mut Random) -> Result<Dict, OutOfMemory> {
    let sys = system(alloc, plan, random)?;
    Dict::new(alloc, &sys, Phase::Prepare)
}

/// Exchanges a label outside the cobasis for one in it, and says whether the two can be exchanged. All
/// pivots are done here.
pub fn exchange(dict: &mut Dict, outside: Label, inside: Label) -> Result<bool, Overflow> {
    exchange_counted::<Brand>(dict, outside, inside, Blank::new(1))
}

// The same with a blank for the pivot's counter, of which nothing is said.
fn exchange_counted<L: Ledger>(
    dict: &mut Dict,
    outside: Label,
    inside: Label,
    blank: Blank,
) -> Result<bool, Overflow>
    requires blank { IsBlankOf blank.name blank.parts L.name L.parts }
{
    if !dict.can_pivot(outside, inside) {
        return Ok(false);
    }
    dict.pivot(outside, inside, &mut Steps::<L>::new(blank))?;
    Ok(true)
}

// The cone of an H file of rows at random: they, and the row at infinity.
fn system(alloc: Global, plan: &Plan, random: &mut Random) -> Result<System, OutOfMemory> {
    let n = plan.columns as usize + 1;
    let rows = plan.rows as usize;
    let bound = bound(plan, random);
    let mut cells = Vec::new(alloc);
    let mut linear = Vec::new(alloc);
    let mut kinds = Vec::new(alloc);
    'rows: for i in 0..rows + 1 {
        linear.push(false)?;
        kinds.push(RowKind::Ray)?;
        'columns: for j in 0..n {
            cells.push(if i < rows {
                entry(plan, i, bound, random)
            } else if j == 0 {
                Num::ONE
            } else {
                Num::ZERO
            })?;
        }
    }
    Ok(System::new(Kind::H, n as u32, cells, linear, kinds))
}

// The bound of entries that are not meant to be large: of a digit or two, or larger where no pivot could
// make those large enough.
fn bound(plan: &Plan, random: &mut Random) -> u64
    ensures { 0 < result }
{
    match plan.entries {
        Entries::Uniform => 10 + random.below(2 << (plan.bits / plan.columns).min(30)),
        Entries::Graded | Entries::Smooth => 10,
    }
}

// An entry of row i.
fn entry(plan: &Plan, i: usize, bound: u64, random: &mut Random) -> Num
    requires { 0 < bound }
{
    let negative = random.below(2) == 0;
    match plan.entries {
        Entries::Uniform => Num::from_parts(negative, random.below(bound) as u128),
        Entries::Graded => {
            if i % 2 == 0 {
                Num::from_parts(negative, random.below(bound) as u128)
            } else {
                large(negative, plan.bits, random)
            }
        }
        Entries::Smooth => Num::from_parts(negative, SMOOTH[random.below(8) as usize] as u128),
    }
}

// Products of 2 and 3, and 0.
const SMOOTH: [u64; 8] = [0, 1, 2, 3, 4, 6, 12, 36];

// How many bits the pivots of `enlarged` add to a large number, about.
const BITS_OF_PIVOTS: u32 = 12;

// A number of so many bits, without those that pivots add, and of no more than 96.
fn large(negative: bool, bits: u32, random: &mut Random) -> Num {
    let mut size: i128 = 0;
    'parts: for _ in 0..3 {
        size = (size << 32) | random.below(1 << 32) as i128;
    }
    let kept = bits.saturating_sub(BITS_OF_PIVOTS).min(96);
    let number = Num::new(size >> (96 - kept)).unwrap_or(Num::ZERO);
    if negative { neg(number) } else { number }
}
