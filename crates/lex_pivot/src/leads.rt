//! The leads of a dictionary: which rows of the root come first in its columns. And the rows of its cobasis outside the root.
ghost use Rattle.std.specs.Prelude.{◌≡◌, ◌<◌, ◌≤◌, IfOk, length, set};
ghost use Rattle.std.specs.declared.cmp.Ordering.TheVariants.{Equal};
ghost use Rattle.std.specs.List.{Contains, slice_index_or};
ghost use Rattle.poly_model.specs.Limits.{most_labels};
ghost use Rattle.lex_pivot.specs.Leads.{lead_sign, HaveLeads, HaveTops, IsSpot, AreSpots, AreLeads};
ghost use Rattle.lex_pivot.specs.Tables.{IsTable};

use crate::before_root::gather;
use crate::rows::label_of_column;
use crate::scan::{Lead, root_lead};
use crate::word_reading::root_lead_in_words;
use crate::word_table::WordTable;
use crate::{Order, Reading};
use dictionary::{Dict, Position};
use poly_model::{Label, MOST_LABELS, OutOfMemory};
use poly_num::Num;
use std::alloc::Global;
use std::cmp::Ordering;
use std::marker::Model;

/// For each column of a dictionary, as they stand there, the sign of the greatest row of the root that is not 0 in it, and
/// `Equal` where all are, with the place of that row in the root; where the labels of the root stand; and the rows of the cobasis that are outside the root, along which two lists are compared. They are
/// read once for a dictionary, and then asked again and again.
#[derive(Drop)]
pub struct Leads {
    signs: Vec<Ordering>,
    // how many labels of the root there are up to that row, and else 0
    tops: Vec<u16>,
    // where the labels of the root stand, behind which there may be more room
    spots: Vec<Option<Position>>,
    // room for as many labels, of which the first `len` are the rows outside the root
    room: Vec<Label>,
    len: usize,
}

impl Model for Leads {
    ghost use Rattle.std.specs.Prelude.{◌≡◌, ◌≤◌, length, take};
    ghost use Rattle.poly_model.specs.Limits.{most_labels};
    ghost use Rattle.lex_pivot.specs.Leads.{Outlook};

    ghost Value = { Outlook };

    ghost view = { λ l. record { signs = l.signs.items; tops = l.tops.items; spots = l.spots.items; before = take l.len l.room.items } };

    ghost invariant = { λ l. (length l.room.items ≡ length l.signs.items) × (l.len ≤ length l.room.items) ×
        (length l.tops.items ≡ length l.signs.items) × (most_labels ≤ length l.spots.items) };
}

impl Leads {
    /// Those of a dictionary. Takes memory for a sign and a label for each column.
    pub fn of(alloc: Global, dict: &Dict, order: &Order) -> Result<Leads, OutOfMemory>
        ensures { IfOk result (λ l. AreLeads dict.now order.now l) }
    {
        let mut signs = Vec::new(alloc);
        signs.resize(dict.columns().len(), Ordering::Equal)?;
        let mut tops = Vec::new(alloc);
        tops.resize(signs.len(), 0_u16)?;
        let mut spots = Vec::new(alloc);
        spots.resize(MOST_LABELS, None)?;
        let mut room = Vec::new(alloc);
        room.resize(signs.len(), Label::EXTRA)?;
        let mut leads = Leads {
            signs,
            tops,
            spots,
            room,
            len: 0,
        };
        leads.read(dict, order);
        Ok(leads)
    }

    /// Reads those of a dictionary with as many columns. Takes no memory.
    pub fn read(&mut self, dict: &Dict, order: &Order)
        requires { length self.old.signs ≡ length dict.now.columns }
        ensures { AreLeads dict.now order.now self.new }
    {
        // the columns have the labels of the cobasis
        let (_columns, _cobasis, _count) = (dict.columns(), dict.cobasis(), order.root_count());
        read_spots(dict, order, &mut self.spots);
        self.len = gather(dict, order, &mut self.room);
        read_leads(dict, order, &self.spots, &mut self.signs, &mut self.tops);
    }

    /// That of column j, counted from 0 without the constants.
    pub fn at(&self, j: usize) -> Ordering
        requires { j < length self.now.signs }
        ensures { result ≡ slice_index_or self.now.signs j Equal }
    {
        sign_at(&self.signs, j)
    }

    /// How many labels of the root there are up to the lead of column j, and 0 where it has none.
    #[inline(always)]
    pub(crate) fn top(&self, j: usize) -> usize
        requires { j < length self.now.tops }
        ensures { result ≡ slice_index_or self.now.tops j 0 }
    {
        self.tops[j] as usize
    }

    /// Where the labels of the root stand.
    pub(crate) fn spots(&self) -> &[Option<Position>]
        ensures { result.now ≡ self.now.spots }
    {
        &self.spots
    }

    /// That of the column of a label of the cobasis.
    pub fn sign(&self, dict: &Dict, order: &Order, col: Label) -> Ordering
        requires leads { AreLeads dict.now order.now self.now }
        requires column { Contains dict.now.key col }
        ensures { result ≡ lead_sign dict.now order.now col }
    {
        // the columns have the labels of the cobasis
        let _columns = dict.columns();
        self.at(dict.column_of(col) - 1)
    }

    /// The rows of the cobasis that are outside the root, ascending.
    pub fn before_root(&self) -> &[Label]
        ensures { result.now ≡ self.now.before }
    {
        &self.room[..self.len]
    }
}

// Reads where the labels of the root stand.
fn read_spots(dict: &Dict, order: &Order, spots: &mut [Option<Position>])
    requires { length order.now ≤ length spots.old }
    ensures spots { AreSpots dict.now order.now spots.new }
    ensures room { length spots.new ≡ length spots.old }
{
    let labels = order.root_labels();
    'labels: for n in 0..labels.len() {
        spots[n] = spot_of(dict, labels[n]);
    }
}

// Where a label stands, if it is that of a row of the dictionary.
#[inline(always)]
fn spot_of(dict: &Dict, label: Label) -> Option<Position>
    ensures { IsSpot dict.now label result }
{
    if label.is_row() && dict.has_label(label) {
        Some(dict.position(label))
    } else {
        None
    }
}

// Reads the leads of the columns.
fn read_leads(
    dict: &Dict,
    order: &Order,
    spots: &[Option<Position>],
    signs: &mut [Ordering],
    tops: &mut [u16],
)
    requires spots { AreSpots dict.now order.now spots.now }
    requires signs { length signs.old ≡ length dict.now.columns }
    requires tops { length tops.old ≡ length dict.now.columns }
    ensures signs { HaveLeads dict.now order.now signs.new }
    ensures tops { HaveTops dict.now order.now tops.new }
{
    match dict.word_cells() {
        Some(cells) => {
            let table = WordTable {
                dict,
                order,
                before: &[],
                cells: &cells,
            };
            read_in_words(&table, spots, signs, tops);
        }
        None => read_in_wide(dict, order, signs, tops),
    }
}

// The same where all cells are words.
fn read_in_words(
    table: &WordTable,
    spots: &[Option<Position>],
    signs: &mut [Ordering],
    tops: &mut [u16],
)
    requires table { IsTable table.now }
    requires spots { AreSpots table.now.dict.now table.now.order.now spots.now }
    requires signs { length signs.old ≡ length table.now.dict.now.columns }
    requires tops { length tops.old ≡ length table.now.dict.now.columns }
    ensures signs { HaveLeads table.now.dict.now table.now.order.now signs.new }
    ensures tops { HaveTops table.now.dict.now table.now.order.now tops.new }
{
    // no key has more labels
    let _count = table.order.root_count();
    'columns: for j in 0..table.dict.columns().len() {
        let col = label_of_column(table.dict, j);
        let lead = root_lead_in_words(table, spots, &Reading::<i64>::Entry { col });
        put_lead(signs, tops, j, lead);
    }
}

// The same where some cell is no word.
#[cold]
fn read_in_wide(dict: &Dict, order: &Order, signs: &mut [Ordering], tops: &mut [u16])
    requires signs { length signs.old ≡ length dict.now.columns }
    requires tops { length tops.old ≡ length dict.now.columns }
    ensures signs { HaveLeads dict.now order.now signs.new }
    ensures tops { HaveTops dict.now order.now tops.new }
{
    // no key has more labels
    let _count = order.root_count();
    'columns: for j in 0..dict.columns().len() {
        let col = label_of_column(dict, j);
        put_lead(
            signs,
            tops,
            j,
            root_lead(dict, order, &Reading::<Num>::Entry { col }),
        );
    }
}

// The lead of column j.
#[inline(always)]
fn put_lead(signs: &mut [Ordering], tops: &mut [u16], j: usize, lead: Lead)
    requires signs { j < length signs.old }
    requires tops { j < length tops.old }
    requires top { lead.top ≤ most_labels }
    ensures signs { signs.new ≡ set signs.old j lead.sign }
    ensures tops { tops.new ≡ set tops.old j lead.top }
{
    signs[j] = lead.sign;
    tops[j] = lead.top as u16;
}

// The sign of column j.
#[inline(always)]
fn sign_at(signs: &[Ordering], j: usize) -> Ordering
    requires { j < length signs.now }
    ensures { result ≡ slice_index_or signs.now j Equal }
{
    signs[j]
}
