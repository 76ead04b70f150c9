//! The cells of a dictionary, with the room that a pivot needs.
ghost use Rattle.std.specs.Prelude.{◌≡◌, length, IfOk};

use columns::Cells;
use poly_model::OutOfMemory;
use poly_num::Num;

/// The cells of a dictionary, and room for those after the next pivot and for one column.
#[derive(Drop)]
pub struct Rooms {
    pub cells: Cells,
    pub spare: Cells,
    pub own: Cells,
}

/// Takes memory for these cells of `height` rows.
pub fn rooms_of(numbers: Vec<Num>, height: usize) -> Result<Rooms, OutOfMemory>
    ensures cells { IfOk result (λ rooms. rooms.cells ≡ numbers.items) }
    ensures spare { IfOk result (λ rooms. length rooms.spare ≡ length numbers.items) }
    ensures own { IfOk result (λ rooms. length rooms.own ≡ height) }
{
    let own = Cells::new(Vec::from_elem(*numbers.allocator(), Num::ZERO, height)?)?;
    let cells = Cells::new(numbers)?;
    let spare = cells.copy()?;
    Ok(Rooms { cells, spare, own })
}
