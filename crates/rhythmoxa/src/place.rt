// Where the moves of one state stand in their table.
ghost use Rattle.std.specs.Prelude.{◌<◌};
ghost use Rattle.rhythmoxa.specs.Place.{Placed};

use tables::state::seek;
use tables::table::Table;

// A part of a table: where it begins, and how many bytes it has.
#[derive(Clone, Copy)]
pub struct Part {
    pub offset: usize,
    pub size: usize,
}

// A part without bytes stands at 0.
const NONE: Part = Part { offset: 0, size: 0 };

// The place of the moves of one state of a good table.
fn place_in(table: &Table, state: usize) -> Part
    requires { state < 65536 }
    ensures { Placed table.now state result }
{
    let size = table.moves_of(state).len();
    if size == 0 {
        return NONE;
    }
    let i = seek(table.moves(), table.count(), 0, state);
    Part {
        offset: 12 + 6 * i,
        size,
    }
}

// The place of the moves of one state; a table that is refused has no moves.
pub fn place_of(t: &[u8], state: u16) -> Part
    ensures { Placed t.now state result }
{
    match Table::as_rule(t) {
        Ok(table) => place_in(&table, usize::from(state)),
        Err(_) => NONE,
    }
}
