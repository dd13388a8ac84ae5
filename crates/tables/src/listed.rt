// The tests of moves that are given as a list of numbers, three a move.
ghost use Rattle.std.specs.Prelude.{◌≡◌, ◌+◌, ◌*◌, ◌<◌, length};
ghost use Rattle.tables.specs.Moves.{meant, listed};
ghost use Rattle.tables.specs.Writer.{list_refusal};

use crate::moves::Move;
use crate::{moves, valid};

// Move j of a list.
#[tactic(auto, using(crate::proofs::Rows::same_move), unfolding(crate::specs::Moves::listed))]
fn listed_at(list: &[u16], j: usize) -> Move
    requires { 3 * j + 2 < length list.now }
    ensures { meant result ≡ listed list.now j }
{
    Move {
        from: usize::from(list[3 * j]),
        event: usize::from(list[3 * j + 1]),
        to: usize::from(list[3 * j + 2]),
    }
}

// The first of 2 to 7 that applies to what is to be written.
#[tactic(auto, unfolding(crate::specs::Writer::list_refusal))]
pub fn test(n: u16, e: u16, start: u16, list: &[u16]) -> Option<u8>
    ensures { result ≡ list_refusal n e start list.now }
{
    let n = usize::from(n);
    let e = usize::from(e);
    let m = list.len() / 3;
    if valid::is_outside(n, e, m) {
        return Some(2);
    }
    if list.len() % 3 != 0 {
        return Some(3);
    }
    moves::test(n, e, usize::from(start), m, |j| listed_at(list, j))
}
