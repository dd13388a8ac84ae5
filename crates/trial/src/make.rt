// Tables that are made here: headers with any numbers, a table with bytes changed, and what a builder writes.
ghost use Rattle.std.specs.Prelude.{◌<◌};

use crate::ask::Head;
use std::alloc::{AllocError, Global};
use tables::answer::Refusal;

// A table without moves, or what would be one but for these numbers.
pub(crate) fn header(n: u16, e: u16, start: u16) -> [u8; 12] {
    let [n_low, n_high] = n.to_le_bytes();
    let [e_low, e_high] = e.to_le_bytes();
    let [start_low, start_high] = start.to_le_bytes();
    [
        n_low, n_high, e_low, e_high, start_low, start_high, 0, 0, 12, 0, 0, 0,
    ]
}

// Changes of R's bytes, each a place and what it is to hold: one for each of the refusals 2 to 6, and two for 7.
pub(crate) const OUTSIDE: (usize, u8) = (1, 5);

pub(crate) const MISFRAMED: (usize, u8) = (8, 13);

pub(crate) const ASTRAY: (usize, u8) = (4, 3);

pub(crate) const MISNAMED: (usize, u8) = (28, 3);

pub(crate) const DISORDERED: (usize, u8) = (12, 2);

pub(crate) const SILENT_LOOP: [(usize, u8); 2] = [(14, 0), (16, 0)];

// A table with some bytes changed.
pub(crate) fn changed(mut table: [u8; 30], changes: &[(usize, u8)]) -> [u8; 30] {
    for &(place, byte) in changes {
        if let Some(changed) = table.get_mut(place) {
            *changed = byte;
        }
    }
    table
}

// What a builder writes into so many zeros: nothing where it refuses.
pub(crate) fn built<F: FnOnce(&mut [u8]) -> Result<usize, Refusal>>(
    alloc: Global,
    zeros: usize,
    build: F,
) -> Result<Vec<u8>, AllocError>
    requires { F.IsAlwaysCallable build }
{
    let mut table = vec![in alloc; 0u8; zeros]?;
    let n = build(&mut table).unwrap_or(0);
    table.truncate(n);
    Ok(table)
}

// The table that the writer makes of a list in so many zeros.
fn written(alloc: Global, zeros: usize, head: Head, list: &[u16]) -> Result<Vec<u8>, AllocError> {
    built(alloc, zeros, |out| head.write(list, out))
}

// The first moves of a ring of n states, in which each leads to the next by the events 1 to `each`.
pub(crate) fn ring_moves(
    alloc: Global,
    n: u16,
    each: u16,
    moves: u16,
) -> Result<Vec<u16>, AllocError>
    requires n_nonzero { 0 < n }
    requires each_nonzero { 0 < each }
{
    let mut list = Vec::new(alloc);
    for i in 0..moves {
        let state = i / each % n;
        list.extend_from_slice(&[state, i % each + 1, (state + 1) % n])?;
    }
    Ok(list)
}

// A ring of n states with its first moves, written into so many zeros.
pub(crate) fn ring(
    alloc: Global,
    zeros: usize,
    n: u16,
    each: u16,
    moves: u16,
) -> Result<Vec<u8>, AllocError>
    requires n_nonzero { 0 < n }
    requires each_nonzero { 0 < each }
{
    let list = ring_moves(alloc, n, each, moves)?;
    let head = Head {
        states: n,
        events: each,
        start: 0,
    };
    written(alloc, zeros, head, &list)
}

// A rule of 64 states and E = 2: 63 moves lead from each state to the next by 1 and make 64 nodes; then 62 by 2 to itself
// makes no more, and 62 by 2 to 63 makes the set of these two states the 65th.
pub(crate) fn chain_of_64(alloc: Global, moves: u16) -> Result<Vec<u8>, AllocError> {
    let mut list = ring_moves(alloc, 64, 1, 63)?;
    list.extend_from_slice(&[62, 2, 62, 62, 2, 63])?;
    list.truncate(3 * usize::from(moves));
    let head = Head {
        states: 64,
        events: 2,
        start: 0,
    };
    written(alloc, 420, head, &list)
}

// A flow of 1,023 states that goes round by 1, and by 2 for its last move.
pub(crate) fn ring_of_1023(alloc: Global) -> Result<Vec<u8>, AllocError> {
    let mut list = ring_moves(alloc, 1023, 1, 1022)?;
    list.extend_from_slice(&[1022, 2, 0])?;
    let head = Head {
        states: 1023,
        events: 2,
        start: 0,
    };
    written(alloc, 6200, head, &list)
}
