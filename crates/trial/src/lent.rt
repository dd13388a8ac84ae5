// The buffers that a call is lent: what they hold before it, and what is told of them after it.
use std::alloc::{AllocError, Global};
use std::fmt;

// What every place holds before a call.
pub(crate) const JUNK: u8 = 167;

pub(crate) const JUNK_16: u16 = 42919;

pub(crate) const JUNK_64: u64 = 12080808863958804391;

// How long the buffers are that a call is lent.
#[derive(Clone, Copy)]
pub(crate) struct Room {
    pub(crate) work_16: usize,
    pub(crate) work_64: usize,
    pub(crate) buffer: usize,
}

// Workspaces as long as the order asks, beside a buffer of n bytes.
pub(crate) fn beside(n: usize) -> Room {
    Room {
        work_16: 32768,
        work_64: 128,
        buffer: n,
    }
}

// The first place from `from` on that holds another number than `held`.
fn first_other<T: PartialEq + Copy>(buffer: &[T], from: usize, held: T) -> Option<usize> {
    let (at, _) = buffer
        .iter()
        .enumerate()
        .skip(from)
        .find(|(_, number)| **number != held)?;
    Some(at)
}

// That a buffer is as it was from `from` on, or where it is not.
#[derive(Clone, Copy)]
pub(crate) struct Kept {
    from: usize,
    changed: Option<usize>,
}

impl Kept {
    pub(crate) fn of<T: PartialEq + Copy>(buffer: &[T], from: usize, held: T) -> Kept {
        Kept {
            from,
            changed: first_other(buffer, from, held),
        }
    }
}

impl fmt::Display for Kept {
    fn fmt<W: fmt::Write>(&self, f: &mut fmt::Formatter<W>) -> fmt::Result {
        match self.changed {
            Some(at) => write!(f, "; changed at {at}"),
            None => write!(f, "; kept from {}", self.from),
        }
    }
}

// Both workspaces, full of junk before a call.
#[derive(Drop)]
pub(crate) struct Workspaces {
    pub(crate) work_16: Vec<u16>,
    pub(crate) work_64: Vec<u64>,
}

impl Workspaces {
    pub(crate) fn new(alloc: Global, room: Room) -> Result<Workspaces, AllocError> {
        Ok(Workspaces {
            work_16: vec![in alloc; JUNK_16; room.work_16]?,
            work_64: vec![in alloc; JUNK_64; room.work_64]?,
        })
    }
}

// That a workspace is zero, or where it is not.
#[derive(Clone, Copy)]
struct Zero(Option<usize>);

impl fmt::Display for Zero {
    fn fmt<W: fmt::Write>(&self, f: &mut fmt::Formatter<W>) -> fmt::Result {
        match self.0 {
            Some(at) => write!(f, " {at}"),
            None => write!(f, " zero"),
        }
    }
}

impl fmt::Display for Workspaces {
    fn fmt<W: fmt::Write>(&self, f: &mut fmt::Formatter<W>) -> fmt::Result {
        let first = Zero(first_other(&self.work_16, 0, 0));
        let second = Zero(first_other(&self.work_64, 0, 0));
        write!(f, "; workspaces{first}{second}")
    }
}
