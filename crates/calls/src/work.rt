// The workspaces that a call is lent: what they hold before it, and their fields after it.
use crate::field;
use crate::field::LineError;
use std::alloc::Global;
use std::fmt;
use std::fmt::{Formatter, Write};

// The greatest lengths of the two workspaces.
const LENGTH_16: usize = 32_800;

const LENGTH_64: usize = 160;

// What place i holds before the call, for the junk that the call names.
fn junk_at(junk: u16, i: usize) -> u16 {
    if junk == 0 {
        return 0;
    }
    junk.wrapping_add((i & 0xffff) as u16)
}

// Both workspaces. In the one of 64-bit numbers a place holds its junk four times over.
#[derive(Drop)]
pub struct Workspaces {
    pub of_16: Vec<u16>,
    pub of_64: Vec<u64>,
}

impl Workspaces {
    // What the call's fields `len16 len64 junk` name.
    pub fn new(alloc: Global, fields: &[&[u8]]) -> Result<Workspaces, LineError> {
        let [length_16, length_64, junk] = fields else {
            return Err(LineError::Bad);
        };
        let length_16 = field::length(length_16, LENGTH_16)?;
        let length_64 = field::length(length_64, LENGTH_64)?;
        let junk = field::number(junk)?;
        Ok(Workspaces {
            of_16: (0..length_16).map(|i| junk_at(junk, i)).collect(alloc)?,
            of_64: (0..length_64)
                .map(|i| u64::from(junk_at(junk, i)) * 0x0001_0001_0001_0001)
                .collect(alloc)?,
        })
    }
}

// A workspace's field: `zero`, or the first place that is not.
#[derive(Clone, Copy)]
struct Place(Option<usize>);

impl Place {
    fn of<N: Copy + Default + PartialEq>(work: &[N]) -> Place {
        let zero = N::default();
        Place(work.iter().position(|n| *n != zero))
    }
}

impl fmt::Display for Place {
    fn fmt<W: Write>(&self, f: &mut Formatter<W>) -> fmt::Result {
        match self.0 {
            Some(i) => write!(f, "{i}"),
            None => write!(f, "zero"),
        }
    }
}

impl fmt::Display for Workspaces {
    fn fmt<W: Write>(&self, f: &mut Formatter<W>) -> fmt::Result {
        let of_16 = Place::of(&self.of_16);
        let of_64 = Place::of(&self.of_64);
        write!(f, "{of_16} {of_64}")
    }
}
