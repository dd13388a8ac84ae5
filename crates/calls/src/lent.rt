// The buffers that a call is lent, and how bytes and lists are printed.
ghost use Rattle.std.specs.Prelude.{◌<◌, ◌≤◌};

use std::alloc::AllocError;
use std::fmt::{Formatter, Write};
use std::{fmt, str};

// A digit, as its letter.
fn letter(digit: u8) -> u8
    requires { digit < 16 }
    ensures { result < 128 }
{
    if digit < 10 {
        b'0' + digit
    } else {
        b'a' + (digit - 10)
    }
}

// Letters on their way, written 64 at once: a buffer has tens of thousands of digits, and each call of the writer has its price.
#[derive(Drop)]
pub struct Letters {
    room: [u8; 64],
    at: usize,
    ghost two_fit: { at < 63 },
}

impl Letters {
    fn none() -> Letters {
        Letters {
            room: [0; 64],
            at: 0,
        }
    }

    // Writes the first `count`, which then are gone.
    fn write<W: Write>(&mut self, f: &mut Formatter<W>, count: usize) -> fmt::Result
        requires { count ≤ 64 }
    {
        self.at = 0;
        f.write_str(str::from_utf8(&self.room[..count]).map_err(|_| fmt::Error)?)
    }

    // The two digits of a byte.
    fn put<W: Write>(&mut self, f: &mut Formatter<W>, byte: u8) -> fmt::Result {
        let at = self.at;
        self.room[at] = letter(byte / 16);
        self.room[at + 1] = letter(byte % 16);
        if at > 60 {
            return self.write(f, at + 2);
        }
        self.at = at + 2;
        Ok(())
    }
}

// A number that takes a fixed count of digits.
pub trait Spelled: Copy + PartialEq {
    fn spell<W: Write>(self, letters: &mut Letters, f: &mut Formatter<W>) -> fmt::Result;
}

impl Spelled for u8 {
    fn spell<W: Write>(self, letters: &mut Letters, f: &mut Formatter<W>) -> fmt::Result {
        letters.put(f, self)
    }
}

impl Spelled for u16 {
    fn spell<W: Write>(self, letters: &mut Letters, f: &mut Formatter<W>) -> fmt::Result {
        let [high, low] = self.to_be_bytes();
        letters.put(f, high)?;
        letters.put(f, low)
    }
}

// The digits of bytes, two each, or of 16-bit numbers, four each; `-` for none.
#[derive(Drop)]
pub struct Digits<'a, N>(pub &'a [N]);

impl<'a, N: Spelled> fmt::Display for Digits<'a, N> {
    fn fmt<W: Write>(&self, f: &mut Formatter<W>) -> fmt::Result {
        if self.0.is_empty() {
            return write!(f, "-");
        }
        let mut letters = Letters::none();
        for n in self.0 {
            n.spell(&mut letters, f)?;
        }
        let left = letters.at;
        letters.write(f, left)
    }
}

// A buffer, with what it held before the call.
#[derive(Drop)]
pub struct Lent<N> {
    before: Vec<N>,
    pub now: Vec<N>,
}

impl<N: Copy> Lent<N> {
    pub fn new(before: Vec<N>) -> Result<Lent<N>, AllocError> {
        let now = before.clone()?;
        Ok(Lent { before, now })
    }
}

impl<N: Spelled> fmt::Display for Lent<N> {
    fn fmt<W: Write>(&self, f: &mut Formatter<W>) -> fmt::Result {
        if self.now == self.before {
            return write!(f, "same");
        }
        write!(f, "{}", Digits(&self.now))
    }
}
