// What takes the bytes of a line: a pen that counts them, and then a pen that puts them, by the same functions.
ghost use Rattle.std.specs.Prelude.{◌≡◌, ℕ, List, [], ◌∷◌};
ghost use Rattle.lines.specs.Text.{decimal};
ghost use Rattle.lines.specs.Pen.{Draws, PenLaws, count_room, Counted, count_laws, put_room, IsPut, put_laws};

use crate::answer::Short;

pub trait Pen {
    // How many more bytes it takes.
    ghost room: { Self → ℕ };

    // The pen before it takes a row of bytes, the row, and the pen after.
    ghost took: { Self → List ℕ → Self → Type 0 };

    ghost laws: { PenLaws room took };

    // One byte.
    fn byte(&mut self, b: u8) -> Result<(), Short>
        ensures { Draws room took (b ∷ []) self.old result self.new };

    // The bytes of a word.
    final fn word(&mut self, text: &[u8]) -> Result<(), Short>
    where
        Self: Sized,
        ensures { Draws room took text.now self.old result self.new }
    {
        for b in text {
            self.byte(*b)?;
        }
        Ok(())
    }

    // A number in decimal: by hand, since the library's printing doesn't say when it fails, and a line's promise does. `as` turns
    // a number below 10 into a byte.
    final fn number(&mut self, n: usize) -> Result<(), Short>
    where
        Self: Sized,
        ensures { Draws room took (decimal n) self.old result self.new }
    {
        if n < 10 {
            return self.byte(b'0' + n as u8);
        }
        self.number(n / 10)?;
        self.byte(b'0' + (n % 10) as u8)
    }
}

// Counts the bytes down from the room that the buffer has.
#[derive(Drop)]
pub struct Count {
    pub room: usize,
}

impl Pen for Count {
    ghost room = { count_room };

    ghost took = { Counted };

    ghost laws = { count_laws };

    fn byte(&mut self, _b: u8) -> Result<(), Short> {
        self.room = self.room.checked_sub(1).ok_or(Short)?;
        Ok(())
    }
}

// Puts the bytes into the buffer, from a place on.
#[derive(Drop)]
pub struct Put<'a> {
    pub out: &'a mut [u8],
    pub at: usize,
}

impl Pen for Put<'_> {
    ghost room = { put_room };

    ghost took = { IsPut };

    ghost laws = { put_laws };

    fn byte(&mut self, b: u8) -> Result<(), Short> {
        if self.out.len() <= self.at {
            return Err(Short);
        }
        self.out[self.at] = b;
        self.at += 1;
        Ok(())
    }
}
