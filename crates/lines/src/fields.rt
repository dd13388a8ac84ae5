// Fields that follow another, each after a space.
ghost use Rattle.std.specs.Prelude.{[], ◌∷◌};
ghost use Rattle.lines.specs.Fields.{number, space};
ghost use Rattle.lines.specs.Report.{events};
ghost use Rattle.lines.specs.Pen.{Draws, led};

use crate::answer::Short;
use crate::pen::Pen;

pub fn next_word<P: Pen>(pen: &mut P, text: &[u8]) -> Result<(), Short>
    ensures { Draws P.room P.took (space ∷ text.now) pen.old result pen.new }
{
    pen.byte(b' ')?;
    pen.word(text)
}

pub fn next_number<P: Pen>(pen: &mut P, n: usize) -> Result<(), Short>
    ensures { Draws P.room P.took (led (number n ∷ [])) pen.old result pen.new }
{
    pen.byte(b' ')?;
    pen.number(n)
}

pub fn two_numbers<P: Pen>(pen: &mut P, a: usize, b: usize) -> Result<(), Short>
    ensures { Draws P.room P.took (led (number a ∷ number b ∷ [])) pen.old result pen.new }
{
    next_number(pen, a)?;
    next_number(pen, b)
}

// The events of a trace. A trace can be far longer than the buffer, so it is left as soon as the bytes are too many.
pub fn events<P: Pen>(pen: &mut P, s: &[u8]) -> Result<(), Short>
    ensures { Draws P.room P.took (led (events s.now)) pen.old result pen.new }
{
    for event in s {
        next_number(pen, usize::from(*event))?;
    }
    Ok(())
}
