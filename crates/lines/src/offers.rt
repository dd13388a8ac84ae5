// The offers of a refusal fault.
ghost use Rattle.std.specs.Prelude.{◌≡◌, ◌<◌, length};
ghost use Rattle.lines.specs.Report.{member_at, members, events, offered};
ghost use Rattle.lines.specs.Pen.{Draws, led};

use crate::answer::Short;
use crate::fields;
use crate::pen::Pen;
use sets::has_one;

// How many members a set has; `as`, since Rust has no From from u32 to usize.
fn count(set: u64) -> usize
    ensures { result ≡ length (members set) }
{
    set.count_ones() as usize
}

// The number x, if it is in the set.
fn member<P: Pen>(pen: &mut P, set: u64, x: usize) -> Result<(), Short>
    requires { x < 64 }
    ensures { Draws P.room P.took (led (events (member_at set x))) pen.old result pen.new }
{
    if has_one(set, x) {
        fields::next_number(pen, x)
    } else {
        Ok(())
    }
}

fn members<P: Pen>(pen: &mut P, set: u64) -> Result<(), Short>
    ensures { Draws P.room P.took (led (events (members set))) pen.old result pen.new }
{
    for x in 0..64 {
        member(pen, set, x)?;
    }
    Ok(())
}

pub fn offers<P: Pen>(pen: &mut P, set: u64) -> Result<(), Short>
    ensures { Draws P.room P.took (led (offered set)) pen.old result pen.new }
{
    fields::next_word(pen, b"offers")?;
    fields::next_number(pen, count(set))?;
    members(pen, set)
}
