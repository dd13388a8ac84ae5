// The lines of the input, each answered as it ends.
ghost use Rattle.std.specs.Prelude.{◌≤◌, vec_len};

use crate::call;
use crate::call::TOO_LONG;
use crate::field::LineError;
use std::alloc::{AllocError, Global};

// Prints the answer to a line. One that can't be written is passed over.
pub fn respond(rt: &impl Print, alloc: Global, line: &[u8]) -> Result<(), AllocError> {
    let mut text = match call::answer(alloc, line) {
        Ok(text) => text,
        Err(LineError::Bad) => String::from_str(alloc, "bad")?,
        Err(LineError::OutOfMemory(e)) => return Err(e),
    };
    text.push('\n')?;
    let _ = rt.write_all(text.as_bytes());
    Ok(())
}

// Adds to a line. What is longer than a line can be is left out, and then too long all the same.
fn extend(line: &mut Vec<u8>, piece: &[u8]) -> Result<(), AllocError>
    ensures { vec_len line.old ≤ 100000 → vec_len line.new ≤ 100000 }
{
    let room = TOO_LONG.saturating_sub(line.len());
    line.extend_from_slice(&piece[..room.min(piece.len())])
}

// Takes a block of the input: each of its pieces but the first stands behind a line feed, which ends the line before it.
pub fn take_in(
    rt: &impl Print,
    alloc: Global,
    block: &[u8],
    line: &mut Vec<u8>,
) -> Result<(), AllocError> {
    for (i, piece) in block.split(|b| *b == b'\n').enumerate() {
        if i > 0 {
            respond(rt, alloc, line.as_slice())?;
            line.clear();
        }
        extend(line, piece)?;
    }
    Ok(())
}
