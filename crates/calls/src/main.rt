// Reads calls on standard input, one a line, and prints one line for each: what the call answered, and what it left in the
// buffers and workspaces lent. second/README.md has the protocol; a line that does not follow it is answered by `bad`.
#![tactic(auto)]

use std::alloc::AllocError;
use std::io::Read;

mod call;
mod field;
mod lent;
mod line;
mod told;
mod work;

// What is read of the input at once.
const BLOCK: usize = 65536;

// The next block of the input; empty where it ends. A read that fails ends it.
fn next_block<'a>(input: &mut impl Read, block: &'a mut [u8]) -> &'a [u8] {
    let count = input.read(block).unwrap_or(0);
    &block[..count]
}

// Takes the whole input. A proved loop has to end, and nothing says that the input does: so the loop counts its turns, to a
// number that no run comes to.
fn main(rt: HostRuntime) -> Result<(), AllocError> {
    let alloc = rt.alloc();
    let mut input = rt.reader();
    let mut room = vec![in alloc; 0u8; BLOCK]?;
    let mut line = Vec::new(alloc);
    for _ in 0..u64::MAX {
        let block = next_block(&mut input, room.as_mut_slice());
        if block.is_empty() {
            break;
        }
        line::take_in(&rt, alloc, block, &mut line)?;
    }
    if line.is_empty() {
        return Ok(());
    }
    line::respond(&rt, alloc, line.as_slice())
}
