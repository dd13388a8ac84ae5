// The calls of the protocol: each function is given the fields behind the call's word, makes the call, and answers its line.
// Where it lends workspaces, `work` has their three fields.
use crate::field;
use crate::field::LineError;
use crate::lent::Lent;
use crate::told::Told;
use crate::work::Workspaces;
use std::alloc::Global;

// No line has as many bytes as this without its line feed.
pub const TOO_LONG: usize = 100_000;

// The most bytes of a table and of a result buffer.
const TABLE: usize = 24_600;

// The most bytes of a trace buffer.
const TRACE: usize = 16_384;

// The most numbers of a list.
const LIST: usize = 12_300;

// The most fields that a call has, its word among them.
const FIELDS: usize = 8;

type Reply = Result<String, LineError>;

fn read(alloc: Global, table: &[u8], list: &[u8]) -> Reply {
    let table = field::bytes(alloc, table, TABLE)?;
    let mut list = Lent::new(field::list(alloc, list, LIST)?)?;
    let answer = tables::read::read(&table, &mut list.now);
    Ok(format!(in alloc; "{} {list}", Told(answer))?)
}

fn write(alloc: Global, header: [u16; 3], list: &[u8], out: &[u8]) -> Reply {
    let [states, events, start] = header;
    let list = field::list(alloc, list, LIST)?;
    let mut out = Lent::new(field::bytes(alloc, out, TABLE)?)?;
    let answer = tables::write::write(states, events, start, &list, &mut out.now);
    Ok(format!(in alloc; "{} {out}", Told(answer))?)
}

fn moves(alloc: Global, table: &[u8], state: &[u8]) -> Reply {
    let table = field::bytes(alloc, table, TABLE)?;
    let part = tables::state::moves_of(&table, field::number(state)?);
    Ok(format!(in alloc; "{}", Told(part))?)
}

// The check; its short form where there is no mode.
fn check(
    alloc: Global,
    rule: &[u8],
    flow: &[u8],
    mode: Option<u16>,
    work: &[&[u8]],
    trace: &[u8],
) -> Reply {
    let rule = field::bytes(alloc, rule, TABLE)?;
    let flow = field::bytes(alloc, flow, TABLE)?;
    let mut work = Workspaces::new(alloc, work)?;
    let mut trace = Lent::new(field::bytes(alloc, trace, TRACE)?)?;
    let (of_16, of_64, out) = (&mut work.of_16, &mut work.of_64, &mut trace.now);
    let answer = match mode {
        Some(mode) => refine::check::check(&rule, &flow, mode, of_16, of_64, out),
        None => refine::check::check_short(&rule, &flow, of_16, of_64, out),
    };
    Ok(format!(in alloc; "{} {work} {trace}", Told(answer))?)
}

fn join(alloc: Global, first: &[u8], second: &[u8], set: &[u8], out: &[u8]) -> Reply {
    let first = field::bytes(alloc, first, TABLE)?;
    let second = field::bytes(alloc, second, TABLE)?;
    let mut out = Lent::new(field::bytes(alloc, out, TABLE)?)?;
    let answer = joins::join(&first, &second, field::number(set)?, &mut out.now);
    Ok(format!(in alloc; "{} {out}", Told(answer))?)
}

fn dog(alloc: Global, rule: &[u8], work: &[&[u8]], out: &[u8]) -> Reply {
    let rule = field::bytes(alloc, rule, TABLE)?;
    let mut work = Workspaces::new(alloc, work)?;
    let mut out = Lent::new(field::bytes(alloc, out, TABLE)?)?;
    let answer = watchdog::ask::watchdog(&rule, &mut work.of_16, &mut work.of_64, &mut out.now);
    Ok(format!(in alloc; "{} {work} {out}", Told(answer))?)
}

// Makes the call that a line spells.
pub fn answer(alloc: Global, line: &[u8]) -> Reply {
    if line.len() >= TOO_LONG {
        return Err(LineError::Bad);
    }
    // one field more than any call has is enough to see that a line has too many, however many it has
    let fields: Vec<&[u8]> = line.split(|b| *b == b' ').take(FIELDS + 1).collect(alloc)?;
    match fields.as_slice() {
        [b"read", table, list] => read(alloc, table, list),
        [b"write", n, e, start, list, out] => {
            let header = [field::number(n)?, field::number(e)?, field::number(start)?];
            write(alloc, header, list, out)
        }
        [b"moves", table, state] => moves(alloc, table, state),
        [b"check", rule, flow, mode, work @ .., trace] => {
            check(alloc, rule, flow, Some(field::number(mode)?), work, trace)
        }
        [b"short", rule, flow, work @ .., trace] => check(alloc, rule, flow, None, work, trace),
        [b"join", first, second, set, out] => join(alloc, first, second, set, out),
        [b"dog", rule, work @ .., out] => dog(alloc, rule, work, out),
        _ => Err(LineError::Bad),
    }
}
