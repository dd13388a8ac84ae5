// The reader and the writer undo each other: each table is read, written from what was read, and read again.
use crate::lent::{JUNK, JUNK_16};
use crate::show;
use std::alloc::{AllocError, Global};
use std::io;
use tables::answer::Header;

// The first place at which two buffers differ; the end of the shorter one where there is none.
fn first_other(a: &[u8], b: &[u8]) -> usize {
    a.iter()
        .zip(b)
        .position(|(x, y)| x != y)
        .unwrap_or(a.len().min(b.len()))
}

fn again(alloc: Global, table: &[u8], written: &[u8]) -> Result<String, AllocError> {
    let mut list = vec![in alloc; JUNK_16; 40]?;
    let answer = tables::read::read(written, &mut list);
    let read = show::read(alloc, answer, &list)?;
    format!(in alloc; "; the same up to {};{read}", first_other(table, written))
}

fn back(alloc: Global, header: Header, list: &[u16], table: &[u8]) -> Result<String, AllocError> {
    let Header {
        states,
        events,
        start,
        moves,
    } = header;
    let moves = &list[..moves.saturating_mul(3).min(list.len())];
    let mut out = vec![in alloc; JUNK; 80]?;
    let answer = tables::write::write(states, events, start, moves, &mut out);
    let built = show::built(alloc, answer, &out)?;
    let again = again(alloc, table, &out[..table.len().min(out.len())])?;
    format!(in alloc; ";{built}{again}")
}

fn undone(rt: &(impl Print + AllocGlobal), name: &str, table: &[u8]) -> io::Result<()> {
    let alloc = rt.alloc();
    let mut list = vec![in alloc; JUNK_16; 40]?;
    let answer = tables::read::read(table, &mut list);
    let read = show::read(alloc, answer, &list)?;
    let back = match answer {
        Ok(header) => back(alloc, header, &list, table)?,
        Err(_) => String::new(alloc),
    };
    println!(rt; "{name} there and back:{read}{back}")
}

pub(crate) fn there_and_back(rt: &(impl Print + AllocGlobal)) -> io::Result<()> {
    undone(rt, "R", &cases::r())?;
    undone(rt, "STOP", &cases::stop())?;
    undone(rt, "DIV", &cases::div())?;
    undone(rt, "the rule of case 7", &cases::rule_7())?;
    undone(rt, "the flow of case 2", &cases::flow_2())?;
    undone(rt, "the flow of case 3", &cases::flow_3())?;
    undone(rt, "the flow of case 7", &cases::flow_7())?;
    undone(rt, "the flow of case 9", &cases::flow_9())?;
    undone(rt, "the join of case 10", &cases::join_10())?;
    undone(rt, "the table of case 11", &cases::loop_11())?;
    undone(rt, "the watchdog of case 12", &cases::watchdog_12())
}
