// The limits of a table's numbers, each from both sides, at the reader and at the writer.
use crate::ask::{Call, Head, ask};
use crate::make;
use std::io;

// A table without moves, read, and its numbers written.
pub(crate) fn headers(rt: &(impl Print + AllocGlobal)) -> io::Result<()> {
    let heads = [
        (1, 0, 0),
        (0, 0, 0),
        (1024, 63, 1023),
        (1025, 63, 1023),
        (1024, 64, 1023),
        (1024, 63, 1024),
    ];
    for (states, events, start) in heads {
        let about = format!(in rt.alloc(); "header {states} {events} {start}")?;
        let table = make::header(states, events, start);
        let head = Head {
            states,
            events,
            start,
        };
        ask(rt, format_args!("{about}, reader:"), Call::Read(&table, 3))?;
        ask(
            rt,
            format_args!("{about}, writer:"),
            Call::Write(head, &[], 15),
        )?;
    }
    Ok(())
}

// A move of a table of 3 states and E = 3, after another one.
pub(crate) fn moves(rt: &(impl Print + AllocGlobal)) -> io::Result<()> {
    let head = Head {
        states: 3,
        events: 3,
        start: 0,
    };
    let seconds = [
        (2, 3, 2),
        (3, 3, 2),
        (2, 4, 2),
        (2, 3, 3),
        (1, 2, 2),
        (1, 2, 1),
        (1, 1, 2),
        (2, 0, 1),
        (2, 0, 2),
    ];
    for (from, event, to) in seconds {
        let list = [1, 2, 1, from, event, to];
        ask(
            rt,
            format_args!("moves 1 2 1 and {from} {event} {to}, writer:"),
            Call::Write(head, &list, 24),
        )?;
    }
    Ok(())
}

// 4,096 moves, 4,097, and lists that are not in threes: of those m is a third, rounded down.
pub(crate) fn lists(rt: &(impl Print + AllocGlobal)) -> io::Result<()> {
    let head = Head {
        states: 1024,
        events: 5,
        start: 0,
    };
    for (moves, length) in [(4096, 12288), (4096, 12289), (4096, 12290), (4097, 12291)] {
        let mut list = make::ring_moves(rt.alloc(), 1024, 5, moves)?;
        list.resize(length, 0)?;
        ask(
            rt,
            format_args!("list of {length} numbers, writer:"),
            Call::Write(head, &list, 24600),
        )?;
    }
    Ok(())
}

// The reader on 4,096 moves, with a list that is just long enough, and one that is short by a number.
pub(crate) fn tables(rt: &(impl Print + AllocGlobal)) -> io::Result<()> {
    let table = make::ring(rt.alloc(), 24600, 1024, 4, 4096)?;
    for numbers in [12288, 12287] {
        ask(
            rt,
            format_args!("table of 4096 moves, {numbers} numbers:"),
            Call::Read(&table, numbers),
        )?;
    }
    ask(rt, "table of 4096 moves:", Call::MovesOf(&table, 1023))
}

// A header of 4,097 moves, and as many bytes after it.
pub(crate) fn long_table(rt: &(impl Print + AllocGlobal)) -> io::Result<()> {
    let mut table = Vec::from_slice(rt.alloc(), &[1, 0, 0, 0, 0, 0, 1, 16, 12])?;
    table.resize(24594, 0)?;
    ask(rt, "table of 4097 moves:", Call::Read(&table, 12300))
}

// The moves of one state, and of one that is not below n.
pub(crate) fn states(rt: &(impl Print + AllocGlobal)) -> io::Result<()> {
    let div = cases::div();
    let table = cases::flow_2();
    ask(rt, "DIV:", Call::MovesOf(&div, 1))?;
    for state in 0..4 {
        ask(rt, "the flow of case 2:", Call::MovesOf(&table, state))?;
    }
    Ok(())
}
