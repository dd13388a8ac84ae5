// Case 13 and the order's other limits, each from both sides.
use crate::ask::{Call, ask, both};
use crate::lent::{Room, beside};
use crate::make;
use std::io;

// "16 nodes and 1,024 flow states go through 13; 17 and 1,024 do not."
pub(crate) fn pairs(rt: &(impl Print + AllocGlobal)) -> io::Result<()> {
    let flow = make::ring(rt.alloc(), 6200, 1024, 1, 1024)?;
    for nodes in [16, 17] {
        let rule = make::ring(rt.alloc(), 200, nodes, 1, nodes)?;
        both(
            rt,
            format_args!("case 13, {nodes} nodes and 1024 flow states:"),
            &rule,
            &flow,
        )?;
    }
    Ok(())
}

// "A trace of 5 fits 5 bytes, not 4." The flow has one state: to forget the node would end its walk at once.
pub(crate) fn trace_of_5(rt: &(impl Print + AllocGlobal)) -> io::Result<()> {
    let rule = make::ring(rt.alloc(), 60, 5, 1, 4)?;
    let flow = cases::loop_11();
    for bytes in [5, 4] {
        let call = Call::Check(&rule, &flow, 0, beside(bytes));
        ask(
            rt,
            format_args!("case 13, a trace of 5 in {bytes} bytes:"),
            call,
        )?;
    }
    Ok(())
}

// A trace as long as nodes × flow states, 16 × 1,023: the two meet at the rule's gap only after every other pair.
pub(crate) fn longest_trace(rt: &(impl Print + AllocGlobal)) -> io::Result<()> {
    let rule = make::ring(rt.alloc(), 200, 16, 2, 31)?;
    let flow = make::ring_of_1023(rt.alloc())?;
    for bytes in [16368, 16367] {
        let call = Call::Check(&rule, &flow, 0, beside(bytes));
        ask(rt, format_args!("a trace of 16368 in {bytes} bytes:"), call)?;
    }
    Ok(())
}

// A rule of n states without moves, checked and asked for its watchdog.
pub(crate) fn rule_states(rt: &(impl Print + AllocGlobal)) -> io::Result<()> {
    let flow = cases::stop();
    for states in [64, 65] {
        let rule = make::header(states, 3, 0);
        let about = format!(in rt.alloc(); "rule of {states} states:")?;
        both(rt, about.as_str(), &rule, &flow)?;
        ask(rt, about, Call::Watchdog(&rule, beside(40)))?;
    }
    Ok(())
}

// A rule of 64 states with so many moves, checked and asked for its watchdog.
pub(crate) fn rule_nodes(rt: &(impl Print + AllocGlobal)) -> io::Result<()> {
    let flow = make::header(1, 2, 0);
    for (nodes, moves) in [(64u8, 63), (64, 64), (65, 65)] {
        let rule = make::chain_of_64(rt.alloc(), moves)?;
        let about = format!(in rt.alloc(); "rule of {nodes} nodes, {moves} moves:")?;
        ask(rt, about.as_str(), Call::Check(&rule, &flow, 0, beside(20)))?;
        ask(rt, about, Call::Watchdog(&rule, beside(786)))?;
    }
    Ok(())
}

pub(crate) fn workspace_lengths(rt: &(impl Print + AllocGlobal)) -> io::Result<()> {
    let r = cases::r();
    for (work_16, work_64) in [
        (32768, 128),
        (32767, 128),
        (32768, 127),
        (32769, 129),
        (0, 0),
    ] {
        let about = format!(in rt.alloc(); "workspaces of {work_16} and {work_64}:")?;
        let room = Room {
            work_16,
            work_64,
            buffer: 72,
        };
        ask(rt, about.as_str(), Call::Check(&r, &r, 1, room))?;
        ask(rt, about, Call::Watchdog(&r, room))?;
    }
    Ok(())
}

// The start is the pair of the starts, here the last state of each; E is the larger of the two.
pub(crate) fn states_of_a_join(rt: &(impl Print + AllocGlobal)) -> io::Result<()> {
    for (n, m) in [(32, 32), (1024, 1), (25, 41), (1024, 1024u16)] {
        let first = make::header(n, 2, n.saturating_sub(1));
        let second = make::header(m, 3, m.saturating_sub(1));
        let call = Call::Join(&first, &second, 8, 20);
        ask(rt, format_args!("join of {n} and {m} states:"), call)?;
    }
    Ok(())
}

// Each of the ring's moves once, and the loop beside each of its 1,024 states.
pub(crate) fn moves_of_a_join(rt: &(impl Print + AllocGlobal)) -> io::Result<()> {
    let one = cases::loop_11();
    for moves in [3072, 3073] {
        let ring = make::ring(rt.alloc(), 24600, 1024, 4, moves)?;
        let call = Call::Join(&one, &ring, 0, 24600);
        ask(rt, format_args!("join of 1024 + {moves} moves:"), call)?;
    }
    Ok(())
}

// Joins of two tables of one state: the events of the set, E of the first and of the second, and the set.
pub(crate) fn joining_sets(rt: &(impl Print + AllocGlobal)) -> io::Result<()> {
    let joins = [
        ("no event", 2, 3, 0),
        ("event 3 of 3", 2, 3, 8),
        ("event 4 of 3", 2, 3, 16),
        ("event 0", 2, 3, 1),
        ("event 63 of 3", 2, 3, 1 << 63),
        // With the larger E = 63 no event lies above.
        ("events 1 to 63 of 63", 63, 0, u64::MAX - 1),
        ("events 0 to 63 of 63", 63, 0, u64::MAX),
    ];
    for (events, e, f, set) in joins {
        let first = make::header(1, e, 0);
        let second = make::header(1, f, 0);
        let call = Call::Join(&first, &second, set, 12);
        ask(rt, format_args!("joining set of {events}:"), call)?;
    }
    Ok(())
}

pub(crate) fn events_of_a_watchdog(rt: &(impl Print + AllocGlobal)) -> io::Result<()> {
    for events in [0, 62, 63] {
        let rule = make::header(1, events, 0);
        ask(
            rt,
            format_args!("watchdog with E = {events}:"),
            Call::Watchdog(&rule, beside(400)),
        )?;
    }
    Ok(())
}

// A result buffer that is just long enough, and one that is short by a byte.
pub(crate) fn result_buffers(rt: &(impl Print + AllocGlobal)) -> io::Result<()> {
    let r = cases::r();
    for bytes in [30, 29] {
        ask(
            rt,
            format_args!("join in {bytes} bytes:"),
            Call::Join(&r, &r, 14, bytes),
        )?;
    }
    for bytes in [72, 71] {
        ask(
            rt,
            format_args!("watchdog in {bytes} bytes:"),
            Call::Watchdog(&r, beside(bytes)),
        )?;
    }
    Ok(())
}
