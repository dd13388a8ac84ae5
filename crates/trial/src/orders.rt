// Which refusal is given where two apply: of two neighbours in the order's rows, the first.
use crate::ask::{Call, ask};
use crate::lent::{Room, beside};
use crate::make::{self, ASTRAY, DISORDERED, MISFRAMED, MISNAMED, OUTSIDE, SILENT_LOOP};
use std::io;

// No workspace and no room: with these a check is refused by 11 and a builder by 18, if by nothing before.
const NOTHING: Room = Room {
    work_16: 0,
    work_64: 0,
    buffer: 0,
};

// "Within one table 1 to 7 are tried in that order, each over the whole table before the next."
pub(crate) fn of_a_table(rt: &(impl Print + AllocGlobal)) -> io::Result<()> {
    let r = cases::r();
    let outside = make::changed(r, &[OUTSIDE]);
    ask(rt, "1 and 2:", Call::Read(&outside[..11], 9))?;
    let rows: [(&str, &[(usize, u8)]); 5] = [
        ("2 and 3:", &[OUTSIDE, MISFRAMED]),
        ("3 and 4:", &[MISFRAMED, ASTRAY]),
        ("4 and 5:", &[MISNAMED, ASTRAY]),
        ("5 late and 6 early:", &[MISNAMED, DISORDERED]),
        ("6 and 7:", &[DISORDERED, (20, 0), (22, 1)]),
    ];
    for (about, changes) in rows {
        let table = make::changed(r, changes);
        ask(rt, about, Call::Read(&table, 9))?;
    }
    Ok(())
}

// "Check: 8, rule's 1 to 7, flow's 1 to 7, then 9 to 14."
pub(crate) fn of_a_check(rt: &(impl Print + AllocGlobal)) -> io::Result<()> {
    let short = [0; 11];
    let r = cases::r();
    let silent = make::changed(r, &SILENT_LOOP);
    let other = make::header(65, 2, 0);
    let one = make::header(1, 2, 0);
    let calls = [
        (
            "8 and the rule's 1:",
            Call::Check(&short, &r, 2, beside(20)),
        ),
        (
            "the rule's 7 and the flow's 1:",
            Call::Check(&silent, &short, 0, beside(20)),
        ),
        (
            "the flow's 7 and 9:",
            Call::Check(&other, &silent, 0, NOTHING),
        ),
        ("9 and 10:", Call::Check(&other, &r, 0, NOTHING)),
        ("10 and 11:", Call::Check(&other, &one, 0, NOTHING)),
    ];
    for (about, call) in calls {
        ask(rt, about, call)?;
    }
    Ok(())
}

// 65 nodes and 1,024 flow states; then 17 nodes and 1,024 flow states, and a trace fault of 17 events that has no room.
pub(crate) fn of_a_check_later(rt: &(impl Print + AllocGlobal)) -> io::Result<()> {
    let many = make::chain_of_64(rt.alloc(), 65)?;
    let states = make::header(1024, 2, 0);
    let rule = make::ring(rt.alloc(), 200, 17, 1, 16)?;
    let flow = make::ring(rt.alloc(), 6200, 1024, 1, 1024)?;
    let calls = [
        ("11 and 12:", Call::Check(&many, &states, 1, NOTHING)),
        ("12 and 13:", Call::Check(&many, &states, 1, beside(0))),
        ("13 and 14:", Call::Check(&rule, &flow, 0, beside(0))),
    ];
    for (about, call) in calls {
        ask(rt, about, call)?;
    }
    Ok(())
}

// "Join: first table, second table, 15 to 18." For 16 a table of 4 states and 10 moves beside 1,024 states; for 17 1,024
// loops beside 4,096 moves; and no room for any.
pub(crate) fn of_a_join(rt: &(impl Print + AllocGlobal)) -> io::Result<()> {
    let short = [0; 11];
    let r = cases::r();
    let silent = make::changed(r, &SILENT_LOOP);
    let (dog, one) = (cases::watchdog_12(), cases::loop_11());
    let states = make::header(1024, 3, 0);
    let ring = make::ring(rt.alloc(), 24600, 1024, 4, 4096)?;
    let calls = [
        (
            "the first's 7 and the second's 1:",
            Call::Join(&silent, &short, 1, 0),
        ),
        ("the second's 7 and 15:", Call::Join(&r, &silent, 1, 0)),
        ("15 and 16:", Call::Join(&dog, &states, 1, 0)),
        ("16 and 17:", Call::Join(&dog, &states, 0, 0)),
        ("17 and 18:", Call::Join(&one, &ring, 0, 0)),
    ];
    for (about, call) in calls {
        ask(rt, about, call)?;
    }
    Ok(())
}

// "Watchdog: the rule's 1 to 7, then 10, 19, 11, 12, 18."
pub(crate) fn of_a_watchdog(rt: &(impl Print + AllocGlobal)) -> io::Result<()> {
    let astray = make::header(65, 63, 65);
    let (large, widest) = (make::header(65, 63, 0), make::header(64, 63, 0));
    let many = make::chain_of_64(rt.alloc(), 65)?;
    let calls = [
        ("the rule's 4 and 10:", Call::Watchdog(&astray, NOTHING)),
        ("10 and 19:", Call::Watchdog(&large, NOTHING)),
        ("19 and 11:", Call::Watchdog(&widest, NOTHING)),
        ("11 and 12:", Call::Watchdog(&many, NOTHING)),
        ("12 and 18:", Call::Watchdog(&many, beside(0))),
    ];
    for (about, call) in calls {
        ask(rt, about, call)?;
    }
    Ok(())
}
