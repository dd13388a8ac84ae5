// Refusals 1 to 9, each in every call that gives it; limits.rt has the others.
use crate::ask::{Call, ask, both};
use crate::lent::beside;
use crate::make::{self, ASTRAY, DISORDERED, MISFRAMED, MISNAMED, OUTSIDE, SILENT_LOOP};
use std::io;

// A table alone counts as the rule, and so does a join's first table; its second counts as the flow.
fn given(rt: &(impl Print + AllocGlobal), number: u8, bad: &[u8]) -> io::Result<()> {
    let good = cases::r();
    let room = beside(20);
    let calls = [
        ("a table, reader", Call::Read(bad, 12)),
        ("a table, moves", Call::MovesOf(bad, 0)),
        ("a table, watchdog", Call::Watchdog(bad, beside(80))),
        ("the rule, check", Call::Check(bad, &good, 0, room)),
        ("the flow, check", Call::Check(&good, bad, 1, room)),
        ("the first, join", Call::Join(bad, &good, 0, 20)),
        ("the second, join", Call::Join(&good, bad, 0, 20)),
    ];
    for (of, call) in calls {
        ask(rt, format_args!("refusal {number} of {of}:"), call)?;
    }
    Ok(())
}

// 1: fewer than 12 bytes. Then the table R, damaged so that each of 2 to 7 is given.
pub(crate) fn of_tables(rt: &(impl Print + AllocGlobal)) -> io::Result<()> {
    let r = cases::r();
    given(rt, 1, &r[..11])?;
    given(rt, 2, &make::changed(r, &[OUTSIDE]))?;
    given(rt, 3, &make::changed(r, &[MISFRAMED]))?;
    given(rt, 4, &make::changed(r, &[ASTRAY]))?;
    given(rt, 5, &make::changed(r, &[MISNAMED]))?;
    given(rt, 6, &make::changed(r, &[DISORDERED]))?;
    given(rt, 7, &make::changed(r, &SILENT_LOOP))
}

// R with one byte changed, read.
fn changed(rt: &(impl Print + AllocGlobal), about: &str, change: (usize, u8)) -> io::Result<()> {
    let table = make::changed(cases::r(), &[change]);
    ask(rt, about, Call::Read(&table, 9))
}

// The three ways to be misframed: offset, last header number, length; a table of one move less and of one more than it says.
pub(crate) fn framed(rt: &(impl Print + AllocGlobal)) -> io::Result<()> {
    let r = cases::r();
    let short = &r[0..29];
    changed(rt, "offset 268:", (9, 1))?;
    changed(rt, "last header number 256:", (11, 1))?;
    changed(rt, "3 moves and 2 counted:", (6, 2))?;
    changed(rt, "3 moves and 4 counted:", (6, 4))?;
    ask(rt, "29 bytes:", Call::Read(short, 9))
}

// 8: a mode that is neither 0 nor 1, also a wide one.
pub(crate) fn modes(rt: &(impl Print + AllocGlobal)) -> io::Result<()> {
    let r = cases::r();
    for mode in [2, 256, 65535] {
        ask(
            rt,
            format_args!("mode {mode}:"),
            Call::Check(&r, &r, mode, beside(20)),
        )?;
    }
    Ok(())
}

// 9: rule and flow have different E.
pub(crate) fn events(rt: &(impl Print + AllocGlobal)) -> io::Result<()> {
    let rule = cases::r();
    let flow = make::header(1, 4, 0);
    both(rt, "E 3 and 4:", &rule, &flow)?;
    both(rt, "E 4 and 3:", &flow, &rule)
}
