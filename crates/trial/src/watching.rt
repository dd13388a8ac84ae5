// A watchdog beside a flow: joined on the events 1 to E, event E + 1 can occur exactly when the flow has a trace fault. The
// joined table is checked against a rule that can do everything but E + 1, so it has a trace fault exactly if E + 1 can occur;
// then comes what the short form says of rule and flow. (The order's document 02 turns the short form to mode 1: from then on
// this is to ask for mode 0 by its number.)
use crate::ask::judged;
use crate::lent::{Workspaces, beside};
use crate::make;
use refine::verdict::Verdict;
use std::alloc::{AllocError, Global};
use std::io;

// One state that does 1, 2 and 3 and stays, of 4 events.
const ALL_BUT_4: [u8; 30] = *b"\x01\0\x04\0\0\0\x03\0\x0c\0\0\0\
    \0\0\x01\0\0\0\
    \0\0\x02\0\0\0\
    \0\0\x03\0\0\0";

// The events 1, 2 and 3 as a set.
const VISIBLE: u64 = 14;

// A rule whose watchdog is joined with a flow, and whether the flow comes first.
type Watch<'a> = (&'a [u8], &'a [u8], bool);

// The watchdog and the flow as one table.
fn joined(alloc: Global, watch: Watch) -> Result<Vec<u8>, AllocError> {
    let (rule, flow, flow_first) = watch;
    let mut spaces = Workspaces::new(alloc, beside(0))?;
    let (work_16, work_64) = (&mut spaces.work_16, &mut spaces.work_64);
    let dog = make::built(
        alloc,
        200,
        |out| watchdog::ask::watchdog(rule, work_16, work_64, out),
    )?;
    if flow_first {
        make::built(alloc, 1200, |out| joins::join(flow, &dog, VISIBLE, out))
    } else {
        make::built(alloc, 1200, |out| joins::join(&dog, flow, VISIBLE, out))
    }
}

fn watched(rt: &(impl Print + AllocGlobal), about: &str, watch: Watch) -> io::Result<()> {
    let alloc = rt.alloc();
    let (rule, flow, _) = watch;
    let table = joined(alloc, watch)?;
    let room = beside(40);
    let join = judged(alloc, 0, room, |work_16, work_64, trace| {
        refine::check::check(&ALL_BUT_4, &table, 0, work_16, work_64, trace)
    })?;
    let short = judged(alloc, 0, room, |work_16, work_64, trace| {
        refine::check::check_short(rule, flow, work_16, work_64, trace)
    })?;
    let occurs = matches!(join.verdict, Verdict::TraceFault { .. });
    let faulty = matches!(short.verdict, Verdict::TraceFault { .. });
    let agreed = if occurs == faulty {
        "they agree"
    } else {
        "THEY DISAGREE"
    };
    println!(rt;
        "{about}: {}; short form {}; {agreed}",
        join.line, short.line
    )
}

pub(crate) fn beside_flows(rt: &(impl Print + AllocGlobal)) -> io::Result<()> {
    let (r, stop, div) = (cases::r(), cases::stop(), cases::div());
    let (flow_2, flow_3, rule_7) = (cases::flow_2(), cases::flow_3(), cases::rule_7());
    let (flow_7, flow_9) = (cases::flow_7(), cases::flow_9());
    let watches: [(&str, Watch); 10] = [
        ("watchdog of R and R", (&r, &r, false)),
        ("watchdog of R and the flow of case 3", (&r, &flow_3, false)),
        ("watchdog of R and DIV", (&r, &div, false)),
        ("watchdog of R and the flow of case 2", (&r, &flow_2, false)),
        ("the flow of case 2 and watchdog of R", (&r, &flow_2, true)),
        ("watchdog of R and the flow of case 9", (&r, &flow_9, false)),
        // The rule of case 7 decides silently, DIV is never stable, STOP does nothing.
        (
            "watchdog of case 7's rule and flow",
            (&rule_7, &flow_7, false),
        ),
        (
            "watchdog of case 7's rule and the flow of case 9",
            (&rule_7, &flow_9, false),
        ),
        ("watchdog of DIV and STOP", (&div, &stop, false)),
        (
            "the flow of case 9 and watchdog of STOP",
            (&stop, &flow_9, true),
        ),
    ];
    for (about, watch) in watches {
        watched(rt, about, watch)?;
    }
    Ok(())
}
