// Parts checked apart: where each of two flows passes against its rule, the joined flows pass against the joined rules.
use crate::ask::both;
use crate::make;
use std::io;

// A check of rule and flow, each joined with R on event 1.
fn joined(
    rt: &(impl Print + AllocGlobal),
    about: &str,
    rule: &[u8],
    flow: &[u8],
) -> io::Result<()> {
    let r = cases::r();
    let rules = make::built(rt.alloc(), 600, |out| joins::join(rule, &r, 2, out))?;
    let flows = make::built(rt.alloc(), 600, |out| joins::join(flow, &r, 2, out))?;
    both(rt, about, &rules, &flows)
}

// Case 8 passes in both modes, case 3 in traces mode only.
pub(crate) fn together(rt: &(impl Print + AllocGlobal)) -> io::Result<()> {
    let flow = cases::flow_3();
    joined(
        rt,
        "case 8, each joined with R on 1:",
        &cases::rule_7(),
        &flow,
    )?;
    joined(rt, "case 3, each joined with R on 1:", &cases::r(), &flow)
}
