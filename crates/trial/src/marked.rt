// The order's cases 1 to 12, over the constants that the proved case table names: checks in both modes, then builders.
use crate::ask::{Call, ask, both};
use crate::lent::beside;
use std::io;

// One of the cases 1 to 9; two of them are also asked of the short form, which runs mode 0.
fn case(rt: &(impl Print + AllocGlobal), number: u8, rule: &[u8], flow: &[u8]) -> io::Result<()> {
    both(rt, format_args!("case {number}:"), rule, flow)?;
    if matches!(number, 3 | 6) {
        let call = Call::CheckShort(rule, flow, beside(20));
        ask(rt, format_args!("case {number}, short form:"), call)?;
    }
    Ok(())
}

pub(crate) fn checks(rt: &(impl Print + AllocGlobal)) -> io::Result<()> {
    let (r, stop, div) = (cases::r(), cases::stop(), cases::div());
    let (flow_3, rule_7) = (cases::flow_3(), cases::rule_7());
    case(rt, 1, &r, &r)?;
    case(rt, 2, &r, &cases::flow_2())?;
    case(rt, 3, &r, &flow_3)?;
    case(rt, 4, &r, &stop)?;
    // A flow that is never stable refuses nothing.
    case(rt, 5, &r, &div)?;
    // A node without a stable state may refuse nothing.
    case(rt, 6, &div, &stop)?;
    case(rt, 7, &rule_7, &cases::flow_7())?;
    // A flow need not offer all that the rule may offer.
    case(rt, 8, &rule_7, &flow_3)?;
    case(rt, 9, &stop, &cases::flow_9())
}

pub(crate) fn builders(rt: &(impl Print + AllocGlobal)) -> io::Result<()> {
    let (r, one) = (cases::r(), cases::loop_11());
    ask(rt, "case 10:", Call::Join(&r, &r, 14, 40))?;
    ask(rt, "case 11:", Call::Join(&one, &one, 0, 40))?;
    ask(rt, "case 12:", Call::Watchdog(&r, beside(80)))
}
