// The library's calls for C: each takes what the call takes, and leaves its answer as eight numbers in a lent array
// (include/rhythmoxa.h says it for those who call; specs/Layout.antt defines the numbers).
#![tactic(auto)]

ghost use Rattle.rhythmoxa.specs.Calls.{ReadTold, WriteTold, PartTold, CheckTold, ShortTold, JoinTold, WatchdogTold};

use joins::join;
use numbers::Answer;
use place::place_of;
use refine::check::{check, check_short};
use tables::read::read;
use tables::write::write;
use watchdog::ask::watchdog;

mod numbers;
mod place;

// Reads a table; the numbers of its moves go to the list.
#[unsafe(no_mangle)]
pub extern "C" fn rhx_read(table: &[u8], list: &mut [u16], answer: &mut [u64; 8])
    ensures { ReadTold table.now list.old list.new answer.new }
{
    *answer = read(table, list).numbers();
}

// Writes a table of n, E, start and a list of moves.
#[unsafe(no_mangle)]
pub extern "C" fn rhx_write(
    n: u16,
    e: u16,
    start: u16,
    list: &[u16],
    out: &mut [u8],
    answer: &mut [u64; 8],
)
    ensures { WriteTold n e start list.now out.old out.new answer.new }
{
    *answer = write(n, e, start, list, out).numbers();
}

// Says where the moves of one state stand in their table.
#[unsafe(no_mangle)]
pub extern "C" fn rhx_moves_of(table: &[u8], state: u16, answer: &mut [u64; 8])
    ensures { PartTold table.now state answer.new }
{
    *answer = place_of(table, state).numbers();
}

// Checks a flow against a rule in a mode.
#[unsafe(no_mangle)]
pub extern "C" fn rhx_check(
    rule: &[u8],
    flow: &[u8],
    mode: u16,
    work16: &mut [u16],
    work64: &mut [u64],
    trace: &mut [u8],
    answer: &mut [u64; 8],
)
    ensures { CheckTold rule.now flow.now mode work16.old work64.old trace.old work16.new work64.new trace.new answer.new }
{
    *answer = check(rule, flow, mode, work16, work64, trace).numbers();
}

// Checks a flow against a rule: the short form.
#[unsafe(no_mangle)]
pub extern "C" fn rhx_check_short(
    rule: &[u8],
    flow: &[u8],
    work16: &mut [u16],
    work64: &mut [u64],
    trace: &mut [u8],
    answer: &mut [u64; 8],
)
    ensures { ShortTold rule.now flow.now work16.old work64.old trace.old work16.new work64.new trace.new answer.new }
{
    *answer = check_short(rule, flow, work16, work64, trace).numbers();
}

// Joins two tables on a set of events, event e as 2 to the power e.
#[unsafe(no_mangle)]
pub extern "C" fn rhx_join(
    first: &[u8],
    second: &[u8],
    set: u64,
    out: &mut [u8],
    answer: &mut [u64; 8],
)
    ensures { JoinTold first.now second.now set out.old out.new answer.new }
{
    *answer = join(first, second, set, out).numbers();
}

// Builds the watchdog of a rule.
#[unsafe(no_mangle)]
pub extern "C" fn rhx_watchdog(
    rule: &[u8],
    work16: &mut [u16],
    work64: &mut [u64],
    out: &mut [u8],
    answer: &mut [u64; 8],
)
    ensures { WatchdogTold rule.now work16.old work64.old out.old work16.new work64.new out.new answer.new }
{
    *answer = watchdog(rule, work16, work64, out).numbers();
}
