// Asking for the watchdog of a rule.
ghost use Rattle.tables.specs.Answers.{built_says};
ghost use Rattle.watchdog.specs.Asking.{WatchdogCall};
ghost use Rattle.watchdog.specs.Tests.{Tested, Answers};

use crate::put::put_watchdog;
use normal::form::normal_of;
use tables::answer::Refusal;
use tables::table::Table;

// The rule's 1 to 7, then 10, 19, 11: the first that holds, or the rule's table.
fn tested(rule: &[u8], lacks: bool) -> Result<Table, Refusal>
    ensures { Tested rule.now lacks result }
{
    let table = Table::as_rule(rule)?;
    if table.states() > 64 {
        return Err(Refusal::Rule(10));
    }
    if table.events() == 63 {
        return Err(Refusal::Rule(19));
    }
    if lacks {
        return Err(Refusal::Call(11));
    }
    Ok(table)
}

// Then 12 and 18, or the watchdog is put.
fn made(rule: &[u8], lacks: bool, out: &mut [u8]) -> Result<usize, Refusal>
    ensures { Answers rule.now lacks out.old (built_says result) out.new }
{
    let table = tested(rule, lacks)?;
    let form = normal_of(table.bytes()).ok_or(Refusal::Rule(12))?;
    put_watchdog(&form, out)
}

// Builds the watchdog of a rule; both workspaces are cleared.
pub fn watchdog(
    rule: &[u8],
    work16: &mut [u16],
    work64: &mut [u64],
    out: &mut [u8],
) -> Result<usize, Refusal>
    ensures { WatchdogCall rule.now work16.old work64.old out.old result work16.new work64.new out.new }
{
    let lacks = workspace::is_short(work16, work64);
    workspace::clear(work16, work64);
    made(rule, lacks, out)
}
