// The tests that come before the rule's nodes are looked for.
ghost use Rattle.std.specs.Prelude.{◌≡◌, IfOk};
ghost use Rattle.refine.specs.Refusals.{tests};
ghost use Rattle.refine.specs.Walking.{turned_of};

use tables::answer::Refusal;
use tables::table::Table;

// 8, the rule's 1 to 7, the flow's 1 to 7, then 9, 10 and 11: the first that holds, or the two tables. The mode stays a
// number, as the calls for C take it: every definition that a promise names is over that number.
pub fn tested<'a>(
    rule: &'a [u8],
    flow: &'a [u8],
    mode: u16,
    short: bool,
) -> Result<(Table<'a>, Table<'a>), Refusal>
    ensures found { turned_of result ≡ tests rule.now flow.now mode short }
    ensures tables { IfOk result (λ t. (t.0 ≡ rule.now) × (t.1 ≡ flow.now)) }
{
    if mode > 1 {
        return Err(Refusal::Call(8));
    }
    let rule = Table::as_rule(rule)?;
    let flow = Table::as_flow(flow)?;
    if rule.events() != flow.events() {
        return Err(Refusal::Call(9));
    }
    if rule.states() > 64 {
        return Err(Refusal::Rule(10));
    }
    if short {
        return Err(Refusal::Call(11));
    }
    Ok((rule, flow))
}
