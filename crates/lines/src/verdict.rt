// The fields of a verdict, its word first.
ghost use Rattle.std.specs.Prelude.{◌≤◌, ◌∷◌, length};
ghost use Rattle.tables.specs.Answers.{whose, number_of};
ghost use Rattle.csp.specs.Verdict.{passes, trace_fault, refusal_fault};
ghost use Rattle.refine.specs.Verdicts.{found, refused, length_of, answer_of};
ghost use Rattle.lines.specs.Fields.{number};
ghost use Rattle.lines.specs.Report.{events, verdict_fields};
ghost use Rattle.lines.specs.Pen.{Draws, led};

use crate::answer::Short;
use crate::pen::Pen;
use crate::{fields, offers};
use refine::verdict::Verdict;
use tables::answer::Refusal;

fn pass<P: Pen>(pen: &mut P, nodes: usize, pairs: usize) -> Result<(), Short>
    ensures { Draws P.room P.took (led (verdict_fields (found (passes nodes pairs)))) pen.old result pen.new }
{
    fields::next_word(pen, b"holds")?;
    fields::two_numbers(pen, nodes, pairs)
}

// The length and the events of a trace.
fn traced<P: Pen>(pen: &mut P, s: &[u8]) -> Result<(), Short>
    ensures { Draws P.room P.took (led (number (length s.now) ∷ events s.now)) pen.old result pen.new }
{
    fields::next_number(pen, s.len())?;
    fields::events(pen, s)
}

fn trace_fault<P: Pen>(pen: &mut P, s: &[u8]) -> Result<(), Short>
    ensures { Draws P.room P.took (led (verdict_fields (found (trace_fault s.now)))) pen.old result pen.new }
{
    fields::next_word(pen, b"trace-fault")?;
    traced(pen, s)
}

fn refusal_fault<P: Pen>(pen: &mut P, s: &[u8], set: u64) -> Result<(), Short>
    ensures { Draws P.room P.took (led (verdict_fields (found (refusal_fault s.now set)))) pen.old result pen.new }
{
    fields::next_word(pen, b"refusal-fault")?;
    traced(pen, s)?;
    offers::offers(pen, set)
}

fn refused<P: Pen>(pen: &mut P, w: Refusal) -> Result<(), Short>
    ensures { Draws P.room P.took (led (verdict_fields (refused (whose w) (number_of w)))) pen.old result pen.new }
{
    fields::next_word(pen, b"refused")?;
    fields::two_numbers(pen, usize::from(w.whose()), usize::from(w.number()))
}

// The fields of a verdict whose trace stands at the front of the slice.
pub fn verdict<P: Pen>(pen: &mut P, v: Verdict, trace: &[u8]) -> Result<(), Short>
    requires { length_of v ≤ length trace.now }
    ensures { Draws P.room P.took (led (verdict_fields (answer_of v trace.now))) pen.old result pen.new }
{
    match v {
        Verdict::Passes { nodes, pairs } => pass(pen, nodes, pairs),
        Verdict::TraceFault { length } => trace_fault(pen, &trace[..length]),
        Verdict::RefusalFault { length, offers } => refusal_fault(pen, &trace[..length], offers),
        Verdict::Refused(w) => refused(pen, w),
    }
}
