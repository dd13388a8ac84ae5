// The report's lines: a verdict, its trace and the mode as one line of bytes.
#![tactic(auto)]

ghost use Rattle.std.specs.Prelude.{◌≡◌, ◌≤◌, length};
ghost use Rattle.refine.specs.Verdicts.{length_of, answer_of};
ghost use Rattle.lines.specs.Fields.{bytes_of};
ghost use Rattle.lines.specs.Report.{mode_word, report_line};
ghost use Rattle.lines.specs.Maker.{makes};
ghost use Rattle.lines.specs.Pen.{Draws};

use crate::answer::Short;
use crate::pen::{Count, Pen, Put};
use refine::verdict::Verdict;

pub mod answer;
mod fields;
mod offers;
mod pen;
mod verdict;

fn mode_word<P: Pen>(pen: &mut P, mode: u16) -> Result<(), Short>
    ensures { Draws P.room P.took (bytes_of (mode_word mode)) pen.old result pen.new }
{
    if mode == 0 {
        pen.word(b"traces")
    } else {
        pen.word(b"failures")
    }
}

// The whole line, counted or put.
fn draw<P: Pen>(pen: &mut P, v: Verdict, trace: &[u8], mode: u16) -> Result<(), Short>
    requires { length_of v ≤ length trace.now }
    ensures { Draws P.room P.took (report_line mode (answer_of v trace.now)) pen.old result pen.new }
{
    mode_word(pen, mode)?;
    verdict::verdict(pen, v, trace)?;
    pen.byte(b'\n')
}

// Writes the line of a verdict, whose trace stands in the trace buffer, in a mode, and answers how many bytes it has. The line
// is counted before it is put, so that a buffer that is too short stays as it is.
pub fn line(verdict: Verdict, trace: &[u8], mode: u16, out: &mut [u8]) -> Result<usize, Short>
    ensures answer { result ≡ (makes verdict trace.now mode out.old).answer }
    ensures buffer { out.new ≡ (makes verdict trace.now mode out.old).out }
{
    if trace.len() < verdict.length() {
        return Err(Short);
    }
    let mut count = Count { room: out.len() };
    draw(&mut count, verdict, trace, mode)?;
    let mut put = Put { out, at: 0 };
    draw(&mut put, verdict, trace, mode)?;
    Ok(put.at)
}
