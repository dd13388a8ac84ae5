// The report's text of two tables.
ghost use Rattle.std.specs.Prelude.{◌≤◌, length};
ghost use Rattle.report.specs.Report.{LineCall, ReportCall};

use lines::line;
use refine::check::check;

// Room for two lines, each of at most 50,000 bytes.
pub const ROOM: usize = 100000;

// One line: the check of the flow against the rule in a mode, and the line of its verdict. The line always fits.
fn line_of(rule: &[u8], flow: &[u8], mode: u16, out: &mut [u8]) -> usize
    requires { 50000 ≤ length out.old }
    ensures { LineCall rule.now flow.now mode out.old result out.new }
{
    let mut work16 = [0u16; 32768];
    let mut work64 = [0u64; 128];
    let mut trace = [0u8; 16384];
    let verdict = check(rule, flow, mode, &mut work16, &mut work64, &mut trace);
    line(verdict, &trace, mode, out).unwrap_or(0)
}

// Both lines, mode 0 first. The answer stays their length, as ReportCall has it (docs/ARCHITECTURE.md).
pub fn two_lines(rule: &[u8], flow: &[u8], out: &mut [u8]) -> usize
    requires { 100000 ≤ length out.old }
    ensures { ReportCall rule.now flow.now out.old result out.new }
{
    let n = line_of(rule, flow, 0, out);
    let m = line_of(rule, flow, 1, &mut out[n..]);
    n + m
}
