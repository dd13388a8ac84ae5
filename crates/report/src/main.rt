// Reads rule.tbl and flow.tbl in the folder where it runs, and writes the report's two lines.
#![tactic(auto)]

use std::io;

mod load;
mod text;

fn main(rt: HostRuntime) -> io::Result<()> {
    let mut rule = [0u8; load::ROOM];
    let mut flow = [0u8; load::ROOM];
    let mut out = [0u8; text::ROOM];
    let rule = load::load(&rt, b"rule.tbl", &mut rule);
    let flow = load::load(&rt, b"flow.tbl", &mut flow);
    let size = text::two_lines(rule, flow, &mut out);
    rt.write_all(&out[..size])
}
