// One call each, with buffers full of junk, and a line that tells its answer and what it left in the buffers.
use crate::lent::{JUNK, JUNK_16, Kept, Room, Workspaces, beside};
use crate::show;
use refine::verdict::Verdict;
use std::alloc::{AllocError, Global};
use std::fmt::Display;
use std::{fmt, io};
use tables::answer::Refusal;

// A table's header: how many states and events it has, and where it starts.
#[derive(Clone, Copy)]
pub(crate) struct Head {
    pub(crate) states: u16,
    pub(crate) events: u16,
    pub(crate) start: u16,
}

impl Head {
    // Writes the table of this header and a list of moves.
    pub(crate) fn write(self, list: &[u16], out: &mut [u8]) -> Result<usize, Refusal> {
        tables::write::write(self.states, self.events, self.start, list, out)
    }
}

// A public call with what it is given, and last how long the buffers are that it is lent.
#[derive(Clone, Copy)]
pub(crate) enum Call<'a> {
    // Rule, flow and mode.
    Check(&'a [u8], &'a [u8], u16, Room),
    // Rule and flow: the short form of the check.
    CheckShort(&'a [u8], &'a [u8], Room),
    Read(&'a [u8], usize),
    Write(Head, &'a [u16], usize),
    MovesOf(&'a [u8], u16),
    // Two tables and the set of events on which they are joined.
    Join(&'a [u8], &'a [u8], u64, usize),
    Watchdog(&'a [u8], Room),
}

// What a check answered, its line, and what it left in the buffers.
#[derive(Drop)]
pub(crate) struct Checked {
    pub(crate) verdict: Verdict,
    pub(crate) line: String,
    trace: Vec<u8>,
    spaces: Workspaces,
}

impl fmt::Display for Checked {
    fn fmt<W: fmt::Write>(&self, f: &mut fmt::Formatter<W>) -> fmt::Result {
        let kept = Kept::of(&self.trace, self.verdict.length(), JUNK);
        write!(f, " {}{kept}{}", self.line, self.spaces)
    }
}

// A check, as the caller chooses it, in workspaces and a trace buffer full of junk.
pub(crate) fn judged<F: FnOnce(&mut [u16], &mut [u64], &mut [u8]) -> Verdict>(
    alloc: Global,
    mode: u16,
    room: Room,
    check: F,
) -> Result<Checked, AllocError>
    requires { F.IsAlwaysCallable check }
{
    let mut spaces = Workspaces::new(alloc, room)?;
    let mut trace = vec![in alloc; JUNK; room.buffer]?;
    let verdict = check(&mut spaces.work_16, &mut spaces.work_64, &mut trace);
    let line = show::said(alloc, verdict, mode, &trace)?;
    Ok(Checked {
        verdict,
        line,
        trace,
        spaces,
    })
}

fn read(alloc: Global, table: &[u8], numbers: usize) -> Result<String, AllocError> {
    let mut list = vec![in alloc; JUNK_16; numbers]?;
    let answer = tables::read::read(table, &mut list);
    show::read(alloc, answer, &list)
}

fn moves_of(alloc: Global, table: &[u8], state: u16) -> Result<String, AllocError> {
    let part = show::table(alloc, tables::state::moves_of(table, state))?;
    format!(in alloc; " part {state}:{part}")
}

// A builder, as the caller chooses it, in a result buffer full of junk.
fn built<F: FnOnce(&mut [u8]) -> Result<usize, Refusal>>(
    alloc: Global,
    bytes: usize,
    build: F,
) -> Result<String, AllocError>
    requires { F.IsAlwaysCallable build }
{
    let mut out = vec![in alloc; JUNK; bytes]?;
    let answer = build(&mut out);
    show::built(alloc, answer, &out)
}

fn watchdog(alloc: Global, rule: &[u8], room: Room) -> Result<String, AllocError> {
    let mut spaces = Workspaces::new(alloc, room)?;
    let (work_16, work_64) = (&mut spaces.work_16, &mut spaces.work_64);
    let told = built(
        alloc,
        room.buffer,
        |out| watchdog::ask::watchdog(rule, work_16, work_64, out),
    )?;
    format!(in alloc; "{told}{spaces}")
}

// Makes a call, and tells its answer and what it left in the buffers.
fn told(alloc: Global, call: Call) -> Result<String, AllocError> {
    match call {
        Call::Check(rule, flow, mode, room) => judged(
            alloc,
            mode,
            room,
            |work_16, work_64, trace| {
                refine::check::check(rule, flow, mode, work_16, work_64, trace)
            },
        )?
        .to_string(alloc),
        Call::CheckShort(rule, flow, room) => judged(alloc, 0, room, |work_16, work_64, trace| {
            refine::check::check_short(rule, flow, work_16, work_64, trace)
        })?
        .to_string(alloc),
        Call::Read(table, numbers) => read(alloc, table, numbers),
        Call::Write(head, list, bytes) => built(alloc, bytes, |out| head.write(list, out)),
        Call::MovesOf(table, state) => moves_of(alloc, table, state),
        Call::Join(first, second, set, bytes) => {
            built(alloc, bytes, |out| joins::join(first, second, set, out))
        }
        Call::Watchdog(rule, room) => watchdog(alloc, rule, room),
    }
}

// Makes a call, and prints its line, which begins with the words that are given.
pub(crate) fn ask(
    rt: &(impl Print + AllocGlobal),
    about: impl Display + Drop,
    call: Call,
) -> io::Result<()> {
    let told = told(rt.alloc(), call)?;
    println!(rt; "{about}{told}")
}

// The check in both modes.
pub(crate) fn both(
    rt: &(impl Print + AllocGlobal),
    about: impl Display + Drop,
    rule: &[u8],
    flow: &[u8],
) -> io::Result<()> {
    let about = about.to_string(rt.alloc())?;
    for mode in [0, 1] {
        ask(
            rt,
            about.as_str(),
            Call::Check(rule, flow, mode, beside(20)),
        )?;
    }
    Ok(())
}
