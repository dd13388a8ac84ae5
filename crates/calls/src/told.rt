// What a call answers, as it stands at the front of the answer line.
use crate::lent::Digits;
use refine::verdict::Verdict;
use std::fmt;
use std::fmt::{Formatter, Write};
use tables::answer::{Header, Refusal};

// An answer of the library, to be printed.
#[derive(Drop)]
pub struct Told<T>(pub T);

impl fmt::Display for Told<Refusal> {
    fn fmt<W: Write>(&self, f: &mut Formatter<W>) -> fmt::Result {
        write!(f, "refused {} {}", self.0.whose(), self.0.number())
    }
}

// What the reader answers.
impl fmt::Display for Told<Result<Header, Refusal>> {
    fn fmt<W: Write>(&self, f: &mut Formatter<W>) -> fmt::Result {
        match self.0 {
            Ok(h) => write!(f, "read {} {} {} {}", h.states, h.events, h.start, h.moves),
            Err(refusal) => write!(f, "{}", Told(refusal)),
        }
    }
}

// What a builder answers: the length of what it wrote.
impl fmt::Display for Told<Result<usize, Refusal>> {
    fn fmt<W: Write>(&self, f: &mut Formatter<W>) -> fmt::Result {
        match self.0 {
            Ok(length) => write!(f, "written {length}"),
            Err(refusal) => write!(f, "{}", Told(refusal)),
        }
    }
}

// The moves of one state.
impl<'a> fmt::Display for Told<&'a [u8]> {
    fn fmt<W: Write>(&self, f: &mut Formatter<W>) -> fmt::Result {
        write!(f, "part {}", Digits(self.0))
    }
}

impl fmt::Display for Told<Verdict> {
    fn fmt<W: Write>(&self, f: &mut Formatter<W>) -> fmt::Result {
        match self.0 {
            Verdict::Passes { nodes, pairs } => write!(f, "passes {nodes} {pairs}"),
            Verdict::TraceFault { length } => write!(f, "trace-fault {length}"),
            Verdict::RefusalFault { length, offers } => write!(
                f,
                "refusal-fault {length} {offers}"
            ),
            Verdict::Refused(refusal) => write!(f, "{}", Told(refusal)),
        }
    }
}
