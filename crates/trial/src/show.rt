// What a call answered, and what it left in the buffer that it was lent.
use crate::lent::{JUNK, JUNK_16, Kept};
use refine::verdict::Verdict;
use std::alloc::{AllocError, Global};
use std::fmt;
use tables::answer::{Header, Refusal};

// A list, or of one longer than `most` its front and its end.
fn ends<T>(list: &[T], most: usize, front: usize, end: usize) -> (&[T], Option<&[T]>) {
    let n = list.len();
    if n <= most {
        return (list, None);
    }
    (&list[..front.min(n)], Some(&list[n.saturating_sub(end)..]))
}

// Numbers, each after a space.
#[derive(Clone, Copy)]
struct Spaced<'a>(&'a [u16]);

impl fmt::Display for Spaced<'_> {
    fn fmt<W: fmt::Write>(&self, f: &mut fmt::Formatter<W>) -> fmt::Result {
        for number in self.0 {
            write!(f, " {number}")?;
        }
        Ok(())
    }
}

// The numbers of a list: all of them, or of a long one its front, so many numbers, and its last move.
#[derive(Clone, Copy)]
struct Numbers<'a>(&'a [u16], usize);

impl fmt::Display for Numbers<'_> {
    fn fmt<W: fmt::Write>(&self, f: &mut fmt::Formatter<W>) -> fmt::Result {
        let (front, end) = ends(self.0, 60, self.1, 3);
        write!(f, "{}", Spaced(front))?;
        match end {
            Some(end) => write!(f, " ..{}", Spaced(end)),
            None => Ok(()),
        }
    }
}

// The numbers of a table, of two bytes each, low byte first; of a long one its header and its last move.
pub(crate) fn table(alloc: Global, bytes: &[u8]) -> Result<String, AllocError> {
    let (pairs, _) = bytes.as_chunks::<2>();
    let list: Vec<u16> = pairs
        .iter()
        .map(|pair| u16::from_le_bytes(*pair))
        .collect(alloc)?;
    format!(in alloc; "{}", Numbers(&list, 6))
}

// Whose a refusal is, as the report has it: 0 the call's, 1 the rule's, 2 the flow's; and its number.
#[derive(Clone, Copy)]
struct Refused(Refusal);

impl fmt::Display for Refused {
    fn fmt<W: fmt::Write>(&self, f: &mut fmt::Formatter<W>) -> fmt::Result {
        write!(f, " refused {} {}", self.0.whose(), self.0.number())
    }
}

// A builder's answer with the table that it wrote.
pub(crate) fn built(
    alloc: Global,
    answer: Result<usize, Refusal>,
    out: &[u8],
) -> Result<String, AllocError> {
    match answer {
        Ok(n) => {
            let table = table(alloc, &out[..n.min(out.len())])?;
            format!(in alloc; " wrote {n}:{table}{}", Kept::of(out, n, JUNK))
        }
        Err(refusal) => format!(in alloc; "{}{}", Refused(refusal), Kept::of(out, 0, JUNK)),
    }
}

// The reader's answer with the moves that it gave back.
pub(crate) fn read(
    alloc: Global,
    answer: Result<Header, Refusal>,
    list: &[u16],
) -> Result<String, AllocError> {
    match answer {
        Ok(
            Header {
                states,
                events,
                start,
                moves,
            },
        ) => {
            let n = list.len().min(moves.saturating_mul(3));
            let numbers = Numbers(&list[..n], 3);
            format!(in alloc;
                " read {states} {events} {start} {moves}:{numbers}{}",
                Kept::of(list, n, JUNK_16)
            )
        }
        Err(refusal) => format!(in alloc; "{}{}", Refused(refusal), Kept::of(list, 0, JUNK_16)),
    }
}

// A line without its line feed; of a long one its front and its end.
pub(crate) fn line(alloc: Global, text: &[u8]) -> Result<String, AllocError> {
    let line = text.strip_suffix(b"\n").unwrap_or(text);
    let (front, end) = ends(line, 98, 40, 9);
    let mut shown = String::from_utf8_lossy(alloc, front)?;
    if let Some(end) = end {
        shown.push_str(" .. ")?;
        shown.push_str(String::from_utf8_lossy(alloc, end)?.as_str())?;
    }
    Ok(shown)
}

// A verdict as the report has it, with the trace that stands in the trace buffer.
pub(crate) fn said(
    alloc: Global,
    verdict: Verdict,
    mode: u16,
    trace: &[u8],
) -> Result<String, AllocError> {
    let mut text = vec![in alloc; 0u8; 65536]?;
    match lines::line(verdict, trace, mode, &mut text) {
        Ok(n) => line(alloc, &text[..n.min(text.len())]),
        Err(_) => String::from_str(alloc, "no line"),
    }
}
