// The report's lines, in buffers that are just long enough and in shorter ones.
use crate::lent::{JUNK, Kept};
use crate::show;
use refine::verdict::Verdict;
use std::fmt::Display;
use std::io;

// The line of a verdict in mode 1, in a buffer of so many bytes.
fn line(
    rt: &(impl Print + AllocGlobal),
    about: impl Display + Drop,
    verdict: Verdict,
    trace: &[u8],
    bytes: usize,
) -> io::Result<()> {
    let alloc = rt.alloc();
    let mut out = vec![in alloc; JUNK; bytes]?;
    match lines::line(verdict, trace, 1, &mut out) {
        Ok(n) => {
            let line = show::line(alloc, &out[..n.min(out.len())])?;
            println!(rt; "{about} wrote {n}: {line}{}", Kept::of(&out, n, JUNK))
        }
        Err(_) => println!(rt; "{about} short{}", Kept::of(&out, 0, JUNK)),
    }
}

pub(crate) fn lines(rt: &(impl Print + AllocGlobal)) -> io::Result<()> {
    // Case 3's second line, with its line feed, has 36 bytes.
    let case_3 = Verdict::RefusalFault {
        length: 1,
        offers: 0,
    };
    for bytes in [36, 35] {
        line(
            rt,
            format_args!("line of 36 bytes in {bytes}:"),
            case_3,
            &[1, 200],
            bytes,
        )?;
    }
    line(
        rt,
        "line of a trace of 1 in a buffer of 0:",
        case_3,
        &[],
        60,
    )?;
    // Offers are counted and stand upwards; of a longer trace buffer only the trace is told.
    let offered = Verdict::RefusalFault {
        length: 2,
        offers: 1 << 1 | 1 << 5 | 1 << 63,
    };
    line(
        rt,
        "line of events 1, 5 and 63 offered after 63 10:",
        offered,
        &[63, 10, 200],
        60,
    )
}
