// An answer as eight numbers. Every value has one place: 0 the kind, 1 whose a refusal is, 2 its number, from 3 on the values.
ghost use Rattle.std.specs.Prelude.{◌≡◌, ℕ, List};
ghost use Rattle.rhythmoxa.specs.Layout.{kind_number, values, refused_numbers, answer_numbers, header_numbers, size_numbers, part_numbers, verdict_numbers};

use crate::place::Part;
use refine::verdict::Verdict;
use tables::answer::{Header, Refusal};

// The kinds.
#[derive(Clone, Copy)]
enum Kind {
    Refused = 0,
    Done = 1,
    Passes = 2,
    TraceFault = 3,
    RefusalFault = 4,
}

// A kind that is no refusal, with its values. (`as` here and below: Rust has no From for an enum's number or a usize.)
fn values(kind: Kind, a: u64, b: u64, c: u64, d: u64) -> [u64; 8]
    ensures { result ≡ values (kind_number kind) a b c d }
{
    [kind as u64, 0, 0, a, b, c, d, 0]
}

// What a call answers.
pub trait Answer {
    ghost told: { Self → List ℕ };

    fn numbers(self) -> [u64; 8]
        ensures { result ≡ told self };
}

impl Answer for Refusal {
    ghost told = { refused_numbers };

    fn numbers(self) -> [u64; 8] {
        let kind = Kind::Refused as u64;
        let whose = u64::from(self.whose());
        let number = u64::from(self.number());
        [kind, whose, number, 0, 0, 0, 0, 0]
    }
}

// What a call gives back where it is not refused.
impl<T: Answer> Answer for Result<T, Refusal> {
    ghost told = { answer_numbers T.told };

    fn numbers(self) -> [u64; 8] {
        match self {
            Ok(given) => given.numbers(),
            Err(refusal) => refusal.numbers(),
        }
    }
}

// The reader's.
impl Answer for Header {
    ghost told = { header_numbers };

    fn numbers(self) -> [u64; 8] {
        values(
            Kind::Done,
            u64::from(self.states),
            u64::from(self.events),
            u64::from(self.start),
            self.moves as u64,
        )
    }
}

// A builder's: the length written.
impl Answer for usize {
    ghost told = { size_numbers };

    fn numbers(self) -> [u64; 8] {
        values(Kind::Done, self as u64, 0, 0, 0)
    }
}

impl Answer for Part {
    ghost told = { part_numbers };

    fn numbers(self) -> [u64; 8] {
        values(Kind::Done, self.offset as u64, self.size as u64, 0, 0)
    }
}

impl Answer for Verdict {
    ghost told = { verdict_numbers };

    fn numbers(self) -> [u64; 8] {
        match self {
            Verdict::Passes { nodes, pairs } => values(
                Kind::Passes,
                nodes as u64,
                pairs as u64,
                0,
                0,
            ),
            Verdict::TraceFault { length } => values(Kind::TraceFault, length as u64, 0, 0, 0),
            Verdict::RefusalFault { length, offers } => values(
                Kind::RefusalFault,
                length as u64,
                offers,
                0,
                0,
            ),
            Verdict::Refused(refusal) => refusal.numbers(),
        }
    }
}
