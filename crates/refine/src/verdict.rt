// What a check answers.
ghost use Rattle.std.specs.Prelude.{◌≡◌};
ghost use Rattle.refine.specs.Verdicts.{length_of};

use tables::answer::Refusal;
use walk::tell::Walked;

// The flow passes, with the count of nodes and the count of pairs met; or a fault of one of two kinds, with the length of
// its trace and, for a refusal fault, the offers; or the call is refused. Document 01 names this form, the refusal inside.
#[derive(Clone, Copy, PartialEq, Eq, Debug)]
pub enum Verdict {
    Passes { nodes: usize, pairs: usize },
    TraceFault { length: usize },
    RefusalFault { length: usize, offers: u64 },
    Refused(Refusal),
}

impl Verdict {
    // How many bytes of the trace buffer are its trace.
    pub fn length(self) -> usize
        ensures { result ≡ length_of self }
    {
        match self {
            Verdict::TraceFault { length } | Verdict::RefusalFault { length, .. } => length,
            Verdict::Passes { .. } | Verdict::Refused(_) => 0,
        }
    }
}

impl From<Walked> for Verdict {
    ghost use Rattle.std.specs.Prelude.{◌≡◌};
    ghost use Rattle.refine.specs.Walking.{told_as};

    ghost from_gives = { λ walked verdict. verdict ≡ told_as walked };

    fn from(walked: Walked) -> Verdict {
        match walked {
            Walked::Passes { nodes, pairs } => Verdict::Passes { nodes, pairs },
            Walked::TraceFault { length } => Verdict::TraceFault { length },
            Walked::RefusalFault { length, offers } => Verdict::RefusalFault { length, offers },
        }
    }
}
