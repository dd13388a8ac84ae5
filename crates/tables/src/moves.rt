// Moves, and the tests 4 to 7 of a row of them.
ghost use Rattle.std.specs.Prelude.{◌≡◌, ℕ, not, ◌&&◌, ◌||◌, ◌+◌, ◌*◌, ◌^◌, ◌<◌, length, ltb};
ghost use Rattle.csp.specs.Table.{Move as Meant};
ghost use Rattle.tables.specs.Moves.{meant, move_at};
ghost use Rattle.tables.specs.Valid.{misnames, precedes, circles, later_tests};

use crate::num::get;

// Moves compare by from, then event, then to.
#[derive(Clone, Copy, PartialEq, Eq, PartialOrd, Ord, Debug)]
pub struct Move {
    pub from: usize,
    pub event: usize,
    pub to: usize,
}

impl Move {
    // Whether it names a state not below n or an event above e.
    #[tactic(auto, unfolding(crate::specs::Valid::misnames))]
    fn misnames(self, n: usize, e: usize) -> bool
        ensures { result ≡ misnames n e (meant self) }
    {
        self.from >= n || self.event > e || self.to >= n
    }

    // From and event as one number, so that one comparison orders by from, then by event.
    fn lead(self) -> u128
        ensures { result ≡ self.from * 2 ^ 64 + self.event }
    {
        ((self.from as u128) << 64) + self.event as u128
    }

    // Whether it comes before v: by from, then event, then to. By hand and without a jump: which of the three decides changes from
    // move to move, so a jump on it is often guessed wrong. Where `to` is lower, v's lead is raised by one, and then it is above an
    // equal lead too; a raise that wraps is above every lead.
    fn precedes(self, v: Move) -> bool
        ensures { result ≡ precedes (meant self) (meant v) }
    {
        let (bound, wrapped) = v.lead().overflowing_add(u128::from(self.to < v.to));
        wrapped | (self.lead() < bound)
    }

    // Whether it is silent and leads from a state to itself.
    #[tactic(auto, unfolding(crate::specs::Valid::circles))]
    fn circles(self) -> bool
        ensures { result ≡ circles (meant self) }
    {
        self.event == 0 && self.from == self.to
    }
}

// Move j of a part.
#[tactic(auto, using(crate::proofs::Rows::same_move), unfolding(crate::specs::Moves::move_at))]
pub fn move_at(ms: &[u8], j: usize) -> Move
    requires { 6 * j + 5 < length ms.now }
    ensures { meant result ≡ move_at ms.now j }
{
    Move {
        from: get(ms, 6 * j),
        event: get(ms, 6 * j + 2),
        to: get(ms, 6 * j + 4),
    }
}

// What the tests 5, 6 and 7 find among the moves looked at so far, and the last of these moves.
#[derive(Clone, Copy)]
pub struct Found {
    pub misnamed: bool,
    pub disordered: bool,
    pub circling: bool,
    pub last: Move,
}

impl Found {
    // Looks at move j besides; the first has none before it. Each test is tried of each move, whatever the others say, so that the
    // loop has few branches.
    fn look(self, j: usize, v: Move, n: usize, e: usize) -> Found
        ensures misnamed { result.misnamed ≡ (self.misnamed || misnames n e (meant v)) }
        ensures disordered { result.disordered
            ≡ (self.disordered || (ltb 0 j && not (precedes (meant self.last) (meant v)))) }
        ensures circling { result.circling ≡ (self.circling || circles (meant v)) }
        ensures last { result.last ≡ v }
    {
        Found {
            misnamed: self.misnamed | v.misnames(n, e),
            disordered: self.disordered | (j > 0 && !self.last.precedes(v)),
            circling: self.circling | v.circles(),
            last: v,
        }
    }
}

// The first of 4 to 7 that applies to m moves, each over all of them before the next; `at` says which move is move j. One pass reads
// each move once, since every call that takes a table pays for it.
pub fn test<F: Fn(usize) -> Move>(n: usize, e: usize, start: usize, m: usize, at: F) -> Option<u8>
    ghost moves: { ℕ → Meant }
    requires there { (j : ℕ) → j < m → F.pre at j }
    requires means { (j : ℕ) (v : _) → j < m → F.post at j v → meant v ≡ moves j }
    ensures { result ≡ later_tests n e start moves m }
{
    if start >= n {
        return Some(4);
    }
    let mut found = Found {
        misnamed: false,
        disordered: false,
        circling: false,
        last: Move {
            from: 0,
            event: 0,
            to: 0,
        },
    };
    for j in 0..m {
        let v = at(j);
        found = found.look(j, v, n, e);
        // A misnamed move decides, wherever it stands: 5 comes before 6 and 7.
        if found.misnamed {
            return Some(5);
        }
    }
    if found.disordered {
        return Some(6);
    }
    if found.circling {
        return Some(7);
    }
    None
}
