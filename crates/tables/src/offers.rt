// The offers and the stability of one state, from its part.
ghost use Rattle.std.specs.Prelude.{◌≡◌, true, ◌⊎◌, ◌+◌, ◌*◌, ◌<◌, length};
ghost use Rattle.sets.specs.Sets.{Has, Holds};
ghost use Rattle.tables.specs.Moves.{move_at};
ghost use Rattle.tables.specs.Bytes.{moves_in};
ghost use Rattle.tables.specs.Offers.{Visible, Still, SmallEvents};

use crate::num::get;
use sets;

// The set with event e besides, if e is visible.
fn with_visible(set: u64, e: usize) -> u64
    requires { e < 64 }
    ensures { Holds Has result (λ x. Has set x ⊎ ((0 < x) × (x ≡ e))) }
{
    if e == 0 {
        return set;
    }
    sets::with(set, e)
}

// The event of move j of a part.
#[tactic(auto, unfolding(crate::specs::Moves::move_at))]
fn event_at(part: &[u8], j: usize) -> usize
    requires { 6 * j + 5 < length part.now }
    ensures { result ≡ (move_at part.now j).event }
{
    get(part, 6 * j + 2)
}

// The visible events of a part's moves.
#[tactic(auto, using(crate::proofs::PartOffers::visible_none))]
pub fn offers_of(part: &[u8]) -> u64
    requires { SmallEvents (moves_in part.now) }
    ensures { Holds Has result (Visible (moves_in part.now)) }
{
    let mut set = 0;
    for j in 0..part.len() / 6 {
        set = with_visible(set, event_at(part, j));
    }
    set
}

// Whether none of a part's moves is silent.
pub fn is_stable(part: &[u8]) -> bool
    ensures { (result ≡ true → Still (moves_in part.now)) × (Still (moves_in part.now) → result ≡ true) }
{
    (0..part.len() / 6).all(|j| event_at(part, j) != 0)
}
