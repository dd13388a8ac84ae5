// A good table, lent: whoever holds one need not test its bytes again.
ghost use Rattle.std.specs.Prelude.{◌≡◌, ◌<◌, ◌≤◌, ◌*◌, length, drop, None};
ghost use Rattle.tables.specs.Numbers.{num};
ghost use Rattle.tables.specs.Bytes.{states, events, start, count};
ghost use Rattle.tables.specs.Valid.{refusal};

use crate::answer::Refusal;
use crate::num::get;
use crate::{state, valid};
use std::marker::Model;

// The bytes of a table that no test refuses.
#[derive(Drop)]
pub struct Table<'a> {
    bytes: &'a [u8],
}

impl<'a> Model for Table<'a> {
    ghost use Rattle.std.specs.Prelude.{◌≡◌, ℕ, List, None};
    ghost use Rattle.tables.specs.Valid.{refusal};

    ghost Value = { List ℕ };

    ghost view = { λ t. t.bytes.now };

    ghost invariant = { λ t. refusal t.bytes.now ≡ None };
}

impl<'a> Table<'a> {
    ghost use Rattle.std.specs.Prelude.{IfOk, IfErr};
    ghost use Rattle.tables.specs.State.{moves_of};
    ghost use Rattle.tables.specs.Held.{Held, Faulted};
    ghost use Rattle.tables.specs.declared.answer.Refusal.TheVariants.{Rule, Flow};

    // The table in these bytes as the rule, or the first of the rule's 1 to 7 that applies. A table alone counts as the rule.
    pub fn as_rule(bytes: &'a [u8]) -> Result<Table<'a>, Refusal>
        ensures ok { IfOk result (Held bytes.now) }
        ensures err { IfErr result (Faulted Rule bytes.now) }
    {
        if let Some(k) = valid::test(bytes) {
            return Err(Refusal::Rule(k));
        }
        Ok(Table { bytes })
    }

    // The same as the flow. (A twin of the maker above: one maker for both would have to be told, and to prove, at each of its
    // calls whose the table is.)
    pub fn as_flow(bytes: &'a [u8]) -> Result<Table<'a>, Refusal>
        ensures ok { IfOk result (Held bytes.now) }
        ensures err { IfErr result (Faulted Flow bytes.now) }
    {
        if let Some(k) = valid::test(bytes) {
            return Err(Refusal::Flow(k));
        }
        Ok(Table { bytes })
    }

    // The table in bytes that are known to be good.
    pub fn known(bytes: &'a [u8]) -> Table<'a>
        requires { refusal bytes.now ≡ None }
        ensures { result ≡ bytes.now }
    {
        Table { bytes }
    }

    pub fn bytes(&self) -> &'a [u8]
        ensures bytes { result.now ≡ self.now }
        ensures good { refusal self.now ≡ None }
    {
        self.bytes
    }

    // The number at byte `at` of the header.
    #[tactic(auto, using(crate::proofs::Tested::good))]
    fn number(&self, at: usize) -> usize
        requires { at < 11 }
        ensures number { result ≡ num self.now at }
        ensures good { refusal self.now ≡ None }
    {
        get(self.bytes, at)
    }

    // How many states it has.
    pub fn states(&self) -> usize
        ensures states { result ≡ states self.now }
        ensures good { refusal self.now ≡ None }
    {
        self.number(0)
    }

    // E: its visible events are 1 to this.
    pub fn events(&self) -> usize
        ensures events { result ≡ events self.now }
        ensures good { refusal self.now ≡ None }
    {
        self.number(2)
    }

    pub fn start(&self) -> usize
        ensures start { result ≡ start self.now }
        ensures good { refusal self.now ≡ None }
    {
        self.number(4)
    }

    // How many moves it has.
    pub fn count(&self) -> usize
        ensures count { result ≡ count self.now }
        ensures good { refusal self.now ≡ None }
    {
        self.number(6)
    }

    // The part that its moves stand in, from byte 12 on.
    #[tactic(auto, using(crate::proofs::Tested::good))]
    pub fn moves(&self) -> &'a [u8]
        ensures part { result.now ≡ drop 12 self.now }
        ensures good { refusal self.now ≡ None }
    {
        &self.bytes[12..]
    }

    // The moves of one state, as a part of the lent table.
    pub fn moves_of(&self, state: usize) -> &'a [u8]
        requires { state < 65536 }
        ensures part { result.now ≡ moves_of self.now state }
        ensures good { refusal self.now ≡ None }
    {
        state::part_of(self.moves(), self.count(), state)
    }
}
