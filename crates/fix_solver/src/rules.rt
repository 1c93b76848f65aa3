//! Rules.

ghost use Rattle.std.specs.Prelude.{◌≡◌, ◌<◌, List, length, slice_get, Some, None, not, IfOk, OnOk, MatchResult};
ghost use Rattle.fix_solver.specs.declared.at.At.{At};
ghost use Rattle.fix_solver.specs.Rules.{Rules, RulesLaws, Fits};
ghost use Rattle.fix_solver.specs.Tables.{joined};

use abs_step::Cond;
use flow_recover::Key;
use std::alloc::Global;
use viper_word::Memory;

/// Facts with an order, those that hold at the start, and what follows from a fact at a key.
/// `meaning` says what each call gives, and `laws` are what holds of these meanings.
pub trait Rules {
    /// What is known at a key.
    type Fact: Drop;

    /// Room for what follows from a fact.
    type Scratch: Drop;

    /// What each call means.
    ghost meaning: { Self → Rules Self.Fact };

    /// The scratch has room for these rules.
    ghost has_room: { Self → Self.Scratch → Type 0 };

    /// What the scratch holds.
    ghost held: { Self → Self.Scratch → List (At Self.Fact) };

    /// The fact that was brought to hand last.
    ghost in_hand: { Self.Scratch → Self.Fact };

    /// How many starts there are.
    fn start_count(&self) -> usize
        ensures { result ≡ length (meaning self.now).starts };

    /// The key of a start, whose fact is brought to hand.
    fn start(&self, i: usize, scratch: &mut Self::Scratch) -> Key
        requires within { i < length (meaning self.now).starts }
        requires room { has_room self.now scratch.old }
        ensures start { slice_get (meaning self.now).starts i
            ≡ Some (record { key = result; fact = in_hand scratch.new }) }
        ensures room { has_room self.now scratch.new };

    /// Puts into the scratch what follows from the fact at the key, or answers the first condition
    /// that fails there.
    fn outcomes(
        &self,
        key: &Key,
        fact: &Self::Fact,
        scratch: &mut Self::Scratch,
    ) -> Result<(), Cond>
        requires fits { Fits (meaning self.now) fact.now }
        requires room { has_room self.now scratch.old }
        ensures fault { MatchResult result
            (λ _. (meaning self.now).fault key.now fact.now ≡ None)
            (λ c. (meaning self.now).fault key.now fact.now ≡ Some c) }
        ensures held { OnOk result
            (held self.now scratch.new ≡ (meaning self.now).outcomes key.now fact.now) }
        ensures room { has_room self.now scratch.new };

    /// How many facts the scratch holds.
    fn outcome_count(&self, scratch: &Self::Scratch) -> usize
        ensures { result ≡ length (held self.now scratch.now) };

    /// The key of a fact that the scratch holds, which is brought to hand.
    fn outcome(&self, i: usize, scratch: &mut Self::Scratch) -> Key
        requires within { i < length (held self.now scratch.old) }
        requires room { has_room self.now scratch.old }
        ensures outcome { slice_get (held self.now scratch.old) i
            ≡ Some (record { key = result; fact = in_hand scratch.new }) }
        ensures same { held self.now scratch.new ≡ held self.now scratch.old }
        ensures room { has_room self.now scratch.new };

    /// The fact in hand.
    fn hand<'a>(&self, scratch: &'a Self::Scratch) -> &'a Self::Fact
        ensures { result.now ≡ in_hand scratch.now };

    /// Joins the second fact into the first. Did that change?
    fn join(&self, fact: &mut Self::Fact, other: &Self::Fact) -> bool
        requires first { Fits (meaning self.now) fact.old }
        requires second { Fits (meaning self.now) other.now }
        ensures joined { fact.new ≡ joined (meaning self.now) fact.old other.now }
        ensures changed { result ≡ not ((meaning self.now).includes fact.old other.now) };

    /// A copy of the fact.
    fn copy(&self, alloc: Global, fact: &Self::Fact) -> Result<Self::Fact, Memory>
        requires { Fits (meaning self.now) fact.now }
        ensures { IfOk result (λ copy. copy ≡ fact.now) };

    /// The laws of the meanings.
    ghost laws: { (rules : Self) → RulesLaws (meaning rules) };
}
