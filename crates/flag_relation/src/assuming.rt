//! What a known B leaves of a fact.
ghost use Rattle.std.specs.Prelude.{◌≡◌, true, length, Some};
ghost use Rattle.flag_relation.specs.Facts.{values, KeepsMet};
ghost use Rattle.flag_relation.specs.InPlace.{Refines, RefinedBy, left};
ghost use Rattle.flag_relation.specs.Joins.{or_join};
ghost use Rattle.flag_relation.specs.Refining.{refined_by_none, refined_by_some};
ghost use Rattle.flag_relation.specs.Refining.{assumed, assume, flag_of};
ghost use Rattle.flag_relation.specs.declared.flag.Flag.TheVariants.{Or};
ghost use Rattle.flag_relation.specs.Limits.{AreAtomsOf};

use crate::kinds::negated;
use crate::{Atom, Atoms, Fact, Flag, Spare};
use num_domain::NumDomain;

/// Refines the fact by B being `truth`, as a branch on B teaches it. True where a state is left; it
/// then has every state of before with that B, and says of B what is known now: `One`, or `Or`
/// without a comparison. False exactly where no state is left, by the rules in docs/METHOD.md,
/// "Facts"; nothing is then known of the fact but its number of cells. `spare` has as many cells as
/// the fact, and keeps them. Takes no memory.
pub fn assume<D: NumDomain>(fact: &mut Fact<D>, truth: bool, spare: &mut Spare<D>) -> bool
    requires room { spare.old ≡ length fact.old.cells }
    ensures value { left result fact.new ≡ assume D.domain fact.old truth }
    ensures keeps { KeepsMet D.domain fact.old truth (left result fact.new) }
    ensures count { length fact.new.cells ≡ length fact.old.cells }
    ensures room { spare.new ≡ spare.old }
{
    fact.refine_by_truth(truth, spare)
}

/// What is known of B where it is `truth`.
fn known(truth: bool) -> Flag
    ensures flag { result ≡ flag_of truth }
{
    if truth {
        Flag::One
    } else {
        Flag::Or(Atoms::none())
    }
}

impl<D: NumDomain> Fact<D> {
    /// Refines by B being `truth`, and says so of B. False where no state is left.
    #[tactic(auto, unfolding(crate::specs::Refining::assume, crate::specs::Refining::assumed))]
    fn refine_by_truth(&mut self, truth: bool, spare: &mut Spare<D>) -> bool
        requires { spare.old ≡ length self.old.cells }
        ensures value { left result self.new ≡ assume D.domain self.old truth }
        ensures count { length self.new.cells ≡ length self.old.cells }
        ensures room { spare.new ≡ spare.old }
    {
        let is_left = match self.flag() {
            Flag::Any => true,
            Flag::One => truth,
            Flag::Or(atoms) => self.refine_by(atoms, truth, spare),
        };
        if is_left {
            self.set_flag(known(truth));
        }
        is_left
    }

    /// Refines by some comparison holding, or by none. False where no state is left.
    #[tactic(auto, unfolding(crate::specs::Refining::assumed))]
    fn refine_by(&mut self, atoms: Atoms, truth: bool, spare: &mut Spare<D>) -> bool
        requires atoms { AreAtomsOf (length self.old.cells) atoms }
        requires room { spare.old ≡ length self.old.cells }
        ensures fact { RefinedBy result self.old self.new
            (assumed D.domain self.old.links (Or atoms) truth) }
        ensures room { spare.new ≡ spare.old }
    {
        if truth {
            spare.before.copy_from(self);
            self.join_refined(atoms.items(), false, &spare.before, &mut spare.work)
        } else {
            self.refine_by_none(atoms.items())
        }
    }

    /// Refines by each comparison that fails, in order. False where no state is left.
    #[tactic(auto, unfolding(crate::specs::Refining::refined_by_none))]
    fn refine_by_none(&mut self, atoms: &[Atom]) -> bool
        requires { AreAtomsOf (length self.old.cells) atoms.now }
        ensures { RefinedBy result self.old self.new
            (refined_by_none D.domain self.old.links atoms.now) }
    {
        match atoms {
            [] => true,
            [first, rest @ ..] => self.refine(&negated(first)) && self.refine_by_none(rest),
        }
    }

    /// Joins what was found so far with what each comparison, by itself, leaves of `before`. False
    /// where nothing was found.
    #[tactic(auto, unfolding(crate::specs::Refining::refined_by_some))]
    fn join_refined(
        &mut self,
        atoms: &[Atom],
        found: bool,
        before: &Fact<D>,
        work: &mut Fact<D>,
    ) -> bool
        requires atoms { AreAtomsOf (length self.old.cells) atoms.now }
        requires before { length before.now.cells ≡ length self.old.cells }
        requires work { length work.old.cells ≡ length self.old.cells }
        ensures fact { Refines result self.old self.new
            (refined_by_some D.domain before.now.links atoms.now
            (left found (values self.old)) (values before.now)) }
        ensures room { length work.new.cells ≡ length work.old.cells }
    {
        match atoms {
            [] => found,
            [first, rest @ ..] => {
                work.copy_from(before);
                let is_left = work.refine(first);
                if is_left {
                    self.take_in(found, work);
                }
                self.join_refined(rest, found || is_left, before, work)
            }
        }
    }

    /// Joins the values with the other's, or takes those over where nothing was found before.
    fn take_in(&mut self, found: bool, other: &Fact<D>)
        requires { length other.now.cells ≡ length self.old.cells }
        ensures { Refines true self.old self.new
            (or_join D.domain (left found (values self.old)) (Some (values other.now))) }
    {
        if found {
            self.join_values(other);
        } else {
            self.copy_values(other);
        }
    }
}
