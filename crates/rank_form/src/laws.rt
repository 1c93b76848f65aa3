ghost use Rattle.rank_form.specs.Laws.{BoundLaws, FormLaws};
ghost use Rattle.rank_form.specs.Sides.{SideLaws};

use num_domain::NumDomain;

/// A form's value at a state that meets a fact is from `lower` to `upper`; between two states that
/// meet what an outcome knows on its sides, and of which its posts are true, it changes by at most
/// `rise`. How a form's terms are split, and in which order, changes no bound.
pub fn bound_laws<D: NumDomain>()
    ensures { BoundLaws D.domain }
{}

/// What a ranking by forms rests on: the bounds of numbers, of a form plus a number, and of one
/// form on another.
pub fn form_laws<D: NumDomain>()
    ensures { FormLaws D.domain }
{}

/// Each outcome of a fact knows before its step one of the fact's sides: the fact's links, no larger
/// values, and it isn't empty. So the laws of sides are laws of outcomes.
pub fn side_laws<D: NumDomain>()
    ensures { SideLaws D.domain }
{}
