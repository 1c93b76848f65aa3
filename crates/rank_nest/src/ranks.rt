//! The forms of a solution, as a nest asks for them.
ghost use Rattle.flag_relation.specs.Forms.{FormOf};
ghost use Rattle.rank_nest.specs.Forms.{forms_of};
ghost use Rattle.rank_nest.specs.Ready.{IsReady};
ghost use Rattle.rank_nest.specs.evidence.FormsLaws.{forms_laws};

use crate::candidates::{is_down, variable};
use crate::graph::{Graph, make_outcomes};
use crate::limits::{if_small, keep_limits};
use abs_step::Scratch;
use fix_solver::Solved;
use flag_relation::Form;
use memory_plan::Plan;
use num_domain::NumDomain;
use rank_form::{level, lowest, shift, upper, upper_after};
use rank_numbers::Ranks;
use strong_components::Edge;

/// The forms over the facts and the outcomes of a solution.
#[derive(Clone, Copy)]
pub(crate) struct SolutionRanks<'a, D> {
    pub(crate) plan: &'a Plan,
    pub(crate) solved: &'a Solved<D>,
    pub(crate) graph: &'a Graph,
}

impl<'a, D: NumDomain> Ranks for SolutionRanks<'a, D> {
    type Form = Form;

    type Scratch = Scratch<D>;

    ghost forms = { λ s. forms_of D.domain s.plan.now s.solved.now.cells s.solved.now.nodes };

    ghost has_room = { λ s r. IsReady D.domain s.plan.now s.solved.now.cells s.solved.now.nodes
        s.graph.now r.cells };

    ghost laws = { λ s. forms_laws D.domain D.laws s.plan.now s.solved.now.cells
        s.solved.now.nodes };

    #[tactic(auto, unfolding(flag_relation::specs::Forms::are_terms))]
    fn one(&self) -> Form {
        Form::new(1, &[]).unwrap()
    }

    fn level(&self, weight: i128, candidate: u32, low: i64, form: Form) -> Option<Form> {
        if_small(level(weight, variable(candidate), is_down(candidate), low, &form))
    }

    fn shift(&self, form: Form, number: i128) -> Option<Form> {
        keep_limits(&form);
        if_small(shift(&form, number))
    }

    fn lower(&self, candidate: u32, key: u32) -> i64 {
        lowest(
            variable(candidate),
            is_down(candidate),
            self.solved.fact(key as usize),
        )
    }

    fn upper(&self, form: Form, key: u32) -> i128 {
        upper(&form, self.solved.fact(key as usize))
    }

    fn after(&self, form: Form, edge: Edge, scratch: &mut Scratch<D>) -> i128 {
        make_outcomes(self.plan, self.solved, edge.from, scratch);
        let ordinal = self.graph.ordinal(edge.name);
        upper_after(&form, &scratch.outcomes_in()[ordinal])
    }
}
