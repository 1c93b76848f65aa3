//! The graph of a solution, with what candidates do along its edges.
ghost use Rattle.std.specs.Prelude.{◌≡◌, ◌<◌, ◌≤◌, ◌+◌, ◌^◌, ◌++◌, ◌∷◌, [], length, slice_index, IfOk, OnOk};
ghost use Rattle.flag_relation.specs.declared.fact.TheConstants.{MOST_CELLS};
ghost use Rattle.abs_step.specs.Places.{AllHaveCells};
ghost use Rattle.fix_solver.specs.Solutions.{fields_at};
ghost use Rattle.fix_solver.specs.Solved.{facts_of};
ghost use Rattle.fix_solver.specs.Tables.{place};
ghost use Rattle.rank_nest.specs.Building.{IsExtended};
ghost use Rattle.rank_nest.specs.Candidates.{candidates};
ghost use Rattle.rank_nest.specs.Graph.{node_at, outcomes_of, target_of, steps_at};
ghost use Rattle.rank_nest.specs.Ready.{IsLeast, IsGraphOf, no_graph};
ghost use Rattle.rank_nest.specs.Targets.{AreNumbered, IsListed, LeadOn};

use crate::candidates::candidates;
use crate::masks::{Masks, moves_over};
use abs_step::{Outcome, Scratch, outcomes};
use fix_solver::Solved;
use flow_recover::{Key, next_context};
use memory_plan::Plan;
use num_domain::NumDomain;
use rank_shape::Moves;
use std::alloc::Global;
use std::marker::Model;
use strong_components::Edge;
use viper_decode::{Fields, decode};
use viper_word::{Addr, Memory, Word};

/// The edges of a graph, and for each which outcome of its key it is.
#[derive(Drop)]
pub(crate) struct Graph {
    edges: Vec<Edge>,
    ordinals: Vec<usize>,
    moves: Moves,
}

impl Model for Graph {
    ghost use Rattle.rank_nest.specs.Building.{GraphOf};

    ghost Value = { GraphOf };

    ghost view = { λ g. record {
      edges = g.edges.items;
      ordinals = g.ordinals.items;
      count = g.moves.count;
      grow = g.moves.grow.items;
      fall = g.moves.fall.items;
    } };
}

/// Puts an item behind the others.
fn push<T: Copy>(items: &mut Vec<T>, item: T) -> Result<(), Memory>
    ensures { OnOk result (items.new.items ≡ items.old.items ++ item ∷ []) }
{
    match items.push(item) {
        Ok(()) => Ok(()),
        Err(_) => Err(Memory),
    }
}

/// The name of the next of so many edges. More than a name can tell apart count as want of memory.
fn next_name(edges: usize) -> Result<u32, Memory>
    ensures { IfOk result (λ name. name ≡ edges) }
{
    match u32::try_from(edges) {
        Ok(name) => Ok(name),
        Err(_) => Err(Memory),
    }
}

/// The numbers of the word of code at an address; those of the word 0 where there is none.
fn fields_at(plan: &Plan, at: Addr) -> Fields
    ensures { result ≡ fields_at plan.now at }
{
    match plan.code_word(at) {
        Some(word) => decode(word),
        None => decode(Word(0)),
    }
}

/// The number of a key that follows from the one of a number.
fn number_of<D: NumDomain>(solved: &Solved<D>, from: u32, target: &Key) -> u32
    requires from { from < length solved.now.nodes }
    requires numbered { AreNumbered D.domain solved.now.nodes }
    requires listed { IsListed D.domain solved.now.nodes
        (node_at D.domain solved.now.nodes from) target.now }
    ensures { result ≡ place (facts_of solved.now.nodes) target.now }
{
    for number in solved.succ(from as usize) {
        if solved.key(*number as usize).is_same(target) {
            return *number;
        }
    }
    unreachable!()
}

/// Makes the outcomes at a key of a solution.
pub(crate) fn make_outcomes<D: NumDomain>(
    plan: &Plan,
    solved: &Solved<D>,
    from: u32,
    scratch: &mut Scratch<D>,
)
    requires least { IsLeast D.domain plan.now solved.now.cells solved.now.nodes }
    requires from { from < length solved.now.nodes }
    requires room { scratch.old.cells ≡ length solved.now.cells }
    ensures outcomes { scratch.new.outcomes
        ≡ outcomes_of D.domain plan.now solved.now.cells (node_at D.domain solved.now.nodes from) }
    ensures room { scratch.new.cells ≡ scratch.old.cells }
{
    let at = solved.key(from as usize).addr;
    let fact = solved.fact(from as usize);
    if outcomes(plan, solved.cells(), at, fact, scratch).is_err() {
        unreachable!()
    }
}

impl Graph {
    /// No edge, and candidates over so many cells.
    fn new(alloc: Global, cells: usize) -> Graph
        requires { cells ≤ MOST_CELLS }
        ensures { result ≡ no_graph cells }
    {
        Graph {
            edges: Vec::new(alloc),
            ordinals: Vec::new(alloc),
            moves: Moves {
                count: candidates(cells),
                grow: Vec::new(alloc),
                fall: Vec::new(alloc),
            },
        }
    }

    /// The edges, in the order of where they begin.
    pub(crate) fn edges(&self) -> &[Edge]
        ensures { result.now ≡ self.now.edges }
    {
        self.edges.as_slice()
    }

    /// What candidates do along the edges.
    pub(crate) fn moves(&self) -> &Moves
        ensures count { result.now.count ≡ self.now.count }
        ensures grow { result.now.grow.items ≡ self.now.grow }
        ensures fall { result.now.fall.items ≡ self.now.fall }
    {
        &self.moves
    }

    /// Which outcome of its key the edge of a name is.
    pub(crate) fn ordinal(&self, name: u32) -> usize
        requires { name < length self.now.ordinals }
        ensures { result ≡ slice_index self.now.ordinals name }
    {
        self.ordinals[name as usize]
    }

    /// Adds an edge.
    fn push(&mut self, from: u32, to: u32, ordinal: usize, masks: Masks) -> Result<(), Memory>
        ensures { OnOk result (self.new ≡ record {
          edges = self.old.edges
              ++ record { from = from; to = to; name = length self.old.edges } ∷ [];
          ordinals = self.old.ordinals ++ ordinal ∷ [];
          count = self.old.count;
          grow = self.old.grow ++ masks.grow ∷ [];
          fall = self.old.fall ++ masks.fall ∷ [];
        }) }
    {
        let name = next_name(self.edges.len())?;
        push(&mut self.edges, Edge { from, to, name })?;
        push(&mut self.ordinals, ordinal)?;
        push(&mut self.moves.grow, masks.grow)?;
        push(&mut self.moves.fall, masks.fall)?;
        Ok(())
    }

    /// Adds the edge of an outcome at a key, unless it leads to a marker.
    fn add<D: NumDomain>(
        &mut self,
        plan: &Plan,
        solved: &Solved<D>,
        from: u32,
        ordinal: usize,
        out: &Outcome<D>,
    ) -> Result<(), Memory>
        requires from { from < length solved.now.nodes }
        requires numbered { AreNumbered D.domain solved.now.nodes }
        requires listed { IsListed D.domain solved.now.nodes
            (node_at D.domain solved.now.nodes from)
            (target_of D.domain plan.now solved.now.cells
            (node_at D.domain solved.now.nodes from) out.now) }
        requires few { self.old.count ≤ candidates MOST_CELLS }
        requires cells { length out.now.after.cells ≡ length out.now.pre.cells }
        ensures { OnOk result (IsExtended D.domain self.old
            (steps_at D.domain plan.now solved.now.cells solved.now.nodes from
            (node_at D.domain solved.now.nodes from) ordinal (out.now ∷ [])) self.new) }
    {
        if plan.is_marker(out.target) {
            return Ok(());
        }
        let key = solved.key(from as usize);
        let target = next_context(key, fields_at(plan, key.addr), out.target);
        let to = number_of(solved, from, &target);
        let masks = moves_over(out, self.moves.count);
        self.push(from, to, ordinal, masks)
    }

    /// Adds the edges of outcomes at a key, which come from an ordinal on.
    fn add_all<D: NumDomain>(
        &mut self,
        plan: &Plan,
        solved: &Solved<D>,
        from: u32,
        ordinal: usize,
        outs: &[Outcome<D>],
    ) -> Result<(), Memory>
        requires from { from < length solved.now.nodes }
        requires numbered { AreNumbered D.domain solved.now.nodes }
        requires lead { LeadOn D.domain plan.now solved.now.cells solved.now.nodes
            (node_at D.domain solved.now.nodes from) outs.now }
        requires few { self.old.count ≤ candidates MOST_CELLS }
        requires cells { AllHaveCells (length solved.now.cells) outs.now }
        requires room { ordinal + length outs.now < 2 ^ 64 }
        ensures { OnOk result (IsExtended D.domain self.old
            (steps_at D.domain plan.now solved.now.cells solved.now.nodes from
            (node_at D.domain solved.now.nodes from) ordinal outs.now) self.new) }
    {
        match outs {
            [] => Ok(()),
            [first, others @ ..] => {
                self.add(plan, solved, from, ordinal, first)?;
                self.add_all(plan, solved, from, ordinal + 1, others)
            }
        }
    }

    /// Adds the edges of the outcomes at a key of a solution.
    fn add_key<D: NumDomain>(
        &mut self,
        plan: &Plan,
        solved: &Solved<D>,
        from: u32,
        scratch: &mut Scratch<D>,
    ) -> Result<(), Memory>
        requires least { IsLeast D.domain plan.now solved.now.cells solved.now.nodes }
        requires from { from < length solved.now.nodes }
        requires few { self.old.count ≤ candidates MOST_CELLS }
        requires room { scratch.old.cells ≡ length solved.now.cells }
        ensures added { OnOk result (IsExtended D.domain self.old
            (steps_at D.domain plan.now solved.now.cells solved.now.nodes from
            (node_at D.domain solved.now.nodes from) 0
            (outcomes_of D.domain plan.now solved.now.cells
            (node_at D.domain solved.now.nodes from))) self.new) }
        ensures room { scratch.new.cells ≡ scratch.old.cells }
    {
        make_outcomes(plan, solved, from, scratch);
        self.add_all(plan, solved, from, 0, scratch.outcomes_in())
    }
}

/// The graph of a solution.
pub(crate) fn graph_of<D: NumDomain>(
    alloc: Global,
    plan: &Plan,
    solved: &Solved<D>,
    scratch: &mut Scratch<D>,
) -> Result<Graph, Memory>
    requires least { IsLeast D.domain plan.now solved.now.cells solved.now.nodes }
    requires room { scratch.old.cells ≡ length solved.now.cells }
    ensures built { IfOk result
        (IsGraphOf D.domain plan.now solved.now.cells solved.now.nodes) }
    ensures room { scratch.new.cells ≡ scratch.old.cells }
{
    let mut graph = Graph::new(alloc, solved.cells().len());
    for from in 0..solved.len() {
        graph.add_key(plan, solved, from as u32, scratch)?;
    }
    Ok(graph)
}
