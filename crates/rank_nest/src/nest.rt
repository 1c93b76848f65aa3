//! The ranks of a solution.
ghost use Rattle.std.specs.Prelude.{◌≡◌, ◌<◌, ◌≤◌, ◌++◌, ◌∷◌, [], ℕ, length, slice_set, All, IfOk, IfErr};
ghost use Rattle.strong_components.specs.Numbers.{Fresh};
ghost use Rattle.rank_shape.specs.Nests.{HasNest};
ghost use Rattle.rank_shape.specs.Places.{edge_lists, edges_at};
ghost use Rattle.rank_numbers.specs.Rows.{IntoKeys};
ghost use Rattle.flow_recover.specs.Cells.{cells_of};
ghost use Rattle.fix_solver.specs.Solutions.{plan_rules};
ghost use Rattle.fix_solver.specs.Solved.{IsSolved};
ghost use Rattle.rank_nest.specs.Forms.{AreMoves};
ghost use Rattle.rank_nest.specs.Graph.{graph};
ghost use Rattle.rank_nest.specs.Ranks.{AreRanks, IsRankFault, keys_below};
ghost use Rattle.rank_nest.specs.Ready.{IsReady};

use crate::fault::RankFault;
use crate::graph::graph_of;
use crate::ranks::SolutionRanks;
use crate::telling::{bound_facts, nest_of, pairs_of};
use abs_step::Scratch;
use fix_solver::Solved;
use flag_relation::Form;
use memory_plan::Plan;
use num_domain::NumDomain;
use rank_numbers::{Numbered, Ranks, numbers_of};
use rank_shape::{Moves, first_stuck};
use std::alloc::{AllocError, Global};
use strong_components::{Edge, Mark};

/// Room for a place at each key.
#[derive(Drop)]
struct Room {
    keys: Vec<u32>,
    marks: Vec<Mark>,
    places: Vec<usize>,
}

/// Room for so many keys.
fn room_for(alloc: Global, count: usize) -> Result<Room, AllocError>
    requires { count ≤ 65536 }
    ensures keys { IfOk result (λ r. r.keys.items ≡ keys_below count) }
    ensures fresh { IfOk result (λ r. Fresh r.marks.items) }
    ensures marks { IfOk result (λ r. length r.marks.items ≡ count) }
    ensures places { IfOk result (λ r. length r.places.items ≡ count) }
{
    let mut keys = Vec::new(alloc);
    for key in 0..count {
        keys.push(key as u32)?;
    }
    Ok(Room {
        keys,
        marks: vec![in alloc; Mark::Unseen; count]?,
        places: vec![in alloc; 0; count]?,
    })
}

/// As many empty lists.
fn empty_lists(alloc: Global, count: usize) -> Result<Vec<Vec<Edge>>, AllocError>
    ensures len { IfOk result (λ v. length v.items ≡ count) }
    ensures empty { IfOk result (λ v.
        (p : ℕ) → length (edges_at (edge_lists v.items) p) ≡ 0) }
{
    let mut lists = Vec::new(alloc);
    for _ in 0..count {
        lists.push(Vec::new(alloc))?;
    }
    Ok(lists)
}

/// Puts an edge behind those of a place.
fn put(lists: &mut Vec<Vec<Edge>>, place: usize, edge: Edge) -> Result<(), AllocError>
    requires { place < length lists.old.items }
    ensures put { IfOk result (λ _. edge_lists lists.new.items ≡ slice_set
        (edge_lists lists.old.items) place
        (edges_at (edge_lists lists.old.items) place ++ edge ∷ [])) }
    ensures len { IfOk result (λ _. length lists.new.items ≡ length lists.old.items) }
{
    lists[place].push(edge)?;
    Ok(())
}

/// The edges that end at each of so many keys.
fn edges_into(alloc: Global, edges: &[Edge], count: usize) -> Result<Vec<Vec<Edge>>, AllocError>
    requires { All (λ e. e.to < count) edges.now }
    ensures count { IfOk result (λ v. length v.items ≡ count) }
    ensures into { IfOk result (λ v. IntoKeys edges.now v.items) }
{
    let mut into = empty_lists(alloc, count)?;
    for edge in edges {
        put(&mut into, edge.to as usize, *edge)?;
    }
    Ok(into)
}

/// The numbers of a graph that has a nest: its forms, or the levels up to the first that is large.
fn numbered<D: NumDomain>(
    alloc: Global,
    ranks: &SolutionRanks<D>,
    edges: &[Edge],
    moves: &Moves,
    room: &mut Room,
    scratch: &mut Scratch<D>,
) -> Result<Vec<Form>, RankFault>
    requires some { 0 < length ranks.now.solved.now.nodes }
    requires edges { edges.now ≡ graph D.domain ranks.now.plan.now ranks.now.solved.now.cells
        ranks.now.solved.now.nodes }
    requires moves { AreMoves D.domain ranks.now.plan.now ranks.now.solved.now.cells
        ranks.now.solved.now.nodes moves.now }
    requires keys { room.old.keys.items ≡ keys_below (length ranks.now.solved.now.nodes) }
    requires fresh { Fresh room.old.marks.items }
    requires marks { length room.old.marks.items ≡ length ranks.now.solved.now.nodes }
    requires places { length room.old.places.items ≡ length ranks.now.solved.now.nodes }
    requires nest { HasNest moves.now room.old.keys.items edges.now }
    requires ready { IsReady D.domain ranks.now.plan.now ranks.now.solved.now.cells
        ranks.now.solved.now.nodes ranks.now.graph.now scratch.old.cells }
    ensures ranks { IfOk result (λ v. AreRanks D.domain ranks.now.plan.now
        ranks.now.solved.now.cells ranks.now.solved.now.nodes v.items) }
    ensures fault { IfErr result (IsRankFault D.domain ranks.now.plan.now
        ranks.now.solved.now.cells ranks.now.solved.now.nodes) }
{
    let into = edges_into(alloc, edges, room.keys.len())?;
    let mut forms = vec![in alloc; ranks.one(); room.keys.len()]?;
    let numbers = numbers_of(
        alloc,
        ranks,
        &room.keys,
        edges,
        &into,
        moves,
        &mut room.marks,
        &mut room.places,
        &mut forms,
        scratch,
    )?;
    match numbers {
        Numbered::Total(_) => Ok(forms),
        Numbered::Large(levels) => {
            bound_facts(ranks.solved);
            Err(RankFault::Large(nest_of(alloc, &levels)?))
        }
    }
}

/// The ranks of the least solution of a plan: a form for each key, by the nest of the solution's
/// graph. Each is at least 1 over its key's fact and at most 2^62, and falls by 1 at least over
/// each outcome that leads to no marker. `Unranked` exactly where a component is stuck, with the
/// edges of the first one; `Large` exactly where none is and a number of the nest passes its limit,
/// with the nest up to that number; or want of memory. docs/METHOD.md, "Ranks of the least
/// solution".
pub fn rank<D: NumDomain>(
    alloc: Global,
    plan: &Plan,
    solved: &Solved<D>,
) -> Result<Vec<Form>, RankFault>
    requires solved { IsSolved (plan_rules D.domain plan.now) solved.now.nodes }
    requires cells { solved.now.cells ≡ cells_of plan.now }
    ensures ranks { IfOk result (λ v.
        AreRanks D.domain plan.now solved.now.cells solved.now.nodes v.items) }
    ensures fault { IfErr result
        (IsRankFault D.domain plan.now solved.now.cells solved.now.nodes) }
{
    if solved.len() == 0 {
        return Ok(Vec::new(alloc));
    }
    let mut scratch = Scratch::new(alloc, solved.cells().len() as u8)?;
    let graph = graph_of(alloc, plan, solved, &mut scratch)?;
    let mut room = room_for(alloc, solved.len())?;
    let edges = graph.edges();
    let moves = graph.moves();
    let stuck = first_stuck(
        alloc,
        &room.keys,
        edges,
        moves,
        &mut room.marks,
        &mut room.places,
    )?;
    match stuck {
        Some(stuck) => Err(RankFault::Unranked(pairs_of(alloc, solved, &stuck)?)),
        None => {
            let ranks = SolutionRanks {
                plan,
                solved,
                graph: &graph,
            };
            numbered(alloc, &ranks, edges, moves, &mut room, &mut scratch)
        }
    }
}
