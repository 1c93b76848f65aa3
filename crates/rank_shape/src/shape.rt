ghost use Rattle.std.specs.Prelude.{◌≡◌, ◌<◌, ◌≤◌, ◌+◌, ℕ, List, All, AllPairs, IfOk, MatchOption, Option, option_map, length};
ghost use Rattle.strong_components.specs.Numbers.{Fresh};
ghost use Rattle.strong_components.specs.Steps.{BySource};
ghost use Rattle.rank_shape.specs.Nests.{HasNest, HasPart, IsFirstStuck, IsStuckIn};
ghost use Rattle.rank_shape.specs.Places.{EndsIn};
ghost use Rattle.rank_shape.specs.Stuck.{IsRanked};

use crate::moves::Moves;
use crate::parts::inside_parts;
use std::alloc::{AllocError, Global};
use strong_components::{Edge, Mark, components_of};

/// The edges of the first stuck component of a graph, inner ones before the next outer one. None
/// exactly where the graph has a nest. An error for want of memory.
///
/// `marks` and `places` are room for all keys; the marks are left as they were.
/// docs/METHOD.md, "Components and nests".
#[cycle(shape)]
pub fn first_stuck(
    alloc: Global,
    keys: &[u32],
    edges: &[Edge],
    moves: &Moves,
    marks: &mut [Mark],
    places: &mut [usize],
) -> Result<Option<Vec<Edge>>, AllocError>
    requires ascend { AllPairs (λ a b. a < b) keys.now }
    requires keys { All (λ k. k < length marks.old) keys.now }
    requires room { length places.old ≡ length marks.old }
    requires by_source { BySource edges.now }
    requires ends { EndsIn keys.now edges.now }
    requires fresh { Fresh marks.old }
    ensures shape { IfOk result (λ r. MatchOption r
        (HasNest moves.now keys.now edges.now)
        (λ s. IsFirstStuck moves.now keys.now edges.now s.items)) }
    ensures fresh { IfOk result (λ _. Fresh marks.new) }
    ensures marks_len { IfOk result (λ _. length marks.new ≡ length marks.old) }
    ensures places_len { IfOk result (λ _. length places.new ≡ length places.old) }
{
    let found = components_of(alloc, keys, edges, marks)?;
    let lists = inside_parts(alloc, &found.parts, edges, places)?;
    for p in 0..found.parts.len() {
        let stuck = stuck_in(alloc, &found.parts[p], &lists[p], moves, marks, places)?;
        if stuck.is_some() {
            return Ok(stuck);
        }
    }
    Ok(None)
}

/// The edges of the first stuck component within a component.
#[cycle(shape)]
fn stuck_in(
    alloc: Global,
    part: &[u32],
    edges: &[Edge],
    moves: &Moves,
    marks: &mut [Mark],
    places: &mut [usize],
) -> Result<Option<Vec<Edge>>, AllocError>
    requires ascend { AllPairs (λ a b. a < b) part.now }
    requires keys { All (λ k. k < length marks.old) part.now }
    requires room { length places.old ≡ length marks.old }
    requires by_source { BySource edges.now }
    requires ends { EndsIn part.now edges.now }
    requires fresh { Fresh marks.old }
    ensures shape { IfOk result (λ r. MatchOption r
        (HasPart moves.now part.now edges.now)
        (λ s. IsStuckIn moves.now part.now edges.now s.items)) }
    ensures fresh { IfOk result (λ _. Fresh marks.new) }
    ensures marks_len { IfOk result (λ _. length marks.new ≡ length marks.old) }
    ensures places_len { IfOk result (λ _. length places.new ≡ length places.old) }
{
    if edges.is_empty() {
        return Ok(None);
    }
    let Some(candidate) = moves.first_fit(edges) else {
        return Ok(Some(Vec::from_slice(alloc, edges)?));
    };
    let rest = moves.remaining(alloc, edges, candidate)?;
    let stuck = first_stuck(alloc, part, &rest, moves, marks, places)?;
    Ok(stuck)
}

/// None where the edges of a graph can be ranked by a choice. Else a set of them that is stuck: no
/// choice ranks these, nor all. An error for want of memory.
///
/// `marks` and `places` are room for all keys. docs/METHOD.md, "Components and nests".
pub fn ranked(
    alloc: Global,
    keys: &[u32],
    edges: &[Edge],
    moves: &Moves,
    marks: &mut [Mark],
    places: &mut [usize],
) -> Result<Option<Vec<Edge>>, AllocError>
    requires ascend { AllPairs (λ a b. a < b) keys.now }
    requires keys { All (λ k. k < length marks.old) keys.now }
    requires room { length places.old ≡ length marks.old }
    requires by_source { BySource edges.now }
    requires ends { EndsIn keys.now edges.now }
    requires fresh { Fresh marks.old }
    ensures { IfOk result (λ r. IsRanked moves.now edges.now (option_map (λ s. s.items) r)) }
{
    let stuck = first_stuck(alloc, keys, edges, moves, marks, places)?;
    Ok(stuck)
}
