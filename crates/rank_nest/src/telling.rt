//! What is told of a solution that has no ranks.
ghost use Rattle.std.specs.Prelude.{◌≡◌, ◌<◌, ◌≤◌, ◌^◌, ℕ, map, length, unsigned_abs, All, IfOk};
ghost use Rattle.rank_form.specs.Bounds.{lower};
ghost use Rattle.rank_numbers.specs.Levels.{level_of, levels_of};
ghost use Rattle.rank_nest.specs.Candidates.{candidate_form};
ghost use Rattle.rank_nest.specs.Graph.{node_at};
ghost use Rattle.rank_nest.specs.Told.{AreEnds, AreTold, IsTellable, ends_cmp, told, told_of};
ghost use Rattle.std.specs.List.Sorted.{IsStrictlySortedBy};

use crate::candidates::{is_down, variable};
use crate::fault::{Edge, Level, Nest};
use fix_solver::Solved;
use num_domain::NumDomain;
use std::alloc::{AllocError, Global};
use std::collections::BTreeSet;

/// Both ends of an edge, in the order of where it begins, and then of where it ends.
#[derive(Clone, Copy, Debug, PartialEq, Eq, PartialOrd, Ord)]
struct Ends {
    from: u32,
    to: u32,
}

/// The ends of a set, ascending.
fn listed(alloc: Global, set: BTreeSet<Ends>) -> Result<Vec<Ends>, AllocError>
    ensures keys { IfOk result (λ v. v.items ≡ set.keys) }
    ensures ascending { IfOk result (λ v. IsStrictlySortedBy ends_cmp set.keys) }
{
    set.into_iter().collect(alloc)
}

/// The ends of edges, ascending, each once.
fn ends_of(alloc: Global, edges: &[strong_components::Edge]) -> Result<Vec<Ends>, AllocError>
    ensures { IfOk result (λ v. AreEnds edges.now v.items) }
{
    let mut found = BTreeSet::new(alloc);
    for edge in edges {
        found.insert(Ends {
            from: edge.from,
            to: edge.to,
        })?;
    }
    listed(alloc, found)
}

/// The pairs of keys of edges, ascending, each once.
pub(crate) fn pairs_of<D: NumDomain>(
    alloc: Global,
    solved: &Solved<D>,
    edges: &[strong_components::Edge],
) -> Result<Vec<Edge>, AllocError>
    requires { All (λ e. (e.from < length solved.now.nodes)
        × (e.to < length solved.now.nodes)) edges.now }
    ensures { IfOk result (λ v. AreTold D.domain solved.now.nodes edges.now v.items) }
{
    let ends = ends_of(alloc, edges)?;
    let mut pairs = Vec::new(alloc);
    for pair in ends.as_slice() {
        pairs.push(Edge {
            from: solved.key(pair.from as usize).copied(),
            to: solved.key(pair.to as usize).copied(),
        })?;
    }
    Ok(pairs)
}

/// A level by its variable.
fn told_level(alloc: Global, level: &rank_numbers::Level) -> Result<Level, AllocError>
    requires { IsTellable (level_of level.now) }
    ensures { IfOk result (λ l. told_of l ≡ told (level_of level.now)) }
{
    let keys = Vec::from_slice(alloc, &level.keys)?;
    let (var, down) = match level.candidate {
        Some(candidate) => (Some(variable(candidate)), is_down(candidate)),
        None => (None, false),
    };
    let low = if var.is_some() && !down {
        -level.low
    } else {
        level.low
    };
    Ok(Level {
        keys,
        var,
        down,
        low,
        weight: level.weight,
        greatest: level.greatest,
    })
}

/// The levels of a nest, by their variables.
pub(crate) fn nest_of(alloc: Global, levels: &[rank_numbers::Level]) -> Result<Nest, AllocError>
    requires { All IsTellable (levels_of levels.now) }
    ensures { IfOk result (λ n. map told_of n.levels.items ≡ map told (levels_of levels.now)) }
{
    let mut tells = Vec::new(alloc);
    for level in levels {
        tells.push(told_level(alloc, level)?)?;
    }
    Ok(Nest { levels: tells })
}

/// The facts' own limits: what bounds the low ends of levels.
pub(crate) fn bound_facts<D: NumDomain>(solved: &Solved<D>)
    ensures { (k c : ℕ) → k < length solved.now.nodes → unsigned_abs
        (lower D.domain (candidate_form c) (node_at D.domain solved.now.nodes k).fact) ≤ 2 ^ 39 }
{
    for key in 0..solved.len() {
        let _count = solved.fact(key).count();
    }
}
