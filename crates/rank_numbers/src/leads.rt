ghost use Rattle.std.specs.Prelude.{◌≡◌, ◌<◌, ◌++◌, ◌∷◌, [], ℕ, List, All, Contains, IfOk, length, slice_set};
ghost use Rattle.strong_components.specs.Groups.{lists_of};
ghost use Rattle.rank_shape.specs.Places.{InSome, PlacesOf};
ghost use Rattle.rank_numbers.specs.Offsets.{leads_at, place_lists};
ghost use Rattle.rank_numbers.specs.Leads.{AreLeads};

use std::alloc::{AllocError, Global};
use strong_components::Edge;

/// Puts a place behind those of a part.
fn put(leads: &mut Vec<Vec<usize>>, p: usize, q: usize) -> Result<(), AllocError>
    requires { p < length leads.old.items }
    ensures { IfOk result (λ _. place_lists leads.new.items ≡ slice_set
        (place_lists leads.old.items) p (leads_at leads.old.items p ++ q ∷ [])) }
{
    leads[p].push(q)?;
    Ok(())
}

/// As many empty lists.
fn empty_lists(alloc: Global, count: usize) -> Result<Vec<Vec<usize>>, AllocError>
    ensures len { IfOk result (λ v. length v.items ≡ count) }
    ensures empty { IfOk result (λ v. (p : ℕ) → length (leads_at v.items p) ≡ 0) }
{
    let mut lists = Vec::new(alloc);
    for _ in 0..count {
        lists.push(Vec::new(alloc))?;
    }
    Ok(lists)
}

/// The places of the parts that each part's edges lead into.
pub(crate) fn leads_of(
    alloc: Global,
    parts: &[Vec<u32>],
    edges: &[Edge],
    places: &[usize],
) -> Result<Vec<Vec<usize>>, AllocError>
    requires placed { PlacesOf (lists_of parts.now) places.now }
    requires within { All
        (λ e. (e.from < length places.now) × (e.to < length places.now)) edges.now }
    requires in_parts { All
        (λ e. InSome (lists_of parts.now) e.from × InSome (lists_of parts.now) e.to) edges.now }
    ensures { IfOk result (λ v. AreLeads (lists_of parts.now) edges.now v.items) }
{
    let mut leads = empty_lists(alloc, parts.len())?;
    for edge in edges {
        let p = places[edge.from as usize];
        let q = places[edge.to as usize];
        if p != q {
            put(&mut leads, p, q)?;
        }
    }
    Ok(leads)
}
