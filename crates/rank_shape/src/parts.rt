ghost use Rattle.std.specs.Prelude.{◌≡◌, ◌<◌, ◌≤◌, ◌+◌, ◌++◌, ◌∷◌, [], ℕ, List, All, Contains, IfOk, length, slice_index, slice_set};
ghost use Rattle.strong_components.specs.Groups.{lists_of};
ghost use Rattle.rank_shape.specs.Places.{Apart, InSome, PartsBelow, PlacesOf, AreInside, edge_lists, edges_at};

use std::alloc::{AllocError, Global};
use strong_components::Edge;

/// Writes a part's place at each of its keys.
fn place_part(part: &[u32], p: usize, places: &mut [usize])
    requires { All (λ k. k < length places.old) part.now }
    ensures here { All (λ k. slice_index places.new k ≡ p) part.now }
    ensures others { (u : ℕ) → (Contains part.now u → ⊥)
        → slice_index places.new u ≡ slice_index places.old u }
    ensures len { length places.new ≡ length places.old }
{
    for key in part {
        places[*key as usize] = p;
    }
}

/// Writes the place of each key's part.
fn place_parts(parts: &[Vec<u32>], places: &mut [usize])
    requires within { PartsBelow (length places.old) (lists_of parts.now) }
    requires apart { Apart (lists_of parts.now) }
    ensures places { PlacesOf (lists_of parts.now) places.new }
    ensures len { length places.new ≡ length places.old }
{
    for p in 0..parts.len() {
        place_part(&parts[p], p, places);
    }
}

/// As many empty lists.
fn empty_lists(alloc: Global, count: usize) -> Result<Vec<Vec<Edge>>, AllocError>
    ensures len { IfOk result (λ v. length v.items ≡ count) }
    ensures empty { IfOk result (λ v.
        (p : ℕ) → length (edges_at (edge_lists v.items) p) ≡ 0) }
{
    let mut lists = Vec::new(alloc);
    for _ in 0..count {
        lists.push(Vec::new(alloc))?;
    }
    Ok(lists)
}

/// Puts an edge behind those of a place.
fn put(lists: &mut Vec<Vec<Edge>>, place: usize, edge: Edge) -> Result<(), AllocError>
    requires { place < length lists.old.items }
    ensures { IfOk result (λ _. edge_lists lists.new.items ≡ slice_set
        (edge_lists lists.old.items) place
        (edges_at (edge_lists lists.old.items) place ++ edge ∷ [])) }
{
    lists[place].push(edge)?;
    Ok(())
}

/// The edges inside each part, in their order.
pub fn inside_parts(
    alloc: Global,
    parts: &[Vec<u32>],
    edges: &[Edge],
    places: &mut [usize],
) -> Result<Vec<Vec<Edge>>, AllocError>
    requires within { PartsBelow (length places.old) (lists_of parts.now) }
    requires apart { Apart (lists_of parts.now) }
    requires in_parts { All
        (λ e. InSome (lists_of parts.now) e.from × InSome (lists_of parts.now) e.to) edges.now }
    ensures inside { IfOk result (λ v.
        AreInside (lists_of parts.now) edges.now (edge_lists v.items)) }
    ensures places { IfOk result (λ _. PlacesOf (lists_of parts.now) places.new) }
    ensures len { IfOk result (λ _. length places.new ≡ length places.old) }
{
    place_parts(parts, places);
    let mut lists = empty_lists(alloc, parts.len())?;
    for edge in edges {
        let place = places[edge.from as usize];
        if place == places[edge.to as usize] {
            put(&mut lists, place, *edge)?;
        }
    }
    Ok(lists)
}
