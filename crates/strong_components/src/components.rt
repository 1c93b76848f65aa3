ghost use Rattle.std.specs.Prelude.{◌≡◌, ◌<◌, ◌≤◌, ◌+◌, ℕ, List, [], ◌∷◌, ◌++◌, map, length, slice_index, vec_len, All, AllPairs, Contains, ◌⊎◌, IfOk, Some, None, Option};
ghost use Rattle.strong_components.specs.Search.{mark_of};
ghost use Rattle.strong_components.specs.Numbers.{Fresh, Numbered, number_of};
ghost use Rattle.strong_components.specs.Steps.{BySource, EndsBelow, Placed};
ghost use Rattle.strong_components.specs.Components.{IsComponents, IsOrder};
ghost use Rattle.strong_components.specs.Groups.{lists_of, place_of, Added, Grouped, Ordered};

use crate::edge::Edge;
use crate::search::{Mark, number};
use std::alloc::{AllocError, Global};

/// Strongly connected components.
#[derive(Drop)]
pub struct Components {
    /// The keys of each, in order of their least key.
    pub parts: Vec<Vec<u32>>,
    /// The places of all parts, each before those that lead to it.
    pub order: Vec<usize>,
}

/// Parts of keys with equal numbers.
#[derive(Drop)]
struct Groups {
    /// The keys of each part.
    parts: Vec<Vec<u32>>,
    /// The place of each number's part.
    places: Vec<Option<usize>>,
}

impl Groups {
    /// Puts a key to those with its number.
    fn add(&mut self, alloc: Global, key: u32, number: usize) -> Result<(), AllocError>
        requires number { number < length self.old.places.items }
        requires place { (p : ℕ) → place_of self.old.places.items number ≡ Some p
            → p < length self.old.parts.items }
        ensures { IfOk result (λ _. Added
            self.old.places.items (lists_of self.old.parts.items) number key
            self.new.places.items (lists_of self.new.parts.items)) }
    {
        match self.places[number] {
            Some(place) => self.parts[place].push(key)?,
            None => {
                let mut part = Vec::new(alloc);
                part.push(key)?;
                self.places[number] = Some(self.parts.len());
                self.parts.push(part)?;
            }
        }
        Ok(())
    }

    /// The places of the parts, by their numbers.
    fn order(&self, alloc: Global) -> Result<Vec<usize>, AllocError>
        ensures { IfOk result (λ v.
            Ordered self.now.places.items (length self.now.places.items) v.items) }
    {
        let mut order = Vec::new(alloc);
        for place in &self.places {
            if let Some(place) = place {
                order.push(*place)?;
            }
        }
        Ok(order)
    }
}

/// Puts keys together by the numbers of their components, of which there are fewer than `count`.
fn group(alloc: Global, keys: &[u32], marks: &[Mark], count: usize) -> Result<Groups, AllocError>
    requires ascend { AllPairs (λ a b. a < b) keys.now }
    requires keys { All (λ k. k < length marks.now) keys.now }
    requires numbered { All
        (λ v. mark_of marks.now v ≡ Mark.Done (number_of (mark_of marks.now v))) keys.now }
    requires below { (v c : ℕ) → mark_of marks.now v ≡ Mark.Done c → c < count }
    ensures { IfOk result (λ g. Grouped (λ v. number_of (mark_of marks.now v)) keys.now
        g.places.items (lists_of g.parts.items)) }
{
    let mut groups = Groups {
        parts: Vec::new(alloc),
        places: vec![in alloc; None; count]?,
    };
    for key in keys {
        let Mark::Done(number) = marks[*key as usize] else {
            unreachable!()
        };
        groups.add(alloc, *key, number)?;
    }
    Ok(groups)
}

/// Forgets what was marked of keys.
fn forget(closed: &[u32], marks: &mut [Mark])
    requires closed { All (λ k. k < length marks.old) closed.now }
    requires only { (v : ℕ) → (mark_of marks.old v ≡ Mark.Unseen) ⊎ Contains closed.now v }
    ensures fresh { Fresh marks.new }
{
    for key in closed {
        marks[*key as usize] = Mark::Unseen;
    }
}

/// The strongly connected components of a graph: keys that reach each other, in order of their
/// least key, with an order of them in which no path leads from one to a later one.
///
/// The edges stand in order of where they begin. `marks` is room for the marks of all keys, none
/// of which is seen; nor is one after Ok. Each key and each edge is taken once, and each key's first
/// edge is found by halving. An error for want of memory. docs/METHOD.md, "Components and nests".
pub fn components_of(
    alloc: Global,
    keys: &[u32],
    edges: &[Edge],
    marks: &mut [Mark],
) -> Result<Components, AllocError>
    requires ascend { AllPairs (λ a b. a < b) keys.now }
    requires keys { All (λ k. k < length marks.old) keys.now }
    requires by_source { BySource edges.now }
    requires ends { EndsBelow (length marks.old) edges.now }
    requires fresh { Fresh marks.old }
    ensures parts { IfOk result (λ c. IsComponents edges.now keys.now (lists_of c.parts.items)) }
    ensures order { IfOk result (λ c. IsOrder edges.now (lists_of c.parts.items) c.order.items) }
    ensures fresh { IfOk result (λ _. Fresh marks.new) }
    ensures len { IfOk result (λ _. length marks.new ≡ length marks.old) }
{
    let closed = number(alloc, keys, edges, marks)?;
    let groups = group(alloc, keys, marks, closed.len())?;
    forget(&closed, marks);
    let order = groups.order(alloc)?;
    Ok(Components {
        parts: groups.parts,
        order,
    })
}
