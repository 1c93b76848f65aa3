ghost use Rattle.std.specs.Prelude.{◌≡◌, ◌<◌, ◌≤◌, ℕ, Bool, true, false, not, nat_eq, ◌/◌, ◌%◌, ◌^◌, slice_index, All, Any, filter, IfOk, MatchOption, List, length, ◌↔◌, IsTrue, ◌⊎◌};
ghost use Rattle.rank_shape.specs.Moves.{may_grow, surely_falls};
ghost use Rattle.rank_shape.specs.Nests.{IsFirst, NoneFits, remaining};

use crate::moves::Moves;
use std::alloc::{AllocError, Global};
use strong_components::Edge;

/// Is the bit set in the mask of that place?
fn bit(masks: &[u128], place: u32, candidate: u32) -> bool
    requires { candidate < 128 }
    ensures { result ≡ nat_eq ((slice_index masks.now place / 2 ^ candidate) % 2) 1 }
{
    match masks.get(place as usize) {
        Some(mask) => (*mask >> candidate) % 2 == 1,
        None => false,
    }
}

impl Moves {
    /// May the candidate grow along the edge?
    #[tactic(auto, unfolding(crate::specs::Moves::may_grow))]
    pub fn may_grow(&self, candidate: u32, edge: Edge) -> bool
        requires { candidate < self.now.count }
        ensures { result ≡ may_grow self.now candidate edge }
    {
        bit(&self.grow, edge.name, candidate)
    }

    /// Does the candidate surely fall along the edge?
    #[tactic(auto, unfolding(crate::specs::Moves::surely_falls))]
    pub fn surely_falls(&self, candidate: u32, edge: Edge) -> bool
        requires { candidate < self.now.count }
        ensures { result ≡ surely_falls self.now candidate edge }
    {
        bit(&self.fall, edge.name, candidate)
    }

    /// Does the candidate grow on none of the edges, and surely fall on one?
    fn fits(&self, candidate: u32, edges: &[Edge]) -> bool
        requires { candidate < self.now.count }
        ensures grows { result ≡ true
            → All (λ e. may_grow self.now candidate e ≡ false) edges.now }
        ensures falls { result ≡ true
            → Any (λ e. surely_falls self.now candidate e ≡ true) edges.now }
        ensures not { result ≡ false
            → Any (λ e. may_grow self.now candidate e ≡ true) edges.now
            ⊎ All (λ e. surely_falls self.now candidate e ≡ false) edges.now }
    {
        !edges.iter().any(|e| self.may_grow(candidate, *e))
            && edges.iter().any(|e| self.surely_falls(candidate, *e))
    }

    /// The first candidate that grows on none of the edges, and surely falls on one.
    pub fn first_fit(&self, edges: &[Edge]) -> Option<u32>
        ensures { MatchOption result
            (NoneFits self.now edges.now) (λ c. IsFirst self.now edges.now c) }
    {
        for candidate in 0..self.count {
            if self.fits(candidate, edges) {
                return Some(candidate);
            }
        }
        None
    }

    /// The edges on which the candidate doesn't surely fall.
    pub fn remaining(
        &self,
        alloc: Global,
        edges: &[Edge],
        candidate: u32,
    ) -> Result<Vec<Edge>, AllocError>
        requires { candidate < self.now.count }
        ensures { IfOk result (λ v. v.items ≡ remaining self.now candidate edges.now) }
    {
        edges
            .iter()
            .copied()
            .filter(|e| !self.surely_falls(candidate, *e))
            .collect(alloc)
    }
}
