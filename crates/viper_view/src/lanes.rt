//! Arcs beside a listing, each in a lane in which no other meets it.

use std::alloc::{AllocError, Global};

/// How many lanes there are at the most; arcs beyond share the last one.
const MOST_LANES: usize = 40;

/// An arc from a row to another, and the lane that it runs in, from 0 next to the rows. The order
/// is by how many rows it passes.
#[derive(Clone, Copy, PartialEq, Eq, PartialOrd, Ord)]
pub struct Arc {
    pub length: usize,
    pub from: usize,
    pub to: usize,
    pub is_dashed: bool,
    pub lane: usize,
}

impl Arc {
    /// An arc in no lane yet.
    pub fn new(from: usize, to: usize, is_dashed: bool) -> Arc {
        Arc {
            length: from.max(to) - from.min(to),
            from,
            to,
            is_dashed,
            lane: 0,
        }
    }

    /// Have both a row in common?
    fn meets(&self, other: &Arc) -> bool {
        self.from.min(self.to) <= other.from.max(other.to)
            && other.from.min(other.to) <= self.from.max(self.to)
    }
}

/// The first lane in which none of the arcs meets this one.
fn free_lane(placed: &[Arc], arc: &Arc) -> usize {
    for lane in 0..MOST_LANES {
        let is_free = !placed
            .iter()
            .any(|other| other.lane == lane && other.meets(arc));
        if is_free {
            return lane;
        }
    }
    MOST_LANES
}

/// The arcs in their lanes: those that pass fewer rows nearer to the rows.
pub fn in_lanes(alloc: Global, mut arcs: Vec<Arc>) -> Result<Vec<Arc>, AllocError> {
    arcs.sort()?;
    let mut placed: Vec<Arc> = Vec::new(alloc);
    for arc in arcs.iter() {
        let lane = free_lane(&placed, arc);
        placed.push(Arc {
            length: arc.length,
            from: arc.from,
            to: arc.to,
            is_dashed: arc.is_dashed,
            lane,
        })?;
    }
    Ok(placed)
}

/// How many lanes the arcs take.
pub fn lane_count(arcs: &[Arc]) -> usize {
    let mut count = 0;
    for arc in arcs {
        count = count.max(arc.lane.saturating_add(1));
    }
    count
}
