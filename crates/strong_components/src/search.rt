ghost use Rattle.std.specs.Prelude.{◌≡◌, ◌<◌, ◌≤◌, ◌+◌, ◌-◌, ℕ, List, [], ◌∷◌, ◌++◌, length, take, drop, slice_set, slice_index, vec_len, All, IfOk, Some, None, false};
ghost use Rattle.strong_components.specs.Paths.{Leads};
ghost use Rattle.strong_components.specs.Search.{mark_of, first_of, waits_of, Kept, Reached};
ghost use Rattle.strong_components.specs.Numbers.{Fresh, Numbered};
ghost use Rattle.strong_components.specs.Steps.{BySource, EndsBelow, Targets, Placed, KeptBy, Stepped, Idle, Visited, work};

use crate::edge::Edge;
use std::alloc::{AllocError, Global};

/// What the search knows of a key.
#[derive(Clone, Copy, Debug)]
pub enum Mark {
    /// Nothing yet.
    Unseen,
    /// It stands at this place of the trail.
    Held(usize),
    /// It is in the component of this number.
    Done(usize),
}

/// Where a stage begins, on the trail and among the waiting keys.
#[derive(Clone, Copy, Debug)]
pub struct Stage {
    pub first: usize,
    pub waits: usize,
}

/// The state of a search, but for the marks.
#[derive(Drop)]
pub struct Search {
    /// The keys that were met and aren't done, in the order in which they were met.
    pub trail: Vec<u32>,
    /// The keys that edges of the trail lead to, and that weren't looked at since.
    pub waiting: Vec<u32>,
    /// The trail in pieces, each of keys that reach each other.
    pub stages: Vec<Stage>,
    /// The keys that are done, component by component.
    pub closed: Vec<u32>,
}

/// Puts the targets of a key's edges behind the waiting ones.
fn push_targets(edges: &[Edge], key: u32, waiting: &mut Vec<u32>) -> Result<(), AllocError>
    requires { BySource edges.now }
    ensures { IfOk result (λ _. (xs : List ℕ)
        × (waiting.new.items ≡ waiting.old.items ++ xs) × Targets edges.now key xs) }
{
    let start = edges.partition_point(|e| e.from < key);
    let mut i = start;
    while i < edges.len() && edges[i].from == key {
        waiting.push(edges[i].to)?;
        i += 1;
    }
    Ok(())
}

impl Search {
    fn new(alloc: Global) -> Search
        ensures trail { result.trail.items ≡ [] }
        ensures waiting { result.waiting.items ≡ [] }
        ensures stages { result.stages.items ≡ [] }
        ensures closed { result.closed.items ≡ [] }
    {
        Search {
            trail: Vec::new(alloc),
            waiting: Vec::new(alloc),
            stages: Vec::new(alloc),
            closed: Vec::new(alloc),
        }
    }

    /// Begins a stage with a key.
    fn open(&mut self, marks: &mut [Mark], edges: &[Edge], key: u32) -> Result<(), AllocError>
        requires by_source { BySource edges.now }
        requires within { key < length marks.old }
        ensures marked { IfOk result (λ _.
            marks.new ≡ slice_set marks.old key (Mark.Held (length self.old.trail.items))) }
        ensures trail { IfOk result (λ _. self.new.trail.items ≡ self.old.trail.items ++ key ∷ []) }
        ensures waiting { IfOk result (λ _. (xs : List ℕ)
            × (self.new.waiting.items ≡ self.old.waiting.items ++ xs)
            × Targets edges.now key xs) }
        ensures stages { IfOk result (λ _. self.new.stages.items ≡ self.old.stages.items ++ record {
          first = length self.old.trail.items;
          waits = length self.old.waiting.items;
        } ∷ []) }
        ensures closed { IfOk result (λ _. self.new.closed.items ≡ self.old.closed.items) }
    {
        let stage = Stage {
            first: self.trail.len(),
            waits: self.waiting.len(),
        };
        marks[key as usize] = Mark::Held(stage.first);
        self.trail.push(key)?;
        push_targets(edges, key, &mut self.waiting)?;
        self.stages.push(stage)?;
        Ok(())
    }

    /// Joins the stages that begin behind a place to the one before.
    fn merge(&mut self, place: usize)
        ensures stages { (n : ℕ) × (self.new.stages.items ≡ take n self.old.stages.items)
            × (n ≤ length self.old.stages.items)
            × ((k : ℕ) → n ≤ k → k < length self.old.stages.items
            → place < first_of self.old.stages.items k)
            × ((k : ℕ) → k + 1 ≡ n → first_of self.old.stages.items k ≤ place) }
        ensures trail { self.new.trail.items ≡ self.old.trail.items }
        ensures waiting { self.new.waiting.items ≡ self.old.waiting.items }
        ensures closed { self.new.closed.items ≡ self.old.closed.items }
    {
        let mut n = self.stages.len();
        while n > 0 && self.stages[n - 1].first > place {
            n -= 1;
        }
        self.stages.truncate(n);
    }

    /// Makes the trail's end a component.
    fn close(&mut self, marks: &mut [Mark], first: usize) -> Result<(), AllocError>
        requires first { first ≤ length self.old.trail.items }
        requires within { (i : ℕ) → i < length self.old.trail.items
            → slice_index self.old.trail.items i < length marks.old }
        ensures new { IfOk result (λ _. (i : ℕ) → first ≤ i → i < length self.old.trail.items
            → mark_of marks.new (slice_index self.old.trail.items i)
            ≡ Mark.Done (length self.old.closed.items)) }
        ensures rest { IfOk result (λ _. (v : ℕ)
            → ((i : ℕ) → first ≤ i → i < length self.old.trail.items
            → slice_index self.old.trail.items i ≡ v → ⊥)
            → mark_of marks.new v ≡ mark_of marks.old v) }
        ensures len { length marks.new ≡ length marks.old }
        ensures trail { IfOk result (λ _. self.new.trail.items ≡ take first self.old.trail.items) }
        ensures closed { IfOk result (λ _. self.new.closed.items
            ≡ self.old.closed.items ++ drop first self.old.trail.items) }
        ensures waiting { IfOk result (λ _. self.new.waiting.items ≡ self.old.waiting.items) }
        ensures stages { IfOk result (λ _. self.new.stages.items ≡ self.old.stages.items) }
    {
        let number = self.closed.len();
        for i in first..self.trail.len() {
            let key = self.trail[i];
            marks[key as usize] = Mark::Done(number);
            self.closed.push(key)?;
        }
        self.trail.truncate(first);
        Ok(())
    }

    /// Looks at a key that an edge of the last stage leads to.
    fn meet(&mut self, marks: &mut [Mark], edges: &[Edge], key: u32) -> Result<(), AllocError>
        requires by_source { BySource edges.now }
        requires within { key < length marks.old }
        requires kept { KeptBy edges.now (Some key) marks.old self.old }
        requires reached { Reached edges.now self.old.trail.items key }
        requires placed { Placed marks.old self.old.closed.items }
        ensures { IfOk result (λ _. Stepped edges.now marks.old marks.new self.new
            (work marks.old self.old.waiting.items self.old.trail.items)) }
    {
        match marks[key as usize] {
            Mark::Unseen => self.open(marks, edges, key)?,
            Mark::Held(place) => self.merge(place),
            Mark::Done(_) => {}
        }
        Ok(())
    }

    /// One step: a waiting key of the last stage is looked at, or the stage is a component.
    fn step(&mut self, marks: &mut [Mark], edges: &[Edge]) -> Result<(), AllocError>
        requires by_source { BySource edges.now }
        requires ends { EndsBelow (length marks.old) edges.now }
        requires some { 0 < length self.old.stages.items }
        requires kept { KeptBy edges.now None marks.old self.old }
        requires placed { Placed marks.old self.old.closed.items }
        ensures { IfOk result (λ _. Stepped edges.now marks.old marks.new self.new
            (work marks.old self.old.waiting.items self.old.trail.items - 1)) }
    {
        let stage = self.stages[self.stages.len() - 1];
        if self.waiting.len() > stage.waits {
            if let Some(key) = self.waiting.pop() {
                self.meet(marks, edges, key)?;
            }
        } else {
            self.close(marks, stage.first)?;
            self.stages.pop();
        }
        Ok(())
    }

    /// Goes on until all keys of the trail are done.
    fn finish(&mut self, marks: &mut [Mark], edges: &[Edge]) -> Result<(), AllocError>
        requires by_source { BySource edges.now }
        requires ends { EndsBelow (length marks.old) edges.now }
        requires kept { KeptBy edges.now None marks.old self.old }
        requires placed { Placed marks.old self.old.closed.items }
        ensures stepped { IfOk result (λ _. Stepped edges.now marks.old marks.new self.new
            (work marks.old self.old.waiting.items self.old.trail.items)) }
        ensures done { IfOk result (λ _. length self.new.stages.items ≡ 0) }
    {
        while self.stages.len() > 0 {
            self.step(marks, edges)?;
        }
        Ok(())
    }

    /// Searches from a key, if it wasn't seen.
    fn visit(&mut self, marks: &mut [Mark], edges: &[Edge], key: u32) -> Result<(), AllocError>
        requires by_source { BySource edges.now }
        requires ends { EndsBelow (length marks.old) edges.now }
        requires within { key < length marks.old }
        requires idle { Idle edges.now marks.old self.old }
        ensures { IfOk result (λ _. Visited edges.now marks.old marks.new self.new key) }
    {
        let Mark::Unseen = marks[key as usize] else {
            return Ok(());
        };
        self.open(marks, edges, key)?;
        self.finish(marks, edges)?;
        Ok(())
    }
}

/// Numbers the components: marks each key with the number of its component. The result is the keys
/// that were met, component by component.
pub(crate) fn number(
    alloc: Global,
    keys: &[u32],
    edges: &[Edge],
    marks: &mut [Mark],
) -> Result<Vec<u32>, AllocError>
    requires by_source { BySource edges.now }
    requires ends { EndsBelow (length marks.old) edges.now }
    requires keys { All (λ k. k < length marks.old) keys.now }
    requires fresh { Fresh marks.old }
    ensures numbered { IfOk result (λ v. Numbered edges.now keys.now marks.new (vec_len v)) }
    ensures placed { IfOk result (λ v. Placed marks.new v.items) }
    ensures none_held { IfOk result (λ _. (v i : ℕ) → mark_of marks.new v ≡ Mark.Held i → ⊥) }
    ensures len { IfOk result (λ _. length marks.new ≡ length marks.old) }
{
    let mut search = Search::new(alloc);
    for key in keys {
        search.visit(marks, edges, *key)?;
    }
    Ok(search.closed)
}
