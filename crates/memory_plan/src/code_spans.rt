//! The code spans of a plan.

ghost use Rattle.std.specs.Prelude.{◌≡◌, ◌≤◌, ◌+◌, ◌-◌, [], ◌∷◌, ◌++◌, length, IfOk, nat_lt, true, false};
ghost use Rattle.std.specs.List.Sorted.{IsPartitionPoint, IsNonDecreasingBy};
ghost use Rattle.memory_plan.specs.declared.plan.TheConstants.{CODE_WORDS};
ghost use Rattle.memory_plan.specs.Plans.{has_code, words_of};
ghost use Rattle.memory_plan.specs.PlanRules.{meets_code};
ghost use Rattle.memory_plan.specs.SortedSpans.{begins_by};

use crate::plan::size;
use std::alloc::{AllocError, Global};
use std::marker::Model;
use viper_word::Addr;

/// Spans of code, each of which has an address, and no two the same one. Contracts see them as a list
/// of first and last addresses, in the order in which they came.
#[derive(Debug, Drop)]
pub struct CodeSpans {
    listed: Vec<(Addr, Addr)>,
    sorted: Vec<(Addr, Addr)>,
    words: u32,
}

impl Model for CodeSpans {
    ghost use Rattle.std.specs.Prelude.{◌≡◌, ◌≤◌, List, ℕ};
    ghost use Rattle.memory_plan.specs.declared.plan.TheConstants.{CODE_WORDS};
    ghost use Rattle.memory_plan.specs.Plans.{words_of};
    ghost use Rattle.memory_plan.specs.SortedSpans.{AreSorted};

    ghost Value = { List (ℕ × ℕ) };

    ghost view = { λ c. c.listed.items };

    ghost invariant = { λ c. AreSorted c.listed.items c.sorted.items
        × (c.words ≡ words_of c.listed.items) × (c.words ≤ CODE_WORDS) };
}

/// How many of the spans end below the address. They stand in front.
fn below(sorted: &[(Addr, Addr)], at: Addr) -> usize
    requires { IsNonDecreasingBy (λ s. s.1) sorted.now }
    ensures place { IsPartitionPoint (λ s. nat_lt s.1 at ≡ true)
        (λ s. nat_lt s.1 at ≡ false) sorted.now result }
    ensures at_most { result ≤ length sorted.now }
{
    sorted.partition_point(|span| span.1 < at)
}

/// Does the span begin at an address up to `hi`?
fn begins_by(hi: Addr, span: Option<(Addr, Addr)>) -> bool
    ensures { result ≡ begins_by hi span }
{
    match span {
        None => false,
        Some(span) => span.0 <= hi,
    }
}

impl CodeSpans {
    /// No spans.
    pub(crate) fn new(alloc: Global) -> CodeSpans
        ensures { result ≡ [] }
    {
        CodeSpans {
            listed: Vec::new(alloc),
            sorted: Vec::new(alloc),
            words: 0,
        }
    }

    /// The spans in the order in which they came.
    pub(crate) fn listed(&self) -> &[(Addr, Addr)]
        ensures { result.now ≡ self.now }
    {
        self.listed.as_slice()
    }

    /// How many words they have.
    pub(crate) fn words(&self) -> u32
        ensures words { result ≡ words_of self.now }
        ensures most { result ≤ CODE_WORDS }
    {
        self.words
    }

    /// Has one of them an address from `lo` to `hi`? Looked for by halves.
    pub(crate) fn meet(&self, lo: Addr, hi: Addr) -> bool
        ensures { result ≡ meets_code self.now lo hi }
    {
        let place = below(self.sorted.as_slice(), lo);
        begins_by(hi, self.sorted.get(place).copied())
    }

    /// Has one of them the address?
    pub(crate) fn have(&self, at: Addr) -> bool
        ensures { result ≡ has_code self.now at }
    {
        self.meet(at, at)
    }

    /// Adds a span that has an address, and none of theirs.
    pub(crate) fn push(&mut self, lo: Addr, hi: Addr) -> Result<(), AllocError>
        requires some { lo ≤ hi }
        requires apart { meets_code self.old lo hi ≡ false }
        requires few { words_of self.old + (hi + 1 - lo) ≤ CODE_WORDS }
        ensures { IfOk result (λ _. self.new ≡ self.old ++ (lo, hi) ∷ []) }
    {
        let place = below(self.sorted.as_slice(), lo);
        self.listed.push((lo, hi))?;
        if self.sorted.insert(place, (lo, hi)).is_err() {
            self.listed.pop();
            return Err(AllocError);
        }
        self.words += size(lo, hi);
        Ok(())
    }
}
