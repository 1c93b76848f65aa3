//! Why a solution has no ranks.
use flag_relation::Var;
use flow_recover::Key;
use std::alloc::{AllocError, AllocFailed};
use viper_word::Memory;

/// An edge of a solution's graph: the key of an outcome, and the key that it leads to.
#[derive(Clone, Copy, Debug, PartialEq, Eq)]
pub struct Edge {
    pub from: Key,
    pub to: Key,
}

/// A level of a nest: that of a component, or that of a whole graph (docs/METHOD.md, "Numbers of a
/// nest").
#[derive(Drop)]
pub struct Level {
    /// The numbers of its keys, in ascending order.
    pub keys: Vec<u32>,
    /// The variable that goes down or up. None where the level is that of a graph.
    pub var: Option<Var>,
    /// Does it go down? False for a graph.
    pub down: bool,
    /// The least value of the variable over the keys' facts, or, where it goes up, the greatest. 0
    /// for a graph.
    pub low: i64,
    /// What the variable weighs: the total of the graph within. 0 for a graph.
    pub weight: i128,
    /// The greatest value of the keys' forms, entered as 0 where a form is large; the total of a
    /// graph.
    pub greatest: i128,
}

/// The levels of a nest, inner ones before the outer one, up to the first that is large.
#[derive(Drop)]
pub struct Nest {
    pub levels: Vec<Level>,
}

/// Why a solution has no ranks (docs/METHOD.md, "What a refusal says").
#[derive(Drop)]
pub enum RankFault {
    /// No variable ranks these edges, which are the first stuck component.
    Unranked(Vec<Edge>),

    /// A number passes its limit: the nest up to it.
    Large(Nest),

    /// Want of memory.
    Memory,
}

impl From<AllocError> for RankFault {
    ghost use Rattle.std.specs.Prelude.{◌≡◌};
    ghost use Rattle.rank_nest.specs.declared.fault.RankFault.TheVariants as faults;

    ghost from_gives = { λ _ e. e ≡ faults.Memory };

    fn from(_e: AllocError) -> RankFault {
        RankFault::Memory
    }
}

impl<T: Drop> From<AllocFailed<T>> for RankFault {
    ghost use Rattle.std.specs.Prelude.{◌≡◌};
    ghost use Rattle.rank_nest.specs.declared.fault.RankFault.TheVariants as faults;

    ghost from_gives = { λ _ e. e ≡ faults.Memory };

    fn from(_e: AllocFailed<T>) -> RankFault {
        RankFault::Memory
    }
}

impl From<Memory> for RankFault {
    ghost use Rattle.std.specs.Prelude.{◌≡◌};
    ghost use Rattle.rank_nest.specs.declared.fault.RankFault.TheVariants as faults;

    ghost from_gives = { λ _ e. e ≡ faults.Memory };

    fn from(_e: Memory) -> RankFault {
        RankFault::Memory
    }
}
