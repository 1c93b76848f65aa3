//! How many loops a sample has.

ghost use Rattle.std.specs.Prelude.{◌≡◌, ◌≤◌, nat_le, ◌&&◌, if◌then◌else◌, Some, None};

use std::marker::Model;

/// How many loops a sample has at the most.
pub const MOST_LOOPS: u64 = 1_000;

/// How many loops a sample has, from 1 to 1,000. Contracts see it as that number.
#[derive(Clone, Copy, Debug, PartialEq, Eq)]
pub struct Loops {
    number: u64,
}

impl Model for Loops {
    ghost use Rattle.std.specs.Prelude.{ℕ, ◌≤◌};
    ghost use Rattle.sample_program.specs.declared.loops.TheConstants.{MOST_LOOPS};

    ghost Value = { ℕ };

    ghost view = { λ l. l.number };

    ghost invariant = { λ l. (1 ≤ l.number) × (l.number ≤ MOST_LOOPS) };

    ghost inverse = { λ n. record { number = n } };
}

impl Loops {
    ghost use Rattle.sample_program.specs.declared.loops.TheConstants.{MOST_LOOPS};

    /// So many loops. None exactly where the number isn't from 1 to 1,000.
    pub fn new(number: u64) -> Option<Loops>
        ensures { result ≡
            (if nat_le 1 number && nat_le number MOST_LOOPS then Some number else None) }
    {
        if 1 <= number && number <= MOST_LOOPS {
            Some(Loops { number })
        } else {
            None
        }
    }

    /// Their number, from 1 to 1,000.
    pub fn get(&self) -> u64
        ensures number { result ≡ self.now }
        ensures some { 1 ≤ result }
        ensures few { result ≤ MOST_LOOPS }
    {
        self.number
    }
}
