ghost use Rattle.std.specs.Prelude.{◌≡◌, ℕ, length, IfOk, IfNone, slice_index};
ghost use Rattle.viper_word.specs.Machine.{IsState, wants};
ghost use Rattle.viper_next.specs.Fresh.{IsFresh, HasRegisters};
ghost use Rattle.viper_next.specs.Profiled.{stored};
ghost use Rattle.viper_next.specs.Answers.{IgnoresAnswer};

mod step;

use crate::instruction::is_skipped;
use std::alloc::{AllocError, Global};
use std::marker::Model;
use viper_decode::{is_input, legal};
use viper_word::{Addr, Memory, Profile, Word};

/// How many words the memory has.
const MEMORY_WORDS: usize = Addr::LAST as usize + 1;

/// A machine: its profile, its registers, and 2^20 words of memory. Contracts see it as the record
/// `Profiled` of `specs/Profiled`: the profile with the state.
#[derive(Drop)]
pub struct Machine {
    profile: Profile,
    a: Word,
    x: Word,
    y: Word,
    p: Addr,
    b: bool,
    stop: bool,
    memory: Vec<u32>,
}

impl Model for Machine {
    ghost use Rattle.viper_word.specs.Machine.{IsState};
    ghost use Rattle.viper_next.specs.Profiled.{Profiled};

    ghost Value = { Profiled };

    ghost view = { λ m. record {
      profile = m.profile;
      state = record {
        a = m.a.0;
        x = m.x.0;
        y = m.y.0;
        p = m.p;
        b = m.b;
        stop = m.stop;
        memory = m.memory.items;
      };
    } };

    ghost invariant = { λ m. IsState (record {
      a = m.a.0;
      x = m.x.0;
      y = m.y.0;
      p = m.p;
      b = m.b;
      stop = m.stop;
      memory = m.memory.items;
    }) };
}

/// So many words, each zero.
fn zero_words(alloc: Global, count: usize) -> Result<Vec<u32>, AllocError>
    ensures count { IfOk result (λ v. length v.items ≡ count) }
    ensures zero { IfOk result (λ v. (at : ℕ) → slice_index v.items at ≡ 0) }
{
    vec![in alloc; 0; count]
}

impl Machine {
    /// A machine of the profile with these registers and stop clear, whose memory is zero. `Memory`
    /// where an allocation found none.
    pub fn new(
        alloc: Global,
        profile: Profile,
        p: Addr,
        a: Word,
        x: Word,
        y: Word,
        b: bool,
    ) -> Result<Machine, Memory>
        ensures profile { IfOk result (λ m. m.profile ≡ profile) }
        ensures registers { IfOk result (λ m. HasRegisters m.state p a.0 x.0 y.0 b) }
        ensures fresh { IfOk result (λ m. IsFresh m.state) }
    {
        let memory = zero_words(alloc, MEMORY_WORDS)?;
        Ok(Machine {
            profile,
            a,
            x,
            y,
            p,
            b,
            stop: false,
            memory,
        })
    }

    /// Sets the word of memory at an address.
    pub fn load(&mut self, at: Addr, word: Word)
        ensures state { self.new.state ≡ stored self.old.state at word.0 }
        ensures profile { self.new.profile ≡ self.old.profile }
        ensures words { IsState self.new.state }
    {
        self.memory[at.get() as usize] = word.0;
    }

    /// The word of memory at an address.
    pub fn word_at(&self, at: Addr) -> Word
        ensures { result.0 ≡ slice_index self.now.state.memory at }
    {
        Word(self.memory[at.get() as usize])
    }

    /// The profile, which no call changes.
    pub fn profile(&self) -> Profile
        ensures { result ≡ self.now.profile }
    {
        self.profile
    }

    /// The register A.
    pub fn a(&self) -> Word
        ensures { result.0 ≡ self.now.state.a }
    {
        self.a
    }

    /// The register X.
    pub fn x(&self) -> Word
        ensures { result.0 ≡ self.now.state.x }
    {
        self.x
    }

    /// The register Y.
    pub fn y(&self) -> Word
        ensures { result.0 ≡ self.now.state.y }
    {
        self.y
    }

    /// The program counter: the address of the next instruction.
    pub fn p(&self) -> Addr
        ensures { result ≡ self.now.state.p }
    {
        self.p
    }

    /// The bit B.
    pub fn b(&self) -> bool
        ensures { result ≡ self.now.state.b }
    {
        self.b
    }

    /// Is stop set?
    pub fn stopped(&self) -> bool
        ensures stop { result ≡ self.now.state.stop }
        ensures state { IsState self.now.state }
    {
        self.stop
    }

    /// The peripheral address that the next step reads. None exactly where it reads none.
    #[tactic(auto, using(crate::proofs::AnswerLemmas::answer_ignored), unfolding(viper_word::specs::Machine::wants, viper_word::specs::Machine::is_performed))]
    pub fn wants(&self) -> Option<Addr>
        ensures address { result ≡ wants self.now.state }
        ensures unread { IfNone result (IgnoresAnswer self.now.profile self.now.state) }
    {
        if self.stop || self.p.get() == Addr::LAST {
            return None;
        }
        let i = self.current();
        if !legal(i) || is_skipped(i, self.b) || !is_input(i) {
            return None;
        }
        Addr::new(self.address(i))
    }
}
