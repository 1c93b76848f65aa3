//! One step of the machine. The numbers of rules are those of docs/MACHINE.md, "One step".

ghost use Rattle.std.specs.Prelude.{◌≡◌, ◌<◌, ◌^◌, ◌-◌, not, ◌&&◌, true, false};
ghost use Rattle.std.specs.Prelude.{IfOk, IfErr, OnOk, OnErr};
ghost use Rattle.viper_word.specs.Fields.{is_illegal, is_function, is_shift, has_address, is_jump};
ghost use Rattle.viper_word.specs.Machine.{IsState, current, register, address, is_lawful, operand};
ghost use Rattle.viper_word.specs.Machine.{written, finished, next};
ghost use Rattle.viper_decode.specs.Instructions.{HasWork};
ghost use Rattle.viper_next.specs.Effects.{effect_at, effect_of, outcome_of};
ghost use Rattle.viper_next.specs.Profiled.{step_on, executed_on, performed_on};

use super::Machine;
use crate::computing::{Computed, apply, compared, shift};
use crate::effect::Effect;
use crate::instruction::is_skipped;
use viper_decode::{
    Fields, Instruction, Work, decode, destination, function, has_address, instruction, is_input,
    is_jump, legal, mode, register,
};
use viper_word::{Addr, Cause, Word};

impl Machine {
    /// The numbers of the word at P.
    pub(super) fn current(&self) -> Fields
        ensures { result ≡ current self.now.state }
    {
        decode(self.word_at(self.p))
    }

    /// The value of a register: A, X, Y, or the address after P.
    fn register(&self, r: u8) -> Word
        ensures { result.0 ≡ register self.now.state r }
    {
        match r {
            register::A => self.a,
            register::X => self.x,
            register::Y => self.y,
            _ => Word(self.p.get() + 1),
        }
    }

    /// The effective address of an instruction: the field, or the field plus X or Y modulo 2^32.
    pub(super) fn address(&self, i: Fields) -> u32
        ensures { result ≡ address i self.now.state }
    {
        match i.m {
            mode::AT_FIELD_PLUS_X => i.field.get().wrapping_add(self.x.0),
            mode::AT_FIELD_PLUS_Y => i.field.get().wrapping_add(self.y.0),
            _ => i.field.get(),
        }
    }

    /// The operand: the literal, the peripheral's answer, or the word of memory at the address. A
    /// shift has none, and nothing is fetched for it.
    fn operand(&self, i: Fields, answer: Word) -> Word
        requires { (has_address i && not (is_lawful (address i self.now.state))) ≡ false }
        ensures { is_shift i ≡ false → result.0 ≡ operand i self.now.state answer.0 }
    {
        if !has_address(i) {
            Word(i.field.get())
        } else if is_input(i) {
            answer
        } else {
            Word(self.memory[self.address(i) as usize])
        }
    }

    /// What the work of a legal instruction comes to. None exactly where its operation stops.
    #[tactic(auto, using(crate::proofs::FunctionLemmas::applied_is, crate::proofs::FunctionLemmas::shifted_is))]
    fn outcome(&self, i: Fields, work: Work, answer: Word) -> Option<Computed>
        requires function { is_function i ≡ true }
        requires work { HasWork i work }
        requires lawful { (has_address i && not (is_lawful (address i self.now.state))) ≡ false }
        ensures { result ≡ outcome_of self.now.profile i self.now.state answer.0 }
    {
        let r = self.register(i.r);
        match work {
            Work::Apply(function, ..) => {
                apply(self.profile, function, r, self.operand(i, answer), self.b)
            }
            Work::Move(kind, _) => shift(self.profile, kind, r, self.b),
        }
    }

    /// Runs one instruction, with the peripheral's answer, which is looked at only where `wants` gave
    /// an address. A stopped machine is quiet and stays as it is.
    #[tactic(auto, using(crate::proofs::EffectLemmas::effect_known), unfolding(viper_word::specs::Machine::next, crate::specs::Effects::effect_of, crate::specs::Effects::effect_of_step))]
    pub fn step(&mut self, answer: Word) -> Effect
        ensures profile { self.new.profile ≡ self.old.profile }
        ensures next { self.new.state ≡ next self.old.profile self.old.state answer.0 }
        ensures effect { result ≡ effect_of self.old.profile self.old.state answer.0 }
        ensures state { IsState self.new.state }
    {
        if self.stop {
            return Effect::Quiet;
        }
        match self.advance(answer) {
            Ok(effect) => effect,
            Err(cause) => {
                self.stop = true;
                self.p = self.p.next();
                Effect::Stopped(cause)
            }
        }
    }

    /// One instruction of a machine that isn't stopped, by rule 1 and those that follow, or why it
    /// stops: then nothing has changed.
    #[tactic(auto, unfolding(viper_word::specs::Machine::step))]
    fn advance(&mut self, answer: Word) -> Result<Effect, Cause>
        ensures profile { self.new.profile ≡ self.old.profile }
        ensures done { OnOk result (step_on self.old answer.0 ≡ Ok self.new.state) }
        ensures effect { IfOk result (λ e. e ≡ effect_at (current self.old.state) self.old.state) }
        ensures stops { IfErr result (λ cause. step_on self.old answer.0 ≡ Err cause) }
        ensures kept { OnErr result (self.new ≡ self.old) }
    {
        // 1. P is the last address
        if self.p.get() == Addr::LAST {
            return Err(Cause::End);
        }
        self.execute(self.current(), answer)
    }

    /// Performs the instruction, unless it is illegal, is skipped, or has an unlawful address: rules 2
    /// to 4.
    #[tactic(auto, unfolding(viper_word::specs::Machine::executed, crate::specs::Effects::effect_at))]
    fn execute(&mut self, i: Fields, answer: Word) -> Result<Effect, Cause>
        requires goes_on { self.old.state.p < 2 ^ 20 - 1 }
        ensures profile { self.new.profile ≡ self.old.profile }
        ensures done { OnOk result (executed_on self.old i answer.0 ≡ Ok self.new.state) }
        ensures effect { IfOk result (λ e. e ≡ effect_at i self.old.state) }
        ensures stops { IfErr result (λ cause. executed_on self.old i answer.0 ≡ Err cause) }
        ensures kept { OnErr result (self.new ≡ self.old) }
    {
        // 2. the word is illegal
        if !legal(i) {
            return Err(Cause::Illegal);
        }
        // 3. B forbids the jump: P goes on, and nothing else changes
        if is_skipped(i, self.b) {
            self.p = self.p.next();
            return Ok(Effect::Quiet);
        }
        // 4. the address isn't lawful
        if has_address(i) && Addr::new(self.address(i)).is_none() {
            return Err(Cause::Address);
        }
        self.perform(i, answer)
    }

    /// Performs an instruction that is legal, isn't skipped, and has no unlawful address: rules 5 to 7
    /// for a function, and rule 7 for a comparison, an output and a store.
    #[tactic(auto, unfolding(viper_word::specs::Machine::performed, viper_word::specs::Machine::compared, crate::specs::Effects::effect_at))]
    fn perform(&mut self, i: Fields, answer: Word) -> Result<Effect, Cause>
        requires goes_on { self.old.state.p < 2 ^ 20 - 1 }
        requires legal { is_illegal i ≡ false }
        requires lawful { (has_address i && not (is_lawful (address i self.old.state))) ≡ false }
        ensures profile { self.new.profile ≡ self.old.profile }
        ensures done { OnOk result (performed_on self.old i answer.0 ≡ Ok self.new.state) }
        ensures effect { IfOk result (λ e. e ≡ effect_at i self.old.state) }
        ensures stops { IfErr result (λ cause. performed_on self.old i answer.0 ≡ Err cause) }
        ensures kept { OnErr result (self.new ≡ self.old) }
    {
        match instruction(i) {
            Instruction::Compare(joins, kind, ..) => {
                let (r, m) = (self.register(i.r), self.operand(i, answer));
                self.b = compared(joins, kind, r, m, self.b);
                self.p = self.p.next();
                Ok(Effect::Quiet)
            }
            Instruction::Assign(_, work) | Instruction::Jump(_, work) => {
                self.finish(i, self.outcome(i, work, answer))?;
                Ok(Effect::Quiet)
            }
            Instruction::Output(..) => {
                let (at, word) = self.given(i);
                self.p = self.p.next();
                Ok(Effect::Out(at, word))
            }
            Instruction::Store(..) => {
                let (at, word) = self.given(i);
                self.p = self.p.next();
                self.load(at, word);
                Ok(Effect::Wrote(at, word))
            }
        }
    }

    /// The address of an output or a store, and the word that goes there.
    fn given(&self, i: Fields) -> (Addr, Word)
        requires { is_lawful (address i self.now.state) ≡ true }
        ensures at { result.0 ≡ address i self.now.state }
        ensures word { result.1.0 ≡ register self.now.state i.r }
    {
        (Addr::new(self.address(i)).unwrap(), self.register(i.r))
    }

    /// Writes what a function came to, unless its operation stops or the target of a jump isn't
    /// lawful: rules 5 to 7.
    #[tactic(auto, unfolding(viper_word::specs::Machine::finished))]
    fn finish(&mut self, i: Fields, computed: Option<Computed>) -> Result<(), Cause>
        requires goes_on { self.old.state.p < 2 ^ 20 - 1 }
        requires function { is_function i ≡ true }
        ensures profile { self.new.profile ≡ self.old.profile }
        ensures done { OnOk result (finished i self.old.state computed ≡ Ok self.new.state) }
        ensures stops { IfErr result (λ cause. finished i self.old.state computed ≡ Err cause) }
        ensures kept { OnErr result (self.new ≡ self.old) }
    {
        // 5. the operation stops
        let Some(computed) = computed else {
            return Err(Cause::Overflow);
        };
        // 6. the target of a jump isn't lawful
        if is_jump(i) && Addr::new(computed.value.0).is_none() {
            return Err(Cause::Target);
        }
        // 7. the results are written
        self.write(i, computed);
        Ok(())
    }

    /// Writes a result and B, the link of a CALL into Y, and P.
    #[tactic(auto, unfolding(viper_word::specs::Machine::written))]
    fn write(&mut self, i: Fields, computed: Computed)
        requires goes_on { self.old.state.p < 2 ^ 20 - 1 }
        requires lawful { (is_jump i && not (is_lawful computed.value)) ≡ false }
        requires function { is_function i ≡ true }
        ensures profile { self.new.profile ≡ self.old.profile }
        ensures written { self.new.state ≡ written i self.old.state computed }
    {
        let after = self.p.next();
        if i.f == function::CALL {
            self.y = Word(after.get());
        }
        self.b = computed.b;
        self.p = after;
        match i.d {
            destination::A => self.a = computed.value,
            destination::X => self.x = computed.value,
            destination::Y => self.y = computed.value,
            _ => self.p = Addr::new(computed.value.0).unwrap(),
        }
    }
}
