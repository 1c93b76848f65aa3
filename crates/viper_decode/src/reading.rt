//! The instruction that the six numbers of a word are. `instruction` is exact for legal words; the
//! functions below it take each number alone.

ghost use Rattle.std.specs.Prelude.{◌≡◌, ◌<◌, true, false};
ghost use Rattle.viper_word.specs.Fields.{is_illegal, is_function};
ghost use Rattle.viper_word.specs.Machine.{kind_of};
ghost use Rattle.viper_decode.specs.Instructions.{source_of, place_of, operand_of, function_of, shift_of, work_of, result_to, instruction_of, code_of, shift_code, HasWork, HasNumbers};

use crate::codes::{destination, function, mode, register, shift_kind};
use crate::fields::Fields;
use crate::instructions::{Function, Instruction, Operand, Place, Shift, Side, Source, Work};
use crate::kinds::is_input;
use viper_word::{Kind, Reg};

/// How many kinds of comparison there are. Codes from here on have them again, and join the old B.
const KINDS: u8 = 8;

/// What the word of these numbers does.
#[tactic(auto, using(crate::proofs::LegalLemmas::legal_function, crate::proofs::LegalLemmas::else_function), unfolding(crate::specs::Instructions::instruction_of))]
pub fn instruction(i: Fields) -> Instruction
    requires legal { is_illegal i ≡ false }
    ensures read { result ≡ instruction_of i }
    ensures numbers { HasNumbers i result }
{
    if i.c {
        return Instruction::Compare(
            i.f >= KINDS,
            kind_of(i.f % KINDS),
            source_of(i.r),
            operand_of(i),
        );
    }
    match i.d {
        destination::PERIPHERAL => Instruction::Output(source_of(i.r), place_of(i)),
        destination::MEMORY => Instruction::Store(source_of(i.r), place_of(i)),
        _ => result_to(i),
    }
}

/// The instruction whose result goes to a register or to P.
#[tactic(auto, unfolding(crate::specs::Instructions::result_to))]
fn result_to(i: Fields) -> Instruction
    requires function { is_function i ≡ true }
    requires known { i.f < 13 }
    ensures read { result ≡ result_to i }
    ensures numbers { HasNumbers i result }
{
    match i.d {
        destination::A => Instruction::Assign(Reg::A, work_of(i)),
        destination::X => Instruction::Assign(Reg::X, work_of(i)),
        destination::Y => Instruction::Assign(Reg::Y, work_of(i)),
        destination::P => Instruction::Jump(Side::Always, work_of(i)),
        destination::P_IF_B => Instruction::Jump(Side::IfB, work_of(i)),
        _ => Instruction::Jump(Side::IfNotB, work_of(i)),
    }
}

/// What makes the result.
#[tactic(auto, unfolding(crate::specs::Instructions::work_of))]
fn work_of(i: Fields) -> Work
    requires { i.f < 13 }
    ensures read { result ≡ work_of i }
    ensures numbers { HasWork i result }
{
    match i.f {
        function::SHIFT => Work::Move(shift_of(i.m), source_of(i.r)),
        f => Work::Apply(function_of(f), source_of(i.r), operand_of(i)),
    }
}

/// The word of R.
#[tactic(auto, unfolding(crate::specs::Instructions::source_of))]
fn source_of(r: u8) -> Source
    ensures { result ≡ source_of r }
{
    match r {
        register::A => Source::Of(Reg::A),
        register::X => Source::Of(Reg::X),
        register::Y => Source::Of(Reg::Y),
        _ => Source::AfterP,
    }
}

/// The effective address, where the mode isn't literal.
#[tactic(auto, unfolding(crate::specs::Instructions::place_of))]
fn place_of(i: Fields) -> Place
    ensures { result ≡ place_of i }
{
    match i.m {
        mode::AT_FIELD_PLUS_X => Place::Index(i.field, Reg::X),
        mode::AT_FIELD_PLUS_Y => Place::Index(i.field, Reg::Y),
        _ => Place::At(i.field),
    }
}

/// Where the operand comes from.
#[tactic(auto, unfolding(crate::specs::Instructions::operand_of))]
fn operand_of(i: Fields) -> Operand
    ensures { result ≡ operand_of i }
{
    if i.m == mode::LITERAL {
        Operand::Literal(i.field)
    } else if is_input(i) {
        Operand::Peripheral(place_of(i))
    } else {
        Operand::Memory(place_of(i))
    }
}

/// The function of a code below that of SHIFT.
#[tactic(auto, unfolding(crate::specs::Instructions::function_of))]
fn function_of(f: u8) -> Function
    requires { f < 12 }
    ensures read { result ≡ function_of f }
    ensures code { f ≡ code_of result }
{
    match f {
        function::NEG => Function::Neg,
        function::CALL => Function::Call,
        function::INP => Function::Inp,
        function::READ => Function::Read,
        function::ADDB => Function::Addb,
        function::ADDS => Function::Adds,
        function::SUBB => Function::Subb,
        function::SUBS => Function::Subs,
        function::XOR => Function::Xor,
        function::AND => Function::And,
        function::NOR => Function::Nor,
        _ => Function::Andn,
    }
}

/// The kind of a SHIFT, which its mode gives.
#[tactic(auto, unfolding(crate::specs::Instructions::shift_of))]
fn shift_of(m: u8) -> Shift
    requires { m < 4 }
    ensures read { result ≡ shift_of m }
    ensures code { m ≡ shift_code result }
{
    match m {
        shift_kind::RIGHT => Shift::Right,
        shift_kind::RIGHT_THROUGH_B => Shift::RightThroughB,
        shift_kind::LEFT => Shift::Left,
        _ => Shift::LeftThroughB,
    }
}

/// The comparison of a code below 8: the rows are those of docs/MACHINE.md, "Comparisons".
#[tactic(auto, unfolding(viper_word::specs::Machine::kind_of))]
fn kind_of(code: u8) -> Kind
    ensures { result ≡ kind_of code }
{
    match code {
        0 => Kind::Lt,
        1 => Kind::Ge,
        2 => Kind::Eq,
        3 => Kind::Ne,
        4 => Kind::Le,
        5 => Kind::Gt,
        6 => Kind::Ult,
        _ => Kind::Uge,
    }
}
