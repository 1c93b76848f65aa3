//! The result of an instruction over a fact: the rows are those of docs/METHOD.md, "Outcomes".

ghost use Rattle.std.specs.Prelude.{◌≡◌, ◌+◌, pos};
ghost use Rattle.flag_relation.specs.Facts.{values};
ghost use Rattle.abs_step.specs.Results.{known_bit, is_call, source_value, apply, move, result_value};

use crate::operands::operand_value;
use flag_relation::{Fact, Flag};
use memory_plan::Plan;
use num_domain::NumDomain;
use viper_decode::{Function, Shift, Source, Work};
use viper_word::Addr;

/// Does the work leave a link in Y?
pub(crate) fn is_call(work: &Work) -> bool
    ensures { result ≡ is_call work.now }
{
    matches!(work, Work::Apply(Function::Call, _, _))
}

/// What is known of B.
fn known_bit(flag: Flag) -> Option<bool>
    ensures { result ≡ known_bit flag }
{
    match flag {
        Flag::Any => None,
        Flag::One => Some(true),
        Flag::Or(atoms) => {
            if atoms.items().is_empty() {
                Some(false)
            } else {
                None
            }
        }
    }
}

/// The number of the address after this one, as a value.
pub(crate) fn after<D: NumDomain>(at: Addr) -> D
    ensures { result ≡ D.domain.constant (pos (at + 1)) }
{
    D::constant(i64::from(at.get() + 1))
}

/// The value of the word that an instruction at the address works on.
#[tactic(auto, unfolding(crate::specs::Results::source_value))]
pub(crate) fn source_value<D: NumDomain>(at: Addr, fact: &Fact<D>, source: Source) -> D
    ensures { result ≡ source_value D.domain at (values fact.now) source }
{
    match source {
        Source::Of(r) => fact.reg(r),
        Source::AfterP => after(at),
    }
}

/// The result of a function on the value of the word and that of the operand.
#[tactic(auto, unfolding(crate::specs::Results::apply))]
fn apply<D: NumDomain>(function: Function, r: &D, m: &D) -> Option<D>
    ensures { result ≡ apply D.domain function r.now m.now }
{
    macro_rules! functions {
        ($($name:ident => $result:expr,)*) => {
            match function {
                $(Function::$name => $result,)*
            }
        };
    }
    functions! {
        Neg => m.neg(),
        Call => Some(*m),
        Inp => Some(*m),
        Read => Some(*m),
        Addb => r.add_wrap(m),
        Adds => r.add(m),
        Subb => r.sub_wrap(m),
        Subs => r.sub(m),
        Xor => r.xor(m),
        And => r.bit_and(m),
        Nor => r.nor(m),
        Andn => r.and_not(m),
    }
}

/// The result of a shift, where B is as it is known.
fn shifted<D: NumDomain>(shift: Shift, r: &D, b: Option<bool>) -> Option<D>
    ensures { result ≡ move D.domain shift r.now b }
{
    match shift {
        Shift::Right => r.sar(),
        Shift::RightThroughB => r.right_through(b),
        Shift::Left => r.shl(),
        Shift::LeftThroughB => r.left_through(b),
    }
}

/// The result of work over a fact. None exactly where there is no operand, or no word has a result.
/// docs/METHOD.md, "Outcomes".
#[tactic(auto, unfolding(crate::specs::Results::result_value))]
pub(crate) fn result_value<D: NumDomain>(
    plan: &Plan,
    cells: &[Addr],
    at: Addr,
    fact: &Fact<D>,
    work: &Work,
) -> Option<D>
    ensures { result ≡
        result_value D.domain plan.now cells.now at (values fact.now) fact.now.flag work.now }
{
    match work {
        Work::Apply(function, source, operand) => {
            let m = operand_value(plan, cells, fact, operand)?;
            apply(*function, &source_value(at, fact, *source), &m)
        }
        Work::Move(shift, source) => {
            shifted(
                *shift,
                &source_value(at, fact, *source),
                known_bit(fact.flag()),
            )
        }
    }
}
