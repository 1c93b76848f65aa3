//! The local conditions of one instruction over a fact: docs/METHOD.md, "Conditions".

ghost use Rattle.std.specs.Prelude.{◌≡◌, ◌<◌, ◌≤◌, ◌-◌, ◌^◌, ◌&&◌, nat_le, not, length};
ghost use Rattle.flag_relation.specs.Facts.{values};
ghost use Rattle.num_domain.specs.Ends.{ends};
ghost use Rattle.memory_plan.specs.Plans.{in_code};
ghost use Rattle.abs_step.specs.Addresses.{any_from, passing};
ghost use Rattle.abs_step.specs.Results.{operand_value, source_value};
ghost use Rattle.abs_step.specs.Conditions.{function_exact, move_exact, ends_of, sums_within, less_within, twice_within, above_least, operand_lawful, work_lawful, work_exact, c3, c4, c5, c6, c7, targets_lawful};
ghost use Rattle.abs_step.specs.Walks.{is_point_at};
ghost use Rattle.abs_step.specs.declared.outcome.TheConstants.{MOST_TARGETS};

use crate::Cond;
use crate::addresses::{Use, each_address};
use crate::operands::operand_value;
use crate::outcome::MOST_TARGETS;
use crate::points::{COUNT, ends_lie, ends_of, next_point, sum};
use crate::results::{result_value, source_value};
use flag_relation::Fact;
use memory_plan::Plan;
use num_domain::NumDomain;
use viper_decode::{Function, Instruction, Operand, Shift, Source, Work};
use viper_word::{Addr, GREATEST_SIGNED, LEAST_SIGNED, Profile};

/// Is each address of the operand in code or data, or for INP in an input span?
#[tactic(auto, unfolding(crate::specs::Conditions::operand_lawful))]
fn is_lawful<D: NumDomain>(plan: &Plan, fact: &Fact<D>, operand: &Operand) -> bool
    ensures { result ≡ operand_lawful D.domain plan.now (values fact.now) operand.now }
{
    match operand {
        Operand::Literal(_) => true,
        Operand::Memory(place) => each_address(plan, &Use::Read, place, fact),
        Operand::Peripheral(place) => each_address(plan, &Use::Input, place, fact),
    }
}

/// The same of the operand of the work.
fn is_work_lawful<D: NumDomain>(plan: &Plan, fact: &Fact<D>, work: &Work) -> bool
    ensures { result ≡ work_lawful D.domain plan.now (values fact.now) work.now }
{
    match work {
        Work::Apply(_, _, operand) => is_lawful(plan, fact, operand),
        Work::Move(_, _) => true,
    }
}

/// C3: each address of the operand is lawful and in code or data, for INP in an input span.
#[tactic(auto, unfolding(crate::specs::Conditions::c3))]
pub(crate) fn keeps_c3<D: NumDomain>(plan: &Plan, instruction: &Instruction, fact: &Fact<D>) -> bool
    ensures { result ≡ c3 D.domain plan.now instruction.now (values fact.now) }
{
    match instruction {
        Instruction::Compare(_, _, _, operand) => is_lawful(plan, fact, operand),
        Instruction::Assign(_, work) => is_work_lawful(plan, fact, work),
        Instruction::Jump(_, work) => is_work_lawful(plan, fact, work),
        Instruction::Output(_, _) => true,
        Instruction::Store(_, _) => true,
    }
}

/// C6: a store is in data, with the value of R in the range there.
#[tactic(auto, unfolding(crate::specs::Conditions::c6))]
pub(crate) fn keeps_c6<D: NumDomain>(
    plan: &Plan,
    at: Addr,
    instruction: &Instruction,
    fact: &Fact<D>,
) -> bool
    ensures { result ≡ c6 D.domain plan.now at instruction.now (values fact.now) }
{
    match instruction {
        Instruction::Compare(_, _, _, _) => true,
        Instruction::Assign(_, _) => true,
        Instruction::Jump(_, _) => true,
        Instruction::Output(_, _) => true,
        Instruction::Store(source, place) => {
            each_address(
                plan,
                &Use::Store(source_value(at, fact, *source)),
                place,
                fact,
            )
        }
    }
}

/// C7: an output is in an output span, with the value of R in the range there.
#[tactic(auto, unfolding(crate::specs::Conditions::c7))]
pub(crate) fn keeps_c7<D: NumDomain>(
    plan: &Plan,
    at: Addr,
    instruction: &Instruction,
    fact: &Fact<D>,
) -> bool
    ensures { result ≡ c7 D.domain plan.now at instruction.now (values fact.now) }
{
    match instruction {
        Instruction::Compare(_, _, _, _) => true,
        Instruction::Assign(_, _) => true,
        Instruction::Jump(_, _) => true,
        Instruction::Output(source, place) => {
            each_address(
                plan,
                &Use::Output(source_value(at, fact, *source)),
                place,
                fact,
            )
        }
        Instruction::Store(_, _) => true,
    }
}

/// Are the sums of the ends signed words?
fn sums_lie<D: NumDomain>(r: &D, m: &D) -> bool
    ensures { result ≡ sums_within (ends D.domain r.now) (ends D.domain m.now) }
{
    match ends_of(r) {
        None => true,
        Some((lo, hi)) => {
            ends_lie(m, lo, LEAST_SIGNED, GREATEST_SIGNED)
                && ends_lie(m, hi, LEAST_SIGNED, GREATEST_SIGNED)
        }
    }
}

/// Are the differences of the ends signed words?
fn differences_lie<D: NumDomain>(r: &D, m: &D) -> bool
    ensures { result ≡ less_within (ends D.domain r.now) (ends D.domain m.now) }
{
    match ends_of(r) {
        None => true,
        Some((lo, hi)) => match ends_of(m) {
            None => true,
            Some((least, greatest)) => {
                sum(LEAST_SIGNED, greatest) <= lo && hi <= sum(GREATEST_SIGNED, least)
            }
        },
    }
}

/// Are twice the ends signed words?
fn twice_lies<D: NumDomain>(r: &D) -> bool
    ensures { result ≡ twice_within (ends D.domain r.now) }
{
    match ends_of(r) {
        None => true,
        Some((lo, hi)) => LEAST_SIGNED <= sum(lo, lo) && sum(hi, hi) <= GREATEST_SIGNED,
    }
}

/// Is the low end above the least signed word?
fn is_above_least<D: NumDomain>(m: &D) -> bool
    ensures { result ≡ above_least (ends D.domain m.now) }
{
    match ends_of(m) {
        None => true,
        Some((lo, _)) => LEAST_SIGNED < lo,
    }
}

/// Do the results of the function on the ends stay within a signed word?
#[tactic(auto, unfolding(crate::specs::Conditions::function_exact))]
fn is_exact<D: NumDomain>(profile: Profile, function: Function, r: &D, m: &D) -> bool
    ensures { result ≡
        function_exact D.domain profile function (ends D.domain r.now) (ends D.domain m.now) }
{
    match function {
        Function::Adds => sums_lie(r, m),
        Function::Subs => differences_lie(r, m),
        Function::Neg => match profile {
            Profile::One => true,
            Profile::Two => is_above_least(m),
        },
        Function::Call
        | Function::Inp
        | Function::Read
        | Function::Addb
        | Function::Subb
        | Function::Xor
        | Function::And
        | Function::Nor
        | Function::Andn => true,
    }
}

/// The same with an operand that may be missing; then nothing is asked.
fn is_exact_on<D: NumDomain>(
    profile: Profile,
    function: Function,
    r: &D,
    operand: &Option<D>,
) -> bool
    ensures { result ≡ function_exact D.domain profile function
        (ends D.domain r.now) (ends_of D.domain operand.now) }
{
    match operand {
        None => true,
        Some(m) => is_exact(profile, function, r, m),
    }
}

/// Does the result of the function stay within a signed word? The operand is made only where the
/// answer depends on it.
#[tactic(auto, unfolding(crate::specs::Conditions::function_exact))]
fn is_result_exact<D: NumDomain>(
    plan: &Plan,
    cells: &[Addr],
    at: Addr,
    fact: &Fact<D>,
    function: Function,
    source: Source,
    operand: &Operand,
) -> bool
    ensures { result ≡ function_exact D.domain plan.now.profile function
        (ends D.domain (source_value D.domain at (values fact.now) source))
        (ends_of D.domain
        (operand_value D.domain plan.now cells.now (values fact.now) operand.now)) }
{
    match function {
        Function::Adds | Function::Subs | Function::Neg => is_exact_on(
            plan.profile(),
            function,
            &source_value(at, fact, source),
            &operand_value(plan, cells, fact, operand),
        ),
        Function::Call
        | Function::Inp
        | Function::Read
        | Function::Addb
        | Function::Subb
        | Function::Xor
        | Function::And
        | Function::Nor
        | Function::Andn => true,
    }
}

/// Does the shift on the ends stay within a signed word?
#[tactic(auto, unfolding(crate::specs::Conditions::move_exact))]
fn is_move_exact<D: NumDomain>(shift: Shift, r: &D) -> bool
    ensures { result ≡ move_exact D.domain shift (ends D.domain r.now) }
{
    match shift {
        Shift::Left => twice_lies(r),
        Shift::Right | Shift::RightThroughB | Shift::LeftThroughB => true,
    }
}

/// Does the result of the work stay within a signed word?
#[tactic(auto, unfolding(crate::specs::Conditions::work_exact))]
fn is_work_exact<D: NumDomain>(
    plan: &Plan,
    cells: &[Addr],
    at: Addr,
    fact: &Fact<D>,
    work: &Work,
) -> bool
    ensures { result ≡ work_exact D.domain plan.now cells.now at (values fact.now) work.now }
{
    match work {
        Work::Apply(function, source, operand) => {
            is_result_exact(plan, cells, at, fact, *function, *source, operand)
        }
        Work::Move(shift, source) => is_move_exact(*shift, &source_value(at, fact, *source)),
    }
}

/// C4: no result passes the signed words.
#[tactic(auto, unfolding(crate::specs::Conditions::c4))]
pub(crate) fn keeps_c4<D: NumDomain>(
    plan: &Plan,
    cells: &[Addr],
    at: Addr,
    instruction: &Instruction,
    fact: &Fact<D>,
) -> bool
    ensures { result ≡ c4 D.domain plan.now cells.now at instruction.now (values fact.now) }
{
    match instruction {
        Instruction::Compare(_, _, _, _) => true,
        Instruction::Assign(_, work) => is_work_exact(plan, cells, at, fact, work),
        Instruction::Jump(_, work) => is_work_exact(plan, cells, at, fact, work),
        Instruction::Output(_, _) => true,
        Instruction::Store(_, _) => true,
    }
}

/// Has the value at most 64 points that are addresses?
fn has_few_points<D: NumDomain>(v: &D) -> bool
    ensures { result ≡
        nat_le (length (passing (is_point_at D.domain v.now) 0 (2 ^ 20))) MOST_TARGETS }
{
    let mut count = 0;
    let mut at = 0;
    while at < COUNT {
        let Some(next) = next_point(v, at) else {
            return true;
        };
        if count == MOST_TARGETS {
            return false;
        }
        count += 1;
        at = next.get() + 1;
    }
    true
}

/// Is each point that is an address in code?
fn points_are_in_code<D: NumDomain>(plan: &Plan, v: &D) -> bool
    ensures { result ≡ not (any_from
        (λ n. is_point_at D.domain v.now n && not (in_code plan.now n)) 0 (2 ^ 20)) }
{
    let mut at = 0;
    while at < COUNT {
        let Some(next) = next_point(v, at) else {
            return true;
        };
        if !plan.in_code(next) {
            return false;
        }
        at = next.get() + 1;
    }
    true
}

/// May a jump go to the points of the value?
#[tactic(auto, unfolding(crate::specs::Conditions::targets_lawful))]
fn are_targets<D: NumDomain>(plan: &Plan, target: Option<D>) -> bool
    ensures { result ≡ targets_lawful D.domain plan.now target }
{
    match target {
        None => true,
        Some(v) => {
            ends_lie(&v, 0, 0, i64::from(Addr::LAST))
                && (has_few_points(&v) && points_are_in_code(plan, &v))
        }
    }
}

/// C5: a jump has at most 64 targets, each in code.
#[tactic(auto, unfolding(crate::specs::Conditions::c5))]
pub(crate) fn keeps_c5<D: NumDomain>(
    plan: &Plan,
    cells: &[Addr],
    at: Addr,
    instruction: &Instruction,
    fact: &Fact<D>,
) -> bool
    ensures { result ≡ c5 D.domain plan.now cells.now at instruction.now fact.now }
{
    match instruction {
        Instruction::Compare(_, _, _, _) => true,
        Instruction::Assign(_, _) => true,
        Instruction::Jump(_, work) => {
            are_targets(plan, result_value(plan, cells, at, fact, work))
        }
        Instruction::Output(_, _) => true,
        Instruction::Store(_, _) => true,
    }
}
