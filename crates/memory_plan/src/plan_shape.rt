//! Reading a line of a plan.

ghost use Rattle.std.specs.Prelude.{◌≡◌};
ghost use Rattle.text_lines.specs.Parts.{tokens_of};
ghost use Rattle.memory_plan.specs.Numbers.{range_of};
ghost use Rattle.memory_plan.specs.PlanShapes.{profile_of, profile_shape, code_shape, span_shape, marker_shape, flag_of, start_shape, threshold_shape, cost_shape, shape_by, shape_of, start_of, is_cost, value_of};

use crate::cost::{Costed, MOST_COST};
use crate::hex_digits::address_of;
use crate::plan_line::{PlanLine, Space, WrittenLine};
use crate::range_text::{RangeText, is, number, range_of, range_text};
use crate::start::Start;
use text_lines::{SPACE, cut, five_parts, one_part, three_parts, two_parts};
use viper_word::{Addr, Profile, is_signed};

/// The profile of a number.
fn profile_of(text: &[u8]) -> Option<Profile>
    ensures { result ≡ profile_of text.now }
{
    if is(text, b"1") {
        Some(Profile::One)
    } else if is(text, b"2") {
        Some(Profile::Two)
    } else {
        None
    }
}

#[tactic(auto, unfolding(crate::specs::PlanShapes::profile_shape))]
fn profile_shape(tokens: &[u8]) -> Option<WrittenLine>
    ensures { result ≡ profile_shape (tokens_of tokens.now) }
{
    let token = one_part(SPACE, tokens)?;
    let _number = number(token)?;
    Some(WrittenLine::Profile(profile_of(token)))
}

#[tactic(auto, unfolding(crate::specs::PlanShapes::code_shape))]
fn code_shape(tokens: &[u8]) -> Option<WrittenLine>
    ensures { result ≡ code_shape (tokens_of tokens.now) }
{
    let (first, last) = two_parts(SPACE, tokens)?;
    let lo = address_of(first)?;
    let hi = address_of(last)?;
    Some(WrittenLine::Code(lo, hi))
}

#[tactic(auto, unfolding(crate::specs::PlanShapes::span_shape))]
fn span_shape(space: Space, tokens: &[u8]) -> Option<WrittenLine>
    ensures { result ≡ span_shape space (tokens_of tokens.now) }
{
    let (first, last, range) = three_parts(SPACE, tokens)?;
    let lo = address_of(first)?;
    let hi = address_of(last)?;
    let range = range_text(range)?;
    Some(WrittenLine::Region(space, lo, hi, range))
}

#[tactic(auto, unfolding(crate::specs::PlanShapes::marker_shape))]
fn marker_shape(tokens: &[u8]) -> Option<WrittenLine>
    ensures { result ≡ marker_shape (tokens_of tokens.now) }
{
    let token = one_part(SPACE, tokens)?;
    let at = address_of(token)?;
    Some(WrittenLine::Marker(at))
}

/// B of a start: `0`, `1` or `any`.
#[tactic(auto, unfolding(crate::specs::PlanShapes::flag_of))]
fn flag_of(text: &[u8]) -> Option<Option<bool>>
    ensures { result ≡ flag_of text.now }
{
    if is(text, b"0") {
        Some(Some(false))
    } else if is(text, b"1") {
        Some(Some(true))
    } else if is(text, b"any") {
        Some(None)
    } else {
        None
    }
}

#[tactic(auto, unfolding(crate::specs::PlanShapes::start_shape))]
fn start_shape(tokens: &[u8]) -> Option<WrittenLine>
    ensures { result ≡ start_shape (tokens_of tokens.now) }
{
    let (place, first, second, third, flag) = five_parts(SPACE, tokens)?;
    let at = address_of(place)?;
    let a = range_text(first)?;
    let x = range_text(second)?;
    let y = range_text(third)?;
    let b = flag_of(flag)?;
    Some(WrittenLine::Start(at, a, x, y, b))
}

#[tactic(auto, unfolding(crate::specs::PlanShapes::threshold_shape))]
fn threshold_shape(tokens: &[u8]) -> Option<WrittenLine>
    ensures { result ≡ threshold_shape (tokens_of tokens.now) }
{
    let token = one_part(SPACE, tokens)?;
    let n = number(token)?;
    Some(WrittenLine::Threshold(n))
}

#[tactic(auto, unfolding(crate::specs::PlanShapes::cost_shape))]
fn cost_shape(tokens: &[u8]) -> Option<WrittenLine>
    ensures { result ≡ cost_shape (tokens_of tokens.now) }
{
    let (name, cost) = two_parts(SPACE, tokens)?;
    let kind = Costed::named(name)?;
    let n = number(cost)?;
    Some(WrittenLine::Cost(kind, n))
}

/// The shape that a line's first token tells, of the tokens behind it.
fn shape_by(kind: &[u8], tokens: &[u8]) -> Option<WrittenLine>
    ensures { result ≡ shape_by kind.now (tokens_of tokens.now) }
{
    if is(kind, b"profile") {
        profile_shape(tokens)
    } else if is(kind, b"code") {
        code_shape(tokens)
    } else if is(kind, b"data") {
        span_shape(Space::Data, tokens)
    } else if is(kind, b"input") {
        span_shape(Space::Input, tokens)
    } else if is(kind, b"output") {
        span_shape(Space::Output, tokens)
    } else if is(kind, b"marker") {
        marker_shape(tokens)
    } else if is(kind, b"start") {
        start_shape(tokens)
    } else if is(kind, b"threshold") {
        threshold_shape(tokens)
    } else if is(kind, b"cost") {
        cost_shape(tokens)
    } else {
        None
    }
}

/// The shape of a line. None exactly where it has none of the nine.
pub fn shape_of(line: &[u8]) -> Option<WrittenLine>
    ensures { result ≡ shape_of (tokens_of line.now) }
{
    let (kind, tokens) = cut(SPACE, line)?;
    shape_by(kind, tokens)
}

/// The start of ranges as they are written. None exactly where one of them is none.
fn start_of(
    at: Addr,
    b: Option<bool>,
    a_text: RangeText,
    x_text: RangeText,
    y_text: RangeText,
) -> Option<PlanLine>
    ensures { result ≡ start_of at b (range_of a_text) (range_of x_text) (range_of y_text) }
{
    let a = range_of(a_text)?;
    let x = range_of(x_text)?;
    let y = range_of(y_text)?;
    Some(PlanLine::Start(Start { at, a, x, y, b }))
}

/// Is the number a cost?
fn is_cost(n: i64) -> bool
    ensures { result ≡ is_cost n }
{
    1 <= n && n <= i64::from(MOST_COST)
}

/// The line of a cost. None exactly where the number isn't one.
fn cost_line(kind: Costed, n: i64) -> Option<PlanLine>
    ensures { result ≡ value_of (WrittenLine.Cost kind n) }
{
    if is_cost(n) {
        Some(PlanLine::Cost(kind, n as u32))
    } else {
        None
    }
}

/// What a line declares. None exactly where a number is wrong.
pub fn value_of(line: WrittenLine) -> Option<PlanLine>
    ensures { result ≡ value_of line }
{
    match line {
        WrittenLine::Profile(profile) => Some(PlanLine::Profile(profile?)),
        WrittenLine::Code(lo, hi) => Some(PlanLine::Code(lo, hi)),
        WrittenLine::Region(space, lo, hi, text) => {
            let range = range_of(text)?;
            Some(PlanLine::Region(space, lo, hi, range))
        }
        WrittenLine::Marker(at) => Some(PlanLine::Marker(at)),
        WrittenLine::Start(at, a, x, y, b) => start_of(at, b, a, x, y),
        WrittenLine::Threshold(n) => {
            if is_signed(n) {
                Some(PlanLine::Threshold(n))
            } else {
                None
            }
        }
        WrittenLine::Cost(kind, n) => cost_line(kind, n),
    }
}
