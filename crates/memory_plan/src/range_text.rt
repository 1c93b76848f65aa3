//! Numbers and ranges as a plan writes them.

ghost use Rattle.std.specs.Prelude.{◌≡◌, ◌<◌, ◌^◌, IfSome};
ghost use Rattle.std.specs.Str.{bytes_eq};
ghost use Rattle.memory_plan.specs.Numbers.{decimal_digit, natural, number, between, range_text, range_of, unstepped_range};

use crate::range::Range;
use text_lines::{three_parts, two_parts};

/// What a negative number begins with.
const MINUS: u8 = b'-';

/// Two of these stand between the ends of a range.
const DOT: u8 = b'.';

/// It stands before the step of a range.
const SLASH: u8 = b'/';

/// A range as it is written: `any`, `N`, `L..H` or `L..H/M`.
#[derive(Clone, Copy, Debug, PartialEq, Eq)]
pub enum RangeText {
    Any,
    One(i64),
    Ends(i64, i64),
    Steps(i64, i64, i64),
}

/// The value of a decimal digit.
fn digit_value(byte: u8) -> Option<u64>
    ensures { result ≡ decimal_digit byte }
{
    match byte {
        b'0'..=b'9' => Some(u64::from(byte - b'0')),
        _ => None,
    }
}

/// How many digits a number has at the most.
const MOST_DIGITS: usize = 10;

/// The number of one to ten digits. None exactly where the text isn't that.
pub fn natural(text: &[u8]) -> Option<u64>
    ensures value { result ≡ natural text.now }
    ensures small { IfSome result (λ n. n < 10 ^ 10) }
{
    if text.is_empty() {
        return None;
    }
    if text.len() > MOST_DIGITS {
        return None;
    }
    let mut number = 0u64;
    for byte in text {
        let digit = digit_value(*byte)?;
        number = number * 10 + digit;
    }
    Some(number)
}

/// The number of an optional `-` and one to ten digits. None exactly where the text isn't that.
#[tactic(auto, unfolding(crate::specs::Numbers::number))]
pub fn number(text: &[u8]) -> Option<i64>
    ensures { result ≡ number text.now }
{
    let (first, rest) = text.split_first()?;
    if *first == MINUS {
        let size = natural(rest)?;
        Some(-(size as i64))
    } else {
        let size = natural(text)?;
        Some(size as i64)
    }
}

/// Do the texts agree?
pub fn is(text: &[u8], word: &[u8]) -> bool
    ensures { result ≡ bytes_eq text.now word.now }
{
    text == word
}

/// The ends of `L..H`.
#[tactic(auto, unfolding(crate::specs::Numbers::between))]
fn between(text: &[u8]) -> Option<(i64, i64)>
    ensures { result ≡ between text.now }
{
    let (low, gap, high) = three_parts(DOT, text)?;
    let lo = number(low)?;
    let hi = number(high)?;
    if gap.is_empty() { Some((lo, hi)) } else { None }
}

/// A range without a step.
fn unstepped_range(text: &[u8]) -> Option<RangeText>
    ensures { result ≡ unstepped_range (between text.now) text.now }
{
    if let Some((lo, hi)) = between(text) {
        return Some(RangeText::Ends(lo, hi));
    }
    let n = number(text)?;
    Some(RangeText::One(n))
}

/// A range of one of the four forms. None exactly where the text is none of them.
#[tactic(auto, unfolding(crate::specs::Numbers::range_text))]
pub fn range_text(text: &[u8]) -> Option<RangeText>
    ensures { result ≡ range_text text.now }
{
    if is(text, b"any") {
        return Some(RangeText::Any);
    }
    let Some((ends, step)) = two_parts(SLASH, text) else {
        return unstepped_range(text);
    };
    let (lo, hi) = between(ends)?;
    let by = number(step)?;
    Some(RangeText::Steps(lo, hi, by))
}

/// The range that a text stands for. None exactly where a number isn't a signed word, the ends are the
/// wrong way round, or a step doesn't lead from the lower to the upper.
pub fn range_of(text: RangeText) -> Option<Range>
    ensures { result ≡ range_of text }
{
    match text {
        RangeText::Any => Some(Range::any()),
        RangeText::One(n) => Range::one(n),
        RangeText::Ends(lo, hi) => {
            if lo == hi {
                Range::one(lo)
            } else {
                Range::steps(lo, hi, 1)
            }
        }
        RangeText::Steps(lo, hi, by) => Range::steps(lo, hi, by),
    }
}
