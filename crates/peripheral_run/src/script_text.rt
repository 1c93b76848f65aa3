//! The text of a script.

ghost use Rattle.std.specs.Prelude.{◌≡◌, ◌+◌, ◌<◌, ◌^◌, option_map, IfOk, IfErr, IfSome, MatchResult, Some, None, length, true, false};
ghost use Rattle.text_lines.specs.Parts.{tokens_of};
ghost use Rattle.viper_word.specs.Words.{signed_value};
ghost use Rattle.viper_word.specs.Ranges.{IsIn, IsNormal};
ghost use Rattle.memory_plan.specs.Numbers.{range_has};
ghost use Rattle.peripheral_run.specs.declared.fault.ScriptRule.TheVariants.{Form};
ghost use Rattle.peripheral_run.specs.Scripts.{began, bit_of, state_shape, state_of_line, answer_of_line, LineAllows, AllowsState, IsScript, IsScriptFault};

use crate::fault::{ScriptFault, ScriptRule};
use crate::script::Script;
use memory_plan::{Plan, Range, Start, address_of, is, word_of};
use std::alloc::Global;
use text_lines::{Lines, SPACE, cut, five_parts};
use viper_word::{Addr, Word, signed};

/// B of a state: `0` or `1`.
#[tactic(auto, unfolding(crate::specs::Scripts::bit_of))]
fn bit_of(text: &[u8]) -> Option<bool>
    ensures { result ≡ bit_of text.now }
{
    if is(text, b"0") {
        Some(false)
    } else if is(text, b"1") {
        Some(true)
    } else {
        None
    }
}

/// P, A, X, Y and B in five tokens.
#[tactic(auto, unfolding(crate::specs::Scripts::state_shape))]
fn state_shape(tokens: &[u8]) -> Option<(Addr, Word, Word, Word, bool)>
    ensures { option_map began result ≡ state_shape (tokens_of tokens.now) }
{
    let (place, first, second, third, bit) = five_parts(SPACE, tokens)?;
    let p = address_of(place)?;
    let a = word_of(first)?;
    let x = word_of(second)?;
    let y = word_of(third)?;
    let b = bit_of(bit)?;
    Some((p, a, x, y, b))
}

/// The state that a line says. None exactly where it says none.
fn state_of(line: &[u8]) -> Option<(Addr, Word, Word, Word, bool)>
    ensures { option_map began result ≡ state_of_line line.now }
{
    let Some((word, tokens)) = cut(SPACE, line) else {
        return None;
    };
    if is(word, b"state") {
        state_shape(tokens)
    } else {
        None
    }
}

/// The answer that a line says, or the rule that it breaks.
fn answer_of(line: &[u8]) -> Result<Word, ScriptRule>
    ensures { MatchResult result (λ w. answer_of_line line.now ≡ Some w.0)
        (λ rule. (answer_of_line line.now ≡ None) × (rule ≡ Form)) }
{
    word_of(line).ok_or(ScriptRule::Form)
}

/// The range's test of a word's signed value.
fn has(range: &Range, word: Word) -> bool
    ensures has { result ≡ range_has range.now (signed_value word.0) }
    ensures normal { IsNormal range.now }
{
    range.has(signed(word))
}

/// Is the word's signed value in the range?
fn is_in(range: &Range, word: Word) -> bool
    ensures yes { result ≡ true → IsIn range.now (signed_value word.0) }
    ensures no { result ≡ false → IsIn range.now (signed_value word.0) → ⊥ }
{
    has(range, word)
}

/// Does B agree with what the start line says of it?
fn is_bit(line: Option<bool>, b: bool) -> bool
    ensures yes { result ≡ true → IfSome line (λ only. b ≡ only) }
    ensures no { result ≡ false → IfSome line (λ only. b ≡ only) → ⊥ }
{
    match line {
        None => true,
        Some(only) => b == only,
    }
}

/// Does the start line allow the state?
fn line_allows(line: &Start, state: &(Addr, Word, Word, Word, bool)) -> bool
    ensures yes { result ≡ true → LineAllows line.now (began state.now) }
    ensures no { result ≡ false → LineAllows line.now (began state.now) → ⊥ }
{
    let (p, a, x, y, b) = *state;
    p == line.at && is_in(&line.a, a) && is_in(&line.x, x) && is_in(&line.y, y) && is_bit(line.b, b)
}

/// Does one of the start lines allow the state?
fn allows_state(starts: &[Start], state: &(Addr, Word, Word, Word, bool)) -> bool
    ensures yes { result ≡ true → AllowsState starts.now (began state.now) }
    ensures no { result ≡ false → AllowsState starts.now (began state.now) → ⊥ }
{
    for line in starts {
        if line_allows(line, state) {
            return true;
        }
    }
    false
}

/// Reads a script over its plan (docs/FORMATS.md, "Scripts"). A fault is `Form` at the first line
/// that isn't of its form, or one past the last line where there is no state; or else `Start` at the
/// line of the state, where no start line of the plan allows it.
pub fn read_script(alloc: Global, text: &[u8], plan: &Plan) -> Result<Script, ScriptFault>
    requires { length text.now + 1 < 2 ^ 32 }
    ensures script { IfOk result (IsScript plan.now text.now) }
    ensures fault { IfErr result (IsScriptFault plan.now text.now) }
{
    let mut lines = Lines::kept(text);
    let Some(first) = lines.next_line() else {
        return Err(broken(lines.past_end(), ScriptRule::Form));
    };
    let Some(state) = state_of(first.text) else {
        return Err(broken(first.number, ScriptRule::Form));
    };
    let mut answers = Vec::new(alloc);
    while let Some(line) = lines.next_line() {
        match answer_of(line.text) {
            Ok(answer) => answers.push(answer)?,
            Err(rule) => return Err(broken(line.number, rule)),
        }
    }
    if !allows_state(plan.starts(), &state) {
        return Err(broken(first.number, ScriptRule::Start));
    }
    Ok(Script { state, answers })
}

/// The fault of a rule that is broken at a line.
fn broken(line: u32, rule: ScriptRule) -> ScriptFault
    ensures { result ≡ ScriptFault.At line rule }
{
    ScriptFault::At { line, rule }
}
