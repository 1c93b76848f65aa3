//! Tables of names, in the order of the codes (docs/FORMATS.md, "Names").

ghost use Rattle.std.specs.Prelude.{◌≡◌, ◌<◌, ◌≤◌, ◌+◌, ◌^◌, length, Some, is_some, IfSome, slice_get, true, ◌&&◌, ◌==◌};
ghost use Rattle.text_lines.specs.Parts.{tokens_of};
ghost use Rattle.field_asm.specs.Names.{code_of, is_name, are_names};

use memory_plan::is;
use std::marker::Model;
use text_lines::{SPACE, cut};

/// A table of N names, none empty and no two equal: a text of them with single spaces between.
/// Contracts see it as the list of its names.
#[derive(Debug, Drop)]
pub struct Names<const N: usize> {
    text: &'static [u8],
}

impl<const N: usize> Model for Names<N> {
    ghost use Rattle.std.specs.Prelude.{◌≡◌, List, ℕ, true, length};
    ghost use Rattle.text_lines.specs.Parts.{tokens_of};
    ghost use Rattle.field_asm.specs.Names.{are_names};

    ghost Value = { List (List ℕ) };

    ghost view = { λ n. tokens_of n.text.now };

    ghost invariant = { λ n.
        (length (tokens_of n.text.now) ≡ N) × (are_names (tokens_of n.text.now) ≡ true) };
}

/// Has the text bytes?
fn is_name(text: &[u8]) -> bool
    ensures { result ≡ is_name text.now }
{
    !text.is_empty()
}

/// The place of the first of these names that is equal.
fn code_of(names: &[u8], text: &[u8]) -> Option<usize>
    ensures code { result ≡ code_of (tokens_of names.now) text.now }
    ensures within { IfSome result (λ code. code < length (tokens_of names.now)) }
    ensures small { IfSome result (λ code. code ≤ length names.now) }
{
    let Some((first, rest)) = cut(SPACE, names) else {
        return if is(names, text) { Some(0) } else { None };
    };
    if is(first, text) {
        return Some(0);
    }
    let code = code_of(rest, text)?;
    Some(code + 1)
}

/// The name at a place.
fn name_at(names: &[u8], code: usize) -> &[u8]
    requires { code < length (tokens_of names.now) }
    ensures { slice_get (tokens_of names.now) code ≡ Some result.now }
{
    let Some((first, rest)) = cut(SPACE, names) else {
        return names;
    };
    if code == 0 {
        first
    } else {
        name_at(rest, code - 1)
    }
}

/// How many names there are.
fn count(names: &[u8]) -> usize
    ensures count { result ≡ length (tokens_of names.now) }
    ensures most { result ≤ length names.now + 1 }
{
    match cut(SPACE, names) {
        None => 1,
        Some((_first, rest)) => 1 + count(rest),
    }
}

/// Is none of the names empty, and are no two equal?
fn are_names(names: &[u8]) -> bool
    ensures { result ≡ are_names (tokens_of names.now) }
{
    let Some((first, rest)) = cut(SPACE, names) else {
        return is_name(names);
    };
    is_name(first) && code_of(rest, first).is_none() && are_names(rest)
}

impl<const N: usize> Names<N> {
    /// The table of the names in a text, with single spaces between them. None exactly where they
    /// aren't N, one is empty or two are equal.
    pub fn new(text: &'static [u8]) -> Option<Names<N>>
        requires { length text.now + 1 < 2 ^ 32 }
        ensures some { let names = tokens_of text.now in
            is_some result ≡ (length names == N && are_names names) }
        ensures names { IfSome result (λ names. names ≡ tokens_of text.now) }
    {
        if count(text) == N && are_names(text) {
            Some(Names { text })
        } else {
            None
        }
    }

    /// The table of names that are known to be one.
    pub(crate) fn of(text: &'static [u8]) -> Names<N>
        requires count { length (tokens_of text.now) ≡ N }
        requires names { are_names (tokens_of text.now) ≡ true }
        ensures { result ≡ tokens_of text.now }
    {
        Names { text }
    }

    /// The name of a code. The code of the name is this code.
    pub fn name(&self, code: usize) -> &'static [u8]
        requires { code < N }
        ensures name { slice_get self.now code ≡ Some result.now }
        ensures code { code_of self.now result.now ≡ Some code }
    {
        name_at(self.text, code)
    }

    /// The code of a name. None exactly where the table doesn't have it.
    pub fn code(&self, text: &[u8]) -> Option<usize>
        ensures code { result ≡ code_of self.now text.now }
        ensures within { IfSome result (λ code. code < N) }
    {
        code_of(self.text, text)
    }
}
