//! The lines of a text, one after the other.

ghost use Rattle.std.specs.Prelude.{◌≡◌, ◌+◌, ◌≤◌, ◌<◌, ◌^◌, ◌&&◌, ◌∷◌, [], length, IfSome, IfNone};
ghost use Rattle.text_lines.specs.Lines.{lines_of, is_skipped, numbered, IsNext, every_line, kept_lines, past_end};
ghost use Rattle.text_lines.specs.Ahead.{Ahead};

use crate::cutting::cut_line;
use std::marker::Model;

/// A line of a text without its LF, and its number, from 1.
#[derive(Clone, Copy, Debug)]
pub struct Line<'a> {
    pub number: u32,
    pub text: &'a [u8],
}

/// What a comment begins with.
const COMMENT: u8 = b'#';

/// Is the line empty, or a comment?
fn skipped(line: &[u8]) -> bool
    ensures { result ≡ is_skipped line.now }
{
    match line {
        [] => true,
        [first, ..] => *first == COMMENT,
    }
}

/// Is the line to be left out?
fn left_out(skips: bool, line: &[u8]) -> bool
    ensures { result ≡ (skips && is_skipped line.now) }
{
    skips && skipped(line)
}

/// The first line of a text that isn't left out, where the text's first line has this number, and the
/// text after it.
fn next_from<'a>(skips: bool, first: u32, text: &'a [u8]) -> Option<(Line<'a>, &'a [u8])>
    requires { first + length text.now < 2 ^ 32 }
    ensures none { IfNone result (numbered skips first (lines_of text.now) ≡ []) }
    ensures next { let lines = lines_of text.now in
        IfSome result (λ x. IsNext skips first lines x.0.number x.0.text.now (lines_of x.1.now)) }
    ensures room { IfSome result (λ x. x.0.number + 1 + length x.1.now ≤ first + length text.now) }
{
    let mut number = first;
    let mut rest = text;
    while let Some((line, others)) = cut_line(rest) {
        if !left_out(skips, line) {
            return Some((Line { number, text: line }, others));
        }
        number += 1;
        rest = others;
    }
    None
}

/// The number one past the last line of a text whose first line has this number.
fn end_of(first: u32, text: &[u8]) -> u32
    requires { first + length text.now < 2 ^ 32 }
    ensures { result ≡ first + length (lines_of text.now) }
{
    let mut past = first;
    let mut rest = text;
    while let Some((_line, others)) = cut_line(rest) {
        past += 1;
        rest = others;
    }
    past
}

/// The lines of a text that are still to be read. Contracts see it as the list of these lines with
/// their numbers, and the number one past the last line of the text.
#[derive(Debug, Drop)]
pub struct Lines<'a> {
    rest: &'a [u8],
    number: u32,
    skips: bool,
}

impl<'a> Model for Lines<'a> {
    ghost use Rattle.std.specs.Prelude.{◌+◌, ◌<◌, ◌^◌, length};
    ghost use Rattle.text_lines.specs.Ahead.{Ahead};
    ghost use Rattle.text_lines.specs.Lines.{lines_of, numbered};

    ghost Value = { Ahead };

    ghost view = { λ s. record {
      lines = numbered s.skips s.number (lines_of s.rest.now);
      past_end = s.number + length (lines_of s.rest.now);
    } };

    ghost invariant = { λ s. s.number + length s.rest.now < 2 ^ 32 };
}

impl<'a> Lines<'a> {
    /// All lines of a text.
    pub fn every(text: &'a [u8]) -> Lines<'a>
        requires { length text.now + 1 < 2 ^ 32 }
        ensures lines { result.lines ≡ every_line text.now }
        ensures end { result.past_end ≡ past_end text.now }
    {
        Lines {
            rest: text,
            number: 1,
            skips: false,
        }
    }

    /// The lines of a text that aren't empty and don't begin with `#`.
    pub fn kept(text: &'a [u8]) -> Lines<'a>
        requires { length text.now + 1 < 2 ^ 32 }
        ensures lines { result.lines ≡ kept_lines text.now }
        ensures end { result.past_end ≡ past_end text.now }
    {
        Lines {
            rest: text,
            number: 1,
            skips: true,
        }
    }

    /// The next line, which then isn't to come any more.
    pub fn next_line(&mut self) -> Option<Line<'a>>
        ensures none { IfNone result (self.old.lines ≡ []) }
        ensures line { IfSome result (λ l.
            self.old.lines ≡ record { number = l.number; text = l.text.now } ∷ self.new.lines) }
        ensures same { IfNone result (self.new ≡ self.old) }
        ensures end { self.new.past_end ≡ self.old.past_end }
    {
        let (line, rest) = next_from(self.skips, self.number, self.rest)?;
        self.rest = rest;
        self.number = line.number + 1;
        Some(line)
    }

    /// The number one past the last line of the text.
    pub fn past_end(&self) -> u32
        ensures { result ≡ self.now.past_end }
    {
        end_of(self.number, self.rest)
    }
}
