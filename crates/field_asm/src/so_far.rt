//! A line of a source, after those before it (docs/FORMATS.md, "Sources").

ghost use Rattle.std.specs.Prelude.{◌≡◌, ◌≤◌, ◌^◌, ◌++◌, ◌∷◌, [], None, IfOk};
ghost use Rattle.field_asm.specs.Sources.{Names, Is, nothing_yet, next_place, unless_given, written_place, place_of, label_at, unless_named, label_line, with_field, word_line, coded_line, judge_line, put_label, add_line};
ghost use Rattle.field_asm.specs.Views.{line_view, judged, labels_view};

use crate::fault::AsmRule;
use crate::source_line::Said;
use crate::tokens::{
    begins_label, destination_of, is_label, mode_of, operation_of, register_of, upper_address,
    upper_word,
};
use indexmap::IndexMap;
use memory_plan::{Image, is};
use std::alloc::Global;
use std::marker::Model;
use text_lines::{SPACE, six_parts, three_parts, two_parts};
use viper_decode::{Fields, encode};
use viper_word::{Addr, Memory, Word};

/// What the lines so far gave: the address that `+` stands for, the words at their addresses, labels
/// still left out of their fields, and the labels. Contracts see it as the record of that name.
#[derive(Drop)]
pub struct SoFar<'a> {
    next: u32,
    words: Image,
    labels: IndexMap<&'a [u8], Addr>,
}

impl<'a> Model for SoFar<'a> {
    ghost use Rattle.std.specs.Prelude.{◌≤◌, ◌^◌};
    ghost use Rattle.field_asm.specs.Sources.{SoFar as Given};
    ghost use Rattle.field_asm.specs.Views.{labels_view};

    ghost Value = { Given };

    ghost view = { λ s. record {
      next = s.next;
      words = s.words;
      labels = labels_view s.labels.entries;
    } };

    ghost invariant = { λ s. s.next ≤ 2 ^ 20 };
}

/// The address of a label.
fn label_at(labels: &IndexMap<&[u8], Addr>, text: &[u8]) -> Option<Addr>
    ensures { result ≡ label_at (labels_view labels.now.entries) text.now }
{
    labels.get(text).copied()
}

/// A word of these numbers with a FIELD: a label's address, or digits.
fn with_field<'a>(at: Addr, fields: Fields, token: &'a [u8]) -> Result<Said<'a>, AsmRule>
    ensures { judged result ≡ with_field at fields token.now }
{
    if begins_label(token) {
        if is_label(token) {
            Ok(Said::Refers(at, fields, token))
        } else {
            Err(AsmRule::Name)
        }
    } else {
        let field = upper_address(token).ok_or(AsmRule::Number)?;
        Ok(Said::Is(at, encode(Fields { field, ..fields })))
    }
}

impl<'a> SoFar<'a> {
    /// Nothing yet.
    pub fn new(alloc: Global) -> SoFar<'a>
        ensures { result ≡ nothing_yet }
    {
        SoFar {
            next: 0,
            words: Image::new(alloc),
            labels: IndexMap::new(alloc),
        }
    }

    /// The address that `+` stands for.
    fn next_place(&self) -> Result<Addr, AsmRule>
        ensures { result ≡ next_place self.now }
    {
        Addr::new(self.next).ok_or(AsmRule::Range)
    }

    /// The address, where no line gave it.
    fn unless_given(&self, at: Addr) -> Result<Addr, AsmRule>
        ensures { result ≡ unless_given self.now at }
    {
        if self.words.at(at).is_some() {
            Err(AsmRule::Twice)
        } else {
            Ok(at)
        }
    }

    /// The address of `+` or five digits.
    fn written_place(&self, token: &[u8]) -> Result<Addr, AsmRule>
        ensures { result ≡ written_place self.now token.now }
    {
        if is(token, b"+") {
            self.next_place()
        } else {
            upper_address(token).ok_or(AsmRule::Number)
        }
    }

    /// The address of a place.
    fn place_of(&self, token: &[u8]) -> Result<Addr, AsmRule>
        ensures { result ≡ place_of self.now token.now }
    {
        let at = self.written_place(token)?;
        self.unless_given(at)
    }

    /// The label, where no line gave it.
    fn unless_named(&self, text: &'a [u8], at: Addr) -> Result<Said<'a>, AsmRule>
        ensures { judged result ≡ unless_named self.now text.now at }
    {
        if label_at(&self.labels, text).is_some() {
            Err(AsmRule::Twice)
        } else {
            Ok(Said::Names(text, at))
        }
    }

    /// The line of a label.
    fn label_line(&self, text: &'a [u8]) -> Result<Said<'a>, AsmRule>
        ensures { judged result ≡ label_line self.now text.now }
    {
        if is_label(text) {
            let at = self.next_place()?;
            self.unless_named(text, at)
        } else {
            Err(AsmRule::Name)
        }
    }

    /// The line of a word in digits.
    fn word_line(&self, place: &[u8], digits: &[u8]) -> Result<Said<'a>, AsmRule>
        ensures { judged result ≡ word_line self.now place.now digits.now }
    {
        let at = self.place_of(place)?;
        let word = upper_word(digits).ok_or(AsmRule::Number)?;
        Ok(Said::Is(at, word))
    }

    /// The line of a word by the names of its parts.
    fn coded_line(
        &self,
        place: &[u8],
        name: &[u8],
        register: &[u8],
        mode: &[u8],
        destination: &[u8],
        field: &'a [u8],
    ) -> Result<Said<'a>, AsmRule>
        ensures { judged result ≡ coded_line self.now
            (place.now, name.now, register.now, mode.now, destination.now, field.now) }
    {
        let at = self.place_of(place)?;
        let (c, f) = operation_of(name)?;
        let r = register_of(register)?;
        let m = mode_of(mode)?;
        let d = destination_of(destination)?;
        let none = Addr::new(0).unwrap();
        with_field(
            at,
            Fields {
                r,
                m,
                d,
                c,
                f,
                field: none,
            },
            field,
        )
    }

    /// What a line says behind those before it, or the first rule that it breaks.
    #[tactic(auto, unfolding(crate::specs::Sources::judge_line))]
    pub fn judge(&self, line: &'a [u8]) -> Result<Said<'a>, AsmRule>
        ensures { judged result ≡ judge_line self.now line.now }
    {
        if let Some((first, label)) = two_parts(SPACE, line) {
            return if is(first, b"label") {
                self.label_line(label)
            } else {
                Err(AsmRule::Form)
            };
        }
        if let Some((place, second, digits)) = three_parts(SPACE, line) {
            return if is(second, b"WORD") {
                self.word_line(place, digits)
            } else {
                Err(AsmRule::Form)
            };
        }
        match six_parts(SPACE, line) {
            None => Err(AsmRule::Form),
            Some((place, name, register, mode, destination, field)) => {
                self.coded_line(place, name, register, mode, destination, field)
            }
        }
    }

    /// Adds what a line says.
    pub fn add(&mut self, said: &Said<'a>) -> Result<(), Memory>
        ensures { IfOk result (λ _. self.new ≡ add_line self.old (line_view said.now)) }
    {
        match *said {
            Said::Names(text, at) => self.add_label(text, at),
            Said::Is(at, word) => self.add_word(at, word),
            Said::Refers(at, fields, _) => self.add_word(at, encode(fields)),
        }
    }

    /// Adds a label, where no line gave it.
    fn add_label(&mut self, text: &'a [u8], at: Addr) -> Result<(), Memory>
        ensures { IfOk result (λ _. self.new ≡ add_line self.old (Names text.now at)) }
    {
        if self.label(text).is_some() {
            return Ok(());
        }
        self.add_new_label(text, at)
    }

    /// Adds a label that no line gave.
    fn add_new_label(&mut self, text: &'a [u8], at: Addr) -> Result<(), Memory>
        requires { label_at self.old.labels text.now ≡ None }
        ensures { IfOk result (λ _. self.new
            ≡ record self.old { labels = self.old.labels ++ (text.now, at) ∷ [] }) }
    {
        if self.labels.insert(text, at).is_err() {
            return Err(Memory);
        }
        Ok(())
    }

    /// Adds a word, where no line gave one at its address.
    fn add_word(&mut self, at: Addr, word: Word) -> Result<(), Memory>
        ensures { IfOk result (λ _. self.new ≡ add_line self.old (Is at word.0)) }
    {
        let _given = self.words.put(at, word)?;
        self.next = at.get() + 1;
        Ok(())
    }

    /// The address of a label.
    pub fn label(&self, text: &[u8]) -> Option<Addr>
        ensures { result ≡ label_at self.now.labels text.now }
    {
        label_at(&self.labels, text)
    }
}
