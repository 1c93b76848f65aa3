//! The rules that a line of a plan may break after those before it (docs/FORMATS.md, "Plans").

ghost use Rattle.std.specs.Prelude.{◌≡◌, ◌+◌, ◌-◌, ◌<◌, ◌^◌, not, is_some};
ghost use Rattle.std.specs.List.{list_any};
ghost use Rattle.memory_plan.specs.Images.{word_at};
ghost use Rattle.memory_plan.specs.Numbers.{range_has};
ghost use Rattle.memory_plan.specs.PlanRules.{kind_of, is_costed, too_many_lines, too_many_words, meets_code, meets, meets_in, breaks_span, all_words, misfits, breaks_image, breaks_code, breaks_marker, broken_rule, judge_line};
ghost use Rattle.viper_word.specs.Words.{signed_value};

use crate::cost::Costed;
use crate::image::Image;
use crate::plan::{CODE_WORDS, MARKERS, Plan, SPANS, STARTS, THRESHOLDS, size};
use crate::plan_line::{PlanLine, Space};
use crate::plan_shape::{shape_of, value_of};
use crate::range::Range;
use crate::text_fault::PlanRule;
use viper_word::{Addr, Word, signed};

/// Has one of the spans an address from `lo` to `hi`?
fn meets(spans: &[(Addr, Addr, Range)], lo: Addr, hi: Addr) -> bool
    ensures { result ≡ meets spans.now lo hi }
{
    spans.iter().any(|s| lo <= s.1 && s.0 <= hi)
}

/// Has a line given the cost of the kind?
fn is_costed(costs: &[(Costed, u32)], kind: Costed) -> bool
    ensures { result ≡ is_costed costs.now kind }
{
    costs.iter().any(|c| c.0.is_kind(kind))
}

/// Is one of the words not in the range?
fn is_outside(range: &Range, words: &[(Addr, Word)]) -> bool
    ensures { result ≡ list_any (λ e. not (range_has range.now (signed_value e.1.0))) words.now }
{
    words.iter().any(|e| !range.has(signed(e.1)))
}

/// Has the image a word from `lo` to `hi` that isn't in the range?
fn misfits(image: &Image, lo: Addr, hi: Addr, range: &Range) -> bool
    ensures { result ≡ misfits (lo, hi, range.now) image.now }
{
    is_outside(range, image.between(lo, hi))
}

/// Has the image a word at the address of a number?
fn has_word(image: &Image, number: u32) -> bool
    requires { number < 2 ^ 20 }
    ensures { result ≡ is_some (word_at image.now number) }
{
    let Some(at) = Addr::new(number) else {
        unreachable!()
    };
    image.at(at).is_some()
}

/// Has the image a word at each address from `lo` to `hi`?
fn all_words(image: &Image, lo: Addr, hi: Addr) -> bool
    ensures { result ≡ all_words image.now lo (hi + 1 - lo) }
{
    let end = hi.get() + 1;
    let mut next = lo.get();
    while next < end {
        if !has_word(image, next) {
            return false;
        }
        next += 1;
    }
    true
}

/// The place of a line's kind in the order of kinds, from 1.
pub(crate) fn kind_of(line: &PlanLine) -> u8
    ensures { result ≡ kind_of line.now }
{
    match line {
        PlanLine::Profile(_) => 1,
        PlanLine::Code(..) => 2,
        PlanLine::Region(Space::Data, ..) => 3,
        PlanLine::Region(Space::Input, ..) => 4,
        PlanLine::Region(Space::Output, ..) => 5,
        PlanLine::Marker(_) => 6,
        PlanLine::Start(_) => 7,
        PlanLine::Threshold(_) => 8,
        PlanLine::Cost(..) => 9,
    }
}

impl Plan {
    /// Has a span of the space an address from `lo` to `hi`? Code and data share one space.
    fn meets_in(&self, space: Space, lo: Addr, hi: Addr) -> bool
        ensures { result ≡ meets_in self.now space lo hi }
    {
        match space {
            Space::Data => { self.code.meet(lo, hi) || meets(self.data.as_slice(), lo, hi) }
            Space::Input => meets(self.inputs.as_slice(), lo, hi),
            Space::Output => meets(self.outputs.as_slice(), lo, hi),
        }
    }

    /// Is this line one more than there may be of its kind?
    fn too_many_lines(&self, latest: u8, line: &PlanLine) -> bool
        ensures { result ≡ too_many_lines (record { plan = self.now; latest = latest }) line.now }
    {
        match line {
            PlanLine::Profile(_) => latest >= 1,
            PlanLine::Code(..) => self.code.listed().len() >= SPANS,
            PlanLine::Region(Space::Data, ..) => self.data.len() >= SPANS,
            PlanLine::Region(Space::Input, ..) => self.inputs.len() >= SPANS,
            PlanLine::Region(Space::Output, ..) => self.outputs.len() >= SPANS,
            PlanLine::Marker(_) => self.markers.len() >= MARKERS,
            PlanLine::Start(_) => self.starts.len() >= STARTS,
            PlanLine::Threshold(_) => self.thresholds.len() >= THRESHOLDS,
            PlanLine::Cost(kind, _) => is_costed(self.costs.as_slice(), *kind),
        }
    }

    /// Does this line bring more code words than there may be?
    fn too_many_words(&self, line: &PlanLine) -> bool
        ensures { result ≡ too_many_words self.now line.now }
    {
        match line {
            PlanLine::Code(lo, hi) => self.code.words() + size(*lo, *hi) > CODE_WORDS,
            PlanLine::Profile(_)
            | PlanLine::Region(..)
            | PlanLine::Marker(_)
            | PlanLine::Start(_)
            | PlanLine::Threshold(_)
            | PlanLine::Cost(..) => false,
        }
    }

    /// Is the span empty, or does it meet an earlier one?
    fn breaks_span(&self, line: &PlanLine) -> bool
        ensures { result ≡ breaks_span self.now line.now }
    {
        match line {
            PlanLine::Code(lo, hi) => hi < lo || self.meets_in(Space::Data, *lo, *hi),
            PlanLine::Region(space, lo, hi, _) => hi < lo || self.meets_in(*space, *lo, *hi),
            PlanLine::Profile(_)
            | PlanLine::Marker(_)
            | PlanLine::Start(_)
            | PlanLine::Threshold(_)
            | PlanLine::Cost(..) => false,
        }
    }

    /// Has a code address no word, or isn't a word in data in the range?
    fn breaks_image(&self, line: &PlanLine) -> bool
        ensures { result ≡ breaks_image self.now line.now }
    {
        match line {
            PlanLine::Code(lo, hi) => !all_words(&self.image, *lo, *hi),
            PlanLine::Region(Space::Data, lo, hi, range) => misfits(&self.image, *lo, *hi, range),
            PlanLine::Region(Space::Input, ..)
            | PlanLine::Region(Space::Output, ..)
            | PlanLine::Profile(_)
            | PlanLine::Marker(_)
            | PlanLine::Start(_)
            | PlanLine::Threshold(_)
            | PlanLine::Cost(..) => false,
        }
    }

    /// Is the address of a marker or a start outside code?
    fn breaks_code(&self, line: &PlanLine) -> bool
        ensures { result ≡ breaks_code self.now line.now }
    {
        match line {
            PlanLine::Marker(at) => !self.in_code(*at),
            PlanLine::Start(start) => !self.in_code(start.at),
            PlanLine::Profile(_)
            | PlanLine::Code(..)
            | PlanLine::Region(..)
            | PlanLine::Threshold(_)
            | PlanLine::Cost(..) => false,
        }
    }

    /// Was the marker given before, or is the start at none?
    fn breaks_marker(&self, line: &PlanLine) -> bool
        ensures { result ≡ breaks_marker self.now line.now }
    {
        match line {
            PlanLine::Marker(at) => self.is_marker(*at),
            PlanLine::Start(start) => !self.is_marker(start.at),
            PlanLine::Profile(_)
            | PlanLine::Code(..)
            | PlanLine::Region(..)
            | PlanLine::Threshold(_)
            | PlanLine::Cost(..) => false,
        }
    }

    /// The first rule that a line of right numbers breaks, after lines of kinds up to the latest.
    #[tactic(auto, unfolding(crate::specs::PlanRules::broken_rule))]
    fn broken_rule(&self, latest: u8, line: &PlanLine) -> Option<PlanRule>
        ensures { result ≡ broken_rule (record { plan = self.now; latest = latest }) line.now }
    {
        if kind_of(line) < latest {
            Some(PlanRule::Order)
        } else if self.too_many_lines(latest, line) || self.too_many_words(line) {
            Some(PlanRule::Limit)
        } else if self.breaks_span(line) {
            Some(PlanRule::Span)
        } else if self.breaks_image(line) {
            Some(PlanRule::Image)
        } else if self.breaks_code(line) {
            Some(PlanRule::Code)
        } else if self.breaks_marker(line) {
            Some(PlanRule::Marker)
        } else {
            None
        }
    }

    /// What a line says behind those that made this plan, or the first rule that it breaks.
    pub(crate) fn judge(&self, latest: u8, line: &[u8]) -> Result<PlanLine, PlanRule>
        ensures { result ≡ judge_line (record { plan = self.now; latest = latest }) line.now }
    {
        let written = shape_of(line).ok_or(PlanRule::Form)?;
        let line = value_of(written).ok_or(PlanRule::Number)?;
        match self.broken_rule(latest, &line) {
            Some(rule) => Err(rule),
            None => Ok(line),
        }
    }
}
