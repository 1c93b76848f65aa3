ghost use Rattle.std.specs.Prelude.{◌≡◌, ◌++◌, IfOk, OnOk};
ghost use Rattle.viper_top.specs.Texts.{bound_text, marker_line, yes_text, cond_text, place_text, no_text};

use abs_step::Cond;
use cert_checker::{Bound, Place, Refusal};
use line_text::LineText;
use std::alloc::Global;
use viper_word::{Addr, Memory};

/// Appends the bound of a marker's line, and the line's end.
fn push_bound(text: &mut LineText, bound: Bound) -> Result<(), Memory>
    ensures { OnOk result (text.new ≡ text.old ++ bound_text bound) }
{
    match bound {
        Bound::Within(number) => {
            text.plain(" within ")?;
            text.number(number)?;
            text.plain("\n")
        }
        Bound::Unreached => text.plain(" unreached\n"),
    }
}

/// Appends the line of a marker.
#[tactic(auto, unfolding(crate::specs::Texts::marker_line))]
pub(crate) fn push_marker(text: &mut LineText, marker: Addr, bound: Bound) -> Result<(), Memory>
    ensures { OnOk result (text.new ≡ text.old ++ marker_line (marker, bound)) }
{
    text.plain("marker ")?;
    text.address(marker)?;
    push_bound(text, bound)
}

/// The text of a yes: a line `yes`, and a line for each marker (README.md, "Statuses and texts").
#[tactic(auto, unfolding(crate::specs::Texts::yes_text))]
pub fn yes_text(alloc: Global, bounds: &[(Addr, Bound)]) -> Result<Vec<u8>, Memory>
    ensures { IfOk result (λ v. v.items ≡ yes_text bounds.now) }
{
    let mut text = LineText::new(alloc);
    text.plain("yes\n")?;
    for (marker, bound) in bounds {
        push_marker(&mut text, *marker, *bound)?;
    }
    Ok(text.into_bytes())
}

/// The name of a condition.
pub(crate) fn cond_text(cond: Cond) -> &'static str
    ensures { result.now ≡ cond_text cond }
{
    match cond {
        Cond::H1 => "H1",
        Cond::H2 => "H2",
        Cond::C1 => "C1",
        Cond::C2 => "C2",
        Cond::C3 => "C3",
        Cond::C4 => "C4",
        Cond::C5 => "C5",
        Cond::C6 => "C6",
        Cond::C7 => "C7",
        Cond::C8 => "C8",
        Cond::C9 => "C9",
        Cond::C10 => "C10",
        Cond::C11 => "C11",
    }
}

/// Appends the place of a failure.
fn push_place(text: &mut LineText, place: Place) -> Result<(), Memory>
    ensures { OnOk result (text.new ≡ text.old ++ place_text place) }
{
    let (kind, number) = match place {
        Place::Cell(number) => ("cell ", number),
        Place::Start(number) => ("start ", number),
        Place::Node(number) => ("node ", number),
    };
    text.plain(kind)?;
    text.number(number)
}

/// The text of a no: the first condition that fails, its place and the address there (README.md,
/// "Statuses and texts").
#[tactic(auto, unfolding(crate::specs::Texts::no_text))]
pub fn no_text(alloc: Global, refusal: Refusal) -> Result<Vec<u8>, Memory>
    ensures { IfOk result (λ v. v.items ≡ no_text refusal) }
{
    let mut text = LineText::new(alloc);
    text.plain("no ")?;
    push_place(&mut text, refusal.place)?;
    text.plain(" address ")?;
    text.address(refusal.addr)?;
    text.plain(" condition ")?;
    text.plain(cond_text(refusal.cond))?;
    text.plain("\n")?;
    Ok(text.into_bytes())
}
