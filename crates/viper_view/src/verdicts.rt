//! What the checker says, in viper's texts (README.md, "Statuses and texts").

use cert_checker::{Bound, Place, Refusal};
use std::alloc::AllocError;
use viper_word::{Addr, Memory};

/// Appends the line of a marker with its bound.
pub fn push_bound(text: &mut String, marker: Addr, bound: Bound) -> Result<(), AllocError> {
    match bound {
        Bound::Within(number) => { writeln!(text, "marker {:05X} within {number}", marker.get()) }
        Bound::Unreached => writeln!(text, "marker {:05X} unreached", marker.get()),
    }
}

/// Appends the line of a no.
pub fn push_refusal(text: &mut String, refusal: &Refusal) -> Result<(), Memory> {
    let (kind, number) = match refusal.place {
        Place::Cell(number) => ("cell", number),
        Place::Start(number) => ("start", number),
        Place::Node(number) => ("node", number),
    };
    let at = refusal.addr.get();
    let cond = refusal.cond;
    writeln!(
        text,
        "no {kind} {number} address {at:05X} condition {cond:?}"
    )?;
    Ok(())
}
