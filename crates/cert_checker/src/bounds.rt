//! The bound of each marker.

ghost use Rattle.std.specs.Prelude.{◌≡◌, ◌<◌, ◌^◌, ◌++◌, length, map, unsigned_abs, OnOk};
ghost use Rattle.std.specs.List.{AllByRecursion};
ghost use Rattle.cert_checker.specs.Judged.{IsJudged};
ghost use Rattle.cert_checker.specs.Small.{AreSmallAt};
ghost use Rattle.cert_checker.specs.Verdicts.{raised, bound_at};

use crate::reading::known;
use crate::verdict::Bound;
use cert_format::{CertOf, Spelled};
use rank_form::upper;
use viper_word::{Addr, Memory};

/// The size of a rank.
fn size(rank: i128) -> u64
    requires { unsigned_abs rank < 2 ^ 64 }
    ensures { result ≡ unsigned_abs rank }
{
    rank.unsigned_abs() as u64
}

/// The greater of a number and a bound.
fn raised(rank: u64, bound: Bound) -> Bound
    ensures { result ≡ raised rank bound }
{
    match bound {
        Bound::Unreached => Bound::Within(rank),
        Bound::Within(greatest) => Bound::Within(rank.max(greatest)),
    }
}

/// The greatest rank of the nodes at an address whose facts aren't empty.
fn bound_at<D: Spelled>(cert: &CertOf<D>, at: Addr) -> Bound
    requires judged { IsJudged cert.now }
    requires small { AreSmallAt D.domain cert.now.cells cert.now.nodes at }
    ensures { result ≡ bound_at D.domain cert.now.cells at cert.now.nodes }
{
    let mut bound = Bound::Unreached;
    for i in 0..cert.len() {
        if cert.addr(i) == at && !known(cert, i).is_empty() {
            bound = raised(size(upper(&cert.rank(i), known(cert, i))), bound);
        }
    }
    bound
}

/// Appends each marker with its bound. `Memory` for want of memory.
pub(crate) fn push_bounds<D: Spelled>(
    cert: &CertOf<D>,
    markers: &[Addr],
    bounds: &mut Vec<(Addr, Bound)>,
) -> Result<(), Memory>
    requires judged { IsJudged cert.now }
    requires small { AllByRecursion (AreSmallAt D.domain cert.now.cells cert.now.nodes)
        markers.now }
    ensures { OnOk result (bounds.new.items ≡ bounds.old.items
        ++ map (λ m. (m, bound_at D.domain cert.now.cells m cert.now.nodes)) markers.now) }
{
    match markers {
        [] => Ok(()),
        [first, others @ ..] => match bounds.push((*first, bound_at(cert, *first))) {
            Ok(()) => push_bounds(cert, others, bounds),
            Err(_) => Err(Memory),
        },
    }
}
