//! Inclusion, join and rounding of all cells' values.
ghost use Rattle.std.specs.Prelude.{◌≡◌, length, map};
ghost use Rattle.flag_relation.specs.Order.{cells_include};
ghost use Rattle.flag_relation.specs.Joins.{join_cells};

use num_domain::{NumDomain, Thresholds};

/// Does each value of the first include that of the second?
pub(crate) fn include<D: NumDomain>(cells: &[D], others: &[D]) -> bool
    requires { length cells.now ≡ length others.now }
    ensures { result ≡ cells_include D.domain cells.now others.now }
{
    let mut at = 0;
    while at < cells.len() {
        if !cells[at].includes(&others[at]) {
            return false;
        }
        at += 1;
    }
    true
}

/// Joins each value of the first with that of the second.
pub(crate) fn join<D: NumDomain>(cells: &mut [D], others: &[D])
    requires { length cells.old ≡ length others.now }
    ensures { cells.new ≡ join_cells D.domain cells.old others.now }
{
    let mut at = 0;
    while at < cells.len() {
        cells[at] = cells[at].join(&others[at]);
        at += 1;
    }
}

/// Rounds each value.
pub(crate) fn round<D: NumDomain>(cells: &mut [D], t: &Thresholds)
    ensures { cells.new ≡ map (λ c. D.domain.round c t.now) cells.old }
{
    let mut at = 0;
    while at < cells.len() {
        cells[at] = cells[at].round(t);
        at += 1;
    }
}
