ghost use Rattle.std.specs.Prelude.{◌≡◌, ◌<◌, ◌≤◌, ◌^◌, ℕ, List, All, Contains, IfOk, length, ℤ, pos, ◌+ℤ◌, ◌≤ℤ◌, ◌⊎◌};
ghost use Rattle.rank_numbers.specs.Offsets.{leads_at, number_at, AreBounded, IsBest, IsMost, LeadsBack};

use crate::part::greater;
use std::alloc::{AllocError, Global};

/// The greatest sum of offset and greatest value over some parts, 0 where there are none.
fn best(leads: &[usize], greatest: &[i128], offset: &[i128]) -> i128
    requires greatest { All (λ q. q < length greatest.now) leads.now }
    requires offset { All (λ q. q < length offset.now) leads.now }
    requires bounded { AreBounded greatest.now offset.now (2 ^ 63) }
    ensures { IsBest leads.now greatest.now offset.now result }
{
    let mut best = 0;
    for q in leads {
        best = greater(best, offset[*q] + greatest[*q]);
    }
    best
}

/// The offsets of all parts: each part's after those of the parts that it leads into.
pub(crate) fn offsets(
    alloc: Global,
    order: &[usize],
    leads: &[Vec<usize>],
    greatest: &[i128],
) -> Result<Vec<i128>, AllocError>
    requires back { LeadsBack leads.now order.now }
    requires len { length greatest.now ≡ length leads.now }
    requires places { (p : ℕ) → All (λ q. q < length leads.now) (leads_at leads.now p) }
    requires limit { (q : ℕ) → number_at greatest.now q ≤ℤ pos (2 ^ 62) }
    ensures best { IfOk result (λ o. All
        (λ p. IsBest (leads_at leads.now p) greatest.now o.items (number_at o.items p)) order.now) }
    ensures bounded { IfOk result (λ o. AreBounded greatest.now o.items (2 ^ 63)) }
    ensures len { IfOk result (λ o. length o.items ≡ length leads.now) }
{
    let mut offset = vec![in alloc; 0; leads.len()]?;
    for p in order {
        offset[*p] = best(&leads[*p], greatest, &offset);
    }
    Ok(offset)
}

/// The greatest sum of offset and greatest value.
pub(crate) fn total(offset: &[i128], greatest: &[i128]) -> i128
    requires some { 0 < length offset.now }
    requires len { length offset.now ≡ length greatest.now }
    requires bounded { AreBounded greatest.now offset.now (2 ^ 63) }
    ensures { IsMost greatest.now offset.now (length offset.now) result }
{
    let mut most = offset[0] + greatest[0];
    for p in 0..offset.len() {
        most = greater(most, offset[p] + greatest[p]);
    }
    most
}
