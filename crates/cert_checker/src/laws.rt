//! What a yes and a no say.

ghost use Rattle.std.specs.Prelude.{◌≡◌, ℕ};
ghost use Rattle.std.specs.List.{AllByRecursion};
ghost use Rattle.memory_plan.specs.Plans.{PlanLines};
ghost use Rattle.cert_format.specs.Certificates.{CertificateOf};
ghost use Rattle.cert_checker.specs.Judged.{IsFull};
ghost use Rattle.cert_checker.specs.Filling.{filled};
ghost use Rattle.cert_checker.specs.Packing.{packed};
ghost use Rattle.cert_checker.specs.Local.{LocalSuffices, YesExactlyWhereLocal};

use num_domain::NumDomain;

/// Local conditions, which are those of the filled certificate, suffice: over any domain, for any
/// plan that was read, any cells in ascending order and any price of instructions of at least 1,
/// they carry the facts and the ranks over every fair run. So every fair run is safe, and from each
/// marker the next is met within its bound, or no run comes there. docs/METHOD.md, "Why a yes is
/// true".
pub fn local_conditions_suffice<D: NumDomain>()
    ensures { (plan : PlanLines) (price : ℕ → ℕ) (c : CertificateOf D)
        → LocalSuffices D.domain plan price c }
{}

/// A yes comes exactly where all local conditions hold, with the bounds; and a no, with the first
/// that fails, exactly where one does. docs/METHOD.md, "The whole checker".
pub fn yes_exactly_where_local<D: NumDomain>()
    ensures { (plan : PlanLines) (price : ℕ → ℕ) (c : CertificateOf D)
        → YesExactlyWhereLocal D.domain plan price c }
{}

/// Filling undoes packing: over any domain and for any plan, the filled certificate of the packed
/// one is the one that was packed, if that has no bare node. So the verdict stays.
pub fn filling_undoes_packing<D: NumDomain>()
    ensures { (plan : PlanLines) (c : CertificateOf D) → AllByRecursion IsFull c.nodes
        → filled D.domain plan (packed D.domain plan c) ≡ c }
{}
