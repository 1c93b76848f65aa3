//! What a certificate says of a node.

ghost use Rattle.std.specs.Prelude.{◌≡◌, ◌<◌, length};
ghost use Rattle.std.specs.List.{AllByRecursion};
ghost use Rattle.cert_format.specs.Certificates.{node_at};
ghost use Rattle.cert_format.specs.Limits.{IsBelow};
ghost use Rattle.cert_checker.specs.Judged.{IsFull, IsJudged};
ghost use Rattle.cert_checker.specs.Conditions.{known};

use cert_format::{CertOf, Spelled};
use flag_relation::Fact;

/// What is known at a node.
pub(crate) fn known<D: Spelled>(cert: &CertOf<D>, i: u32) -> &Fact<D>
    requires judged { IsJudged cert.now }
    requires node { i < length cert.now.nodes }
    ensures fact { result.now ≡ known D.domain cert.now.cells (node_at cert.now i) }
    ensures cells { length result.now.cells ≡ length cert.now.cells }
{
    cert.fact(i)
}

/// What is known at a node of a certificate without bare nodes.
pub(crate) fn full_fact<D: Spelled>(cert: &CertOf<D>, i: u32) -> &Fact<D>
    requires full { AllByRecursion IsFull cert.now.nodes }
    requires node { i < length cert.now.nodes }
    ensures fact { result.now ≡ known D.domain cert.now.cells (node_at cert.now i) }
    ensures cells { length result.now.cells ≡ length cert.now.cells }
{
    cert.len();
    cert.fact(i)
}

/// The successors of a node: numbers of nodes of the certificate.
pub(crate) fn listed<D: Spelled>(cert: &CertOf<D>, i: u32) -> &[u32]
    requires judged { IsJudged cert.now }
    requires node { i < length cert.now.nodes }
    ensures successors { result.now ≡ (node_at cert.now i).succ }
    ensures below { AllByRecursion (IsBelow (length cert.now.nodes)) result.now }
{
    cert.succ(i)
}
