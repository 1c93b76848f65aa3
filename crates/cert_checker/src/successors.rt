//! The nodes that a node lists.

ghost use Rattle.std.specs.Prelude.{◌≡◌, ◌<◌, length, option_map, slice_get, IfSome};
ghost use Rattle.std.specs.List.{AllByRecursion};
ghost use Rattle.cert_format.specs.Certificates.{node_at};
ghost use Rattle.cert_format.specs.Limits.{IsBelow};
ghost use Rattle.cert_checker.specs.Nodes.{stands_at, successor, is_listed_at, is_repeated};
ghost use Rattle.cert_checker.specs.Nodes.{are_distinct};

use cert_format::{CertOf, Spelled};
use viper_word::Addr;

/// Does the node of the number stand at the address?
#[tactic(auto, using(crate::proofs::Places::node_there))]
fn stands_at<D: Spelled>(cert: &CertOf<D>, j: u32, at: Addr) -> bool
    requires { j < length cert.now.nodes }
    ensures { result ≡ stands_at (slice_get cert.now.nodes j) at }
{
    cert.addr(j) == at
}

/// The first of the listed nodes that stands at the address.
pub(crate) fn successor<D: Spelled>(cert: &CertOf<D>, listed: &[u32], at: Addr) -> Option<u32>
    requires { AllByRecursion (IsBelow (length cert.now.nodes)) listed.now }
    ensures node { option_map (λ j. node_at cert.now j) result
        ≡ successor cert.now.nodes listed.now at }
    ensures below { IfSome result (λ j. j < length cert.now.nodes) }
{
    match listed {
        [] => None,
        [first, others @ ..] => {
            if stands_at(cert, *first, at) {
                Some(*first)
            } else {
                successor(cert, others, at)
            }
        }
    }
}

/// Does one of the listed nodes stand at the address?
fn is_listed_at<D: Spelled>(cert: &CertOf<D>, listed: &[u32], at: Addr) -> bool
    requires { AllByRecursion (IsBelow (length cert.now.nodes)) listed.now }
    ensures { result ≡ is_listed_at cert.now.nodes listed.now at }
{
    match listed {
        [] => false,
        [first, others @ ..] => stands_at(cert, *first, at) || is_listed_at(cert, others, at),
    }
}

/// Does one of the listed nodes stand where the node of the number does?
#[tactic(auto, using(crate::proofs::Places::node_there))]
fn is_repeated<D: Spelled>(cert: &CertOf<D>, j: u32, listed: &[u32]) -> bool
    requires node { j < length cert.now.nodes }
    requires listed { AllByRecursion (IsBelow (length cert.now.nodes)) listed.now }
    ensures { result ≡ is_repeated cert.now.nodes (slice_get cert.now.nodes j) listed.now }
{
    is_listed_at(cert, listed, cert.addr(j))
}

/// Do the listed nodes stand at distinct addresses?
pub(crate) fn are_distinct<D: Spelled>(cert: &CertOf<D>, listed: &[u32]) -> bool
    requires { AllByRecursion (IsBelow (length cert.now.nodes)) listed.now }
    ensures { result ≡ are_distinct cert.now.nodes listed.now }
{
    match listed {
        [] => true,
        [first, others @ ..] => !is_repeated(cert, *first, others) && are_distinct(cert, others),
    }
}
