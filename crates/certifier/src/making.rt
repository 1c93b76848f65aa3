//! The certificate of a solution.

ghost use Rattle.std.specs.Prelude.{◌≡◌, ◌≤◌, ◌<◌, length, take, IfOk, OnOk};
ghost use Rattle.std.specs.List.{AllByRecursion};
ghost use Rattle.std.specs.List.Sorted.{IsStrictlySortedBy};
ghost use Rattle.flow_recover.specs.Keys.{key_cmp};
ghost use Rattle.cert_format.specs.Limits.{IsKeptCert};
ghost use Rattle.cert_format.specs.declared.limits.TheConstants.{MOST_NODES};
ghost use Rattle.cert_format.specs.Certificates.{with_node};
ghost use Rattle.fix_solver.specs.Solved.{facts_of};
ghost use Rattle.fix_solver.specs.Tables.{keys_of, place};
ghost use Rattle.certifier.specs.Made.{start_key, start_numbers, cert_node, cert_nodes, made};
ghost use Rattle.rank_nest.specs.Graph.{node_at};

use cert_format::{CertOf, Spelled};
use fix_solver::Solved;
use flag_relation::Form;
use flow_recover::{Context, Key};
use memory_plan::{Plan, Start};
use num_domain::NumDomain;
use std::alloc::{AllocError, Global};
use viper_word::Memory;

/// The number of a key that stands in the solution.
fn number_of<D: NumDomain>(solved: &Solved<D>, key: &Key) -> u32
    requires few { length solved.now.nodes ≤ MOST_NODES }
    requires ascending { IsStrictlySortedBy key_cmp (keys_of (facts_of solved.now.nodes)) }
    requires there { place (facts_of solved.now.nodes) key.now < length solved.now.nodes }
    ensures { result ≡ place (facts_of solved.now.nodes) key.now }
{
    let mut from = 0;
    let mut to = solved.len();
    while to - from > 1 {
        let middle = from + (to - from) / 2;
        if key.compare(solved.key(middle)).is_lt() {
            to = middle;
        } else {
            from = middle;
        }
    }
    from as u32
}

/// The number of the key of each start.
fn start_numbers<D: NumDomain>(
    alloc: Global,
    solved: &Solved<D>,
    starts: &[Start],
) -> Result<Vec<u32>, AllocError>
    requires few { length solved.now.nodes ≤ MOST_NODES }
    requires ascending { IsStrictlySortedBy key_cmp (keys_of (facts_of solved.now.nodes)) }
    requires there { AllByRecursion (λ s. place (facts_of solved.now.nodes) (start_key s)
        < length solved.now.nodes) starts.now }
    ensures { IfOk result (λ v. v.items ≡ start_numbers solved.now.nodes starts.now) }
{
    let mut numbers = Vec::new(alloc);
    for start in starts {
        let key = Key {
            addr: start.at,
            context: Context::empty(),
        };
        numbers.push(number_of(solved, &key))?;
    }
    Ok(numbers)
}

/// Appends the node of a key, by its number.
fn push_node<D: Spelled>(
    alloc: Global,
    solved: &Solved<D>,
    i: usize,
    rank: Form,
    cert: &mut CertOf<D>,
) -> Result<(), Memory>
    requires key { i < length solved.now.nodes }
    requires room { length cert.old.nodes < MOST_NODES }
    requires cells { length (node_at D.domain solved.now.nodes i).fact.cells
        ≡ length cert.old.cells }
    ensures { OnOk result (cert.new ≡ with_node cert.old
        (cert_node (node_at D.domain solved.now.nodes i) rank)) }
{
    let Ok(succ) = Vec::from_slice(alloc, solved.succ(i)) else {
        return Err(Memory);
    };
    cert.push(solved.key(i).addr, solved.fact(i), succ, rank)
}

/// The certificate of the keys of a solution, with their ranks.
pub(crate) fn made<D: Spelled>(
    alloc: Global,
    plan: &Plan,
    solved: &Solved<D>,
    ranks: &[Form],
) -> Result<CertOf<D>, Memory>
    requires few { length solved.now.nodes ≤ MOST_NODES }
    requires ascending { IsStrictlySortedBy key_cmp (keys_of (facts_of solved.now.nodes)) }
    requires cells { AllByRecursion (λ n. length n.fact.cells ≡ length solved.now.cells)
        solved.now.nodes }
    requires starts { AllByRecursion (λ s. place (facts_of solved.now.nodes) (start_key s)
        < length solved.now.nodes) plan.now.starts }
    requires ranks { length ranks.now ≡ length solved.now.nodes }
    ensures made { IfOk result (λ c. c
        ≡ made plan.now solved.now.cells solved.now.nodes ranks.now) }
    ensures kept { IfOk result (λ c. IsKeptCert c) }
{
    let cells = Vec::from_slice(alloc, solved.cells())?;
    let starts = start_numbers(alloc, solved, plan.starts())?;
    let mut cert = CertOf::new(alloc, cells, starts);
    for i in 0..solved.len() {
        push_node(alloc, solved, i, ranks[i], &mut cert)?;
    }
    cert.len();
    Ok(cert)
}
