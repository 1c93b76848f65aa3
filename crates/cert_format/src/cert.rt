ghost use Rattle.std.specs.Prelude.{◌≡◌, ◌<◌, ◌≤◌, ◌^◌, ◌++◌, ◌∷◌, []};
ghost use Rattle.std.specs.Prelude.{length, Some, None, IsSome, OnOk, OnErr};
ghost use Rattle.cert_format.specs.Keeping.{given};
ghost use Rattle.cert_format.specs.Spelling.{front};
ghost use Rattle.cert_format.specs.declared.spelled.TheConstants.{SPELLED};
ghost use Rattle.cert_format.specs.Certificates.{node_at, is_bare, with_node};
ghost use Rattle.cert_format.specs.Limits.{IsKeptCert};
ghost use Rattle.cert_format.specs.Kept.{kept_facts};
ghost use Rattle.cert_format.specs.declared.limits.TheConstants.{MOST_NODES};

use crate::given::Given;
use crate::places::{Places, enter, key_of, leave};
use crate::rank::Rank;
use crate::spelled::{SPELLED, Spelled};
use flag_relation::{Fact, Form};
use std::alloc::Global;
use std::marker::Model;
use val_dom::Val;
use viper_word::{Addr, Memory};

/// A node as it is kept: its fact by its number, which a bare node has none of.
#[derive(Drop)]
pub(crate) struct Node {
    addr: Addr,
    fact: Option<u32>,
    succ: Vec<u32>,
    rank: Rank,
}

/// A certificate: the addresses of the tracked cells, the numbers of the start nodes, and at most
/// 65,536 nodes. A node has an address, a fact over as many cells (or is bare), the numbers of its
/// successors, and a rank. Equal facts are kept once. Contracts see the value alone
/// (docs/METHOD.md, "Certificates").
#[derive(Drop)]
pub struct CertOf<D: Spelled> {
    alloc: Global,
    cells: Vec<Addr>,
    starts: Vec<u32>,
    nodes: Vec<Node>,
    kept: Vec<Fact<D>>,
    /// The bytes of each fact that is kept, at its number.
    places: Places,
}

/// A certificate over the values that the certifier uses.
pub type Cert = CertOf<Val>;

impl<D: Spelled> Model for CertOf<D> {
    ghost use Rattle.std.specs.Prelude.{length};
    ghost use Rattle.cert_format.specs.Certificates.{CertificateOf};
    ghost use Rattle.cert_format.specs.Keeping.{nodes_view, IsKeeping};
    ghost use Rattle.cert_format.specs.Spelling.{front};
    ghost use Rattle.cert_format.specs.declared.spelled.TheConstants.{SPELLED};

    ghost Value = { CertificateOf D };

    ghost view = { λ c. record {
      cells = c.cells.items;
      starts = c.starts.items;
      nodes = nodes_view c.kept.items c.nodes.items;
    } };

    ghost invariant = { λ c. IsKeeping (front SPELLED D.bytes) (length c.cells.items) c.nodes.items c.kept.items
        c.places.keys };
}

/// Appends a node. After `Memory` nothing changed.
fn append(nodes: &mut Vec<Node>, node: Node) -> Result<(), Memory>
    ensures ok { OnOk result (nodes.new.items ≡ nodes.old.items ++ node ∷ []) }
    ensures err { OnErr result (nodes.new.items ≡ nodes.old.items) }
{
    match nodes.push(node) {
        Ok(()) => Ok(()),
        Err(_) => Err(Memory),
    }
}

/// Appends a fact. After `Memory` nothing changed.
fn append_fact<D: Spelled>(kept: &mut Vec<Fact<D>>, fact: Fact<D>) -> Result<(), Memory>
    ensures ok { OnOk result (kept.new.items ≡ kept.old.items ++ fact ∷ []) }
    ensures err { OnErr result (kept.new.items ≡ kept.old.items) }
{
    match kept.push(fact) {
        Ok(()) => Ok(()),
        Err(_) => Err(Memory),
    }
}

/// Appends a node with a fact that isn't kept yet. After `Memory` nothing changed.
fn append_new<D: Spelled>(
    alloc: Global,
    nodes: &mut Vec<Node>,
    kept: &mut Vec<Fact<D>>,
    node: Node,
    fact: Given<'_, D>,
) -> Result<(), Memory>
    ensures nodes { OnOk result (nodes.new.items ≡ nodes.old.items ++ node ∷ []) }
    ensures kept { OnOk result (kept.new.items ≡ kept.old.items ++ given fact.entry ∷ []) }
    ensures same_nodes { OnErr result (nodes.new.items ≡ nodes.old.items) }
    ensures same_kept { OnErr result (kept.new.items ≡ kept.old.items) }
{
    let fact = fact.owned(alloc)?;
    append_fact(kept, fact)?;
    if append(nodes, node).is_err() {
        kept.pop();
        return Err(Memory);
    }
    Ok(())
}

impl<D: Spelled> CertOf<D> {
    /// The certificate of these cells and start nodes without a node. It takes nothing yet.
    pub fn new(alloc: Global, cells: Vec<Addr>, starts: Vec<u32>) -> CertOf<D>
        ensures { result ≡ record { cells = cells.items; starts = starts.items; nodes = [] } }
    {
        CertOf {
            alloc,
            cells,
            starts,
            nodes: Vec::new(alloc),
            kept: Vec::new(alloc),
            places: Places::new(alloc),
        }
    }

    /// The addresses of the tracked cells.
    pub fn cells(&self) -> &[Addr]
        ensures { result.now ≡ self.now.cells }
    {
        self.cells.as_slice()
    }

    /// The numbers of the start nodes.
    pub fn starts(&self) -> &[u32]
        ensures { result.now ≡ self.now.starts }
    {
        self.starts.as_slice()
    }

    /// How many nodes there are, at most 65,536. Its clause `limits` is what every certificate
    /// keeps.
    pub fn len(&self) -> u32
        ensures count { result ≡ length self.now.nodes }
        ensures few { result ≤ MOST_NODES }
        ensures limits { IsKeptCert self.now }
    {
        self.nodes.len() as u32
    }

    /// The address of a node, by its number.
    pub fn addr(&self, i: u32) -> Addr
        requires { i < length self.now.nodes }
        ensures { result ≡ (node_at self.now i).addr }
    {
        self.nodes[i as usize].addr
    }

    /// The numbers of a node's successors.
    pub fn succ(&self, i: u32) -> &[u32]
        requires { i < length self.now.nodes }
        ensures { result.now ≡ (node_at self.now i).succ }
    {
        self.nodes[i as usize].succ.as_slice()
    }

    /// The rank of a node.
    pub fn rank(&self, i: u32) -> Form
        requires { i < length self.now.nodes }
        ensures { result ≡ (node_at self.now i).rank }
    {
        self.nodes[i as usize].rank.form()
    }

    /// Is the node bare? Its one predecessor determines its fact.
    pub fn is_bare(&self, i: u32) -> bool
        requires { i < length self.now.nodes }
        ensures { result ≡ is_bare (node_at self.now i) }
    {
        self.nodes[i as usize].fact.is_none()
    }

    /// The fact of a node that isn't bare.
    pub fn fact(&self, i: u32) -> &Fact<D>
        requires within { i < length self.now.nodes }
        requires full { IsSome (node_at self.now i).fact }
        ensures { (node_at self.now i).fact ≡ Some result.now }
    {
        let number = self.nodes[i as usize].fact.unwrap_or(0);
        &self.kept[number as usize]
    }

    /// The facts that are kept: each distinct fact of the nodes once, in the order of first use.
    pub fn kept(&self) -> &[Fact<D>]
        ensures { result.now ≡ kept_facts (front SPELLED D.bytes) self.now.nodes }
    {
        self.kept.as_slice()
    }

    /// Appends a node with a fact over as many cells. After `Memory` the certificate is as before.
    pub fn push(
        &mut self,
        addr: Addr,
        fact: &Fact<D>,
        succ: Vec<u32>,
        rank: Form,
    ) -> Result<(), Memory>
        requires room { length self.old.nodes < MOST_NODES }
        requires cells { length fact.now.cells ≡ length self.old.cells }
        ensures ok { OnOk result (self.new ≡ with_node self.old
            (record { addr = addr; fact = Some fact.now; succ = succ.items; rank = rank })) }
        ensures err { OnErr result (self.new ≡ self.old) }
    {
        self.push_given(addr, Given::Lent(fact), succ, rank)
    }

    /// Appends a node with a fact, which is taken where it isn't kept yet.
    pub(crate) fn push_given(
        &mut self,
        addr: Addr,
        fact: Given<'_, D>,
        succ: Vec<u32>,
        rank: Form,
    ) -> Result<(), Memory>
        requires room { length self.old.nodes < MOST_NODES }
        requires cells { length (given fact).cells ≡ length self.old.cells }
        ensures ok { OnOk result (self.new ≡ with_node self.old
            (record { addr = addr; fact = Some (given fact.entry); succ = succ.items; rank = rank })) }
        ensures err { OnErr result (self.new ≡ self.old) }
    {
        addr.get();
        let key = key_of(self.alloc, fact.lent())?;
        let rank = Rank::new(self.alloc, rank)?;
        let place = enter(&mut self.places, key)?;
        let node = Node {
            addr,
            fact: Some(place.unwrap_or(self.kept.len() as u32)),
            succ,
            rank,
        };
        if place.is_some() {
            return append(&mut self.nodes, node);
        }
        if append_new(self.alloc, &mut self.nodes, &mut self.kept, node, fact).is_err() {
            leave(&mut self.places);
            return Err(Memory);
        }
        Ok(())
    }

    /// Appends a bare node. After `Memory` the certificate is as before.
    pub fn push_bare(&mut self, addr: Addr, succ: Vec<u32>, rank: Form) -> Result<(), Memory>
        requires { length self.old.nodes < MOST_NODES }
        ensures ok { OnOk result (self.new ≡ with_node self.old
            (record { addr = addr; fact = None; succ = succ.items; rank = rank })) }
        ensures err { OnErr result (self.new ≡ self.old) }
    {
        addr.get();
        let rank = Rank::new(self.alloc, rank)?;
        let node = Node {
            addr,
            fact: None,
            succ,
            rank,
        };
        append(&mut self.nodes, node)
    }
}
