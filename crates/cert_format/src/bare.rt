//! Which node is bare and may not be, told in one pass over all lists.
ghost use Rattle.std.specs.Prelude.{◌≡◌, ◌<◌, [], ◌∷◌, length, IfOk};
ghost use Rattle.cert_format.specs.Certificates.{node_at};
ghost use Rattle.cert_format.specs.Bare.{times, is_rightly_bare, first_bare};
ghost use Rattle.cert_format.specs.Marks.{weight, AreRaised, AreMarks};

use crate::cert::Cert;
use crate::limits::MOST_NODES;
use std::alloc::Global;
use viper_word::Memory;

/// Raises the mark of a number that a node lists: by 1 where the number is above the node's, else
/// by 2.
fn raise(marks: &mut Vec<u8>, from: u32, number: u32)
    ensures { AreRaised marks.old.items marks.new.items (λ i. weight from i (times i (number ∷ []))) }
{
    let by = if from < number { 1 } else { 2 };
    let i = number as usize;
    if i < marks.len() {
        marks[i] = marks[i].saturating_add(by);
    }
}

/// Raises the mark of each number that a node lists.
fn raise_all(marks: &mut Vec<u8>, from: u32, numbers: &[u32])
    ensures { AreRaised marks.old.items marks.new.items (λ i. weight from i (times i numbers.now)) }
{
    match numbers {
        [] => {}
        [first, rest @ ..] => {
            raise(marks, from, *first);
            raise_all(marks, from, rest);
        }
    }
}

/// The marks of all nodes: that of a node that may be bare is 1.
fn marks_of(alloc: Global, cert: &Cert) -> Result<Vec<u8>, Memory>
    ensures { IfOk result (λ m. AreMarks m.items cert.now) }
{
    let mut marks = vec![in alloc; 0u8; cert.len() as usize]?;
    raise_all(&mut marks, MOST_NODES, cert.starts());
    for i in 0..cert.len() {
        raise_all(&mut marks, i, cert.succ(i));
    }
    Ok(marks)
}

/// Is the node full, or may it be bare?
fn is_rightly_bare(cert: &Cert, marks: &[u8], i: u32) -> bool
    requires within { i < length cert.now.nodes }
    requires marks { AreMarks marks.now cert.now }
    ensures { result ≡ is_rightly_bare cert.now i (node_at cert.now i) }
{
    if cert.is_bare(i) {
        marks[i as usize] == 1
    } else {
        true
    }
}

/// The first node that is bare and may not be.
pub(crate) fn first_bare(alloc: Global, cert: &Cert) -> Result<Option<u32>, Memory>
    ensures { IfOk result (λ i. i ≡ first_bare cert.now) }
{
    let marks = marks_of(alloc, cert)?;
    for i in 0..cert.len() {
        if !is_rightly_bare(cert, marks.as_slice(), i) {
            return Ok(Some(i));
        }
    }
    Ok(None)
}
