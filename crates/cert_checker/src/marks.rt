//! Which nodes may be bare, told in one pass over all lists.

ghost use Rattle.std.specs.Prelude.{◌≡◌, ◌<◌, [], ◌∷◌, length, IfOk};
ghost use Rattle.cert_format.specs.Bare.{times, may_be_bare};
ghost use Rattle.cert_format.specs.Marks.{weight, AreRaised, AreMarks};

use cert_format::{CertOf, MOST_NODES, Spelled};
use std::alloc::Global;
use viper_word::Memory;

/// Raises the mark of a number that a node lists: by 1 where the number is above the node's, else
/// by 2.
fn raise(marks: &mut Vec<u8>, from: u32, number: u32)
    ensures { AreRaised marks.old.items marks.new.items
        (λ i. weight from i (times i (number ∷ []))) }
{
    let by = if from < number { 1 } else { 2 };
    let i = number as usize;
    if i < marks.len() {
        marks[i] = marks[i].saturating_add(by);
    }
}

/// Raises the mark of each number that a node lists.
fn raise_all(marks: &mut Vec<u8>, from: u32, numbers: &[u32])
    ensures { AreRaised marks.old.items marks.new.items (λ i. weight from i (times i numbers.now)) }
{
    match numbers {
        [] => {}
        [first, rest @ ..] => {
            raise(marks, from, *first);
            raise_all(marks, from, rest);
        }
    }
}

/// The marks of all nodes: that of a node that may be bare is 1.
pub(crate) fn marks<D: Spelled>(alloc: Global, cert: &CertOf<D>) -> Result<Vec<u8>, Memory>
    ensures { IfOk result (λ m. AreMarks m.items cert.now) }
{
    let mut marks = vec![in alloc; 0u8; cert.len() as usize]?;
    raise_all(&mut marks, MOST_NODES, cert.starts());
    for i in 0..cert.len() {
        raise_all(&mut marks, i, cert.succ(i));
    }
    Ok(marks)
}

/// May the node of that number be bare?
pub(crate) fn may_be_bare<D: Spelled>(cert: &CertOf<D>, marks: &[u8], i: u32) -> bool
    requires marks { AreMarks marks.now cert.now }
    requires node { i < length cert.now.nodes }
    ensures { result ≡ may_be_bare cert.now i }
{
    marks[i as usize] == 1
}
