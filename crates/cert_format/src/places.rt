//! Where each kept fact stands, by its bytes.
ghost use Rattle.std.specs.Prelude.{◌≡◌, ◌≤◌, ◌^◌, length, IfOk, OnOk, OnErr};
ghost use Rattle.cert_format.specs.Keeping.{Enters, LeavesLast};
ghost use Rattle.cert_format.specs.Spelling.{fact_bytes, front};
ghost use Rattle.cert_format.specs.Limits.{IsFact};
ghost use Rattle.cert_format.specs.declared.spelled.TheConstants.{SPELLED};

use crate::fact_bytes::FactBytes;
use crate::put::put_fact;
use crate::spelled::{SPELLED, Spelled};
use flag_relation::Fact;
use indexmap::IndexSet;
use std::alloc::{AllocError, Global};

/// The bytes of each fact, at its number.
pub(crate) type Places = IndexSet<FactBytes>;

/// The number of the fact with these bytes. Where it isn't kept yet they go in last, and there is
/// none. After an error nothing changed.
pub(crate) fn enter(places: &mut Places, key: FactBytes) -> Result<Option<u32>, AllocError>
    requires { length places.old.keys ≤ 2 ^ 32 }
    ensures ok { IfOk result (Enters places.old.keys places.new.keys key.bytes.items) }
    ensures err { OnErr result (places.new.keys ≡ places.old.keys) }
{
    let (number, is_new) = places.insert_full(key)?;
    if is_new {
        return Ok(None);
    }
    Ok(Some(number as u32))
}

/// Takes out the bytes that went in last.
pub(crate) fn leave(places: &mut Places)
    ensures { LeavesLast places.old.keys places.new.keys }
{
    places.pop();
}

/// The bytes of a fact, by which equal facts are found.
pub(crate) fn key_of<D: Spelled>(alloc: Global, fact: &Fact<D>) -> Result<FactBytes, AllocError>
    ensures bytes { IfOk result (λ k. k.bytes.items ≡ fact_bytes (front SPELLED D.bytes) fact.now) }
    ensures limits { OnOk result (IsFact (length fact.now.cells) fact.now) }
{
    let mut bytes = Vec::with_capacity(alloc, SPELLED * (fact.cells.len() + 3) + 4)?;
    put_fact(&mut bytes, fact, SPELLED)?;
    Ok(FactBytes { bytes })
}
