ghost use Rattle.std.specs.Prelude.{◌<◌, length, IfOk};
ghost use Rattle.memory_plan.specs.WellFormed.{IsWellFormed};

use super::*;
use abs_step::Cond;
use cert_checker::Bound;
use cert_format::write_cert;
use flag_relation::{Reg, Var};
use memory_plan::{Plan, read_image, read_plan};
use std::alloc::Global;
use std::test::Fail;
use val_dom::Val;
use viper_word::Addr;

/// The plan over the image.
fn plan_of(alloc: Global, image: &[u8], plan: &[u8]) -> Result<Plan, Fail>
    requires image { length image.now < 4096 }
    requires plan { length plan.now < 4096 }
    ensures { IfOk result IsWellFormed }
{
    let image = read_image(alloc, image)?;
    Ok(read_plan(alloc, plan, &image)?)
}

/// A jump to itself at a marker, and its certificate: one full node of rank 1.
const STILL: &[u8] = b"00000 06300000\n";

const STILL_PLAN: &[u8] = b"code 00000 00000\nmarker 00000\nstart 00000 any any any any\n";

const STILL_BYTES: [u8; 86] = [
    0x56, 0x53, 0x42, 0x43, 2, 0, 0, 0, 0, 1, 1, 0, 0, 0, 0, 0, 0, 0, 0, 0, 0x80, 0, 0, 0, 0x7F,
    0xFF, 0xFF, 0xFF, 0, 0, 0, 1, 0, 0, 0, 0, 0x80, 0, 0, 0, 0x7F, 0xFF, 0xFF, 0xFF, 0, 0, 0, 1, 0,
    0, 0, 0, 0x80, 0, 0, 0, 0x7F, 0xFF, 0xFF, 0xFF, 0, 0, 0, 1, 0, 0, 0, 0, 0xFF, 0xFF, 0xFF, 6, 1,
    0, 0, 0, 0, 0, 0, 0, 0, 0, 0, 0, 1, 0,
];

#[test]
fn the_smallest_certificate(rt: HostRuntime) -> Result<(), Fail> {
    let alloc = rt.alloc();
    let plan = plan_of(alloc, STILL, STILL_PLAN)?;
    let Ok(certified) = certify::<Val>(alloc, &plan) else {
        return Err("no certificate")?;
    };
    let bytes = write_cert(alloc, &certified.cert)?;
    assert!(rt; bytes.as_slice() == STILL_BYTES.as_slice());
    Ok(())
}

/// A countdown of A from ten.
const COUNTDOWN: &[u8] =
    b"00000 0030000A\n00001 00700001\n00002 01200000\n00003 0A300001\n00004 06300000\n";

const COUNTDOWN_PLAN: &[u8] = b"code 00000 00004\nmarker 00000\nstart 00000 any any any any\n";

/// The facts of nodes 2, 3 and 4 follow from the node before that lists them. Node 1 is listed twice.
#[test]
fn a_countdown_is_certified(rt: HostRuntime) -> Result<(), Fail> {
    let alloc = rt.alloc();
    let plan = plan_of(alloc, COUNTDOWN, COUNTDOWN_PLAN)?;
    let Ok(certified) = certify::<Val>(alloc, &plan) else {
        return Err("no certificate")?;
    };
    let cert = &certified.cert;
    assert!(rt; cert.len() == 5);
    assert!(rt; cert.starts() == [0].as_slice());
    assert!(rt; cert.is_bare(2) && cert.is_bare(3) && cert.is_bare(4));
    assert!(rt; !cert.is_bare(0) && !cert.is_bare(1));
    assert!(rt; cert.succ(3) == [1, 4].as_slice());
    assert!(rt; cert.rank(3).constant() == 3);
    assert!(rt; cert.rank(3).terms() == [(Var::Reg(Reg::A), 3)].as_slice());
    let Some((marker, bound)) = certified.bounds.first() else {
        return Err("no marker")?;
    };
    assert!(rt; marker.get() == 0 && *bound == Bound::Within(33));
    Ok(())
}

/// The address and the condition that are named.
fn undischarged(fault: &CertifyFault) -> Option<(Addr, Cond)> {
    match fault {
        CertifyFault::Undischarged(key, cond) => Some((key.addr, *cond)),
        _ => None,
    }
}

/// A is a start's, and A plus 1 passes the greatest word.
#[test]
fn a_sum_that_passes_a_word(rt: HostRuntime) -> Result<(), Fail> {
    let alloc = rt.alloc();
    let plan = plan_of(
        alloc,
        b"00000 00500001\n00001 00300000\n00002 06300000\n",
        b"code 00000 00002\nmarker 00000\nstart 00000 0..2147483647 any any any\n",
    )?;
    let Err(fault) = certify::<Val>(alloc, &plan) else {
        return Err("no refusal")?;
    };
    let Some((addr, cond)) = undischarged(&fault) else {
        return Err("another refusal")?;
    };
    assert!(rt; addr.get() == 0 && cond == Cond::C4);
    Ok(())
}

/// The loop at 1 has no marker.
#[test]
fn a_loop_that_nothing_ranks(rt: HostRuntime) -> Result<(), Fail> {
    let alloc = rt.alloc();
    let plan = plan_of(
        alloc,
        b"00000 06300001\n00001 06300001\n",
        b"code 00000 00001\nmarker 00000\nstart 00000 any any any any\n",
    )?;
    let Err(CertifyFault::Unranked(edges)) = certify::<Val>(alloc, &plan) else {
        return Err("no refusal")?;
    };
    assert!(rt; edges.len() == 1);
    Ok(())
}
