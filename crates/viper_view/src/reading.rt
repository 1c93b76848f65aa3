//! The contents of a view, each fetched once, with the limits and the texts of viper (README.md,
//! "Statuses and texts").

ghost use Rattle.std.specs.Prelude.{◌≤◌, length, IfOk};
ghost use Rattle.memory_plan.specs.WellFormed.{IsWellFormed};
ghost use Rattle.cert_format.specs.Limits.{IsWithinLimits};

use crate::answer::Stop;
use cert_format::{Cert, CertFault, read_cert};
use memory_plan::{Image, ImageFault, Plan, PlanFault, read_image, read_plan};
use std::alloc::{AllocError, Global};
use std::fmt::Debug;
use viper_io::{FetchFault, Store};

/// How many bytes an image has at the most.
const IMAGE_LIMIT: u64 = 15_728_640;

/// How many bytes a plan has at the most.
const PLAN_LIMIT: u64 = 1_000_000;

/// How many bytes a certificate has at the most.
const CERT_LIMIT: u64 = 64_000_000;

/// The bytes under a name; texts call the content by its title.
fn bytes_of<S: Store>(
    alloc: Global,
    store: &mut S,
    name: &str,
    limit: u64,
    title: &'static str,
) -> Result<Vec<u8>, Stop>
    ensures { IfOk result (λ v. length v.items ≤ limit) }
{
    match store.fetch(alloc, name, limit) {
        Ok(bytes) => Ok(bytes),
        Err(FetchFault::Long) => Err(Stop::Input(format!(in alloc; "{title} long\n")?)),
        Err(FetchFault::Failed) => Err(Stop::Outside),
        Err(FetchFault::Memory) => Err(Stop::Memory),
    }
}

/// A line of a content breaks a rule, which is told by its name.
fn at_line<R: Debug + Drop>(
    alloc: Global,
    title: &str,
    line: u32,
    rule: R,
) -> Result<Stop, AllocError> {
    Ok(Stop::Input(format!(in alloc; "{title} line {line} {rule:?}\n")?))
}

/// The image under a name.
fn image_of<S: Store>(alloc: Global, store: &mut S, name: &str) -> Result<Image, Stop> {
    let bytes = bytes_of(alloc, store, name, IMAGE_LIMIT, "image")?;
    match read_image(alloc, &bytes) {
        Ok(image) => Ok(image),
        Err(ImageFault::At { line, rule }) => { Err(at_line(alloc, "image", line, rule)?) }
        Err(ImageFault::Memory) => Err(Stop::Memory),
    }
}

/// The plan under a name, over the image under another: the image is read and judged first.
pub fn program_of<S: Store>(
    alloc: Global,
    store: &mut S,
    image: &str,
    plan: &str,
) -> Result<Plan, Stop>
    ensures { IfOk result IsWellFormed }
{
    let image = image_of(alloc, store, image)?;
    let bytes = bytes_of(alloc, store, plan, PLAN_LIMIT, "plan")?;
    match read_plan(alloc, &bytes, &image) {
        Ok(plan) => Ok(plan),
        Err(PlanFault::At { line, rule }) => Err(at_line(alloc, "plan", line, rule)?),
        Err(PlanFault::Memory) => Err(Stop::Memory),
    }
}

/// The certificate under a name.
pub fn cert_of<S: Store>(alloc: Global, store: &mut S, name: &str) -> Result<Cert, Stop>
    ensures { IfOk result IsWithinLimits }
{
    let bytes = bytes_of(alloc, store, name, CERT_LIMIT, "cert")?;
    match read_cert(alloc, &bytes) {
        Ok(cert) => Ok(cert),
        Err(CertFault::At { offset, rule }) => {
            Err(Stop::Input(format!(in alloc; "cert offset {offset} {rule:?}\n")?))
        }
        Err(CertFault::Memory) => Err(Stop::Memory),
    }
}
