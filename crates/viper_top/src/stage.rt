ghost use Rattle.std.specs.Prelude.{◌≡◌, ◌<◌, ◌≤◌, length, IfOk};
ghost use Rattle.viper_top.specs.declared.stage.TheConstants.{IMAGE_LIMIT, PLAN_LIMIT, SCRIPT_LIMIT, SOURCE_LIMIT};
ghost use Rattle.viper_top.specs.Contents.{Image as image_kind, Plan as plan_kind, Cert as cert_kind, Script as script_kind, Source as source_kind};
ghost use Rattle.cert_format.specs.Limits.{IsWithinLimits};
ghost use Rattle.memory_plan.specs.WellFormed.{IsWellFormed};
ghost use Rattle.viper_top.specs.Works.{Does, Reads};
ghost use Rattle.viper_top.specs.Commands.{work_of, Runs, Assembles};
ghost use Rattle.viper_top.specs.Stages.{order_view, left, left_by, left_over, left_behind, count_left, IsSound, Follows, Asks, FitsIn, Took, TookIn, IsFewer};

use crate::answer::Answer;
use crate::command_line::Command;
use crate::judged::Judged;
use crate::rules::{cert_rule, image_rule, plan_rule, script_rule, source_rule};
use crate::task::Task;
use cert_format::{CertFault, read_cert};
use field_asm::{AsmFault, assemble};
use memory_plan::{Image, ImageFault, Plan, PlanFault, read_image, read_plan};
use peripheral_run::{ScriptFault, read_script};
use std::alloc::Global;
use viper_word::Memory;

/// How many bytes an image has at the most.
const IMAGE_LIMIT: u64 = 15_728_640;

/// How many bytes a plan has at the most.
const PLAN_LIMIT: u64 = 1_000_000;

/// How many bytes a certificate has at the most.
const CERT_LIMIT: u64 = 64_000_000;

/// How many bytes a script has at the most.
const SCRIPT_LIMIT: u64 = 16_000_000;

/// How many bytes a source has at the most.
const SOURCE_LIMIT: u64 = 33_554_432;

/// What is done with a certificate.
#[derive(Clone, Copy)]
pub enum OverCert {
    /// It is judged.
    Check,
    /// It is written anew.
    Upgrade,
}

/// What comes after a plan.
#[derive(Clone, Copy)]
pub enum OverPlan<'a> {
    /// A certificate.
    Cert { cert: &'a str, then: OverCert },
    /// Nothing more: a certificate is searched for.
    Certify,
    /// A script, over which so many steps are run.
    Script { script: &'a str, steps: u64 },
}

/// What comes after an image.
#[derive(Clone, Copy)]
pub enum OverImage<'a> {
    /// A plan over it.
    Plan { plan: &'a str, then: OverPlan<'a> },
    /// It is listed.
    List,
}

/// Which content is due, with what was read before.
#[derive(Drop)]
pub enum Stage<'a> {
    /// An image.
    Image {
        image: &'a str,
        then: OverImage<'a>,
    },
    /// A plan over its image.
    Plan {
        image: Image,
        plan: &'a str,
        then: OverPlan<'a>,
    },
    /// A certificate over its plan.
    Cert {
        plan: Plan,
        cert: &'a str,
        then: OverCert,
    },
    /// A script over its plan.
    Script {
        plan: Plan,
        script: &'a str,
        steps: u64,
    },
    /// A source, of which the image is written.
    Source {
        source: &'a str,
    },
}

/// How a command goes on.
#[derive(Drop)]
pub enum Next<'a> {
    /// One more content is due.
    Due(Stage<'a>),
    /// All is read, and this is to be done.
    Ready(Task),
    /// A content can't be read, and it is over.
    Over(Answer),
}

/// A content that is asked for: its name, its limit in bytes, and what texts call it.
#[derive(Clone, Copy)]
pub struct Asked<'a> {
    pub name: &'a str,
    pub limit: u64,
    pub title: &'static str,
}

/// The stage of a plan over its image, and what comes after it.
fn over_plan<'a>(image: &'a str, plan: &'a str, then: OverPlan<'a>) -> Stage<'a>
    ensures { left result ≡ Reads image_kind image.now (λ words. Reads (plan_kind words) plan.now
        (left_over then.entry)) }
{
    Stage::Image {
        image,
        then: OverImage::Plan { plan, then },
    }
}

/// How a command begins.
pub fn begin<'a>(command: &Command<'a>) -> Next<'a>
    ensures follows { Follows (work_of (order_view command.now)) result }
    ensures sound { IsSound result }
{
    match *command {
        Command::Check { image, plan, cert } => Next::Due(over_plan(
            image,
            plan,
            OverPlan::Cert {
                cert,
                then: OverCert::Check,
            },
        )),
        Command::Certify { image, plan, .. } => {
            Next::Due(over_plan(image, plan, OverPlan::Certify))
        }
        Command::Run {
            image,
            plan,
            script,
            steps,
        } => Next::Due(over_plan(image, plan, OverPlan::Script { script, steps })),
        Command::Upgrade {
            image,
            plan,
            cert,
            ..
        } => Next::Due(over_plan(
            image,
            plan,
            OverPlan::Cert {
                cert,
                then: OverCert::Upgrade,
            },
        )),
        Command::Assemble { source, .. } => Next::Due(Stage::Source { source }),
        Command::Disasm { image } => Next::Due(Stage::Image {
            image,
            then: OverImage::List,
        }),
        Command::Sample { loops } => Next::Ready(Task::Sample { loops }),
    }
}

/// An image was handed out.
fn take_image<'a>(alloc: Global, bytes: &[u8], then: OverImage<'a>) -> Result<Next<'a>, Memory>
    requires { length bytes.now ≤ IMAGE_LIMIT }
    ensures took { IfOk result (Took image_kind (left_behind then.entry) bytes.now) }
    ensures fewer { IfOk result (IsFewer 3) }
    ensures sound { IfOk result IsSound }
{
    match read_image(alloc, bytes) {
        Ok(image) => Ok(after_image(image, then)),
        Err(ImageFault::At { line, rule }) => {
            let answer = Answer::at_line(alloc, "image", line, image_rule(rule))?;
            Ok(Next::Over(answer))
        }
        Err(ImageFault::Memory) => Err(Memory),
    }
}

/// What comes after an image that was read.
fn after_image<'a>(image: Image, then: OverImage<'a>) -> Next<'a>
    ensures follows { Follows (left_behind then.entry image) result }
    ensures fewer { IsFewer 3 result }
    ensures sound { IsSound result }
{
    match then {
        OverImage::Plan { plan, then } => Next::Due(Stage::Plan { image, plan, then }),
        OverImage::List => Next::Ready(Task::Disasm { image }),
    }
}

/// A plan was handed out.
fn take_plan<'a>(
    alloc: Global,
    bytes: &[u8],
    image: &Image,
    then: OverPlan<'a>,
) -> Result<Next<'a>, Memory>
    requires { length bytes.now ≤ PLAN_LIMIT }
    ensures took { IfOk result (Took (plan_kind image.now) (left_over then.entry) bytes.now) }
    ensures fewer { IfOk result (IsFewer 2) }
    ensures sound { IfOk result IsSound }
{
    match read_plan(alloc, bytes, image) {
        Ok(plan) => Ok(after_plan(plan, then)),
        Err(PlanFault::At { line, rule }) => {
            let answer = Answer::at_line(alloc, "plan", line, plan_rule(rule))?;
            Ok(Next::Over(answer))
        }
        Err(PlanFault::Memory) => Err(Memory),
    }
}

/// What comes after a plan that was read.
fn after_plan<'a>(plan: Plan, then: OverPlan<'a>) -> Next<'a>
    requires { IsWellFormed plan }
    ensures follows { Follows (left_over then.entry plan) result }
    ensures fewer { IsFewer 2 result }
    ensures sound { IsSound result }
{
    match then {
        OverPlan::Cert { cert, then } => Next::Due(Stage::Cert { plan, cert, then }),
        OverPlan::Certify => Next::Ready(Task::Certify { plan }),
        OverPlan::Script { script, steps } => Next::Due(Stage::Script {
            plan,
            script,
            steps,
        }),
    }
}

/// A certificate was handed out.
fn take_cert<'a>(
    alloc: Global,
    bytes: &[u8],
    plan: Plan,
    then: OverCert,
) -> Result<Next<'a>, Memory>
    ensures took { IfOk result (Took cert_kind (λ c. Does (left_by then plan c)) bytes.now) }
    ensures fewer { IfOk result (IsFewer 1) }
    ensures sound { IfOk result IsSound }
{
    match read_cert(alloc, bytes) {
        Ok(cert) => Ok(after_cert(Judged { plan, cert }, then)),
        Err(CertFault::At { offset, rule }) => {
            let answer = Answer::at_offset(alloc, "cert", offset, cert_rule(rule))?;
            Ok(Next::Over(answer))
        }
        Err(CertFault::Memory) => Err(Memory),
    }
}

/// What comes after a certificate that was read.
fn after_cert<'a>(judged: Judged, then: OverCert) -> Next<'a>
    requires { IsWithinLimits judged.cert }
    ensures follows { Follows (Does (left_by then judged.plan judged.cert)) result }
    ensures fewer { IsFewer 1 result }
    ensures sound { IsSound result }
{
    match then {
        OverCert::Check => Next::Ready(Task::Check { judged }),
        OverCert::Upgrade => Next::Ready(Task::Upgrade { judged }),
    }
}

/// A script was handed out.
fn take_script<'a>(alloc: Global, bytes: &[u8], plan: Plan, steps: u64) -> Result<Next<'a>, Memory>
    requires { length bytes.now ≤ SCRIPT_LIMIT }
    ensures took { IfOk result (Took (script_kind plan)
        (λ s. Does (Runs plan s steps)) bytes.now) }
    ensures fewer { IfOk result (IsFewer 1) }
    ensures sound { IfOk result IsSound }
{
    match read_script(alloc, bytes, &plan) {
        Ok(script) => Ok(Next::Ready(Task::Run {
            plan,
            script,
            steps,
        })),
        Err(ScriptFault::At { line, rule }) => {
            let answer = Answer::at_line(alloc, "script", line, script_rule(rule))?;
            Ok(Next::Over(answer))
        }
        Err(ScriptFault::Memory) => Err(Memory),
    }
}

/// A source was handed out.
fn take_source<'a>(alloc: Global, bytes: &[u8]) -> Result<Next<'a>, Memory>
    requires { length bytes.now ≤ SOURCE_LIMIT }
    ensures took { IfOk result (Took source_kind (λ words. Does (Assembles words)) bytes.now) }
    ensures fewer { IfOk result (IsFewer 1) }
    ensures sound { IfOk result IsSound }
{
    match assemble(alloc, bytes) {
        Ok(image) => Ok(Next::Ready(Task::Assemble { image })),
        Err(AsmFault::At { line, rule }) => {
            let answer = Answer::at_line(alloc, "source", line, source_rule(rule))?;
            Ok(Next::Over(answer))
        }
        Err(AsmFault::Memory) => Err(Memory),
    }
}

impl<'a> Stage<'a> {
    /// The content that is due.
    pub fn asked(&self) -> Asked<'_>
        ensures { Asks (left self.now) result.name.now result.limit result.title.now }
    {
        match self {
            Stage::Image { image, .. } => Asked {
                name: image,
                limit: IMAGE_LIMIT,
                title: "image",
            },
            Stage::Plan { plan, .. } => Asked {
                name: plan,
                limit: PLAN_LIMIT,
                title: "plan",
            },
            Stage::Cert { cert, .. } => Asked {
                name: cert,
                limit: CERT_LIMIT,
                title: "cert",
            },
            Stage::Script { script, .. } => Asked {
                name: script,
                limit: SCRIPT_LIMIT,
                title: "script",
            },
            Stage::Source { source } => Asked {
                name: source,
                limit: SOURCE_LIMIT,
                title: "source",
            },
        }
    }

    /// Takes the bytes that were handed out: what they spell goes on, and what breaks their grammar
    /// ends the command.
    pub fn take(self, alloc: Global, bytes: &[u8]) -> Result<Next<'a>, Memory>
        requires { FitsIn (left self) bytes.now }
        ensures took { IfOk result (TookIn (left self.entry) bytes.now) }
        ensures fewer { IfOk result (IsFewer (count_left self.entry)) }
        ensures sound { IfOk result IsSound }
    {
        match self {
            Stage::Image { then, .. } => take_image(alloc, bytes, then),
            Stage::Plan { image, then, .. } => take_plan(alloc, bytes, &image, then),
            Stage::Cert { plan, then, .. } => take_cert(alloc, bytes, plan, then),
            Stage::Script { plan, steps, .. } => take_script(alloc, bytes, plan, steps),
            Stage::Source { .. } => take_source(alloc, bytes),
        }
    }
}
