ghost use Rattle.std.specs.Prelude.{IfOk};
ghost use Rattle.viper_top.specs.Commands.{Ends};
ghost use Rattle.viper_top.specs.Stages.{task_of, ending_of, MayBegin};

use crate::answer::Answer;
use crate::assemble::write;
use crate::certify::certify_plan;
use crate::check::judge;
use crate::disasm::list;
use crate::judged::Judged;
use crate::run::follow;
use crate::sample::sample;
use crate::upgrade::upgrade;
use memory_plan::{Image, Plan};
use peripheral_run::Script;
use sample_program::Loops;
use std::alloc::Global;
use viper_word::Memory;

/// What is to be done once all is read.
#[derive(Drop)]
pub enum Task {
    /// The certificate is judged over its plan.
    Check {
        judged: Judged,
    },
    /// The certificate is written anew.
    Upgrade {
        judged: Judged,
    },
    /// A certificate of the plan is searched for.
    Certify {
        plan: Plan,
    },
    /// So many steps are run over the script.
    Run {
        plan: Plan,
        script: Script,
        steps: u64,
    },
    /// The image of a source is written.
    Assemble {
        image: Image,
    },
    /// An image is listed.
    Disasm {
        image: Image,
    },
    /// A program of so many loops is certified.
    Sample {
        loops: Loops,
    },
}

/// Does it: how the command ends.
pub fn work(alloc: Global, task: Task) -> Result<Answer, Memory>
    requires { MayBegin task }
    ensures { IfOk result (λ a. Ends (task_of task) (ending_of a)) }
{
    match task {
        Task::Check { judged } => judge(alloc, &judged),
        Task::Upgrade { judged } => upgrade(alloc, &judged),
        Task::Certify { plan } => certify_plan(alloc, &plan),
        Task::Run {
            plan,
            script,
            steps,
        } => follow(alloc, &plan, &script, steps),
        Task::Assemble { image } => write(alloc, &image),
        Task::Disasm { image } => list(alloc, &image),
        Task::Sample { loops } => sample(alloc, loops),
    }
}
