//! What the definitions say of a script's text, and of the run over a script.

ghost use Rattle.std.specs.Prelude.{ℕ, List};
ghost use Rattle.viper_word.specs.Machine.{State};
ghost use Rattle.text_lines.specs.Reading.{HasOneReading};
ghost use Rattle.memory_plan.specs.Plans.{PlanLines};
ghost use Rattle.peripheral_run.specs.Scripts.{Scripted, IsScript, script_fault};
ghost use Rattle.peripheral_run.specs.ScriptRuns.{RunsFromStart, RunsOfScript};

/// Over a plan, a text is that of one script at the most, and else it has one first fault
/// (docs/FORMATS.md, "Scripts").
pub fn one_script()
    ensures { (plan : PlanLines) (text : List ℕ)
        → HasOneReading (IsScript plan text) (script_fault plan text) }
{}

/// Over a well-formed plan, a run over a script is one of the plan's runs: each state comes of the one
/// before it by one instruction, with a fair answer. Its first state is a start of the plan, also the
/// one that a script's text gives.
pub fn runs_are_the_plans()
    ensures from_a_start { (plan : PlanLines) (steps : ℕ) (script : List ℕ) (start : State)
        → RunsFromStart plan steps script start }
    ensures of_a_script { (plan : PlanLines) (text : List ℕ) (script : Scripted) (steps : ℕ)
        → RunsOfScript plan text script steps }
{}
