//! The names of the rules that a line or a field may break.

ghost use Rattle.std.specs.Prelude.{◌≡◌};
ghost use Rattle.viper_top.specs.Contents.{cert_rule, image_rule, plan_rule, script_rule, source_rule};

use cert_format::CertRule;
use field_asm::AsmRule;
use memory_plan::{ImageRule, PlanRule};
use peripheral_run::ScriptRule;

/// The name of an image's rule (docs/FORMATS.md, "Images").
pub fn image_rule(rule: ImageRule) -> &'static str
    ensures { result.now ≡ image_rule rule }
{
    match rule {
        ImageRule::Form => "Form",
        ImageRule::Order => "Order",
    }
}

/// The name of a plan's rule (docs/FORMATS.md, "Rules").
pub fn plan_rule(rule: PlanRule) -> &'static str
    ensures { result.now ≡ plan_rule rule }
{
    match rule {
        PlanRule::Form => "Form",
        PlanRule::Number => "Number",
        PlanRule::Order => "Order",
        PlanRule::Limit => "Limit",
        PlanRule::Span => "Span",
        PlanRule::Image => "Image",
        PlanRule::Code => "Code",
        PlanRule::Marker => "Marker",
        PlanRule::Start => "Start",
    }
}

/// The name of a certificate's rule (docs/FORMATS.md, "Certificates").
pub fn cert_rule(rule: CertRule) -> &'static str
    ensures { result.now ≡ cert_rule rule }
{
    match rule {
        CertRule::Length => "Length",
        CertRule::Magic => "Magic",
        CertRule::Version => "Version",
        CertRule::Range => "Range",
        CertRule::Order => "Order",
        CertRule::Value => "Value",
        CertRule::Trailing => "Trailing",
        CertRule::Bare => "Bare",
    }
}

/// The name of a script's rule (docs/FORMATS.md, "Scripts").
pub fn script_rule(rule: ScriptRule) -> &'static str
    ensures { result.now ≡ script_rule rule }
{
    match rule {
        ScriptRule::Form => "Form",
        ScriptRule::Start => "Start",
    }
}

/// The name of a source's rule (docs/FORMATS.md, "Sources").
pub fn source_rule(rule: AsmRule) -> &'static str
    ensures { result.now ≡ source_rule rule }
{
    match rule {
        AsmRule::Form => "Form",
        AsmRule::Name => "Name",
        AsmRule::Number => "Number",
        AsmRule::Twice => "Twice",
        AsmRule::Range => "Range",
        AsmRule::Label => "Label",
    }
}
