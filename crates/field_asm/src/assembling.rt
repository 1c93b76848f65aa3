//! From a source to its image.

ghost use Rattle.std.specs.Prelude.{◌≡◌, ◌+◌, ◌<◌, ◌^◌, length, IfOk, IfErr};
ghost use Rattle.field_asm.specs.Sources.{IsSource, IsSourceFault};
ghost use Rattle.field_asm.specs.Resolving.{IsRead, IsAdded};
ghost use Rattle.field_asm.specs.declared.fault.AsmFault.TheVariants as faults;
ghost use Rattle.field_asm.specs.Views.{line_view};

use crate::fault::{AsmFault, AsmRule};
use crate::so_far::SoFar;
use crate::source_line::Said;
use memory_plan::Image;
use std::alloc::Global;
use text_lines::Lines;
use viper_decode::{Fields, encode};

/// Adds to an image the word that a line says. False exactly where its label is unknown.
fn add_word(image: &mut Image, so_far: &SoFar<'_>, said: &Said<'_>) -> Result<bool, AsmFault>
    ensures added { IfOk result
        (IsAdded so_far.now.labels image.old (line_view said.now) image.new) }
    ensures memory { IfErr result (λ e. e ≡ faults.Memory) }
{
    match *said {
        Said::Names(..) => {}
        Said::Is(at, word) => {
            let _given = image.put(at, word)?;
        }
        Said::Refers(at, fields, text) => {
            let Some(field) = so_far.label(text) else {
                return Ok(false);
            };
            let _given = image.put(at, encode(Fields { field, ..fields }))?;
        }
    }
    Ok(true)
}

/// The image of a source, once all its labels are known. A fault is the first line with another one.
fn resolve(alloc: Global, so_far: &SoFar<'_>, source: &[u8]) -> Result<Image, AsmFault>
    requires size { length source.now + 1 < 2 ^ 32 }
    requires read { IsRead source.now so_far.now }
    ensures image { IfOk result (IsSource source.now) }
    ensures fault { IfErr result (IsSourceFault source.now) }
{
    let mut image = Image::new(alloc);
    let mut again = SoFar::new(alloc);
    let mut lines = Lines::kept(source);
    while let Some(line) = lines.next_line() {
        match again.judge(line.text) {
            Ok(said) => {
                if !add_word(&mut image, so_far, &said)? {
                    return Err(AsmFault::At {
                        line: line.number,
                        rule: AsmRule::Label,
                    });
                }
                again.add(&said)?;
            }
            Err(rule) => {
                return Err(AsmFault::At {
                    line: line.number,
                    rule,
                });
            }
        }
    }
    Ok(image)
}

/// Assembles a source (docs/FORMATS.md, "Sources"). A fault is the first line that breaks a rule,
/// with the first rule that it breaks; `Label` is looked for once no line breaks another.
pub fn assemble(alloc: Global, source: &[u8]) -> Result<Image, AsmFault>
    requires { length source.now + 1 < 2 ^ 32 }
    ensures image { IfOk result (IsSource source.now) }
    ensures fault { IfErr result (IsSourceFault source.now) }
{
    let mut so_far = SoFar::new(alloc);
    let mut lines = Lines::kept(source);
    while let Some(line) = lines.next_line() {
        match so_far.judge(line.text) {
            Ok(said) => so_far.add(&said)?,
            Err(rule) => {
                return Err(AsmFault::At {
                    line: line.number,
                    rule,
                });
            }
        }
    }
    resolve(alloc, &so_far, source)
}
