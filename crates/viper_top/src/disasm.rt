//! `disasm`: the listing of an image.

ghost use Rattle.std.specs.Prelude.{◌≡◌, IfOk};
ghost use Rattle.viper_top.specs.Disasm.{listed};
ghost use Rattle.viper_top.specs.Stages.{ending_of};

use crate::answer::Answer;
use disasm_view::listing;
use memory_plan::Image;
use std::alloc::Global;
use viper_word::Memory;

/// How a listing ends: the listing is put (README.md, "Statuses and texts").
pub fn list(alloc: Global, image: &Image) -> Result<Answer, Memory>
    ensures { IfOk result (λ a. ending_of a ≡ listed image.now) }
{
    Ok(Answer::Done {
        text: listing(alloc, image)?,
    })
}
