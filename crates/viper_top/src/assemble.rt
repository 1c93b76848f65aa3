//! `assemble`: the image of a source, and its number of words.

ghost use Rattle.std.specs.Prelude.{◌≡◌, IfOk};
ghost use Rattle.viper_top.specs.Assemble.{words_text, assembled};
ghost use Rattle.viper_top.specs.Stages.{ending_of};

use crate::answer::Answer;
use line_text::LineText;
use memory_plan::{Image, write_image};
use std::alloc::Global;
use viper_word::Memory;

/// The line that says how many words an image has.
fn words_text(alloc: Global, image: &Image) -> Result<Vec<u8>, Memory>
    ensures { IfOk result (λ text. text.items ≡ words_text image.now) }
{
    let mut text = LineText::new(alloc);
    text.plain("words ")?;
    text.number(image.words().len() as u64)?;
    text.plain("\n")?;
    Ok(text.into_bytes())
}

/// How an assembly ends: the image's text is to be placed (README.md, "Statuses and texts").
pub fn write(alloc: Global, image: &Image) -> Result<Answer, Memory>
    ensures { IfOk result (λ a. ending_of a ≡ assembled image.now) }
{
    Ok(Answer::Made {
        bytes: write_image(alloc, image)?,
        text: words_text(alloc, image)?,
    })
}
