//! The words of a sample, and the image of them.

ghost use Rattle.std.specs.Prelude.{◌≡◌, ◌≤◌, ◌*◌, ◌+◌, ◌^◌, ◌<◌, ◌++◌, ◌∷◌, [], List, ℕ, length, IfOk, OnOk};
ghost use Rattle.memory_plan.specs.Images.{numbers};
ghost use Rattle.sample_program.specs.Samples.{loop_words, loops_words, sample_words, placed, procedure_of};

use crate::loops::Loops;
use memory_plan::Image;
use std::alloc::{AllocError, Global};
use viper_word::{Addr, Memory, Word};

/// How many words a loop has, with the call behind it.
pub(crate) const LOOP_WORDS: u32 = 5;

/// `READ A LIT A 0000A`: A becomes 10.
const SET_TEN: u32 = 0x0030_000A;

/// `SUBS A LIT A 00001`: one is taken from A.
const TAKE_ONE: u32 = 0x0070_0001;

/// `EQ A LIT A 00000`: is A zero?
const IS_ZERO: u32 = 0x0120_0000;

/// `READ A LIT PN` and an address: it goes there where the answer was no.
const GO_UNLESS: u32 = 0x0A30_0000;

/// `CALL A LIT P` and an address: the procedure there is called.
const CALL: u32 = 0x0610_0000;

/// `READ A LIT P 00000`: it goes to address 0.
const GO_TO_START: u32 = 0x0630_0000;

/// `ADDS Y LIT P 00000`: it goes back to the caller.
const GO_BACK: u32 = 0x8650_0000;

/// Appends the words of the loop at this address, behind which the procedure is called.
fn push_loop(words: &mut Vec<Word>, at: u32, procedure: u32) -> Result<(), AllocError>
    requires at { at + 1 < 2 ^ 20 }
    requires procedure { procedure < 2 ^ 20 }
    ensures { OnOk result (numbers words.new.items
        ≡ numbers words.old.items ++ loop_words procedure at) }
{
    words.push(Word(SET_TEN))?;
    words.push(Word(TAKE_ONE))?;
    words.push(Word(IS_ZERO))?;
    words.push(Word(GO_UNLESS + (at + 1)))?;
    words.push(Word(CALL + procedure))?;
    Ok(())
}

/// The words of a sample, from address 0 on.
fn sample_words(alloc: Global, loops: Loops) -> Result<Vec<Word>, AllocError>
    ensures { IfOk result (λ words. numbers words.items ≡ sample_words loops) }
{
    let count = loops.get() as u32;
    let procedure = LOOP_WORDS * count + 1;
    let mut words = Vec::new(alloc);
    for i in 0..count {
        push_loop(&mut words, LOOP_WORDS * i, procedure)?;
    }
    words.push(Word(GO_TO_START))?;
    words.push(Word(GO_BACK))?;
    Ok(words)
}

/// Puts a word behind so many others, which stand from address 0 on.
#[tactic(auto, using(crate::proofs::Placed::put_on))]
fn put_next(image: &mut Image, count: u32, word: Word) -> Result<(), Memory>
    requires { count < 2 ^ 20 }
    ensures { (words : List ℕ) → length words ≡ count → image.old ≡ placed 0 words
        → OnOk result (image.new ≡ placed 0 (words ++ word.0 ∷ [])) }
{
    image.put(Addr::new(count).unwrap(), word)?;
    Ok(())
}

/// The image with a word at each address from 0 on.
fn image_of(alloc: Global, words: &[Word]) -> Result<Image, Memory>
    requires { length words.now ≤ 2 ^ 20 }
    ensures { IfOk result (λ image. image ≡ placed 0 (numbers words.now)) }
{
    let mut image = Image::new(alloc);
    for i in 0..words.len() {
        put_next(&mut image, i as u32, words[i])?;
    }
    Ok(image)
}

/// The image of a sample.
#[tactic(auto, using(crate::proofs::PlanReading::words_few))]
pub(crate) fn sample_image(alloc: Global, loops: Loops) -> Result<Image, Memory>
    ensures { IfOk result (λ image. image ≡ placed 0 (sample_words loops)) }
{
    let words = sample_words(alloc, loops)?;
    image_of(alloc, &words)
}
