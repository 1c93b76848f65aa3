ghost use Rattle.std.specs.Prelude.{◌≡◌, ◌++◌, IfOk, codes};
ghost use Rattle.viper_top.specs.declared.answer.Stop.TheVariants as stops;

use crate::status::Status;
use line_text::LineText;
use std::alloc::Global;
use viper_word::Memory;

/// How a command ends that no failure outside cut off (README.md, "Statuses and texts").
#[derive(Debug, Drop)]
pub enum Answer {
    /// The work is done, with this text.
    Done { text: Vec<u8> },
    /// The work is done: these bytes are to be placed, and then this text put.
    Made { bytes: Vec<u8>, text: Vec<u8> },
    /// The work is refused, with its cause.
    Refused { text: Vec<u8> },
    /// A content can't be read.
    Input { text: Vec<u8> },
}

/// Why there is no answer.
#[derive(Clone, Copy, Debug, PartialEq, Eq)]
pub enum Stop {
    /// A call of the store failed.
    Outside,
    /// An allocation found no memory.
    Memory,
}

impl From<Memory> for Stop {
    ghost from_gives = { λ _ e. e ≡ stops.Memory };

    fn from(_: Memory) -> Stop {
        Stop::Memory
    }
}

impl Answer {
    ghost use Rattle.viper_top.specs.Stages.{ending_of};
    ghost use Rattle.viper_top.specs.Endings.{input};
    ghost use Rattle.viper_top.specs.Contents.{line_text, offset_text};

    /// The line of a content with this title breaks a rule.
    #[tactic(auto, unfolding(crate::specs::Contents::line_text))]
    pub fn at_line(alloc: Global, title: &str, line: u32, rule: &str) -> Result<Answer, Memory>
        ensures { IfOk result (λ a. ending_of a ≡ input (line_text title.now line rule.now)) }
    {
        let mut text = LineText::new(alloc);
        text.plain(title)?;
        text.plain(" line ")?;
        text.number(line.into())?;
        text.plain(" ")?;
        text.plain(rule)?;
        text.plain("\n")?;
        Ok(Answer::input(text))
    }

    /// The field at this offset of a content with this title breaks a rule.
    #[tactic(auto, unfolding(crate::specs::Contents::offset_text))]
    pub fn at_offset(alloc: Global, title: &str, offset: u64, rule: &str) -> Result<Answer, Memory>
        ensures { IfOk result (λ a. ending_of a ≡ input (offset_text title.now offset rule.now)) }
    {
        let mut text = LineText::new(alloc);
        text.plain(title)?;
        text.plain(" offset ")?;
        text.number(offset)?;
        text.plain(" ")?;
        text.plain(rule)?;
        text.plain("\n")?;
        Ok(Answer::input(text))
    }

    /// A content with this title is over its limit.
    pub fn too_long(alloc: Global, title: &str) -> Result<Answer, Memory>
        ensures { IfOk result (λ a. ending_of a ≡ input (title.now ++ codes " long\n")) }
    {
        let mut text = LineText::new(alloc);
        text.plain(title)?;
        text.plain(" long\n")?;
        Ok(Answer::input(text))
    }

    /// A content can't be read, with this text.
    fn input(text: LineText) -> Answer
        ensures { ending_of result ≡ input text }
    {
        Answer::Input {
            text: text.into_bytes(),
        }
    }

    /// The status that it has.
    pub fn status(&self) -> Status
        ensures { result ≡ (ending_of self.now).status }
    {
        match self {
            Answer::Done { .. } | Answer::Made { .. } => Status::Done,
            Answer::Refused { .. } => Status::Refused,
            Answer::Input { .. } => Status::Input,
        }
    }

    /// The text that goes with it.
    pub fn text(&self) -> &[u8]
        ensures { result.now ≡ (ending_of self.now).text }
    {
        match self {
            Answer::Done { text } | Answer::Made { text, .. } => text.as_slice(),
            Answer::Refused { text } | Answer::Input { text } => text.as_slice(),
        }
    }
}
