ghost use Rattle.std.specs.Prelude.{◌≡◌, option_map};
ghost use Rattle.viper_top.specs.Orders.{is_plain, order_in, loops_of, one_word, two_names, three_names, steps_of, four_words, target_of};
ghost use Rattle.viper_top.specs.Stages.{order_view};

use memory_plan::natural;
use sample_program::Loops;

/// How many digits a number of steps has at the most.
const STEPS_DIGITS: usize = 7;

/// How many digits a number of loops has at the most.
const LOOPS_DIGITS: usize = 4;

/// How many steps a run has at the most.
const MOST_STEPS: u64 = 1_000_000;

/// A command with the names that it is given (README.md, "Statuses and texts").
#[derive(Clone, Copy)]
pub enum Command<'a> {
    /// `check IMAGE PLAN CERT`
    Check {
        image: &'a str,
        plan: &'a str,
        cert: &'a str,
    },
    /// `certify IMAGE PLAN CERT`
    Certify {
        image: &'a str,
        plan: &'a str,
        cert: &'a str,
    },
    /// `run IMAGE PLAN SCRIPT STEPS`
    Run {
        image: &'a str,
        plan: &'a str,
        script: &'a str,
        steps: u64,
    },
    /// `upgrade IMAGE PLAN CERT NEW`
    Upgrade {
        image: &'a str,
        plan: &'a str,
        cert: &'a str,
        new: &'a str,
    },
    /// `assemble SRC IMAGE`
    Assemble {
        source: &'a str,
        image: &'a str,
    },
    /// `disasm IMAGE`
    Disasm {
        image: &'a str,
    },
    /// `sample N`
    Sample {
        loops: Loops,
    },
}

/// Is the word a name: not empty, and no option?
pub(crate) fn is_plain(word: &str) -> bool
    ensures { result ≡ is_plain word.now }
{
    match word.as_bytes() {
        [] => false,
        [first, ..] => *first != b'-',
    }
}

/// The command that the words are. None exactly where they are none.
pub fn command_of<'a>(words: &[&'a str]) -> Option<Command<'a>>
    ensures { option_map order_view result ≡ order_in words.now }
{
    match words {
        [word, a] if is_plain(a) => one_word(word, a),
        [word, a, b] if is_plain(a) && is_plain(b) => two_names(word, a, b),
        [word, a, b, c] if is_plain(a) && is_plain(b) && is_plain(c) => three_names(word, a, b, c),
        [word, a, b, c, d] if is_plain(a) && is_plain(b) && is_plain(c) => {
            four_words(word, a, b, c, d)
        }
        _ => None,
    }
}

/// A number of steps, from 1 to 1,000,000 in one to seven digits. None exactly where the word is none.
fn steps_of(word: &str) -> Option<u64>
    ensures { result ≡ steps_of word.now }
{
    if word.len() > STEPS_DIGITS {
        return None;
    }
    let steps = natural(word.as_bytes())?;
    if 1 <= steps && steps <= MOST_STEPS {
        Some(steps)
    } else {
        None
    }
}

/// The command of this word with three names, and a number of steps or a fourth name.
fn four_words<'a>(word: &str, a: &'a str, b: &'a str, c: &'a str, d: &'a str) -> Option<Command<'a>>
    ensures { option_map order_view result ≡ four_words word.now a.now b.now c.now d.now }
{
    match word {
        "run" => {
            let steps = steps_of(d)?;
            Some(Command::Run {
                image: a,
                plan: b,
                script: c,
                steps,
            })
        }
        "upgrade" if is_plain(d) => Some(Command::Upgrade {
            image: a,
            plan: b,
            cert: c,
            new: d,
        }),
        _ => None,
    }
}

/// A number of loops, from 1 to 1,000 in one to four digits. None exactly where the word is none.
fn loops_of(word: &str) -> Option<Loops>
    ensures { result ≡ loops_of word.now }
{
    if word.len() > LOOPS_DIGITS {
        return None;
    }
    Loops::new(natural(word.as_bytes())?)
}

/// The command of this word with one word behind it.
#[tactic(auto, unfolding(crate::specs::Orders::one_word))]
fn one_word<'a>(word: &str, a: &'a str) -> Option<Command<'a>>
    ensures { option_map order_view result ≡ one_word word.now a.now }
{
    match word {
        "disasm" => Some(Command::Disasm { image: a }),
        "sample" => Some(Command::Sample {
            loops: loops_of(a)?,
        }),
        _ => None,
    }
}

/// The command of this word with two names.
fn two_names<'a>(word: &str, a: &'a str, b: &'a str) -> Option<Command<'a>>
    ensures { option_map order_view result ≡ two_names word.now a.now b.now }
{
    match word {
        "assemble" => Some(Command::Assemble {
            source: a,
            image: b,
        }),
        _ => None,
    }
}

/// The command of this word with three names.
fn three_names<'a>(word: &str, a: &'a str, b: &'a str, c: &'a str) -> Option<Command<'a>>
    ensures { option_map order_view result ≡ three_names word.now a.now b.now c.now }
{
    match word {
        "check" => Some(Command::Check {
            image: a,
            plan: b,
            cert: c,
        }),
        "certify" => Some(Command::Certify {
            image: a,
            plan: b,
            cert: c,
        }),
        _ => None,
    }
}

impl<'a> Command<'a> {
    /// The name that it places.
    pub fn target(&self) -> Option<&'a str>
        ensures { option_map (λ n. n.now) result ≡ target_of (order_view self.now) }
    {
        match *self {
            Command::Check { .. }
            | Command::Run { .. }
            | Command::Disasm { .. }
            | Command::Sample { .. } => None,
            Command::Certify { cert, .. } => Some(cert),
            Command::Upgrade { new, .. } => Some(new),
            Command::Assemble { image, .. } => Some(image),
        }
    }
}
