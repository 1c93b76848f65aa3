ghost use Rattle.std.specs.Prelude.{◌≡◌};

/// How a command ends (README.md, "Statuses and texts").
#[derive(Clone, Copy, Debug, PartialEq, Eq)]
pub enum Status {
    /// The work is done.
    Done = 0,
    /// It is refused, with its cause.
    Refused = 1,
    /// The words are no command.
    Usage = 2,
    /// A content is too long, or isn't of its form.
    Input = 3,
    /// A fetch, the place or the put failed.
    Outside = 4,
    /// An allocation found no memory.
    Memory = 5,
}

impl Status {
    ghost use Rattle.viper_top.specs.Endings.{status_number};

    /// The number that the program ends with, from 0 to 5.
    pub fn number(self) -> u8
        ensures { result ≡ status_number self }
    {
        self as u8
    }
}
