/// Which of the two machines a program runs on. They differ in two functions alone
/// (docs/MACHINE.md, "Profiles").
#[derive(Clone, Copy, Debug, PartialEq, Eq, PartialOrd, Ord, Hash)]
pub enum Profile {
    /// NEG wraps to a word, and the arithmetic right shift leaves B.
    One,
    /// NEG stops where no word has the result, and the arithmetic right shift puts the bit that
    /// falls out into B.
    Two,
}
