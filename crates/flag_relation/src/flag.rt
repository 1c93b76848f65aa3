use crate::Atoms;

/// What is known of B.
#[derive(Clone, Copy)]
pub enum Flag {
    /// Nothing.
    Any,
    /// B is 1.
    One,
    /// B is 1 exactly where one of the comparisons holds; so without a comparison it is 0.
    Or(Atoms),
}
