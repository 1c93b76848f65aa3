ghost use Rattle.std.specs.Prelude.{◌≡◌, ℕ, List, length};

use num_domain::NumDomain;

/// How many bytes a value is spelled in.
pub const SPELLED: usize = 24;

/// A domain whose values have bytes of their own, by which equal facts are found. Values with equal
/// bytes are equal.
pub trait Spelled: NumDomain {
    /// The bytes of a value.
    ghost bytes: { Self → List ℕ };

    /// The bytes of the value as certificates have them, followed by zeros (docs/FORMATS.md,
    /// "Certificates").
    fn spell(&self) -> [u8; 24]
        ensures { result ≡ bytes self.now };

    ghost size: { (a : Self) → length (bytes a) ≡ 24 };

    ghost exact: { (a b : Self) → bytes a ≡ bytes b → a ≡ b };
}
