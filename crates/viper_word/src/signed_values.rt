//! The operations of words on their signed values, as the exact rule of a domain takes them.
ghost use Rattle.std.specs.Prelude.{◌≡◌, ◌+ℤ◌, ◌-ℤ◌};
ghost use Rattle.viper_word.specs.Words.{IsSigned};
ghost use Rattle.viper_word.specs.Signed.{wrapped, signed_xor, signed_and, signed_nor, signed_and_not, halved, shifted_right, shifted_left};

/// The sum, wrapped to a word.
pub fn wrapped_sum(x: i64, y: i64) -> i64
    requires first { IsSigned x }
    requires second { IsSigned y }
    ensures value { result ≡ wrapped (x +ℤ y) }
    ensures in_range { IsSigned result }
{
    (x as i32).wrapping_add(y as i32) as i64
}

/// The difference, wrapped to a word.
pub fn wrapped_difference(x: i64, y: i64) -> i64
    requires first { IsSigned x }
    requires second { IsSigned y }
    ensures value { result ≡ wrapped (x -ℤ y) }
    ensures in_range { IsSigned result }
{
    (x as i32).wrapping_sub(y as i32) as i64
}

/// The bits in which both differ.
pub fn xor(x: i64, y: i64) -> i64
    requires first { IsSigned x }
    requires second { IsSigned y }
    ensures value { result ≡ signed_xor x y }
    ensures in_range { IsSigned result }
{
    (x as i32 ^ y as i32) as i64
}

/// The bits that both have.
pub fn and(x: i64, y: i64) -> i64
    requires first { IsSigned x }
    requires second { IsSigned y }
    ensures value { result ≡ signed_and x y }
    ensures in_range { IsSigned result }
{
    (x as i32 & y as i32) as i64
}

/// The bits that neither has.
pub fn nor(x: i64, y: i64) -> i64
    requires first { IsSigned x }
    requires second { IsSigned y }
    ensures value { result ≡ signed_nor x y }
    ensures in_range { IsSigned result }
{
    !(x as i32 | y as i32) as i64
}

/// The bits of the first that the second hasn't.
pub fn and_not(x: i64, y: i64) -> i64
    requires first { IsSigned x }
    requires second { IsSigned y }
    ensures value { result ≡ signed_and_not x y }
    ensures in_range { IsSigned result }
{
    (x as i32 & !(y as i32)) as i64
}

/// Half of the number, rounded down.
pub fn half(x: i64) -> i64
    ensures { result ≡ halved x }
{
    x.div_euclid(2)
}

/// Shifted right by one place, with `b` as the highest bit.
pub fn right_through(b: bool, x: i64) -> i64
    requires { IsSigned x }
    ensures value { result ≡ shifted_right b x }
    ensures in_range { IsSigned result }
{
    let low = (x as i32).cast_unsigned() / 2;
    if b {
        (low + 0x8000_0000).cast_signed() as i64
    } else {
        low.cast_signed() as i64
    }
}

/// Shifted left by one place, with `b` as the lowest bit.
pub fn left_through(b: bool, x: i64) -> i64
    requires { IsSigned x }
    ensures value { result ≡ shifted_left b x }
    ensures in_range { IsSigned result }
{
    let doubled = wrapped_sum(x, x);
    if b { wrapped_sum(doubled, 1) } else { doubled }
}
