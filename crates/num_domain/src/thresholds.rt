ghost use Rattle.std.specs.Prelude.{◌≡◌, ◌≤ℤ◌, IfOk};
ghost use Rattle.std.specs.List.Sorted.{IsPermutation, IsSorted};
ghost use Rattle.std.specs.Ordering.{int_cmp};
ghost use Rattle.viper_word.specs.Words.{IsSigned};
ghost use Rattle.num_domain.specs.Rounding.{with_ends, below, above, IsThresholds};

use std::alloc::{AllocError, Global};
use std::marker::Model;
use viper_word::{GREATEST_SIGNED, LEAST_SIGNED, Memory, is_signed};

/// Numbers to round to, in ascending order. Both ends of the signed values are among them.
#[derive(Drop)]
pub struct Thresholds {
    numbers: Vec<i64>,
}

impl Model for Thresholds {
    ghost use Rattle.std.specs.Prelude.{List, ℤ};
    ghost use Rattle.num_domain.specs.Rounding.{IsThresholds};

    ghost Value = { List ℤ };

    ghost view = { λ t. t.numbers.items };

    ghost invariant = { λ t. IsThresholds t.numbers.items };
}

impl Thresholds {
    /// The numbers that a word can hold, sorted, with both ends of the signed values. Takes memory.
    pub fn new(alloc: Global, numbers: &[i64]) -> Result<Thresholds, Memory>
        ensures same { IfOk result (λ t. IsPermutation (with_ends numbers.now) t) }
        ensures sorted { IfOk result (IsSorted int_cmp) }
    {
        match gathered(alloc, numbers) {
            Ok(mut numbers) => {
                numbers.sort_unstable();
                Ok(Thresholds { numbers })
            }
            Err(_) => Err(Memory),
        }
    }

    /// The greatest threshold that is at most `n`.
    pub fn below(&self, n: i64) -> i64
        requires { IsSigned n }
        ensures { result ≡ below self.now n }
    {
        last_below(&self.numbers, n)
    }

    /// The least threshold that is at least `n`.
    pub fn above(&self, n: i64) -> i64
        requires { IsSigned n }
        ensures { result ≡ above self.now n }
    {
        first_above(&self.numbers, n)
    }
}

/// The last of the numbers that is at most `n`, by halving.
fn last_below(numbers: &[i64], n: i64) -> i64
    requires rising { IsThresholds numbers.now }
    requires in_range { IsSigned n }
    ensures { result ≡ below numbers.now n }
{
    let mut low = 0;
    let mut high = numbers.len() - 1;
    while low < high {
        let middle = high - (high - low) / 2;
        if numbers[middle] <= n {
            low = middle;
        } else {
            high = middle - 1;
        }
    }
    numbers[low]
}

/// The first of the numbers that is at least `n`, by halving.
fn first_above(numbers: &[i64], n: i64) -> i64
    requires rising { IsThresholds numbers.now }
    requires in_range { IsSigned n }
    ensures { result ≡ above numbers.now n }
{
    let mut low = 0;
    let mut high = numbers.len() - 1;
    while low < high {
        let middle = low + (high - low) / 2;
        if n <= numbers[middle] {
            high = middle;
        } else {
            low = middle + 1;
        }
    }
    numbers[low]
}

/// The numbers that a word can hold, and both ends of them.
fn gathered(alloc: Global, numbers: &[i64]) -> Result<Vec<i64>, AllocError>
    ensures { IfOk result (λ v. v.items ≡ with_ends numbers.now) }
{
    let mut kept = Vec::new(alloc);
    for n in numbers {
        if is_signed(*n) {
            kept.push(*n)?;
        }
    }
    kept.push(LEAST_SIGNED)?;
    kept.push(GREATEST_SIGNED)?;
    Ok(kept)
}

#[cfg(test)]
mod tests {
    use super::*;
    use std::test::Fail;

    #[test]
    fn rounds_to_the_nearest(rt: HostRuntime) -> Result<(), Fail> {
        let numbers = [7, -3, 5_000_000_000, 7];
        let thresholds = Thresholds::new(rt.alloc(), &numbers)
            .ok()
            .ok_or("no memory")?;
        assert_eq!(rt; thresholds.below(7), 7);
        assert_eq!(rt; thresholds.below(6), -3);
        assert_eq!(rt; thresholds.below(-4), LEAST_SIGNED);
        assert_eq!(rt; thresholds.above(-3), -3);
        assert_eq!(rt; thresholds.above(-2), 7);
        assert_eq!(rt; thresholds.above(8), GREATEST_SIGNED);
        Ok(())
    }
}
