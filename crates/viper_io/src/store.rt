ghost use Rattle.std.specs.Prelude.{◌≡◌, ◌≢◌, ◌≤◌, ◌<◌, ◌++◌, ℕ, true, List, length, IfOk, IfErr, IsSomeAnd, OnOk};
ghost use Rattle.viper_io.specs.Causes.{Stock, handed_by, failed_fetch, failed_place, longs_after, SameContents, HoldsWhereTold};

use crate::{FetchFault, PlaceFault};
use std::alloc::Global;

/// Contents under names.
///
/// A store may tell what it holds, as one in memory does, or not, as one over files. It keeps the
/// list of its calls that failed, the count of contents that were too long, up to 2^64 - 1, and,
/// in proofs alone, the list of what its fetches handed out. A call adds to these what its answer
/// says, and nothing else: each failure is one entry, of that call and its name.
pub trait Store {
    /// What the store tells of its contents, and what it keeps of its calls.
    ghost stock: { Self → Stock };

    /// The content of a name, of at most `limit` bytes.
    ///
    /// `Failed` comes with an entry in the failures. `Long` raises the count of long contents,
    /// and where the store tells, the content is over the limit. `Memory` leaves all as it was.
    /// Whatever the answer, each name holds what it held.
    fn fetch(&mut self, alloc: Global, name: &str, limit: u64) -> Result<Vec<u8>, FetchFault>
        ensures content { IfOk result (λ v.
            HoldsWhereTold (stock self.old).tells ((stock self.old).holds name.now) v.items) }
        ensures within { IfOk result (λ v. length v.items ≤ limit) }
        ensures too_long { IfErr result (λ e. e ≡ FetchFault.Long → (stock self.old).tells ≡ true
            → IsSomeAnd ((stock self.old).holds name.now) (λ c. limit < length c)) }
        ensures same { SameContents (stock self.old) (stock self.new) }
        ensures tells { (stock self.new).tells ≡ (stock self.old).tells }
        ensures handed { (stock self.new).handed
            ≡ (stock self.old).handed ++ handed_by (λ v. v.items) name.now limit result }
        ensures failures { (stock self.new).failures
            ≡ (stock self.old).failures ++ failed_fetch name.now result }
        ensures longs { (stock self.new).longs ≡ longs_after (stock self.old).longs result }
        ensures rising { (stock self.old).longs ≤ (stock self.new).longs };

    /// Makes a name hold the bytes. All other names hold what they held.
    ///
    /// `Failed` comes with an entry in the failures, and says nothing of what the name then holds.
    /// After `Memory` it holds what it held.
    fn place(&mut self, name: &str, bytes: &[u8]) -> Result<(), PlaceFault>
        ensures ok { OnOk result
            (HoldsWhereTold (stock self.new).tells ((stock self.new).holds name.now) bytes.now) }
        ensures memory { IfErr result (λ e. e ≡ PlaceFault.Memory
            → (stock self.new).holds name.now ≡ (stock self.old).holds name.now) }
        ensures others { (other : List ℕ) → other ≢ name.now
            → (stock self.new).holds other ≡ (stock self.old).holds other }
        ensures tells { (stock self.new).tells ≡ (stock self.old).tells }
        ensures handed { (stock self.new).handed ≡ (stock self.old).handed }
        ensures failures { (stock self.new).failures
            ≡ (stock self.old).failures ++ failed_place name.now result }
        ensures longs { (stock self.new).longs ≡ (stock self.old).longs };
}
