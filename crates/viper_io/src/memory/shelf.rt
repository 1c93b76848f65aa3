ghost use Rattle.std.specs.Prelude.{◌≡◌, ◌≢◌, ◌≤◌, ◌<◌, ◌+◌, ◌++◌, ◌∷◌, [], ℕ, List, length, true, false, Some, Ok, Err, OnOk, OnErr, IfOk, IfErr, IsSomeAnd, option_map};
ghost use Rattle.viper_io.specs.Causes.{handed_by, failed_fetch, failed_place, longs_after};
ghost use Rattle.viper_io.specs.Held.{content_of, counted, failed_call, fetch_answer, is_failing, shelf_holds};

use super::contents::Contents;
use crate::failed_call::FailedCall;
use crate::handouts::Handouts;
use crate::{Call, FetchFault, PlaceFault, Store};
use std::alloc::{AllocError, Global};
use std::marker::Model;
use viper_word::Memory;

/// Contents in memory, with a list of the calls that are to fail. It tells what it holds.
#[derive(Drop)]
pub struct Shelf {
    alloc: Global,
    contents: Contents,
    failing: Vec<u64>,
    calls: u64,
    failures: Vec<FailedCall>,
    longs: u64,
    handouts: Handouts,
}

impl Model for Shelf {
    ghost use Rattle.viper_io.specs.Held.{ShelfState};

    ghost Value = { ShelfState };

    ghost view = { λ s. record {
      contents = s.contents;
      failing = s.failing.items;
      calls = s.calls;
      failures = s.failures.items;
      longs = s.longs;
      handed = s.handouts.list;
    } };
}

impl Shelf {
    /// A shelf that holds nothing, of which no call is to fail.
    pub fn new(alloc: Global) -> Shelf
        ensures { result ≡ record {
          contents = [];
          failing = [];
          calls = 0;
          failures = [];
          longs = 0;
          handed = [];
        } }
    {
        Shelf {
            alloc,
            contents: Contents::new(alloc),
            failing: Vec::new(alloc),
            calls: 0,
            failures: Vec::new(alloc),
            longs: 0,
            handouts: Handouts::new(),
        }
    }

    /// Makes a name hold the bytes. This is no call that is counted or fails.
    pub fn hold(&mut self, name: &str, bytes: &[u8]) -> Result<(), Memory>
        ensures ok { OnOk result (content_of self.new.contents name.now ≡ Some bytes.now) }
        ensures others { (other : List ℕ) → other ≢ name.now
            → content_of self.new.contents other ≡ content_of self.old.contents other }
        ensures rest { self.new ≡ record self.old { contents = self.new.contents } }
        ensures err { OnErr result (self.new ≡ self.old) }
    {
        self.contents.set(name, bytes).map_err(|_| Memory)
    }

    /// Lets the call of that number fail, where fetch and place are counted together from 0. A call
    /// that finds no memory is counted too.
    pub fn fail_at(&mut self, call: u64) -> Result<(), Memory>
        ensures ok { OnOk result
            (self.new ≡ record self.old { failing = self.old.failing ++ call ∷ [] }) }
        ensures err { OnErr result (self.new ≡ self.old) }
    {
        self.failing.push(call).map_err(|_| Memory)
    }

    /// What a name holds. None exactly where the name isn't there.
    pub fn content(&self, name: &str) -> Option<&[u8]>
        ensures { option_map (λ bytes. bytes.now) result ≡ content_of self.now.contents name.now }
    {
        self.contents.get(name)
    }

    /// Counts a call, and says whether it is to fail.
    fn is_to_fail(&mut self) -> bool
        ensures answer { result ≡ is_failing self.old }
        ensures counted { self.new ≡ counted self.old }
    {
        let call = self.calls;
        self.calls = call.saturating_add(1);
        self.failing.contains(&call)
    }

    /// Appends a call to those that failed.
    fn note_failure(&mut self, call: Call, name: &str) -> Result<(), AllocError>
        ensures ok { OnOk result (self.new ≡ failed_call call name.now self.old) }
        ensures err { OnErr result (self.new ≡ self.old) }
    {
        let failed = FailedCall::new(self.alloc, call, name)?;
        self.failures.push(failed)?;
        Ok(())
    }
}

impl Store for Shelf {
    ghost use Rattle.viper_io.specs.Held.{shelf_holds};

    ghost stock = { λ s. record {
      tells = true;
      holds = shelf_holds s;
      failures = s.failures;
      longs = s.longs;
      handed = s.handed;
    } };

    /// The content of a name. It fails exactly where its number is listed or the name isn't there.
    fn fetch(&mut self, alloc: Global, name: &str, limit: u64) -> Result<Vec<u8>, FetchFault>
        ensures content { IfOk result (λ v. shelf_holds self.old name.now ≡ Some v.items) }
        ensures within { IfOk result (λ v. length v.items ≤ limit) }
        ensures too_long { IfErr result (λ e. e ≡ FetchFault.Long
            → IsSomeAnd (shelf_holds self.old name.now) (λ c. limit < length c)) }
        ensures same { (other : List ℕ) → shelf_holds self.new other ≡ shelf_holds self.old other }
        ensures handed { self.new.handed
            ≡ self.old.handed ++ handed_by (λ v. v.items) name.now limit result }
        ensures failures { self.new.failures ≡ self.old.failures ++ failed_fetch name.now result }
        ensures longs { self.new.longs ≡ longs_after self.old.longs result }
        ensures rising { self.old.longs ≤ self.new.longs }

        // The exact answer, but for want of memory, and what else the call changes.
        ensures answer { IfOk result (λ v. fetch_answer self.old name.now limit ≡ Ok v.items) }
        ensures fault { IfErr result (λ e. e ≢ FetchFault.Memory
            → fetch_answer self.old name.now limit ≡ Err e) }
        ensures rest { self.new ≡ record (counted self.old) {
          failures = self.new.failures;
          longs = self.new.longs;
          handed = self.new.handed;
        } }
    {
        if self.is_to_fail() {
            self.note_failure(Call::Fetch, name)?;
            return Err(FetchFault::Failed);
        }
        let Some(bytes) = self.contents.get(name) else {
            self.note_failure(Call::Fetch, name)?;
            return Err(FetchFault::Failed);
        };
        if bytes.len() as u64 > limit {
            self.longs = self.longs.saturating_add(1);
            self.handouts.found_long(name, limit);
            return Err(FetchFault::Long);
        }
        let bytes = Vec::from_slice(alloc, bytes)?;
        self.handouts.gave(name, limit, &bytes);
        Ok(bytes)
    }

    /// Makes a name hold the bytes. It fails exactly where its number is listed, and then the name
    /// holds what it held.
    fn place(&mut self, name: &str, bytes: &[u8]) -> Result<(), PlaceFault>
        ensures ok { OnOk result (shelf_holds self.new name.now ≡ Some bytes.now) }
        ensures memory { IfErr result (λ e. e ≡ PlaceFault.Memory
            → shelf_holds self.new name.now ≡ shelf_holds self.old name.now) }
        ensures others { (other : List ℕ) → other ≢ name.now
            → shelf_holds self.new other ≡ shelf_holds self.old other }
        ensures handed { self.new.handed ≡ self.old.handed }
        ensures failures { self.new.failures ≡ self.old.failures ++ failed_place name.now result }
        ensures longs { self.new.longs ≡ self.old.longs }

        // When it fails, but for want of memory, and what else the call changes.
        ensures sound { OnOk result (is_failing self.old ≡ false) }
        ensures listed { IfErr result (λ e. e ≡ PlaceFault.Failed → is_failing self.old ≡ true) }
        ensures err { OnErr result (self.new.contents ≡ self.old.contents) }
        ensures rest { self.new ≡ record (counted self.old) {
          contents = self.new.contents;
          failures = self.new.failures;
        } }
    {
        if self.is_to_fail() {
            self.note_failure(Call::Place, name)?;
            return Err(PlaceFault::Failed);
        }
        self.contents.set(name, bytes)?;
        Ok(())
    }
}
