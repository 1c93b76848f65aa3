ghost use Rattle.std.specs.Prelude.{◌≡◌, ◌≢◌, ◌≤◌, ◌<◌, ◌++◌, [], ℕ, List, length, Some, OnOk, OnErr, IfOk, IfErr, option_map};
ghost use Rattle.viper_io.specs.Causes.{handed_by, longs_after};
ghost use Rattle.viper_io.specs.Held.{content_of, content_or_empty};

use super::contents::Contents;
use crate::handouts::Handouts;
use crate::{FetchFault, PlaceFault, Store};
use std::alloc::Global;
use std::marker::Model;
use viper_word::Memory;

/// Contents in memory, of which no call fails. It tells what it holds: a name that isn't there
/// holds the empty content.
#[derive(Drop)]
pub struct SureShelf {
    contents: Contents,
    longs: u64,
    handouts: Handouts,
}

impl Model for SureShelf {
    ghost use Rattle.viper_io.specs.Held.{SureShelfState};

    ghost Value = { SureShelfState };

    ghost view = { λ s. record {
      contents = s.contents;
      longs = s.longs;
      handed = s.handouts.list;
    } };
}

impl SureShelf {
    /// A shelf on which no name is there.
    pub fn new(alloc: Global) -> SureShelf
        ensures { result ≡ record { contents = []; longs = 0; handed = [] } }
    {
        SureShelf {
            contents: Contents::new(alloc),
            longs: 0,
            handouts: Handouts::new(),
        }
    }

    /// Makes a name hold the bytes.
    pub fn hold(&mut self, name: &str, bytes: &[u8]) -> Result<(), Memory>
        ensures ok { OnOk result (content_of self.new.contents name.now ≡ Some bytes.now) }
        ensures others { (other : List ℕ) → other ≢ name.now
            → content_of self.new.contents other ≡ content_of self.old.contents other }
        ensures rest { self.new ≡ record self.old { contents = self.new.contents } }
        ensures err { OnErr result (self.new ≡ self.old) }
    {
        self.contents.set(name, bytes).map_err(|_| Memory)
    }

    /// What a name holds. None exactly where the name isn't there.
    pub fn content(&self, name: &str) -> Option<&[u8]>
        ensures { option_map (λ bytes. bytes.now) result ≡ content_of self.now.contents name.now }
    {
        self.contents.get(name)
    }
}

impl Store for SureShelf {
    ghost use Rattle.viper_io.specs.Held.{sure_stock};

    ghost stock = { sure_stock };

    /// The content of a name. It never fails.
    fn fetch(&mut self, alloc: Global, name: &str, limit: u64) -> Result<Vec<u8>, FetchFault>
        ensures content { IfOk result (λ v. v.items ≡ content_or_empty self.old.contents name.now) }
        ensures within { IfOk result (λ v. length v.items ≤ limit) }
        ensures too_long { IfErr result (λ e. e ≡ FetchFault.Long
            → limit < length (content_or_empty self.old.contents name.now)) }
        ensures sure { IfErr result (λ e. e ≢ FetchFault.Failed) }
        ensures handed { self.new.handed
            ≡ self.old.handed ++ handed_by (λ v. v.items) name.now limit result }
        ensures longs { self.new.longs ≡ longs_after self.old.longs result }
        ensures rising { self.old.longs ≤ self.new.longs }
        ensures rest { self.new.contents ≡ self.old.contents }
    {
        let bytes = self.contents.get(name).unwrap_or(&[]);
        if bytes.len() as u64 > limit {
            self.longs = self.longs.saturating_add(1);
            self.handouts.found_long(name, limit);
            return Err(FetchFault::Long);
        }
        let bytes = Vec::from_slice(alloc, bytes)?;
        self.handouts.gave(name, limit, &bytes);
        Ok(bytes)
    }

    /// Makes a name hold the bytes. It never fails.
    fn place(&mut self, name: &str, bytes: &[u8]) -> Result<(), PlaceFault>
        ensures ok { OnOk result (content_of self.new.contents name.now ≡ Some bytes.now) }
        ensures others { (other : List ℕ) → other ≢ name.now
            → content_of self.new.contents other ≡ content_of self.old.contents other }
        ensures sure { IfErr result (λ e. e ≡ PlaceFault.Memory) }
        ensures err { OnErr result (self.new ≡ self.old) }
        ensures rest { self.new ≡ record self.old { contents = self.new.contents } }
    {
        self.contents.set(name, bytes)?;
        Ok(())
    }
}
