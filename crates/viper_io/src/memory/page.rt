ghost use Rattle.std.specs.Prelude.{◌≡◌, ◌++◌, ◌∷◌, ◌≤◌, [], ℕ, take, None, Some, OnOk, OnErr, IfErr, IsSomeAnd};
ghost use Rattle.viper_io.specs.Causes.{faults_after, risen};
ghost use Rattle.viper_io.specs.Held.{taken_of, Took};

use crate::{Sink, SinkFault};
use std::alloc::Global;
use std::marker::Model;
use viper_word::Memory;

/// A put that is to fail: its number, and how many bytes it takes before.
#[derive(Drop)]
pub struct FailingPut {
    put: u64,
    taken: u64,
}

impl Model for FailingPut {
    ghost use Rattle.std.specs.Prelude.{ℕ};

    ghost Value = { ℕ × ℕ };

    ghost view = { λ f. (f.put, f.taken) };
}

/// A text in memory, with a list of the puts that are to fail. It tells what was put.
#[derive(Drop)]
pub struct Page {
    bytes: Vec<u8>,
    failing: Vec<FailingPut>,
    puts: u64,
    faults: u64,
}

impl Model for Page {
    ghost use Rattle.viper_io.specs.Held.{PageState};

    ghost Value = { PageState };

    ghost view = { λ p. record {
      bytes = p.bytes.items;
      failing = p.failing.items;
      puts = p.puts;
      faults = p.faults;
    } };
}

impl Page {
    /// An empty page, of which no put is to fail.
    pub fn new(alloc: Global) -> Page
        ensures { result ≡ record { bytes = []; failing = []; puts = 0; faults = 0 } }
    {
        Page {
            bytes: Vec::new(alloc),
            failing: Vec::new(alloc),
            puts: 0,
            faults: 0,
        }
    }

    /// What was put.
    pub fn bytes(&self) -> &[u8]
        ensures { result.now ≡ self.now.bytes }
    {
        self.bytes.as_slice()
    }

    /// Lets the put of that number, counted from 0, append the first `taken` bytes, or all where
    /// there are fewer, and fail. Of two entries for one put the first counts. A put that finds no
    /// memory is counted too.
    pub fn fail_at(&mut self, call: u64, taken: u64) -> Result<(), Memory>
        ensures ok { OnOk result
            (self.new ≡ record self.old { failing = self.old.failing ++ (call, taken) ∷ [] }) }
        ensures err { OnErr result (self.new ≡ self.old) }
    {
        self.failing
            .push(FailingPut { put: call, taken })
            .map_err(|_| Memory)
    }
}

/// After how many bytes the put of that number is to fail.
fn taken_at(failing: &[FailingPut], put: u64) -> Option<u64>
    ensures { result ≡ taken_of failing.now put }
{
    for entry in failing {
        if entry.put == put {
            return Some(entry.taken);
        }
    }
    None
}

/// The first so many bytes, or all where there are fewer.
fn front(bytes: &[u8], count: u64) -> &[u8]
    ensures { result.now ≡ take count bytes.now }
{
    if count < bytes.len() as u64 {
        &bytes[..count as usize]
    } else {
        bytes
    }
}

impl Sink for Page {
    ghost output = { λ s. record { text = Some s.bytes; faults = s.faults } };

    /// Puts the bytes behind those before. It fails exactly where its number is listed.
    fn put(&mut self, bytes: &[u8]) -> Result<(), SinkFault>
        ensures ok { OnOk result (self.new.bytes ≡ self.old.bytes ++ bytes.now) }
        ensures front { IfErr result (λ e. e ≡ SinkFault.Failed
            → ((n : ℕ) × (self.new.bytes ≡ self.old.bytes ++ take n bytes.now))) }
        ensures memory { IfErr result (λ e. e ≡ SinkFault.Memory
            → self.new.bytes ≡ self.old.bytes) }
        ensures faults { self.new.faults ≡ faults_after self.old.faults result }
        ensures rising { self.old.faults ≤ self.new.faults }

        // When it fails, but for want of memory, how much it then takes, and what else changes.
        ensures sound { OnOk result (taken_of self.old.failing self.old.puts ≡ None) }
        ensures listed { IfErr result (λ e. e ≡ SinkFault.Failed
            → IsSomeAnd (taken_of self.old.failing self.old.puts)
            (Took self.old self.new bytes.now)) }
        ensures rest { self.new ≡ record self.old {
          bytes = self.new.bytes;
          puts = risen self.old.puts;
          faults = self.new.faults;
        } }
    {
        let put = self.puts;
        self.puts = put.saturating_add(1);
        match taken_at(self.failing.as_slice(), put) {
            None => {
                self.bytes.extend_from_slice(bytes)?;
                Ok(())
            }
            Some(taken) => {
                self.bytes.extend_from_slice(front(bytes, taken))?;
                self.faults = self.faults.saturating_add(1);
                Err(SinkFault::Failed)
            }
        }
    }
}
