ghost use Rattle.std.specs.Io.KnownBytes.{Appends};
ghost use Rattle.std.specs.Prelude.{◌≡◌, ◌≤◌, ℕ, take, None, OnOk, OnErr, IfErr};
ghost use Rattle.viper_io.specs.Causes.{faults_after};

use super::whole::write_whole;
use crate::{Sink, SinkFault};
use std::io::Write;
use std::marker::Model;

/// A sink over a writer. It tells nothing of what was put.
#[derive(Drop)]
pub struct OutSink<T: Write> {
    writer: T,
    faults: u64,
}

impl<T: Write> Model for OutSink<T> {
    ghost use Rattle.viper_io.specs.Held.{OutState};

    ghost Value = { OutState };

    ghost view = { λ s. record { written = T.contents s.writer; faults = s.faults } };
}

impl<T: Write> OutSink<T> {
    /// A sink over the writer, which never failed so far.
    pub fn new(writer: T) -> OutSink<T>
        ensures { result ≡ record { written = T.contents writer; faults = 0 } }
    {
        OutSink { writer, faults: 0 }
    }
}

impl<T: Write> Sink for OutSink<T> {
    ghost output = { λ s. record { text = None; faults = s.faults } };

    /// Writes the bytes. It fails where a write fails or takes nothing, and then a first part of
    /// the bytes has gone out, and nothing else.
    fn put(&mut self, bytes: &[u8]) -> Result<(), SinkFault>
        ensures sure { IfErr result (λ e. e ≡ SinkFault.Failed) }
        ensures faults { self.new.faults ≡ faults_after self.old.faults result }
        ensures rising { self.old.faults ≤ self.new.faults }
        ensures written { OnOk result (Appends self.old.written self.new.written bytes.now) }
        ensures front { OnErr result ((n : ℕ)
            × Appends self.old.written self.new.written (take n bytes.now)) }
    {
        if write_whole(&mut self.writer, bytes) {
            return Ok(());
        }
        self.faults = self.faults.saturating_add(1);
        Err(SinkFault::Failed)
    }
}
