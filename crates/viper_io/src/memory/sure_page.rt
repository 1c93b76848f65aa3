ghost use Rattle.std.specs.Prelude.{◌≡◌, []};

use crate::{Sink, SinkFault};
use std::alloc::Global;
use std::marker::Model;

/// A text in memory, of which no put fails. It tells what was put.
#[derive(Drop)]
pub struct SurePage {
    bytes: Vec<u8>,
}

impl Model for SurePage {
    ghost use Rattle.std.specs.Prelude.{ℕ, List};

    ghost Value = { List ℕ };

    ghost view = { λ p. p.bytes.items };
}

impl SurePage {
    /// An empty page.
    pub fn new(alloc: Global) -> SurePage
        ensures { result ≡ [] }
    {
        SurePage {
            bytes: Vec::new(alloc),
        }
    }

    /// What was put.
    pub fn bytes(&self) -> &[u8]
        ensures { result.now ≡ self.now }
    {
        self.bytes.as_slice()
    }
}

impl Sink for SurePage {
    ghost use Rattle.viper_io.specs.Held.{sure_output};

    ghost output = { sure_output };

    fn put(&mut self, bytes: &[u8]) -> Result<(), SinkFault> {
        self.bytes.extend_from_slice(bytes)?;
        Ok(())
    }
}
