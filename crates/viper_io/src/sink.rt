ghost use Rattle.std.specs.Prelude.{◌≡◌, ◌≤◌, ℕ, take, OnOk, IfErr};
ghost use Rattle.viper_io.specs.Causes.{Output, Wrote, faults_after};

use crate::SinkFault;

/// Where texts go.
///
/// A sink may tell what was put, as one in memory does, or not, as one over a writer. It keeps the
/// count of its failures, up to 2^64 - 1, to which a put that fails adds one, and no other.
pub trait Sink {
    /// What was put, where the sink tells it, and how often it failed.
    ghost output: { Self → Output };

    /// Puts the bytes behind those before.
    ///
    /// `Failed` is counted, and leaves the first bytes, as many as went through. `Memory` puts
    /// nothing.
    fn put(&mut self, bytes: &[u8]) -> Result<(), SinkFault>
        ensures ok { OnOk result (Wrote (output self.old).text bytes.now (output self.new).text) }
        ensures front { IfErr result (λ e. e ≡ SinkFault.Failed
            → ((n : ℕ) × Wrote (output self.old).text (take n bytes.now) (output self.new).text)) }
        ensures memory { IfErr result (λ e. e ≡ SinkFault.Memory
            → (output self.new).text ≡ (output self.old).text) }
        ensures faults { (output self.new).faults ≡ faults_after (output self.old).faults result }
        ensures rising { (output self.old).faults ≤ (output self.new).faults };
}
