ghost use Rattle.std.specs.Prelude.{◌≡◌, ◌≢◌, ◌≤◌, ◌⊎◌, ◌++◌, ℕ, List, take, option_map, Some, None, OnOk, IfErr};
ghost use Rattle.viper_io.specs.Causes.{risen, Wrote, HoldsWhereTold};
ghost use Rattle.viper_io.specs.declared.fault.Call.TheVariants.{Place};
ghost use Rattle.viper_top.specs.Endings.{EndsAnswered};
ghost use Rattle.viper_top.specs.Promises.{IsPlaced, Failed, Grew};
ghost use Rattle.viper_top.specs.Stages.{ending_of};

use crate::answer::{Answer, Stop};
use crate::status::Status;
use viper_io::{PlaceFault, Sink, SinkFault, Store};

/// Places the bytes of an answer, where it has some and the command places a name.
#[tactic(auto, using(crate::proofs::Growth::grew_same))]
pub fn place<S: Store>(store: &mut S, target: Option<&str>, answer: &Answer) -> Result<(), Stop>
    ensures placed { OnOk result (IsPlaced (option_map (λ n. n.now) target.entry)
        (ending_of answer.now).bytes (S.stock store.new)) }
    ensures others { (other : List ℕ) → option_map (λ n. n.now) target.entry ≢ Some other
        → (S.stock store.new).holds other ≡ (S.stock store.old).holds other }
    ensures quiet { (ending_of answer.now).bytes ≡ None
        → (name : List ℕ) → (S.stock store.new).holds name ≡ (S.stock store.old).holds name }
    ensures memory { IfErr result (λ e. e ≡ Stop.Memory
        → (name : List ℕ) → option_map (λ n. n.now) target.entry ≡ Some name
        → (S.stock store.new).holds name ≡ (S.stock store.old).holds name) }
    ensures outside { IfErr result (λ e. e ≡ Stop.Outside
        → (name : List ℕ) × (option_map (λ n. n.now) target.entry ≡ Some name)
        × Failed Place name (S.stock store.old) (S.stock store.new)) }
    ensures clean { OnOk result ((S.stock store.new).failures ≡ (S.stock store.old).failures) }
    ensures starved { IfErr result (λ e. e ≡ Stop.Memory
        → (S.stock store.new).failures ≡ (S.stock store.old).failures) }
    ensures handed { (S.stock store.new).handed ≡ (S.stock store.old).handed }
    ensures grew { Grew (S.stock store.old) (S.stock store.new) }
{
    match (target, answer) {
        (Some(name), Answer::Made { bytes, .. }) => place_bytes(store, name, bytes),
        _ => Ok(()),
    }
}

/// Places bytes under a name.
#[tactic(auto, using(crate::proofs::Growth::grew_place))]
fn place_bytes<S: Store>(store: &mut S, name: &str, bytes: &[u8]) -> Result<(), Stop>
    ensures placed { OnOk result (HoldsWhereTold (S.stock store.new).tells
        ((S.stock store.new).holds name.now) bytes.now) }
    ensures others { (other : List ℕ) → other ≢ name.now
        → (S.stock store.new).holds other ≡ (S.stock store.old).holds other }
    ensures memory { IfErr result (λ e. e ≡ Stop.Memory
        → (S.stock store.new).holds name.now ≡ (S.stock store.old).holds name.now) }
    ensures outside { IfErr result (λ e. e ≡ Stop.Outside
        → Failed Place name.now (S.stock store.old) (S.stock store.new)) }
    ensures clean { OnOk result ((S.stock store.new).failures ≡ (S.stock store.old).failures) }
    ensures starved { IfErr result (λ e. e ≡ Stop.Memory
        → (S.stock store.new).failures ≡ (S.stock store.old).failures) }
    ensures handed { (S.stock store.new).handed ≡ (S.stock store.old).handed }
    ensures grew { Grew (S.stock store.old) (S.stock store.new) }
{
    match store.place(name, bytes) {
        Ok(()) => Ok(()),
        Err(PlaceFault::Failed) => Err(Stop::Outside),
        Err(PlaceFault::Memory) => Err(Stop::Memory),
    }
}

/// Puts the text of a status.
pub fn put<K: Sink>(out: &mut K, status: Status, text: &[u8]) -> Status
    requires { EndsAnswered status ⊎ (status ≡ Status.Usage) }
    ensures put { EndsAnswered result ⊎ (result ≡ Status.Usage) → (result ≡ status)
        × Wrote (K.output out.old).text text.now (K.output out.new).text }
    ensures clean { result ≢ Status.Outside
        → (K.output out.new).faults ≡ (K.output out.old).faults }
    ensures outside { result ≡ Status.Outside
        → (K.output out.new).faults ≡ risen (K.output out.old).faults }
    ensures front { result ≡ Status.Outside → ((n : ℕ)
        × Wrote (K.output out.old).text (take n text.now) (K.output out.new).text) }
    ensures memory { result ≡ Status.Memory → (K.output out.new).text ≡ (K.output out.old).text }
    ensures rising { (K.output out.old).faults ≤ (K.output out.new).faults }
{
    match out.put(text) {
        Ok(()) => status,
        Err(SinkFault::Failed) => Status::Outside,
        Err(SinkFault::Memory) => Status::Memory,
    }
}
