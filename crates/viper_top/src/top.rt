ghost use Rattle.std.specs.Prelude.{◌≡◌, ◌≢◌, ◌≤◌, ◌⊎◌, ℕ, List, Some, None, true, codes};
ghost use Rattle.memory_plan.specs.Plans.{PlanLines};
ghost use Rattle.viper_io.specs.Causes.{Rose, Wrote};
ghost use Rattle.viper_io.specs.Held.{sure_stock, sure_output};
ghost use Rattle.viper_top.specs.Certificates.{Certificate};
ghost use Rattle.viper_top.specs.Endings.{EndsAnswered};
ghost use Rattle.viper_top.specs.Orders.{Order, Check, Certify, Run, Upgrade, Assemble, Disasm, Sample, order_in, target_of, target_in};
ghost use Rattle.viper_top.specs.Check.{checked};
ghost use Rattle.viper_top.specs.Headlines.{Verified, Declined, AreGiven, EndsAs, Certified, Uncertified, Sampled, Unsampled, Followed, Upgraded, Assembled, Listed};
ghost use Rattle.viper_top.specs.Promises.{OfOrder, Answered, FailedOutside, LeftFront, Keeps, IsQuiet, NothingFailed, NoFailures, Grew, Settled, WroteUsage};
ghost use Rattle.viper_top.specs.Stages.{order_view};

use crate::answer::Stop;
use crate::command_line::{Command, command_of};
use crate::ending::{place, put};
use crate::reading::answer;
use crate::status::Status;
use crate::usage::usage_text;
use std::alloc::Global;
use viper_io::{Sink, Store, SurePage, SureShelf};
use viper_word::Memory;

/// Does a command: it reads its contents, does its work, places, and puts.
#[tactic(auto, using(crate::proofs::Growth::grew_twice))]
fn carry_out<S: Store, K: Sink>(
    alloc: Global,
    command: &Command<'_>,
    store: &mut S,
    out: &mut K,
) -> Status
    ensures no_usage { result ≢ Status.Usage }
    ensures answered { EndsAnswered result
        → Answered (order_view command.now) (S.stock store.old) (S.stock store.new)
        result (K.output out.old) (K.output out.new) }
    ensures outside { result ≡ Status.Outside
        → FailedOutside (Some (order_view command.now)) (S.stock store.old) (S.stock store.new)
        (K.output out.old) (K.output out.new) }
    ensures outside_put { result ≡ Status.Outside
        → ((K.output out.new).text ≡ (K.output out.old).text)
        ⊎ LeftFront (Some (order_view command.now)) (S.stock store.old) (S.stock store.new)
        (K.output out.old) (K.output out.new) }
    ensures memory { result ≡ Status.Memory → (K.output out.new).text ≡ (K.output out.old).text }
    ensures others { (name : List ℕ) → target_of (order_view command.now) ≢ Some name
        → (S.stock store.new).holds name ≡ (S.stock store.old).holds name }
    ensures quiet { IsQuiet result
        → (name : List ℕ) → (S.stock store.new).holds name ≡ (S.stock store.old).holds name }
    ensures kept { (name : List ℕ) → target_of (order_view command.now) ≡ Some name
        → Keeps (order_view command.now) (S.stock store.old) (S.stock store.new) result name }
    ensures clean { result ≢ Status.Outside
        → NoFailures (S.stock store.old) (S.stock store.new) (K.output out.old) (K.output out.new) }
    ensures store_grew { Grew (S.stock store.old) (S.stock store.new) }
    ensures sink_grew { (K.output out.old).faults ≤ (K.output out.new).faults }
{
    match answer(alloc, store, command) {
        Err(Stop::Outside) => Status::Outside,
        Err(Stop::Memory) => Status::Memory,
        Ok(answer) => match place(store, command.target(), &answer) {
            Err(Stop::Outside) => Status::Outside,
            Err(Stop::Memory) => Status::Memory,
            Ok(()) => put(out, answer.status(), answer.text()),
        },
    }
}

/// Answers the words.
#[tactic(auto, using(crate::proofs::Growth::grew_same))]
fn answer_words<S: Store, K: Sink>(
    alloc: Global,
    words: &[&str],
    store: &mut S,
    out: &mut K,
) -> Status
    ensures answered { EndsAnswered result
        → OfOrder (order_in words.now) (λ o. Answered o (S.stock store.old) (S.stock store.new)
        result (K.output out.old) (K.output out.new)) }
    ensures usage { result ≡ Status.Usage → (order_in words.now ≡ None)
        × WroteUsage (K.output out.old).text (K.output out.new).text }
    ensures outside { result ≡ Status.Outside
        → FailedOutside (order_in words.now) (S.stock store.old) (S.stock store.new)
        (K.output out.old) (K.output out.new) }
    ensures outside_put { result ≡ Status.Outside
        → ((K.output out.new).text ≡ (K.output out.old).text)
        ⊎ LeftFront (order_in words.now) (S.stock store.old) (S.stock store.new)
        (K.output out.old) (K.output out.new) }
    ensures memory { result ≡ Status.Memory → (K.output out.new).text ≡ (K.output out.old).text }
    ensures others { (name : List ℕ) → target_in (order_in words.now) ≢ Some name
        → (S.stock store.new).holds name ≡ (S.stock store.old).holds name }
    ensures quiet { IsQuiet result
        → (name : List ℕ) → (S.stock store.new).holds name ≡ (S.stock store.old).holds name }
    ensures kept { (name : List ℕ) → target_in (order_in words.now) ≡ Some name
        → OfOrder (order_in words.now) (λ o. Keeps o (S.stock store.old) (S.stock store.new)
        result name) }
    ensures clean { result ≢ Status.Outside
        → NoFailures (S.stock store.old) (S.stock store.new) (K.output out.old) (K.output out.new) }
    ensures store_grew { Grew (S.stock store.old) (S.stock store.new) }
    ensures sink_grew { (K.output out.old).faults ≤ (K.output out.new).faults }
{
    match command_of(words) {
        None => match usage_text(alloc, words) {
            Err(Memory) => Status::Memory,
            Ok(text) => put(out, Status::Usage, &text),
        },
        Some(command) => carry_out(alloc, &command, store, out),
    }
}

/// Does what the words of the command line say, which are those after the program's name:
/// `certify IMAGE PLAN CERT`, `check IMAGE PLAN CERT`, `run IMAGE PLAN SCRIPT STEPS`,
/// `upgrade IMAGE PLAN CERT NEW`, `assemble SRC IMAGE`, `disasm IMAGE` and `sample N`.
/// Each content is fetched once, in the row's order; what the command makes is placed, and its text
/// goes to the sink in one put (README.md, "Statuses and texts"; docs/PROVED.md says the clauses in
/// words).
pub fn viper_main<S: Store, K: Sink>(
    alloc: Global,
    words: &[&str],
    store: &mut S,
    out: &mut K,
) -> Status
    // Done, Refused and Input: an ending of the command for what the store handed out in this call.
    ensures answered { EndsAnswered result
        → OfOrder (order_in words.now) (λ o. Answered o (S.stock store.old) (S.stock store.new)
        result (K.output out.old) (K.output out.new)) }
    // check, Done: every fair run is safe, and each marker is met within the number put for it.
    ensures check_done { (image plan cert : List ℕ)
        → order_in words.now ≡ Some (Check image plan cert) → result ≡ Status.Done
        → Verified image plan cert (S.stock store.old) (S.stock store.new)
        (K.output out.old) (K.output out.new) }
    // check, Refused: the first local condition that fails was put.
    ensures check_refused { (image plan cert : List ℕ)
        → order_in words.now ≡ Some (Check image plan cert) → result ≡ Status.Refused
        → Declined image plan cert (S.stock store.old) (S.stock store.new)
        (K.output out.old) (K.output out.new) }
    // check of contents of their forms and limits, and no failure: the verdict, or want of memory.
    ensures check_complete { (image plan cert : List ℕ)
        → (lines : PlanLines) (certificate : Certificate)
        → order_in words.now ≡ Some (Check image plan cert)
        → AreGiven image plan cert (S.stock store.old) lines certificate
        → NothingFailed (S.stock store.old) (S.stock store.new)
        (K.output out.old) (K.output out.new)
        → result ≢ Status.Memory
        → EndsAs (checked lines certificate) result (K.output out.old) (K.output out.new) }
    // certify, Done: the certificate of the plan's least solution is placed, and a check of it says yes.
    ensures certify_done { (image plan cert : List ℕ)
        → order_in words.now ≡ Some (Certify image plan cert) → result ≡ Status.Done
        → Certified image plan cert (S.stock store.old) (S.stock store.new)
        (K.output out.old) (K.output out.new) }
    // certify, Refused: a cause that is true of the plan, over all candidates, was put.
    ensures certify_refused { (image plan cert : List ℕ)
        → order_in words.now ≡ Some (Certify image plan cert) → result ≡ Status.Refused
        → Uncertified image plan (S.stock store.old) (S.stock store.new)
        (K.output out.old) (K.output out.new) }
    // sample, Done: the certificate of the sample's plan was made, which a check accepts.
    ensures sample_done { (loops : ℕ)
        → order_in words.now ≡ Some (Sample loops) → result ≡ Status.Done
        → Sampled loops (S.stock store.old) (S.stock store.new)
        (K.output out.old) (K.output out.new) }
    // sample, Refused: a cause that is true of the sample's plan was put.
    ensures sample_refused { (loops : ℕ)
        → order_in words.now ≡ Some (Sample loops) → result ≡ Status.Refused
        → Unsampled loops (S.stock store.old) (S.stock store.new)
        (K.output out.old) (K.output out.new) }
    // run, Done and Refused: the ending and the outputs put are those of the machine's run, which is one
    // of the plan's fair runs, and isn't stopped where local conditions hold with some certificate.
    ensures run_ends { (image plan script : List ℕ) → (steps : ℕ)
        → order_in words.now ≡ Some (Run image plan script steps)
        → (result ≡ Status.Done) ⊎ (result ≡ Status.Refused)
        → Followed image plan script steps (S.stock store.old) (S.stock store.new) result
        (K.output out.old) (K.output out.new) }
    // upgrade, Done: the certificate that was read is placed in version 2, with each node bare whose
    // fact follows, and filled it is the same.
    ensures upgrade_done { (image plan cert new : List ℕ)
        → order_in words.now ≡ Some (Upgrade image plan cert new) → result ≡ Status.Done
        → Upgraded image plan cert new (S.stock store.old) (S.stock store.new)
        (K.output out.old) (K.output out.new) }
    // upgrade judges nothing: it is never Refused.
    ensures upgrade_unrefused { (image plan cert new : List ℕ)
        → order_in words.now ≡ Some (Upgrade image plan cert new) → result ≢ Status.Refused }
    // assemble, Done: the text of the source's image is placed, and its number of words put.
    ensures assemble_done { (source image : List ℕ)
        → order_in words.now ≡ Some (Assemble source image) → result ≡ Status.Done
        → Assembled source image (S.stock store.old) (S.stock store.new)
        (K.output out.old) (K.output out.new) }
    // disasm, Done: the listing of the image was put, which assembles to that image.
    ensures disasm_done { (image : List ℕ)
        → order_in words.now ≡ Some (Disasm image) → result ≡ Status.Done
        → Listed image (S.stock store.old) (S.stock store.new)
        (K.output out.old) (K.output out.new) }
    // Usage: the words are no command.
    ensures usage { result ≡ Status.Usage → (order_in words.now ≡ None)
        × WroteUsage (K.output out.old).text (K.output out.new).text }
    // And where they are none and the put doesn't fail, it is Usage or want of memory.
    ensures usage_where { order_in words.now ≡ None
        → (Rose (K.output out.old).faults (K.output out.new).faults → ⊥)
        → result ≢ Status.Memory → result ≡ Status.Usage }
    // Outside: the fetch that was due failed, or the place, or the put, and nothing else.
    ensures outside { result ≡ Status.Outside
        → FailedOutside (order_in words.now) (S.stock store.old) (S.stock store.new)
        (K.output out.old) (K.output out.new) }
    // After it nothing was put, but for the first bytes of a text where the put failed.
    ensures outside_put { result ≡ Status.Outside
        → ((K.output out.new).text ≡ (K.output out.old).text)
        ⊎ LeftFront (order_in words.now) (S.stock store.old) (S.stock store.new)
        (K.output out.old) (K.output out.new) }
    // After Memory nothing was put.
    ensures memory { result ≡ Status.Memory → (K.output out.new).text ≡ (K.output out.old).text }
    // Names other than the one that the command places hold what they held.
    ensures others { (name : List ℕ) → target_in (order_in words.now) ≢ Some name
        → (S.stock store.new).holds name ≡ (S.stock store.old).holds name }
    // After Refused, Usage and Input nothing was placed.
    ensures quiet { IsQuiet result
        → (name : List ℕ) → (S.stock store.new).holds name ≡ (S.stock store.old).holds name }
    // The name that it places holds what it held, or what was made, but where its place failed.
    ensures kept { (name : List ℕ) → target_in (order_in words.now) ≡ Some name
        → OfOrder (order_in words.now) (λ o. Keeps o (S.stock store.old) (S.stock store.new)
        result name) }
    // No call of the store or the sink failed, but where it is Outside.
    ensures clean { result ≢ Status.Outside
        → NoFailures (S.stock store.old) (S.stock store.new) (K.output out.old) (K.output out.new) }
    // What the store and the sink keep only grew, and whether the store tells stayed.
    ensures store_grew { Grew (S.stock store.old) (S.stock store.new) }
    ensures sink_grew { (K.output out.old).faults ≤ (K.output out.new).faults }
    // A command of which nothing failed: Done, Refused or Input, or want of memory.
    ensures ends { order_in words.now ≢ None
        → NothingFailed (S.stock store.old) (S.stock store.new)
        (K.output out.old) (K.output out.new)
        → result ≢ Status.Memory → EndsAnswered result }
    // Where the store tells, it is an ending to which the contents lead that the names hold.
    ensures complete { (order : Order) → order_in words.now ≡ Some order
        → (S.stock store.old).tells ≡ true
        → NothingFailed (S.stock store.old) (S.stock store.new)
        (K.output out.old) (K.output out.new)
        → result ≢ Status.Memory
        → Settled order (S.stock store.old) (S.stock store.new) result
        (K.output out.old) (K.output out.new) }
{
    answer_words(alloc, words, store, out)
}

/// `viper_main` over a shelf and a page that never fail: Outside never comes, and a command is
/// answered, or finds no memory.
pub fn sure_main(alloc: Global, words: &[&str], store: &mut SureShelf, out: &mut SurePage) -> Status
    ensures sure { result ≢ Status.Outside }
    ensures check_done { (image plan cert : List ℕ)
        → order_in words.now ≡ Some (Check image plan cert) → result ≡ Status.Done
        → Verified image plan cert (sure_stock store.old) (sure_stock store.new)
        (sure_output out.old) (sure_output out.new) }
    ensures complete { (order : Order) → order_in words.now ≡ Some order → result ≢ Status.Memory
        → Settled order (sure_stock store.old) (sure_stock store.new) result
        (sure_output out.old) (sure_output out.new) }
    ensures usage { result ≡ Status.Usage → (order_in words.now ≡ None)
        × WroteUsage (Some out.old) (Some out.new) }
    ensures usage_where { order_in words.now ≡ None
        → result ≢ Status.Memory → result ≡ Status.Usage }
    ensures memory { result ≡ Status.Memory → out.new ≡ out.old }
    ensures ends { order_in words.now ≢ None → result ≢ Status.Memory → EndsAnswered result }
    ensures others { (name : List ℕ) → target_in (order_in words.now) ≢ Some name
        → (sure_stock store.new).holds name ≡ (sure_stock store.old).holds name }
{
    viper_main(alloc, words, store, out)
}
