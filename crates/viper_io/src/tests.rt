ghost use Rattle.std.specs.Prelude.{◌≡◌, ◌++◌, IfErr};
ghost use Rattle.viper_io.specs.Causes.{failed_fetch, longs_after, faults_after};

use crate::{
    FetchFault, FileStore, OutSink, Page, Shelf, Sink, SinkFault, Store, SurePage, SureShelf,
};
use std::alloc::Global;
use std::fs;
use std::test::Fail;

/// A file of this crate's tests, in the folder where they run.
const FILE: &str = "viper_io_bounds_test.txt";

/// How many bytes a name holds, by a caller that knows of the store what its trait says.
fn size_of<S: Store>(store: &mut S, alloc: Global, name: &str) -> Result<usize, FetchFault>
    ensures failures { (S.stock store.new).failures
        ≡ (S.stock store.old).failures ++ failed_fetch name.now result }
    ensures longs { (S.stock store.new).longs ≡ longs_after (S.stock store.old).longs result }
{
    let bytes = store.fetch(alloc, name, 5)?;
    Ok(bytes.len())
}

/// Puts a text, and says how many bytes that is, by a caller that knows of the sink what its trait
/// says.
fn put_text<K: Sink>(sink: &mut K, text: &str) -> Result<usize, SinkFault>
    ensures faults { (K.output sink.new).faults ≡ faults_after (K.output sink.old).faults result }
    ensures memory { IfErr result (λ e. e ≡ SinkFault.Memory
        → (K.output sink.new).text ≡ (K.output sink.old).text) }
{
    sink.put(text.as_bytes())?;
    Ok(text.len())
}

#[test]
fn each_store_serves_a_caller_that_knows_its_trait_alone(rt: HostRuntime) -> Result<(), Fail> {
    let mut shelf = Shelf::new(rt.alloc());
    shelf.place("image", b"words")?;
    assert_eq!(rt; size_of(&mut shelf, rt.alloc(), "image")?, 5);
    let mut sure = SureShelf::new(rt.alloc());
    sure.place("image", b"words")?;
    assert_eq!(rt; size_of(&mut sure, rt.alloc(), "image")?, 5);
    let mut files = FileStore::new(&rt, rt.alloc());
    files.place(FILE, b"words")?;
    assert_eq!(rt; size_of(&mut files, rt.alloc(), FILE)?, 5);
    fs::remove_file(&rt, FILE)?;
    Ok(())
}

#[test]
fn each_sink_serves_a_caller_that_knows_its_trait_alone(rt: HostRuntime) -> Result<(), Fail> {
    let mut page = Page::new(rt.alloc());
    assert_eq!(rt; put_text(&mut page, "yes")?, 3);
    assert_eq!(rt; page.bytes(), b"yes".as_slice());
    let mut sure = SurePage::new(rt.alloc());
    assert_eq!(rt; put_text(&mut sure, "yes")?, 3);
    assert_eq!(rt; sure.bytes(), b"yes".as_slice());
    let mut out = OutSink::new(Vec::new(rt.alloc()));
    assert_eq!(rt; put_text(&mut out, "yes")?, 3);
    Ok(())
}
