ghost use Rattle.std.specs.Prelude.{◌≡◌, ◌≤◌, [], false, None, length, IfOk};

use super::whole::{read_whole, write_whole};
use crate::failed_call::FailedCall;
use crate::handouts::Handouts;
use crate::{Call, FetchFault, PlaceFault, Store};
use std::alloc::Global;
use std::marker::Model;
use std::rt::Files;
use std::{fs, io};

/// The files of a system, by their paths. It tells no content.
#[derive(Drop)]
pub struct FileStore<'a, R: Files> {
    files: &'a R,
    alloc: Global,
    failures: Vec<FailedCall>,
    longs: u64,
    handouts: Handouts,
}

impl<'a, R: Files> Model for FileStore<'a, R> {
    ghost use Rattle.viper_io.specs.Held.{FileState};

    ghost Value = { FileState };

    ghost view = { λ s. record {
      failures = s.failures.items;
      longs = s.longs;
      handed = s.handouts.list;
    } };
}

impl<'a, R: Files> FileStore<'a, R> {
    /// The files of a system, of which no call failed so far.
    pub fn new(files: &'a R, alloc: Global) -> FileStore<'a, R>
        ensures { result ≡ record { failures = []; longs = 0; handed = [] } }
    {
        FileStore {
            files,
            alloc,
            failures: Vec::new(alloc),
            longs: 0,
            handouts: Handouts::new(),
        }
    }
}

/// Why a file wasn't opened: Memory where the system says that there was none for it, else Failed.
fn open_fault(error: &io::Error) -> FetchFault {
    if error.kind() == io::ErrorKind::OutOfMemory {
        FetchFault::Memory
    } else {
        FetchFault::Failed
    }
}

/// The content of a file, of at most `limit` bytes. Failed where it can't be opened or read whole, Long
/// where it has more, Memory where there is no room for it.
fn read_file<R: Files>(
    files: &R,
    alloc: Global,
    name: &str,
    limit: u64,
) -> Result<Vec<u8>, FetchFault>
    ensures { IfOk result (λ v. length v.items ≤ limit) }
{
    match fs::open(files, name) {
        Ok(mut file) => read_whole(&mut file, alloc, limit),
        Err(error) => Err(open_fault(&error)),
    }
}

/// Makes a file hold the bytes, and says whether that went well. Want of memory in the system counts as
/// a failure here, since nothing is known of the file then.
fn write_file<R: Files>(files: &R, name: &str, bytes: &[u8]) -> bool {
    match fs::create(files, name) {
        Ok(mut file) => write_whole(&mut file, bytes),
        Err(_) => false,
    }
}

impl<'a, R: Files> Store for FileStore<'a, R> {
    ghost stock = { λ s. record {
      tells = false;
      holds = λ _. None;
      failures = s.failures;
      longs = s.longs;
      handed = s.handed;
    } };

    /// The content of a file. It fails where the file can't be opened or read whole.
    fn fetch(&mut self, alloc: Global, name: &str, limit: u64) -> Result<Vec<u8>, FetchFault> {
        let failed = FailedCall::new(self.alloc, Call::Fetch, name)?;
        self.failures.reserve(1)?;
        let answer = read_file(self.files, alloc, name, limit);
        match &answer {
            Err(FetchFault::Failed) => self.failures.push(failed).unwrap(),
            Err(FetchFault::Long) => {
                self.longs = self.longs.saturating_add(1);
                self.handouts.found_long(name, limit);
            }
            Err(FetchFault::Memory) => {}
            Ok(bytes) => self.handouts.gave(name, limit, bytes),
        }
        answer
    }

    /// Makes a file hold the bytes. It fails where the file can't be made or written whole, and
    /// the file may then hold anything.
    fn place(&mut self, name: &str, bytes: &[u8]) -> Result<(), PlaceFault> {
        let failed = FailedCall::new(self.alloc, Call::Place, name)?;
        self.failures.reserve(1)?;
        if write_file(self.files, name, bytes) {
            return Ok(());
        }
        self.failures.push(failed).unwrap();
        Err(PlaceFault::Failed)
    }
}
