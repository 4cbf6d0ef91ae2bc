//! The desk over real files and standard output.
//!
//! 1. It tells nothing of what files hold: others may write them too.
//! 2. What fails is counted, with the name that the last failure was of.
ghost use Rattle.std.specs.Prelude.{◌≡◌, None};
ghost use Rattle.desk_io.specs.Faults.{last_name};
ghost use Rattle.desk_io.specs.Files.{nothing_told};

use crate::desk::{Desk, Failed};
use crate::faults::Faults;
use crate::open_files::OpenFiles;
use std::alloc::Global;
use std::fs::File;
use std::rt::Files;

/// Files of the file system, and standard output. Nothing is told of what they hold.
///
/// A folder is not read, and a text that cannot be said is lost. A write is of the whole piece, and
/// the file is closed with it: where that fails, some of the piece may have been written.
#[derive(Drop)]
pub struct StdDesk<R: Files<File = File>> {
    files: OpenFiles<R>,
    /// What is known of reads that failed.
    reads: Faults,
    /// What is known of creates and writes that failed.
    writes: Faults,
}

impl<R: Files<File = File> + Print> StdDesk<R> {
    pub fn new(alloc: Global, rt: R) -> StdDesk<R>
        ensures { ⟦<StdDesk<R> as Desk>⟧.files result ≡ nothing_told 0 None 0 None }
    {
        StdDesk {
            files: OpenFiles::new(alloc, rt),
            reads: Faults::new(alloc),
            writes: Faults::new(alloc),
        }
    }
}

impl<R: Files<File = File> + Print> Desk for StdDesk<R> {
    ghost files = { λ desk. nothing_told desk.reads.count (last_name desk.reads)
        desk.writes.count (last_name desk.writes) };

    fn read(&mut self, name: &str, at: u64, buffer: &mut [u8]) -> Result<usize, Failed> {
        match self.files.read(name, at, buffer) {
            Ok(count) => Ok(count),
            Err(_) => {
                self.reads.add(name);
                Err(Failed)
            }
        }
    }

    fn create(&mut self, name: &str) -> Result<(), Failed> {
        match self.files.create(name) {
            Ok(()) => Ok(()),
            Err(_) => {
                self.writes.add(name);
                Err(Failed)
            }
        }
    }

    fn write(&mut self, name: &str, bytes: &[u8]) -> Result<usize, Failed> {
        match self.files.write(name, bytes) {
            Ok(()) => Ok(bytes.len()),
            Err(_) => {
                self.writes.add(name);
                Err(Failed)
            }
        }
    }

    fn say(&mut self, text: &[u8]) {
        let _ = self.files.rt.write_all(text);
    }
}
