//! The files that the desk over real files keeps open.
//!
//! 1. One source at most is open, at the place that was reached: a source that is read in pieces is
//!    opened once.
//! 2. One sink at most is open, from the call that creates it to the end of the call that writes it.
//!    It is closed there; what a close loses, as over a quota, no one learns.
//! 3. A file is created only once the files before it are closed.
//! 4. A call that a signal interrupts is made again.
ghost use Rattle.std.specs.Prelude.{◌≤◌, ◌≢◌, length, IfOk, IfErr};
ghost use Rattle.std.specs.IoError.{error_kind};
ghost use Rattle.std.specs.declared.io.ErrorKind.{ErrorKind};

use std::alloc::Global;
use std::fs::{File, OpenOptions};
use std::io::{ErrorKind, Read, Seek, SeekFrom, Write};
use std::rt::Files;
use std::{fs, io};

#[derive(Drop)]
pub(crate) struct OpenFiles<R: Files<File = File>> {
    alloc: Global,
    pub(crate) rt: R,
    /// The source that was read last, which is mostly read on.
    source: Option<OpenFile>,
    /// The place in the source that was reached.
    reached: u64,
    /// The output that was written last.
    sink: Option<OpenFile>,
}

/// A file that is kept open, for the calls on its name.
#[derive(Drop)]
struct OpenFile {
    /// None: memory for the name was refused, so no call finds the file by it.
    name: Option<String>,
    /// The open file.
    file: File,
}

impl OpenFile {
    fn new(alloc: Global, name: &str, file: File) -> OpenFile {
        OpenFile {
            name: String::from_str(alloc, name).ok(),
            file,
        }
    }

    fn is_named(&self, name: &str) -> bool {
        match &self.name {
            Some(kept) => kept.as_str() == name,
            None => false,
        }
    }
}

impl<R: Files<File = File>> OpenFiles<R> {
    pub(crate) fn new(alloc: Global, rt: R) -> OpenFiles<R> {
        OpenFiles {
            alloc,
            rt,
            source: None,
            reached: 0,
            sink: None,
        }
    }

    pub(crate) fn read(&mut self, name: &str, at: u64, buffer: &mut [u8]) -> io::Result<usize>
        ensures { IfOk result (λ count. count ≤ length buffer.old) }
    {
        let mut source = self.take_source(name, at)?;
        let count = read_again(&mut source.file, buffer)?;
        self.source = Some(source);
        self.reached = at.saturating_add(count as u64);
        Ok(count)
    }

    pub(crate) fn create(&mut self, name: &str) -> io::Result<()> {
        self.source = None;
        self.sink = None;
        let file = fs::create(&self.rt, name)?;
        self.sink = Some(OpenFile::new(self.alloc, name, file));
        Ok(())
    }

    /// Writes all of the bytes, and closes the file. Where no byte is taken, that is a failure.
    pub(crate) fn write(&mut self, name: &str, bytes: &[u8]) -> io::Result<()> {
        self.take_sink(name)?.file.write_all(bytes)
    }

    /// The source at this place, as it was kept or opened anew.
    fn take_source(&mut self, name: &str, at: u64) -> io::Result<OpenFile> {
        if let Some(source) = self.source.take() {
            // Pieces of one source follow each other, so mostly nothing is opened and nothing sought.
            if self.reached == at && source.is_named(name) {
                return Ok(source);
            }
        }
        let mut file = fs::open(&self.rt, name)?;
        if at > 0 {
            file.seek(SeekFrom::Start(at))?;
        }
        Ok(OpenFile::new(self.alloc, name, file))
    }

    /// The sink at its end, as it was kept or opened anew.
    fn take_sink(&mut self, name: &str) -> io::Result<OpenFile> {
        if let Some(sink) = self.sink.take() {
            if sink.is_named(name) {
                return Ok(sink);
            }
        }
        let file = OpenOptions::new().append(true).open(&self.rt, name)?;
        Ok(OpenFile::new(self.alloc, name, file))
    }
}

/// Reads once, and again where a signal interrupts it.
fn read_again(file: &mut File, buffer: &mut [u8]) -> io::Result<usize>
    ensures bound { IfOk result (λ count. count ≤ length buffer.old) }
    ensures again { IfErr result (λ error. error_kind error ≢ ErrorKind.Interrupted) }
{
    for _ in 0..u64::MAX {
        match file.read(buffer) {
            Err(error) if error.kind() == ErrorKind::Interrupted => {}
            answer => return answer,
        }
    }
    Err(io::Error::from(ErrorKind::TimedOut))
}
