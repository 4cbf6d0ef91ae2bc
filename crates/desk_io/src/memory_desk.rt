//! A desk in memory, for tests.
//!
//! 1. All that it holds is told, so a test says what each file has before and after a call.
//! 2. A call fails where its number stands in a list, so a test reaches each way out without a broken device.
ghost use Rattle.std.specs.Prelude.{◌≡◌, ◌≢◌, ◌⊎◌, ◌++◌, ◌+◌, ◌-◌, ◌<◌, ◌≤◌, [], length, min, take, false, option_copied, option_map, IsTrue, IsSome, IsNone, IsOk, IsErr, IfSome, IfNone, IfOk, OnOk, OnErr, Contains, Some, None};
ghost use Rattle.desk_io.specs.Files.{Gives, IsThere, ReadFails, WriteFails, NoWriteFails, ChangesOnly, IsWritten, with_piece};
ghost use Rattle.desk_io.specs.MemoryDesk.{files_of, texts_of, failing_calls, next_call, fails_now, file_count, Counts, IsNew};

use crate::desk::{Desk, Failed};
use crate::faults::Faults;
use std::alloc::{AllocError, Global};
use std::collections::BTreeMap;

/// Files in memory, which are told whole. Calls of `read`, `create` and `write` are numbered
/// together from 1, and those in a list fail.
///
/// A read of a name with no file fails, and so does a write to one. A create or a write fails also
/// where memory for it is refused. What was said is no longer told once memory for it was refused.
#[derive(Drop)]
pub struct MemoryDesk {
    alloc: Global,
    /// By name.
    files: BTreeMap<String, Vec<u8>>,
    /// The numbers of the calls that are to fail.
    failing: Vec<u64>,
    /// How many calls were made, up to the last number.
    calls: u64,
    /// None: memory for a text was refused.
    said: Option<Vec<u8>>,
    /// The reads that failed, and the creates and writes.
    reads: Faults,
    /// What is known of creates and writes that failed.
    writes: Faults,
}

impl MemoryDesk {
    /// A desk with no file, no call of which is to fail.
    pub fn new(alloc: Global) -> MemoryDesk
        ensures { IsNew [] result }
    {
        MemoryDesk {
            alloc,
            files: BTreeMap::new(alloc),
            failing: Vec::new(alloc),
            calls: 0,
            said: Some(Vec::new(alloc)),
            reads: Faults::new(alloc),
            writes: Faults::new(alloc),
        }
    }

    /// A desk with no file, where the calls of these numbers fail.
    pub fn with_failing(alloc: Global, calls: &[u64]) -> Result<MemoryDesk, AllocError>
        ensures { IfOk result (IsNew calls.now) }
    {
        let failing = Vec::from_slice(alloc, calls)?;
        let mut desk = MemoryDesk::new(alloc);
        desk.failing = failing;
        Ok(desk)
    }

    /// Lays a file in place, with no call counted.
    pub fn put(&mut self, name: &str, bytes: &[u8]) -> Result<(), AllocError>
        ensures put { OnOk result ((files_of self.new).holds name.now ≡ Some bytes.now) }
        ensures failing { failing_calls self.new ≡ failing_calls self.old }
        ensures next { next_call self.new ≡ next_call self.old }
        ensures faults { NoWriteFails (files_of self.old) (files_of self.new) }
        ensures others { ChangesOnly name.now (files_of self.old) (files_of self.new) }
        ensures err { OnErr result (files_of self.new ≡ files_of self.old) }
    {
        let text = Vec::from_slice(self.alloc, bytes)?;
        put_text(self.alloc, &mut self.files, name, text)
    }

    /// The bytes of a file.
    pub fn get(&self, name: &str) -> Option<&[u8]>
        ensures { option_copied result ≡ (files_of self.now).written name.now }
    {
        match self.files.get(name) {
            Some(text) => Some(text.as_slice()),
            None => None,
        }
    }

    /// What was said.
    pub fn said(&self) -> Option<&[u8]>
        ensures { option_copied result ≡ (files_of self.now).said }
    {
        match &self.said {
            Some(text) => Some(text.as_slice()),
            None => None,
        }
    }

    /// How many files there are.
    pub fn file_count(&self) -> usize
        ensures { result ≡ file_count self.now }
    {
        self.files.len()
    }

    /// Counts a call, and answers whether it is to fail.
    fn next_fails(&mut self) -> bool
        ensures planned { result ≡ fails_now self.old }
        ensures counted { self.new.calls ≡ next_call self.old }
        ensures rest { self.new ≡ record self.old { calls = self.new.calls } }
    {
        self.calls = self.calls.saturating_add(1);
        self.failing.contains(&self.calls)
    }
}

impl Desk for MemoryDesk {
    ghost files = { files_of };

    fn read(&mut self, name: &str, at: u64, buffer: &mut [u8]) -> Result<usize, Failed>
        ensures bound { IfOk result (λ count. count ≤ length buffer.old) }
        ensures bytes { IfOk result (λ count. IfSome ((files_of self.old).holds name.now) (λ source.
            Gives source at buffer.new count)) }
        ensures found { OnOk result (IsThere (files_of self.old) name.now) }
        ensures ok { OnOk result (files_of self.new ≡ files_of self.old) }
        ensures err { OnErr result (ReadFails name.now (files_of self.old) (files_of self.new)) }
        // What the trait does not say: as many bytes as there are come, and a read of a file that
        // is there fails only by the list.
        ensures whole { IfOk result (λ count. IfSome ((files_of self.old).holds name.now) (λ source.
            count ≡ min (length buffer.old) (length source - at))) }
        ensures planned { IsTrue (fails_now self.old) → IsErr result }
        ensures never { failing_calls self.old ≡ []
            → IsSome ((files_of self.old).holds name.now) → IsOk result }
        ensures cause { IsErr result
            → IsTrue (fails_now self.old) ⊎ IsNone ((files_of self.old).holds name.now) }
        ensures counted { Counts self.old self.new }
    {
        if self.next_fails() {
            self.reads.add(name);
            return Err(Failed);
        }
        match self.files.get(name) {
            Some(text) => Ok(copy_part(text, at, buffer)),
            None => {
                self.reads.add(name);
                Err(Failed)
            }
        }
    }

    fn create(&mut self, name: &str) -> Result<(), Failed>
        ensures empty { OnOk result (IsWritten (files_of self.new) name.now []) }
        ensures ok { OnOk result (NoWriteFails (files_of self.old) (files_of self.new)) }
        ensures others { ChangesOnly name.now (files_of self.old) (files_of self.new) }
        ensures err { OnErr result (WriteFails name.now (files_of self.old) (files_of self.new)) }
        // What the trait does not say.
        ensures told { OnOk result ((files_of self.new).written name.now ≡ Some []) }
        ensures planned { IsTrue (fails_now self.old) → IsErr result }
        ensures counted { Counts self.old self.new }
    {
        let alloc = self.alloc;
        if !self.next_fails() && put_text(alloc, &mut self.files, name, Vec::new(alloc)).is_ok() {
            return Ok(());
        }
        self.writes.add(name);
        Err(Failed)
    }

    fn write(&mut self, name: &str, bytes: &[u8]) -> Result<usize, Failed>
        ensures bound { IfOk result (λ count. count ≤ length bytes.now) }
        ensures some { IfOk result (λ count. 0 < length bytes.now → 0 < count) }
        ensures appended { IfOk result (λ count. (files_of self.new).written name.now
            ≡ with_piece ((files_of self.old).written name.now) (take count bytes.now)) }
        ensures ok { OnOk result (NoWriteFails (files_of self.old) (files_of self.new)) }
        ensures others { ChangesOnly name.now (files_of self.old) (files_of self.new) }
        ensures err { OnErr result (WriteFails name.now (files_of self.old) (files_of self.new)) }
        // What the trait does not say: the whole piece is taken, of a file that is there.
        ensures whole { IfOk result (λ count. count ≡ length bytes.now) }
        ensures there { OnOk result (IsSome ((files_of self.old).written name.now)) }
        ensures planned { IsTrue (fails_now self.old) → IsErr result }
        ensures counted { Counts self.old self.new }
    {
        if self.next_fails() {
            self.writes.add(name);
            return Err(Failed);
        }
        if let Err(failed) = append(self.alloc, &mut self.files, name, bytes) {
            self.writes.add(name);
            return Err(failed);
        }
        Ok(bytes.len())
    }

    fn say(&mut self, text: &[u8]) {
        let kept = match &mut self.said {
            Some(said) => said.extend_from_slice(text).is_ok(),
            None => false,
        };
        if !kept {
            self.said = None;
        }
    }
}

/// Copies the text from the byte `at` on into the buffer, and answers how many bytes it copied.
fn copy_part(text: &Vec<u8>, at: u64, buffer: &mut [u8]) -> usize
    ensures count { result ≡ min (length buffer.old) (length text.now.items - at) }
    ensures gives { Gives text.now.items at buffer.new result }
{
    let text = text.as_slice();
    if text.len() as u64 <= at {
        return 0;
    }
    let at = at as usize;
    let count = buffer.len().min(text.len() - at);
    buffer[..count].copy_from_slice(&text[at..at + count]);
    count
}

/// Puts the text under the name, in place of the one that was there.
fn put_text(
    alloc: Global,
    files: &mut BTreeMap<String, Vec<u8>>,
    name: &str,
    text: Vec<u8>,
) -> Result<(), AllocError>
    ensures put { OnOk result (texts_of files.new name.now ≡ Some text.items) }
    ensures others { (other : _) → other ≢ name.now
        → texts_of files.new other ≡ texts_of files.old other }
    ensures err { OnErr result (texts_of files.new ≡ texts_of files.old) }
{
    let key = String::from_str(alloc, name)?;
    files.insert(key, text)?;
    Ok(())
}

/// Puts the bytes after the text under the name, which fails where there is none.
fn append(
    alloc: Global,
    files: &mut BTreeMap<String, Vec<u8>>,
    name: &str,
    bytes: &[u8],
) -> Result<(), Failed>
    ensures there { OnOk result (IsSome (texts_of files.old name.now)) }
    ensures put { OnOk result (texts_of files.new name.now
        ≡ with_piece (texts_of files.old name.now) bytes.now) }
    ensures others { (other : _) → other ≢ name.now
        → texts_of files.new other ≡ texts_of files.old other }
    ensures err { OnErr result (texts_of files.new ≡ texts_of files.old) }
{
    let longer = match files.get(name) {
        Some(text) => joined(alloc, text, bytes)?,
        None => return Err(Failed),
    };
    put_text(alloc, files, name, longer)?;
    Ok(())
}

/// The text with the bytes after it.
fn joined(alloc: Global, text: &Vec<u8>, bytes: &[u8]) -> Result<Vec<u8>, AllocError>
    ensures { IfOk result (λ longer. longer.items ≡ text.now.items ++ bytes.now) }
{
    let mut longer = Vec::from_slice(alloc, text.as_slice())?;
    longer.extend_from_slice(bytes)?;
    Ok(longer)
}
