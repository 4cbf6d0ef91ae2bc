//! A disk in memory, for tests.
//!
//! 1. Each change of the chosen file, and each sync, is a step that is kept, so that a test may ask what a crash after
//!    any of them would leave.
//! 2. A call fails where its number stands in a list.
ghost use Rattle.std.specs.Prelude.{◌≡◌, ◌≢◌, ◌++◌, [], ◌∷◌, ◌≤◌, ℕ, List, length, option_copied, IsNone, IfOk, IfSome, OnOk, OnErr, Some, Vec};
ghost use Rattle.desk_io.specs.Files.{Gives, Rose};
ghost use Rattle.desk_io.specs.MemoryDesk.{texts_of};
ghost use Rattle.journal_disk.specs.Crashes.{overwritten, resized};
ghost use Rattle.journal_disk.specs.MemoryDisk.{state_of, steps_of, failing_calls, next_call, fails_now, IsNew, KeepsImages, Replaces, Settles};
ghost use Rattle.journal_disk.specs.Disk.{DiskState, content, Chooses, KeepsOthers, Fails, IsContent};
ghost use Rattle.journal_disk.specs.Steps.{outcomes, outcomes_since, unknown, since_now, until_now};

use crate::disk::Disk;
use desk_io::Failed;
use items::RoomyItems;
use std::alloc::{AllocError, Global};
use std::collections::BTreeMap;

/// Files in memory, which are told whole. Calls are numbered together from 1, and those in a list fail.
///
/// Each call is done at once. What a crash may leave is told by the steps that are kept: all that changed the chosen
/// file, or brought it to the disk, since the disk was made. That costs the memory of a file for each sync, and is for
/// proofs alone: a disk over real files keeps nothing.
///
/// A call fails also where memory is refused, or where no file is chosen. It has then changed nothing.
#[derive(Drop)]
pub struct MemoryDisk {
    alloc: Global,
    /// By name.
    files: BTreeMap<String, Vec<u8>>,
    /// The name of the file that calls go to, once one was chosen.
    chosen: Option<String>,
    /// What was done to the chosen file since the disk was made.
    steps: RoomyItems<Step>,
    /// The numbers of the calls that are to fail.
    failing: Vec<u64>,
    /// How many calls were made, up to the last number.
    calls: u64,
    /// How many failed, up to the last number.
    faults: u64,
}

/// What a call did to the images of the chosen file.
#[derive(Drop)]
enum Step {
    /// Another file was chosen.
    Chosen,
    /// So many bytes were written from this one on.
    Wrote { at: u64, count: usize },
    /// The file was cut to this size.
    Sized { size: u64 },
    /// All of the file was brought to the disk.
    Synced { file: Vec<u8> },
}

impl MemoryDisk {
    /// A disk with no file, where the calls of these numbers fail.
    pub fn with_failing(alloc: Global, calls: &[u64]) -> Result<MemoryDisk, AllocError>
        ensures { IfOk result (IsNew calls.now) }
    {
        Ok(MemoryDisk {
            alloc,
            files: BTreeMap::new(alloc),
            chosen: None,
            steps: RoomyItems::new(alloc),
            failing: Vec::from_slice(alloc, calls)?,
            calls: 0,
            faults: 0,
        })
    }

    /// Lays a file in place before it is chosen, with no call counted.
    pub fn put(&mut self, name: &str, bytes: &[u8]) -> Result<(), AllocError>
        ensures put { OnOk result ((state_of self.new).holds name.now ≡ Some bytes.now) }
        ensures others { (other : _) → other ≢ name.now
            → (state_of self.new).holds other ≡ (state_of self.old).holds other }
        ensures failing { failing_calls self.new ≡ failing_calls self.old }
        ensures next { next_call self.new ≡ next_call self.old }
        ensures err { OnErr result (state_of self.new ≡ state_of self.old) }
    {
        let file = Vec::from_slice(self.alloc, bytes)?;
        put_file(self.alloc, &mut self.files, name, file)
    }

    /// The bytes of a file.
    pub fn get(&self, name: &str) -> Option<&[u8]>
        ensures { option_copied result ≡ (state_of self.now).holds name.now }
    {
        match self.files.get(name) {
            Some(file) => Some(file.as_slice()),
            None => None,
        }
    }

    /// The bytes of the chosen file.
    fn chosen_bytes(&self) -> Option<&[u8]>
        ensures { option_copied result ≡ content (state_of self.now) }
    {
        match &self.chosen {
            Some(name) => self.get(name.as_str()),
            None => None,
        }
    }

    /// Counts a call, and answers whether it is to fail.
    fn next_fails(&mut self) -> bool
        ensures planned { result ≡ fails_now self.old }
        ensures rest { self.new ≡ record self.old { calls = next_call self.old } }
    {
        self.calls = self.calls.saturating_add(1);
        self.failing.contains(&self.calls)
    }

    /// Counts a call that failed.
    fn fail(&mut self) -> Failed
        ensures rose { Rose self.old.faults self.new.faults }
        ensures rest { self.new ≡ record self.old { faults = self.new.faults } }
    {
        self.faults = self.faults.saturating_add(1);
        Failed
    }

    /// Keeps a step.
    fn keep(&mut self, step: Step) -> Result<(), Failed>
        ensures kept { OnOk result (steps_of self.new ≡ steps_of self.old ++ step ∷ []) }
        ensures err { OnErr result (steps_of self.new ≡ steps_of self.old) }
        ensures rest { self.new ≡ record self.old { steps = self.new.steps } }
    {
        match self.steps.reserve(1) {
            Ok(()) => {
                self.steps.push_within(step);
                Ok(())
            }
            Err(_) => Err(Failed),
        }
    }

    /// Puts the file in the place of the chosen one, and keeps the step that does so.
    fn replace(&mut self, file: Vec<u8>, step: Step) -> Result<(), Failed>
        ensures ok { OnOk result (Replaces file.items step self.old self.new) }
        ensures err { OnErr result (KeepsImages self.old self.new) }
    {
        let Some(name) = &self.chosen else {
            return Err(Failed)
        };
        match self.steps.reserve(1) {
            Ok(()) => {}
            Err(_) => return Err(Failed),
        }
        put_file(self.alloc, &mut self.files, name.as_str(), file)?;
        self.steps.push_within(step);
        Ok(())
    }

    /// Chooses the file of this name, and makes an empty one where there is none.
    fn choose_file(&mut self, name: &str) -> Result<(), Failed>
        ensures chosen { OnOk result (Chooses name.now (state_of self.old) (state_of self.new)) }
        ensures step { OnOk result (steps_of self.new ≡ steps_of self.old ++ Step.Chosen ∷ []) }
        ensures err { OnErr result (KeepsImages self.old self.new) }
    {
        if self.next_fails() {
            return Err(Failed);
        }
        let key = String::from_str(self.alloc, name)?;
        match self.steps.reserve(1) {
            Ok(()) => {}
            Err(_) => return Err(Failed),
        }
        make_missing(self.alloc, &mut self.files, name)?;
        self.steps.push_within(Step::Chosen);
        self.chosen = Some(key);
        Ok(())
    }

    /// Writes the bytes over the chosen file.
    fn overwrite(&mut self, at: u64, bytes: &[u8]) -> Result<(), Failed>
        ensures ok { OnOk result ((file : List ℕ) × IsContent (state_of self.old) file
            × Replaces (overwritten file at bytes.now) (Step.Wrote at (length bytes.now)) self.old self.new) }
        ensures err { OnErr result (KeepsImages self.old self.new) }
    {
        if self.next_fails() {
            return Err(Failed);
        }
        let Some(file) = self.chosen_bytes() else {
            return Err(Failed)
        };
        let longer = with_bytes(self.alloc, file, at as usize, bytes)?;
        let count = bytes.len();
        self.replace(longer, Step::Wrote { at, count })?;
        Ok(())
    }

    /// Gives the chosen file this many bytes.
    fn resize(&mut self, size: u64) -> Result<(), Failed>
        ensures ok { OnOk result ((file : List ℕ) × IsContent (state_of self.old) file
            × Replaces (resized file size) (Step.Sized size) self.old self.new) }
        ensures err { OnErr result (KeepsImages self.old self.new) }
    {
        if self.next_fails() {
            return Err(Failed);
        }
        let Some(file) = self.chosen_bytes() else {
            return Err(Failed)
        };
        let mut other = Vec::from_slice(self.alloc, file)?;
        other.resize(size as usize, 0)?;
        self.replace(other, Step::Sized { size })?;
        Ok(())
    }

    /// Brings the chosen file to the disk.
    fn settle(&mut self) -> Result<(), Failed>
        ensures ok { OnOk result (Settles self.old self.new) }
        ensures state { state_of self.new ≡ state_of self.old }
        ensures err { OnErr result (steps_of self.new ≡ steps_of self.old) }
    {
        if self.next_fails() {
            return Err(Failed);
        }
        let Some(file) = self.chosen_bytes() else {
            return Err(Failed)
        };
        let file = Vec::from_slice(self.alloc, file)?;
        self.keep(Step::Synced { file })?;
        Ok(())
    }
}

impl Disk for MemoryDisk {
    ghost state = { state_of };

    ghost may_leave = { λ d. outcomes unknown (steps_of d) };

    ghost moment = { λ d. length (steps_of d) };

    ghost left_since = { λ d. outcomes_since unknown (steps_of d) };

    ghost counts_now = { λ d t c le now. since_now unknown (steps_of d) t c now };

    ghost only_now = { λ d c left. until_now unknown (steps_of d) c left };

    fn choose(&mut self, name: &str) -> Result<(), Failed> {
        match self.choose_file(name) {
            Ok(()) => Ok(()),
            Err(_) => Err(self.fail()),
        }
    }

    fn size(&mut self) -> Result<u64, Failed> {
        if self.next_fails() {
            return Err(self.fail());
        }
        match self.chosen_bytes() {
            Some(file) => Ok(file.len() as u64),
            None => Err(self.fail()),
        }
    }

    fn read(&mut self, at: u64, buffer: &mut [u8]) -> Result<usize, Failed> {
        if self.next_fails() {
            return Err(self.fail());
        }
        match self.chosen_bytes() {
            Some(file) => Ok(copy_part(file, at, buffer)),
            None => Err(self.fail()),
        }
    }

    fn cut(&mut self, size: u64) -> Result<(), Failed> {
        match self.resize(size) {
            Ok(()) => Ok(()),
            Err(_) => Err(self.fail()),
        }
    }

    fn write_at(&mut self, at: u64, bytes: &[u8]) -> Result<(), Failed> {
        match self.overwrite(at, bytes) {
            Ok(()) => Ok(()),
            Err(_) => Err(self.fail()),
        }
    }

    fn sync(&mut self) -> Result<(), Failed> {
        match self.settle() {
            Ok(()) => Ok(()),
            Err(_) => Err(self.fail()),
        }
    }
}

/// Copies the file from the byte `at` on into the buffer, and answers how many bytes it copied.
fn copy_part(file: &[u8], at: u64, buffer: &mut [u8]) -> usize
    ensures count { result ≤ length buffer.old }
    ensures gives { Gives file.now at buffer.new result }
{
    if file.len() as u64 <= at {
        return 0;
    }
    let at = at as usize;
    let count = buffer.len().min(file.len() - at);
    buffer[..count].copy_from_slice(&file[at..at + count]);
    count
}

/// The file with the bytes written over it.
fn with_bytes(alloc: Global, file: &[u8], at: usize, bytes: &[u8]) -> Result<Vec<u8>, AllocError>
    ensures { IfOk result (λ other. other.items ≡ overwritten file.now at bytes.now) }
{
    let mut other = Vec::from_slice(alloc, file)?;
    other.resize(at, 0)?;
    other.extend_from_slice(bytes)?;
    if bytes.len() < file.len() && at < file.len() - bytes.len() {
        other.extend_from_slice(&file[at + bytes.len()..])?;
    }
    Ok(other)
}

/// Puts an empty file under the name where there is none.
fn make_missing(
    alloc: Global,
    files: &mut BTreeMap<String, Vec<u8>>,
    name: &str,
) -> Result<(), AllocError>
    ensures found { OnOk result (IfSome (texts_of files.old name.now) (λ file. texts_of files.new name.now ≡ Some file)) }
    ensures made { OnOk result (IsNone (texts_of files.old name.now) → texts_of files.new name.now ≡ Some []) }
    ensures others { (other : _) → other ≢ name.now
        → texts_of files.new other ≡ texts_of files.old other }
    ensures err { OnErr result (texts_of files.new ≡ texts_of files.old) }
{
    match files.get(name) {
        Some(_) => Ok(()),
        None => put_file(alloc, files, name, Vec::new(alloc)),
    }
}

/// Puts the file under the name, in place of the one that was there.
fn put_file(
    alloc: Global,
    files: &mut BTreeMap<String, Vec<u8>>,
    name: &str,
    file: Vec<u8>,
) -> Result<(), AllocError>
    ensures put { OnOk result (texts_of files.new name.now ≡ Some file.items) }
    ensures others { (other : _) → other ≢ name.now
        → texts_of files.new other ≡ texts_of files.old other }
    ensures err { OnErr result (texts_of files.new ≡ texts_of files.old) }
{
    let key = String::from_str(alloc, name)?;
    files.insert(key, file)?;
    Ok(())
}
