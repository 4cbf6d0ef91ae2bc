//! A journal file that is read.
//!
//! 1. One body is read at a time, and no byte after the size that the file has at first. So memory is taken for the
//!    journal and for the longest of its bodies.
ghost use Rattle.std.specs.Prelude.{◌≡◌, ◌+◌, ◌-◌, ◌*◌, ◌^◌, ◌<◌, ◌≤◌, ℕ, true, false, ◌==◌, get_or, List, length, drop, take, Option, Some, None, IfSome, IfOk, IfErr, OnOk, OnErr, IsTrue};
ghost use Rattle.journal_disk.specs.Disk.{content, FaultsRise};
ghost use Rattle.journal_file.specs.Reading.{gated, kind_in, kind_of_header, commits_from, with_writes};
ghost use Rattle.journal_file.specs.Recovering.{Reads, IsRefused, IsRefusedRead, IsRecovered, ReadsOnly, gated_head, open_head};

use crate::file::HEADER_LEN;
use crate::reading::{CommitHead, head_of, writes_of};
use crate::refusal::RecoverRefusal;
use desk_io::Failed;
use graph_model::{Commit, Journal, Kind, TxnName, Writes};
use items::NoMemory;
use journal_disk::Disk;
use std::alloc::{AllocError, Global};

/// How many bytes a gate and a head have.
const FRONT_LEN: u64 = 33;

/// How many bytes a write has.
const WRITE_LEN: u64 = 25;

/// What a journal file stands for.
#[derive(Drop)]
pub struct Recovered {
    /// Which kind of graph it is of.
    pub kind: Kind,
    /// The commits before the first gate that is closed.
    pub journal: Journal,
}

/// Reads the journal of the file of this name.
pub fn recover<K: Disk>(
    alloc: Global,
    disk: &mut K,
    name: &str,
) -> Result<Recovered, RecoverRefusal>
    ensures opened { IfOk result (IsRecovered (K.state disk.old) name.now) }
    ensures ok { OnOk result ((K.state disk.new).faults ≡ (K.state disk.old).faults) }
    ensures refused { IfErr result (IsRefused (K.state disk.old) name.now (K.state disk.new)) }
{
    disk.choose(name)?;
    read_chosen(alloc, disk)
}

/// Reads the journal of the chosen file.
fn read_chosen<K: Disk>(alloc: Global, disk: &mut K) -> Result<Recovered, RecoverRefusal>
    ensures opened { IfOk result (λ r. Reads (K.state disk.old) (Some r)) }
    ensures ok { OnOk result (K.state disk.new ≡ K.state disk.old) }
    ensures refused { IfErr result (IsRefusedRead (K.state disk.old) (K.state disk.new)) }
{
    // Asked for once: no length that a damaged file claims is believed beyond it.
    let size = disk.size()?;
    match read_kind(disk, size)? {
        Some(kind) => {
            let journal = read_commits(alloc, disk, size)?;
            Ok(Recovered { kind, journal })
        }
        None => Err(RecoverRefusal::NotAJournal),
    }
}

/// The kind of the graph, by the header of the file, if it has one.
fn read_kind<K: Disk>(disk: &mut K, size: u64) -> Result<Option<Kind>, Failed>
    ensures kind { IfOk result (λ kind. (file : List ℕ) → content (K.state disk.old) ≡ Some file → size ≡ length file
        → kind ≡ kind_in file) }
    ensures whole { IfOk result (λ kind. IfSome kind (λ _. 9 ≤ size)) }
    ensures ok { OnOk result (K.state disk.new ≡ K.state disk.old) }
    ensures err { OnErr result (FaultsRise (K.state disk.old) (K.state disk.new)) }
{
    if size < HEADER_LEN {
        return Ok(None);
    }
    let mut header = [0; 9];
    if !fill(disk, 0, &mut header)? {
        return Ok(None);
    }
    Ok(kind_of(&header))
}

/// The kind of the graph that these bytes are the header of.
fn kind_of(header: &[u8]) -> Option<Kind>
    ensures { result ≡ kind_of_header header.now }
{
    if header == b"TESEOJ1\n\x00".as_slice() {
        return Some(Kind::Undirected);
    }
    if header == b"TESEOJ1\n\x01".as_slice() {
        return Some(Kind::Directed);
    }
    None
}

/// The commits after the header.
fn read_commits<K: Disk>(alloc: Global, disk: &mut K, size: u64) -> Result<Journal, RecoverRefusal>
    requires { 9 ≤ size }
    ensures commits { IfOk result (λ journal. (file : List ℕ) → content (K.state disk.old) ≡ Some file
        → size ≡ length file → journal ≡ commits_from 1 (drop 9 file)) }
    ensures ok { OnOk result (K.state disk.new ≡ K.state disk.old) }
    ensures refused { IfErr result (ReadsOnly (K.state disk.old) (K.state disk.new)) }
{
    let mut journal = Journal::new(alloc);
    let mut body = Vec::new(alloc);
    let mut at = HEADER_LEN;
    'commits: loop {
        match read_commit(alloc, disk, size, at, journal.len() as u64 + 1, &mut body)? {
            Some(commit) => {
                // The next gate stands where this body ends; the first that is closed ends the journal.
                at += FRONT_LEN + WRITE_LEN * commit.writes.len() as u64;
                journal.push(commit)?;
            }
            None => return Ok(journal),
        }
    }
}

/// The commit after the gate at a place, if that is open and the body whole and right.
fn read_commit<K: Disk>(
    alloc: Global,
    disk: &mut K,
    size: u64,
    at: u64,
    stamp: u64,
    body: &mut Vec<u8>,
) -> Result<Option<Commit>, RecoverRefusal>
    requires { at ≤ size }
    ensures commit { IfOk result (λ commit. (file : List ℕ) → content (K.state disk.old) ≡ Some file
        → size ≡ length file → commit ≡ gated stamp (drop at file)) }
    ensures within { IfOk result (λ commit. IfSome commit (λ c. at + (33 + 25 * length c.writes) ≤ size)) }
    ensures ok { OnOk result (K.state disk.new ≡ K.state disk.old) }
    ensures refused { IfErr result (ReadsOnly (K.state disk.old) (K.state disk.new)) }
{
    let head = match read_head(disk, size, at, stamp)? {
        Some(head) => head,
        None => return Ok(None),
    };
    let count = head.count as usize;
    if !read_body(disk, at + FRONT_LEN, 25 * count, body)? {
        return Ok(None);
    }
    match writes_of(alloc, count, body.as_slice())? {
        Some(writes) => Ok(Some(commit_of(head, writes))),
        None => Ok(None),
    }
}

/// The head after the gate at a place, if the gate is open, the head keeps the rules, and the file has the bytes of
/// all its writes.
fn read_head<K: Disk>(
    disk: &mut K,
    size: u64,
    at: u64,
    stamp: u64,
) -> Result<Option<CommitHead>, Failed>
    requires { at ≤ size }
    ensures head { IfOk result (λ head. (file : List ℕ) → content (K.state disk.old) ≡ Some file
        → size ≡ length file → head ≡ gated_head stamp (drop at file)) }
    ensures within { IfOk result (λ head. IfSome head (λ h. at + (33 + 25 * h.count) ≤ size)) }
    ensures ok { OnOk result (K.state disk.new ≡ K.state disk.old) }
    ensures err { OnErr result (FaultsRise (K.state disk.old) (K.state disk.new)) }
{
    if size - at < FRONT_LEN {
        return Ok(None);
    }
    let mut front = [0; 33];
    if !fill(disk, at, &mut front)? {
        return Ok(None);
    }
    Ok(open_head(&front, size - at - FRONT_LEN, stamp))
}

/// The head after a gate, if the gate is open and the head keeps the rules, where so many bytes come after it.
fn open_head(front: &[u8], behind: u64, stamp: u64) -> Option<CommitHead>
    requires { length front.now ≡ 33 }
    ensures head { result ≡ open_head front.now behind stamp }
    ensures within { IfSome result (λ head. 25 * head.count ≤ behind) }
{
    let head = head_of(&front[1..]);
    if !is_open(front) {
        return None;
    }
    if !head.is_next(stamp) {
        return None;
    }
    // Before memory is asked for: a damaged count could be any number.
    if behind / WRITE_LEN < head.count {
        return None;
    }
    Some(head)
}

/// Whether the first byte is an open gate.
fn is_open(front: &[u8]) -> bool
    requires { length front.now ≡ 33 }
    ensures { result ≡ (get_or front.now 0 0 == 1) }
{
    front[0] == 1
}

/// The commit of a head with its writes.
fn commit_of(head: CommitHead, writes: Writes) -> Commit
    ensures { result ≡ with_writes head writes }
{
    Commit {
        stamp: head.stamp,
        start: head.start,
        by: TxnName {
            job: head.job,
            number: head.number,
        },
        writes,
    }
}

/// Reads so many bytes from a place on. False where the file ends before.
fn read_body<K: Disk>(
    disk: &mut K,
    at: u64,
    len: usize,
    body: &mut Vec<u8>,
) -> Result<bool, RecoverRefusal>
    requires { at + len < 2 ^ 64 }
    ensures whole { IfOk result (λ is_whole. (file : List ℕ) → content (K.state disk.old) ≡ Some file
        → at + len ≤ length file → (is_whole ≡ true) × (body.new.items ≡ take len (drop at file))) }
    ensures len { OnOk result (length body.new.items ≡ len) }
    ensures ok { OnOk result (K.state disk.new ≡ K.state disk.old) }
    ensures refused { IfErr result (ReadsOnly (K.state disk.old) (K.state disk.new)) }
{
    body.clear();
    body.resize(len, 0)?;
    let is_whole = fill(disk, at, body.as_mut_slice())?;
    Ok(is_whole)
}

/// Fills the buffer with the bytes from a place on. False where the file ends before.
fn fill<K: Disk>(disk: &mut K, at: u64, buffer: &mut [u8]) -> Result<bool, Failed>
    requires { at + length buffer.old < 2 ^ 64 }
    ensures len { length buffer.new ≡ length buffer.old }
    ensures whole { IfOk result (λ is_whole. (file : List ℕ) → content (K.state disk.old) ≡ Some file
        → at + length buffer.old ≤ length file
        → (is_whole ≡ true) × (buffer.new ≡ take (length buffer.old) (drop at file))) }
    ensures ok { OnOk result (K.state disk.new ≡ K.state disk.old) }
    ensures err { OnErr result (FaultsRise (K.state disk.old) (K.state disk.new)) }
{
    let mut done = 0;
    'pieces: while done < buffer.len() {
        let count = disk.read(at + done as u64, &mut buffer[done..])?;
        if count == 0 {
            return Ok(false);
        }
        done += count;
    }
    Ok(true)
}

#[cfg(test)]
mod tests {
    use super::*;
    use crate::file::JournalFile;
    use crate::record::Record;
    use crate::refusal::DiskFault;
    use graph_model::Write;
    use journal_disk::MemoryDisk;
    use std::test::Fail;

    /// The header, the open gate, the head of the commit `0.1` with its six writes, and the first of these, `vertex 1`.
    const FRONT: &[u8] = b"TESEOJ1\n\x00\x01\
        \x01\x00\x00\x00\x00\x00\x00\x00\x00\x00\x00\x00\x00\x00\x00\x00\
        \x00\x00\x00\x00\x01\x00\x00\x00\x06\x00\x00\x00\x00\x00\x00\x00\
        \x00\x01\x00\x00\x00\x00\x00\x00\x00";

    /// A path of three vertices and a vertex apart, as one commit.
    const PATH: &[Write] = &[
        Write::AddVertex { v: 1 },
        Write::AddVertex { v: 2 },
        Write::AddVertex { v: 3 },
        Write::AddVertex { v: 4 },
        Write::AddEdge {
            u: 1,
            v: 2,
            weight: 1,
        },
        Write::AddEdge {
            u: 2,
            v: 3,
            weight: 1,
        },
    ];

    #[test]
    fn a_file_is_read_up_to_its_first_fault(rt: HostRuntime) -> Result<(), Fail> {
        let alloc = rt.alloc();
        let mut disk = MemoryDisk::with_failing(alloc, &[])?;
        let kept = keep_path(alloc, &mut disk)?;
        let file = disk.get("k").unwrap_or(b"".as_slice());
        let found = (kept.is_ok(), file.len(), file.starts_with(FRONT));
        assert_eq!(rt; found, (true, 193, true));
        for (len, place, byte, wanted) in [
            (193, 192, 0, Ok((1, 6))),
            (192, 191, 0, Ok((1, 6))),
            (191, 190, 0, Ok((0, 0))),
            (193, 9, 0, Ok((0, 0))),
            (193, 10, 2, Ok((0, 0))),
            (193, 18, 1, Ok((0, 0))),
            (193, 34, 7, Ok((0, 0))),
            (193, 41, 128, Ok((0, 0))),
            (193, 42, 5, Ok((0, 0))),
            (193, 51, 1, Ok((0, 0))),
            (9, 8, 1, Ok((0, 0))),
            (193, 8, 2, Err(RecoverRefusal::NotAJournal)),
            (8, 7, 10, Err(RecoverRefusal::NotAJournal)),
        ] {
            let front = file.get(..len).unwrap_or(b"".as_slice());
            let mut bytes = Vec::from_slice(alloc, front)?;
            if let Some(changed) = bytes.get_mut(place) {
                *changed = byte;
            }
            let mut other = MemoryDisk::with_failing(alloc, &[])?;
            other.put("k", &bytes)?;
            assert_eq!(rt;
                counts(alloc, &mut other),
                wanted,
                "{len} bytes, byte {place} is {byte}"
            );
        }
        Ok(())
    }

    #[test]
    fn what_is_kept_when_a_call_fails(rt: HostRuntime) -> Result<(), Fail> {
        let alloc = rt.alloc();
        for (call, is_kept, wanted) in [
            (1, false, Err(RecoverRefusal::NotAJournal)),
            (2, false, Err(RecoverRefusal::NotAJournal)),
            (3, false, Err(RecoverRefusal::NotAJournal)),
            (4, false, Ok((0, 0))),
            (5, false, Ok((0, 0))),
            (6, false, Ok((0, 0))),
            (7, false, Ok((0, 0))),
            (8, false, Ok((1, 6))),
            (9, true, Err(RecoverRefusal::DiskFault)),
            (10, true, Err(RecoverRefusal::DiskFault)),
            (11, true, Err(RecoverRefusal::DiskFault)),
            (99, true, Ok((1, 6))),
        ] {
            let mut disk = MemoryDisk::with_failing(alloc, &[call])?;
            let kept = keep_path(alloc, &mut disk)?;
            assert_eq!(rt;
                (kept.is_ok(), counts(alloc, &mut disk)),
                (is_kept, wanted),
                "call {call} fails"
            );
        }
        Ok(())
    }

    /// Makes the file `k` and adds the path.
    fn keep_path(alloc: Global, disk: &mut MemoryDisk) -> Result<Result<(), DiskFault>, NoMemory> {
        let mut writes = Writes::new(alloc);
        for write in PATH {
            writes.push(*write)?;
        }
        let mut record = Record::new(alloc);
        record.lay(&Commit {
            stamp: 1,
            start: 0,
            by: TxnName { job: 0, number: 1 },
            writes,
        })?;
        Ok(keep(disk, &record))
    }

    fn keep(disk: &mut MemoryDisk, record: &Record) -> Result<(), DiskFault> {
        let mut file = JournalFile::create(disk, "k", Kind::Undirected)?;
        if !file.has_room(record) {
            return Err(DiskFault);
        }
        file.append(disk, record)
    }

    /// How many commits the file `k` stands for, and how many writes they have.
    fn counts(alloc: Global, disk: &mut MemoryDisk) -> Result<(usize, usize), RecoverRefusal> {
        let recovered = recover(alloc, disk, "k")?;
        let mut writes = 0_usize;
        for commit in recovered.journal.as_slice() {
            writes = writes.saturating_add(commit.writes.len());
        }
        Ok((recovered.journal.len(), writes))
    }
}
