//! A journal file that is written.
//!
//! 1. The file isn't read while it is written. What is kept of it is where its last gate stands, and how many commits
//!    it has.
//! 2. After a fault the file may have the commit or not. Nothing more is to be added then.
ghost use Rattle.std.specs.Prelude.{◌≡◌, ◌+◌, ◌-◌, ◌^◌, ◌<◌, ◌≤◌, ◌++◌, [], ◌∷◌, ℕ, List, length, min, OnOk, OnErr, IfOk, IsTrue, ◌↔◌};
ghost use Rattle.graph_model.specs.declared.write.Kind.{Kind};
ghost use Rattle.graph_model.specs.declared.journal.Commit.{Commit};
ghost use Rattle.journal_disk.specs.Disk.{FaultsStand, FaultsRise};
ghost use Rattle.journal_disk.specs.Crashes.{Torn, LeavesOnly, Only};
ghost use Rattle.journal_file.specs.Format.{body, file_of, IsEntry};
ghost use Rattle.journal_file.specs.Keeping.{IsRead, IsSettled, IsBeforeOrAfter, Lays};

use crate::record::Record;
use crate::refusal::DiskFault;
use desk_io::Failed;
use graph_model::Kind;
use journal_disk::Disk;

/// How many bytes the header has.
pub(crate) const HEADER_LEN: u64 = 9;

/// How many bytes a file may have.
const MOST_BYTES: u64 = 1 << 63;

/// A journal file on the disk on which it is chosen.
#[derive(Clone, Copy, Debug, PartialEq, Eq)]
pub struct JournalFile {
    /// Where the gate stands that the next commit opens.
    gate: u64,
    // up to the last number
    count: u64,
}

impl JournalFile {
    /// Makes the file of this name, with no commit, in place of one that was there. Takes no memory.
    pub fn create<K: Disk>(disk: &mut K, name: &str, kind: Kind) -> Result<JournalFile, DiskFault>
        ensures settled { IfOk result (λ file. IsSettled kind [] file (K.state disk.new) (K.may_leave disk.new)) }
        ensures later { K.moment disk.old ≤ K.moment disk.new }
        ensures tells { (K.state disk.new).tells ≡ (K.state disk.old).tells }
        ensures ok { OnOk result (FaultsStand (K.state disk.old) (K.state disk.new)) }
        ensures err { OnErr result (FaultsRise (K.state disk.old) (K.state disk.new)) }
    {
        // All calls of the disk that follow are of this file.
        disk.choose(name)?;
        // Whatever stood there is gone before the header is written: an old gate after a new header would be read.
        disk.cut(0)?;
        let bytes = new_file(kind);
        write_and_sync(disk, 0, &bytes)?;
        Ok(JournalFile {
            gate: HEADER_LEN,
            count: 0,
        })
    }

    /// How many commits the file has.
    pub fn len(&self) -> u64
        ensures { result ≡ self.now.count }
    {
        self.count
    }

    /// Whether the file has room for a commit, whose bytes were laid aside.
    pub fn has_room(&self, entry: &Record) -> bool
        ensures { IsTrue result ↔ (self.now.gate + length entry.now < 2 ^ 63) }
    {
        // The bytes have the next gate at their end, closed, so their number is how far the file grows.
        let len = entry.as_slice().len() as u64;
        self.gate < MOST_BYTES && len < MOST_BYTES - self.gate
    }

    /// Adds a commit, whose bytes were laid aside. Takes no memory. Once it is answered `Ok` the commit is
    /// acknowledged: it is on the disk.
    pub fn append<K: Disk>(&mut self, disk: &mut K, entry: &Record) -> Result<(), DiskFault>
        requires room { self.old.gate + length entry.now < 2 ^ 63 }
        ensures acknowledged { (kind : Kind) (commits : List Commit) (c : Commit)
            → IsSettled kind commits self.old (K.state disk.old) (K.may_leave disk.old)
            → IsEntry (length commits + 1) c → entry.now ≡ body c ++ 0 ∷ []
            → OnOk result (IsSettled kind (commits ++ c ∷ []) self.new (K.state disk.new) (K.may_leave disk.new)) }
        ensures any_moment { (kind : Kind) (commits : List Commit) (c : Commit)
            → IsSettled kind commits self.old (K.state disk.old) (K.may_leave disk.old)
            → IsEntry (length commits + 1) c → entry.now ≡ body c ++ 0 ∷ []
            → LeavesOnly K.moment K.left_since disk.old disk.new (IsBeforeOrAfter kind commits c) }
        ensures tells { (K.state disk.new).tells ≡ (K.state disk.old).tells }
        ensures ok { OnOk result (FaultsStand (K.state disk.old) (K.state disk.new)) }
        ensures err { OnErr result (FaultsRise (K.state disk.old) (K.state disk.new)) }
        ensures same { OnErr result (self.new ≡ self.old) }
    {
        let bytes = entry.as_slice();
        // The body first, with the closed gate after it: a crash before its own gate is open leaves the file as it
        // was read before.
        write_and_sync(disk, self.gate + 1, bytes)?;
        write_and_sync(disk, self.gate, &[1])?;
        // After a fault nothing is kept: what the disk has is not known then, and the caller adds no more.
        *self = grown(*self, bytes);
        Ok(())
    }
}

/// The file with one commit more, of these bytes.
fn grown(file: JournalFile, bytes: &[u8]) -> JournalFile
    requires { file.gate + length bytes.now < 2 ^ 63 }
    ensures { result ≡ record { gate = file.gate + length bytes.now; count = min (file.count + 1) (2 ^ 64 - 1) } }
{
    JournalFile {
        gate: file.gate + bytes.len() as u64,
        count: file.count.saturating_add(1),
    }
}

/// The bytes of a file with no commit.
fn new_file(kind: Kind) -> [u8; 10]
    ensures { result ≡ file_of kind [] }
{
    match kind {
        Kind::Undirected => *b"TESEOJ1\n\x00\x00",
        Kind::Directed => *b"TESEOJ1\n\x01\x00",
    }
}

/// Writes the bytes from a place on, and brings them to the disk.
fn write_and_sync<K: Disk>(disk: &mut K, at: u64, bytes: &[u8]) -> Result<(), Failed>
    ensures lays { OnOk result (Lays at bytes.now (K.state disk.old) (K.state disk.new) (K.may_leave disk.new)) }
    ensures any_moment { (file : List ℕ) → IsRead (K.state disk.old) file → at ≤ length file
        → Only file (K.may_leave disk.old)
        → LeavesOnly K.moment K.left_since disk.old disk.new (Torn at (length bytes.now) file) }
    ensures later { K.moment disk.old ≤ K.moment disk.new }
    ensures tells { (K.state disk.new).tells ≡ (K.state disk.old).tells }
    ensures ok { OnOk result (FaultsStand (K.state disk.old) (K.state disk.new)) }
    ensures err { OnErr result (FaultsRise (K.state disk.old) (K.state disk.new)) }
{
    disk.write_at(at, bytes)?;
    // Before the next write: the order in which bytes reach the disk is known from syncs alone.
    disk.sync()?;
    Ok(())
}
