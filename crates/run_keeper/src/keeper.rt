//! The file of a run, with the bytes of the commit at hand.
//!
//! 1. Which commits the file has is told by the file alone: the next one is the one after those.
//! 2. One buffer serves all commits, so after the longest of them none takes memory.

ghost use Rattle.std.specs.Prelude.{◌≡◌, ◌≤◌, ◌++◌, ◌∷◌, [], List, length, IfOk, IfErr, OnOk, OnErr};
ghost use Rattle.graph_model.specs.declared.write.Kind.{Kind};
ghost use Rattle.graph_model.specs.declared.journal.Commit.{Commit};
ghost use Rattle.graph_model.specs.Legal.{IsLegal, IsLegalCommit};
ghost use Rattle.journal_disk.specs.Disk.{FaultsStand, FaultsRise};
ghost use Rattle.run_keeper.specs.Keeping.{IsKept, KeepsOn, AreAcknowledged};
ghost use Rattle.run_keeper.specs.Refusals.{Stops};

use graph_model::{Commit, Kind, NoMemory};
use journal_disk::Disk;
use journal_file::{DiskFault, JournalFile, Record, files_stand_for_their_commits};
use std::alloc::Global;
use thiserror::Error;

/// Why commits weren't kept.
#[derive(Clone, Copy, Debug, PartialEq, Eq, Error)]
pub enum KeepRefusal {
    /// A call of the disk failed.
    #[error("the disk failed")]
    DiskFault,
    /// Memory was refused.
    #[error("no memory")]
    NoMemory,
}

impl From<DiskFault> for KeepRefusal {
    ghost use Rattle.run_keeper.specs.declared.keeper.KeepRefusal.TheVariants as refusals;

    ghost from_gives = { λ _ refusal. refusal ≡ refusals.DiskFault };

    fn from(_: DiskFault) -> KeepRefusal {
        KeepRefusal::DiskFault
    }
}

impl From<NoMemory> for KeepRefusal {
    ghost use Rattle.run_keeper.specs.declared.keeper.KeepRefusal.TheVariants as refusals;

    ghost from_gives = { λ _ refusal. refusal ≡ refusals.NoMemory };

    fn from(_: NoMemory) -> KeepRefusal {
        KeepRefusal::NoMemory
    }
}

/// Keeps the commits of a run in a journal file.
#[derive(Drop)]
pub struct Keeper {
    /// The file that they are kept in.
    pub file: JournalFile,
    /// The bytes of one commit after the other.
    pub record: Record,
}

impl Keeper {
    /// Makes the file of this name, with no commit, in place of one that was there. Takes no memory.
    pub fn create<K: Disk>(
        alloc: Global,
        disk: &mut K,
        name: &str,
        kind: Kind,
    ) -> Result<Keeper, DiskFault>
        ensures kept { IfOk result (λ keeper.
            IsKept K.moment K.may_leave K.left_since K.state kind [] keeper.file disk.new) }
        ensures ok { OnOk result (FaultsStand (K.state disk.old) (K.state disk.new)) }
        ensures err { OnErr result (FaultsRise (K.state disk.old) (K.state disk.new)) }
    {
        files_stand_for_their_commits();
        let file = JournalFile::create(disk, name, kind)?;
        // One buffer for the bytes of all commits: after the longest one, none takes memory.
        let record = Record::new(alloc);
        Ok(Keeper { file, record })
    }

    /// Adds the commits of the journal that the file doesn't have, one after the other.
    pub fn keep<K: Disk>(&mut self, disk: &mut K, journal: &[Commit]) -> Result<(), KeepRefusal>
        ensures kept { OnOk result ((kind : Kind) (commits rest : List Commit) → journal.now ≡ commits ++ rest
            → IsLegal kind journal.now → KeepsOn K.moment K.may_leave K.left_since K.state
            kind commits journal.now self.old.file self.new.file disk.old disk.new) }
        ensures still { OnErr result ((kind : Kind) (commits rest : List Commit) → journal.now ≡ commits ++ rest
            → IsLegal kind journal.now
            → IsKept K.moment K.may_leave K.left_since K.state kind commits self.old.file disk.old
            → (length commits ≤ self.new.file.count)
            × AreAcknowledged K.moment K.may_leave K.left_since kind journal.now self.new.file.count disk.new) }
        ensures ok { OnOk result (FaultsStand (K.state disk.old) (K.state disk.new)) }
        ensures refused { IfErr result (Stops (K.state disk.old) (K.state disk.new)) }
    {
        // The file tells itself what it has: no count beside it can go wrong after a commit that was not kept.
        let first = self.file.len() as usize;
        'commits: for place in first..journal.len() {
            self.keep_next(disk, &journal[place])?;
        }
        Ok(())
    }

    /// Adds the commit after those of the file.
    fn keep_next<K: Disk>(&mut self, disk: &mut K, commit: &Commit) -> Result<(), KeepRefusal>
        ensures kept { OnOk result ((kind : Kind) (journal commits : List Commit)
            → IsLegalCommit kind journal (length commits) commit.now
            → KeepsOn K.moment K.may_leave K.left_since K.state
            kind commits (commits ++ commit.now ∷ []) self.old.file self.new.file disk.old disk.new) }
        ensures still { OnErr result ((kind : Kind) (journal commits : List Commit)
            → IsLegalCommit kind journal (length commits) commit.now
            → IsKept K.moment K.may_leave K.left_since K.state kind commits self.old.file disk.old
            → (self.new.file.count ≡ length commits)
            × AreAcknowledged K.moment K.may_leave K.left_since kind (commits ++ commit.now ∷ []) (length commits) disk.new) }
        ensures ok { OnOk result (FaultsStand (K.state disk.old) (K.state disk.new)) }
        ensures refused { IfErr result (Stops (K.state disk.old) (K.state disk.new)) }
    {
        files_stand_for_their_commits();
        self.record.lay(commit)?;
        // No file of a disk is as long as its numbers count.
        if !self.file.has_room(&self.record) {
            return Err(KeepRefusal::NoMemory);
        }
        self.file.append(disk, &self.record)?;
        Ok(())
    }
}
