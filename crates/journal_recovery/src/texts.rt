//! The texts of a journal file.
//!
//! 1. The text of its commits is that which the run would have written as its journal, had it ended there.

ghost use Rattle.std.specs.Prelude.{◌≡◌, IfOk, IfErr, OnOk};
ghost use Rattle.journal_disk.specs.Disk.{FaultsStand};
ghost use Rattle.journal_file.specs.Recovering.{IsRefused};
ghost use Rattle.journal_recovery.specs.Texts.{AreTextsOf, recovered_line};

use graph_model::NoMemory;
use graphalytics_io::Text;
use journal_disk::Disk;
use journal_file::{RecoverRefusal, Recovered, recover};
use plain_graph::{GraphCounts, count_graph};
use report_lang::write_journal;
use std::alloc::Global;

/// What a journal file says.
#[derive(Drop)]
pub struct RecoveredTexts {
    /// The text of its commits.
    pub journal: Text,
    /// How many commits there are, and how large the graph is that they make.
    pub summary: Text,
}

/// Reads the journal of the file of this name, and makes its texts.
pub fn recover_texts<K: Disk>(
    alloc: Global,
    disk: &mut K,
    name: &str,
) -> Result<RecoveredTexts, RecoverRefusal>
    ensures texts { IfOk result (AreTextsOf (K.state disk.old) name.now) }
    ensures ok { OnOk result (FaultsStand (K.state disk.old) (K.state disk.new)) }
    ensures refused { IfErr result (IsRefused (K.state disk.old) name.now (K.state disk.new)) }
{
    let Recovered { kind, journal } = recover(alloc, disk, name)?;
    let counts = count_graph(alloc, kind, journal.as_slice())?;
    let summary = summary_of(alloc, journal.len() as u64, counts)?;
    let mut text = Text::new(alloc);
    write_journal(&journal, &mut text)?;
    Ok(RecoveredTexts {
        journal: text,
        summary,
    })
}

/// How many commits there are, and how large their graph is, as it is said.
fn summary_of(alloc: Global, commits: u64, counts: GraphCounts) -> Result<Text, NoMemory>
    ensures { IfOk result (λ text. text ≡ recovered_line commits counts) }
{
    let mut text = Text::new(alloc);
    text.push_bytes(b"commits ")?;
    text.push_number(commits)?;
    text.push_bytes(b" vertices ")?;
    text.push_number(counts.vertices)?;
    text.push_bytes(b" edges ")?;
    text.push_number(counts.edges)?;
    text.push_bytes(b"\n")?;
    Ok(text)
}

#[cfg(test)]
mod tests {
    use super::*;
    use graph_model::{Commit, Kind, TxnName, Write, Writes};
    use items::NoMemory;
    use journal_disk::MemoryDisk;
    use journal_file::{DiskFault, JournalFile, Record};
    use std::test::Fail;

    /// A path of three vertices and a vertex apart.
    const PATH: &[Write] = &[
        Write::AddVertex { v: 1 },
        Write::AddVertex { v: 2 },
        Write::AddVertex { v: 3 },
        Write::AddVertex { v: 4 },
        Write::AddEdge {
            u: 1,
            v: 2,
            weight: 1,
        },
        Write::AddEdge {
            u: 2,
            v: 3,
            weight: 1,
        },
    ];

    /// The journal of that, as one commit.
    const JOURNAL: &str =
        "commit 1 start 0 by 0.1\nvertex 1\nvertex 2\nvertex 3\nvertex 4\nedge 1 2 1\nedge 2 3 1\n";

    /// What is said of a graph with so many edges.
    const SAID: [(Kind, &str); 2] = [
        (Kind::Undirected, "commits 1 vertices 4 edges 2\n"),
        (Kind::Directed, "commits 1 vertices 4 edges 2\n"),
    ];

    #[test]
    fn a_path_is_read_back(rt: HostRuntime) -> Result<(), Fail> {
        let alloc = rt.alloc();
        for (kind, said) in SAID {
            let mut disk = MemoryDisk::with_failing(alloc, &[])?;
            let mut record = Record::new(alloc);
            record.lay(&path(alloc)?)?;
            assert!(rt; keep(&mut disk, &record, kind).is_ok());
            let found = match recover_texts(alloc, &mut disk, "k") {
                Ok(texts) => (
                    texts.journal.as_slice() == JOURNAL.as_bytes(),
                    texts.summary.as_slice() == said.as_bytes(),
                ),
                Err(_) => (false, false),
            };
            assert_eq!(rt; found, (true, true));
        }
        Ok(())
    }

    /// The path as the first commit.
    fn path(alloc: Global) -> Result<Commit, NoMemory> {
        let mut writes = Writes::new(alloc);
        for write in PATH {
            writes.push(*write)?;
        }
        Ok(Commit {
            stamp: 1,
            start: 0,
            by: TxnName { job: 0, number: 1 },
            writes,
        })
    }

    /// Makes the file `k` with one commit.
    fn keep(disk: &mut MemoryDisk, record: &Record, kind: Kind) -> Result<(), DiskFault> {
        let mut file = JournalFile::create(disk, "k", kind)?;
        if !file.has_room(record) {
            return Err(DiskFault);
        }
        file.append(disk, record)
    }
}
