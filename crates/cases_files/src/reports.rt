//! The texts of the journal and of a report.

use graph_model::{Cause, Commit, Ids, Journal, TxnName, Write, Writes};
use graphalytics_io::Text;
use report_lang::{write_journal, write_report};
use run_model::Answer;
use std::test::Fail;

#[test]
fn each_commit_is_followed_by_its_writes(rt: HostRuntime) -> Result<(), Fail> {
    let (u, v) = (9223372036854775806, 0);
    let load = [
        Write::AddVertex { v: u },
        Write::AddEdge {
            u,
            v,
            weight: 4294967295,
        },
    ];
    let later = [
        Write::SetEdge { u, v, weight: 0 },
        Write::DropEdge { u: v, v: u },
        Write::DropVertex { v },
    ];
    let mut journal = Journal::new(rt.alloc());
    journal.push(Commit {
        stamp: 1,
        start: 0,
        by: TxnName { job: 0, number: 1 },
        writes: Writes::from_vec(Vec::from_slice(rt.alloc(), &load)?),
    })?;
    journal.push(Commit {
        stamp: 3,
        start: 2,
        by: TxnName { job: 7, number: 12 },
        writes: Writes::from_vec(Vec::from_slice(rt.alloc(), &later)?),
    })?;
    let mut text = Text::new(rt.alloc());
    text.push_bytes(b"# ")?;
    write_journal(&journal, &mut text)?;
    let want: &[u8] = b"\
        # commit 1 start 0 by 0.1\n\
        vertex 9223372036854775806\n\
        edge 9223372036854775806 0 4294967295\n\
        commit 3 start 2 by 7.12\n\
        set 9223372036854775806 0 0\n\
        drop 0 9223372036854775806\n\
        unvertex 0\n";
    assert_eq!(rt; text.as_slice(), want);
    Ok(())
}

#[test]
fn each_kind_of_answer_is_a_line_behind_what_stands_in_the_text(
    rt: HostRuntime,
) -> Result<(), Fail> {
    let holder = TxnName {
        job: 3,
        number: 4294967295,
    };
    let targets = Ids::from_vec(Vec::from_slice(rt.alloc(), &[7, 20])?);
    let lines = Vec::from_array(
        rt.alloc(),
        [
            Answer::Begun {
                by: TxnName { job: 12, number: 1 },
                start: 40,
            },
            Answer::Done,
            Answer::Exists,
            Answer::SelfLoop,
            Answer::NoVertex {
                v: 9223372036854775806,
            },
            Answer::NoEdge,
            Answer::HasEdges,
            Answer::Conflict {
                cause: Cause::Later { stamp: 41 },
            },
            Answer::Conflict {
                cause: Cause::Holder { by: holder },
            },
            Answer::Full,
            Answer::Weight { weight: 0 },
            Answer::Nothing,
            Answer::Neighbours { targets },
            Answer::Neighbours {
                targets: Ids::new(rt.alloc()),
            },
            Answer::Counted {
                vertices: 10,
                edges: 100,
            },
            Answer::Table { entries: 10 },
            Answer::Committed { stamp: Some(42) },
            Answer::Committed { stamp: None },
            Answer::Aborted,
            Answer::Skipped,
        ],
    )?;
    let mut text = Text::new(rt.alloc());
    text.push_bytes(b"# ")?;
    write_report(lines.as_slice(), &mut text)?;
    let want: &[u8] = b"\
        # begin 12.1 start 40\n\
        ok\n\
        exists\n\
        self loop\n\
        no vertex 9223372036854775806\n\
        no edge\n\
        has edges\n\
        conflict later 41\n\
        conflict open 3.4294967295\n\
        full\n\
        weight 0\n\
        none\n\
        neighbours 2 7 20\n\
        neighbours 0\n\
        vertices 10 edges 100\n\
        table 10\n\
        commit 42\n\
        commit -\n\
        aborted\n\
        skipped\n";
    assert_eq!(rt; text.as_slice(), want);
    Ok(())
}
