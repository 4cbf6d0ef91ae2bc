//! Vertex and edge files, and their first faults.

ghost use Rattle.graph_files.specs.Weights.{AreReadable};

use graph_files::{Weights, read_edges, read_vertices};
use graph_model::{Ids, Kind};
use std::alloc::Global;
use std::test::Fail;

#[test]
fn a_vertex_file_is_read_or_its_first_fault_said(rt: HostRuntime) -> Result<(), Fail> {
    for (text, limit, want) in [
        ("", 0, ""),
        ("\n# 1\n \t\r\n", 0, ""),
        ("3\n1\n2", 3, "3 1 2 "),
        (" 007\t\r\n\n0\r", 2, "7 0 "),
        ("9223372036854775806\n", 1, "9223372036854775806 "),
        ("1 x\n", 9, "line 1: extra field"),
        ("x\n", 9, "line 1: not a number"),
        (" # 1\n", 9, "line 1: extra field"),
        ("1\r\r\n", 9, "line 1: not a number"),
        ("9223372036854775807", 9, "line 1: id too large"),
        ("1\n#\n01\nx\n", 9, "line 3: duplicate vertex"),
        ("1\n2\n3\n", 2, "line 3: too many rows"),
        ("1\n2\n1\n", 2, "line 3: duplicate vertex"),
    ] {
        let got = said_ids(rt.alloc(), text, limit)?;
        assert_eq!(rt; got.as_str(), want, "of {text}");
    }
    Ok(())
}

/// The ids that are read, each with a blank after it, or the refusal.
fn said_ids(alloc: Global, text: &str, limit: u64) -> Result<String, Fail> {
    let mut said = String::new(alloc);
    match read_vertices(alloc, text.as_bytes(), limit) {
        Ok(ids) => {
            for id in ids.as_slice() {
                let one = format!(in alloc; "{id} ")?;
                said.push_str(one.as_str())?;
            }
        }
        Err(refusal) => return Ok(format!(in alloc; "{refusal}")?),
    }
    Ok(said)
}

const DIRECTED: Kind = Kind::Directed;

const UNDIRECTED: Kind = Kind::Undirected;

#[test]
fn an_edge_file_is_read_or_its_first_fault_said(rt: HostRuntime) -> Result<(), Fail> {
    for (text, kind, limit, want) in [
        ("", DIRECTED, 0, ""),
        ("1 2\n2 1\n1 3", DIRECTED, 6, "1-2:1 2-1:1 1-3:1 "),
        ("1 2\n2 1\n1 3", UNDIRECTED, 7, "1-2:1 1-3:1 "),
        ("# 1\n\n\t01  2 x\r\n", DIRECTED, 4, "1-2:1 "),
        ("1", DIRECTED, 9, "line 1: missing field"),
        ("x 2 3 4", DIRECTED, 9, "line 1: extra field"),
        ("x 2", DIRECTED, 9, "line 1: not a number"),
        ("9 x", DIRECTED, 9, "line 1: not a number"),
        ("9223372036854775807 x", DIRECTED, 9, "line 1: id too large"),
        ("1 9223372036854775807", DIRECTED, 9, "line 1: id too large"),
        ("7 7", DIRECTED, 9, "line 1: self loop"),
        ("4 1", DIRECTED, 9, "line 1: unknown vertex"),
        ("1 4", DIRECTED, 9, "line 1: unknown vertex"),
        ("1 2\n1 2\nx", DIRECTED, 9, "line 2: duplicate edge"),
        ("1 2\n1 2\nx", UNDIRECTED, 9, "line 2: duplicate edge"),
        ("1 2\n2 1\n2 1", UNDIRECTED, 9, "line 3: duplicate edge"),
        ("1 2\n2 1\n1 2", UNDIRECTED, 9, "line 3: duplicate edge"),
        ("1 2\n1 3\n2 1", DIRECTED, 5, "line 3: too many rows"),
        ("1 2\n2 1\n1 3", UNDIRECTED, 6, "line 3: too many rows"),
        ("1 2\n1 2", DIRECTED, 4, "line 2: duplicate edge"),
        ("\n1 2", DIRECTED, 2, "line 2: too many rows"),
        (
            "1 2\n3 1\n2 1\n3 2\n1 3",
            UNDIRECTED,
            9,
            "1-2:1 3-1:1 3-2:1 ",
        ),
        (
            "1 2\n3 1\n2 1\n1 3\n3 1",
            UNDIRECTED,
            9,
            "line 5: duplicate edge",
        ),
        (
            "1 2\n2 1\n1 4\n1 2",
            UNDIRECTED,
            9,
            "line 3: unknown vertex",
        ),
    ] {
        let got = said_edges(rt.alloc(), text, kind, Weights::Ones, limit)?;
        assert_eq!(rt; got.as_str(), want, "of {text}");
    }
    Ok(())
}

#[test]
fn a_weight_is_read_in_units_or_its_fault_said(rt: HostRuntime) -> Result<(), Fail> {
    for (text, digits, cut, want) in [
        ("1 2 0.5\n2 1 .50", 1, false, "1-2:5 "),
        ("1 2 0.5\n2 1 .57", 1, true, "1-2:5 "),
        ("1 2 0.5\n2 1 .6", 1, false, "line 2: duplicate edge"),
        ("1 2 5.", 0, false, "1-2:5 "),
        ("1 2 .0", 0, false, "1-2:0 "),
        ("1 2 007.1", 9, false, "line 1: weight too large"),
        ("1 2 04.294967295", 9, false, "1-2:4294967295 "),
        ("1 2 4294967295.99", 0, true, "1-2:4294967295 "),
        ("1 2 4294967296", 0, true, "line 1: weight too large"),
        ("1 2 42949672.96", 2, false, "line 1: weight too large"),
        ("1 2 .5", 0, false, "line 1: weight too fine"),
        ("1 2 99999999999.5", 0, false, "line 1: weight too fine"),
        ("1 2 1.000x", 0, true, "line 1: not a number"),
        ("1 2 .", 3, false, "line 1: not a number"),
        ("1 2 1.2.3", 3, false, "line 1: not a number"),
        ("1 4 x", 3, false, "line 1: unknown vertex"),
        ("1 2", 3, false, "line 1: missing field"),
    ] {
        let got = said_edges(
            rt.alloc(),
            text,
            UNDIRECTED,
            Weights::Units { digits, cut },
            9,
        )?;
        assert_eq!(rt; got.as_str(), want, "of {text}");
    }
    Ok(())
}

/// The edges that are read over the ids 1, 2 and 3, each as `1-2:7` for the weight 7, with a blank after it, or
/// the refusal.
fn said_edges(
    alloc: Global,
    text: &str,
    kind: Kind,
    weights: Weights,
    limit: u64,
) -> Result<String, Fail>
    requires { AreReadable weights }
{
    let ids = Ids::from_vec(Vec::from_slice(alloc, &[1, 2, 3])?);
    let mut said = String::new(alloc);
    match read_edges(alloc, text.as_bytes(), &ids, kind, weights, limit) {
        Ok(edges) => {
            for edge in edges.as_slice() {
                let one = format!(in alloc; "{}-{}:{} ", edge.u, edge.v, edge.weight)?;
                said.push_str(one.as_str())?;
            }
        }
        Err(refusal) => return Ok(format!(in alloc; "{refusal}")?),
    }
    Ok(said)
}
