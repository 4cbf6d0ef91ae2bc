//! A path of three vertices with a vertex apart, and the search from the path's first vertex.

use crate::ends::{End, File, Run};

/// A path of three vertices and a vertex apart.
pub const V: File = ("v", "1\n2\n3\n4\n");

pub const E: File = ("e", "1 2\n2 3\n");

/// A search from the path's first vertex.
pub const SEARCH: File = ("s1", "begin\nbfs 1 o\ncommit\n");

/// The search on the path.
pub const PATH: Run = (&[V, E, SEARCH], "s1");

/// The text of the journal of the path.
pub const JOURNAL_TEXT: &str =
    "commit 1 start 0 by 0.1\nvertex 1\nvertex 2\nvertex 3\nvertex 4\nedge 1 2 1\nedge 2 3 1\n";

/// The journal of the path.
pub const JOURNAL: File = ("j", JOURNAL_TEXT);

/// The report of the search on the path.
pub const REPORT: File = ("s1.report", "begin 1.1 start 1\ntable 4\ncommit -\n");

/// The result of the search on the path.
pub const RESULT: File = ("o", "1 0\n2 1\n3 2\n4 9223372036854775807\n");

/// What is said at the end of a run that changes nothing on the path.
pub const SUMMARY: &str = "commits 1 vertices 4 edges 2 undo 0 retired 0\n";

/// The end of the search on the path.
pub const WHOLE: End = (0, SUMMARY, 6, &[JOURNAL, REPORT, RESULT]);
