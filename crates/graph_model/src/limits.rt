//! The limits of the store, each named once.
//!
//! 1. Each stands in a law with its number once more, `limits_are_as_written`: code and definitions cite the constant,
//!    so a wrong one would be proved everywhere.

/// The greatest vertex id. The arc to it has `MAX_ID + 1` as the second number of its key.
pub const MAX_ID: u64 = 9223372036854775806;

/// The greatest weight of an edge, in units.
pub const MAX_WEIGHT: u64 = 4294967295;

/// What BFS gives a vertex that no walk reaches (LDBC Graphalytics, BFS).
pub const NO_WALK: u64 = 9223372036854775807;

/// How many rows the two graph files may stand for: vertices plus arcs.
pub const MAX_LOAD_ROWS: u64 = 8388608;

/// How many bytes a source may have.
pub const MAX_SOURCE_BYTES: u64 = 1073741824;

/// How many leaves a store may be configured with.
pub const MAX_LEAVES: u32 = 131072;

/// How many inserted rows a split of a leaf uses up at least: a store is full only where its writes may
/// have inserted as many rows for each leaf.
pub const SPLIT_ROWS: u64 = 103;

/// How many rows a segment has room for.
pub const SEGMENT_ROWS: usize = 32;

/// How many segments a leaf has.
pub const LEAF_SEGMENTS: usize = 8;

/// How many passes a store may have.
pub const MAX_PASSES: u32 = 64;

/// How many transactions a pass may begin.
pub const MAX_TXNS_PER_PASS: u32 = 4294967295;

/// How many scripts a run may have.
pub const MAX_SCRIPTS: usize = 60;

/// How many `begin` lines a script may have.
pub const MAX_BEGINS: u32 = 16777216;

/// How many threads a run may have.
pub const MAX_THREADS: u32 = 32;

/// How many rows one turn of a scan gives at most.
pub const SCAN_ROWS: usize = 64;

/// How many rounds of community detection may be asked for.
pub const MAX_ROUNDS: u32 = 1000000;
