//! Windows of segments, and the limits of their rows.
//!
//! 1. Windows of two, four and eight segments lie like the nodes of a tree over the leaf, so a segment has one window
//!    of each height.
//! 2. The wider a window is, the fewer rows a segment of it may have: else the next row that comes would need a wider
//!    window once more.

ghost use Rattle.std.specs.Prelude.{◌≡◌, ◌+◌, ◌*◌, ◌<◌, ◌≤◌, length, slice_index, sum, IfSome};
ghost use Rattle.density_tree.specs.Windows.{Fits, IsDense, IsRound, IsSmallestWindow, rows_in, window_round};

/// How many rows a window may have after an insertion, by its height. A segment alone may be full.
pub const UPPER_LIMITS: [u32; 4] = [32, 60, 112, 208];

/// How many rows a window has at least, by its height. One with fewer is sparse.
pub const LOWER_LIMITS: [u32; 4] = [4, 12, 32, 80];

/// Segments in a row.
#[derive(Clone, Copy, Debug, PartialEq, Eq)]
pub struct Window {
    /// The number of its first segment in the leaf.
    pub first: usize,
    /// How many segments it has: two, four or eight.
    pub len: usize,
}

/// The smallest window of two segments or more that has room for the rows needed beside its own.
pub fn window_for_insert(counts: [u8; 8], seg: usize, need: u8) -> Option<Window>
    requires seg { seg < 8 }
    requires some { 1 ≤ need }
    requires few { need ≤ 2 }
    ensures smallest { IsSmallestWindow (Fits counts need) seg result }
    ensures round { IfSome result (IsRound seg) }
{
    'heights: for height in 1..UPPER_LIMITS.len() {
        let window = round(seg, height);
        if rows_within(&counts, window) + need as u32 <= UPPER_LIMITS[height] {
            return Some(window);
        }
    }
    None
}

/// The smallest window of two segments or more, round a sparse one, that is not sparse itself.
pub fn window_for_sparse(counts: [u8; 8], seg: usize) -> Option<Window>
    requires seg { seg < 8 }
    requires sparse { slice_index counts seg < slice_index LOWER_LIMITS 0 }
    ensures smallest { IsSmallestWindow (IsDense counts) seg result }
    ensures round { IfSome result (IsRound seg) }
{
    'heights: for height in 1..LOWER_LIMITS.len() {
        let window = round(seg, height);
        if rows_within(&counts, window) >= LOWER_LIMITS[height] {
            return Some(window);
        }
    }
    None
}

/// The window of this height that has the segment.
fn round(seg: usize, height: usize) -> Window
    requires seg { seg < 8 }
    requires height { height < 4 }
    ensures window { result ≡ window_round seg height }
    ensures round { IsRound seg result }
{
    let len = 1 << height;
    Window {
        first: seg / len * len,
        len,
    }
}

/// How many rows the window has.
fn rows_within(counts: &[u8; 8], window: Window) -> u32
    requires { window.first + window.len ≤ 8 }
    ensures rows { result ≡ rows_in counts.now window }
    ensures small { result ≤ 255 * 8 }
{
    total(&counts[window.first..window.first + window.len])
}

fn total(counts: &[u8]) -> u32
    requires { length counts.now ≤ 8 }
    ensures total { result ≡ sum counts.now }
    ensures small { result ≤ 255 * length counts.now }
{
    let mut total = 0;
    for count in counts {
        total += u32::from(*count);
    }
    total
}
