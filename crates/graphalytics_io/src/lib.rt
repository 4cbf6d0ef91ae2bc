//! What the files of LDBC Graphalytics have in common: lines of fields, numbers, and edges with their load
//! into an engine. Result files are written here too.
//!
//! 1. A text is read once, from left to right, and is lent: nothing of it is copied but what it spells.
//! 2. Each line is counted, also one that says nothing, so a fault can be told by its line.
//! 3. Writers put text after what stands there. One that is refused memory leaves the text as it was, or, where
//!    its name begins with `write_` and it writes a part alone, says that the text may have some of it.
#![tactic(auto)]

mod edges;
mod line_fields;
mod lines;
mod load;
mod number;
mod pieces;
mod spelling;
mod table;
mod text;
mod threads;

pub use edges::{Edge, Edges};
pub use line_fields::Fields;
pub use lines::{FieldLine, FieldLines, field_lines, fields, lines_have_fields};
pub use load::{load_graph, writes_of};
pub use number::{NumberFault, read_number};
pub use pieces::{Pieces, pieces_of_items, text_of_items, text_of_table};
pub use spelling::{Spelling, append_each, write_each};
pub use table::write_table;
pub use text::Text;
pub use threads::cuts_for;
