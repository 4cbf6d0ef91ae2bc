//! The rows of a path.

use crate::power_law::weight;
use graph_model::{Key, NoMemory, Row};
use std::alloc::Global;

/// The rows of a path over so many vertices, from 1 on, in the order of their ids, with weights.
pub fn rows_of(alloc: Global, vertices: u64) -> Result<Vec<Row>, NoMemory> {
    let mut rows = Vec::new(alloc);
    'vertices: for before in 0..vertices {
        let src = before + 1;
        rows.push(Row {
            key: Key { src, second: 0 },
            weight: 0,
        })?;
        if before > 0 {
            push_arc(&mut rows, src, before)?;
        }
        if src < vertices {
            push_arc(&mut rows, src, src + 1)?;
        }
    }
    Ok(rows)
}

/// Pushes the row of an arc.
fn push_arc(rows: &mut Vec<Row>, src: u64, target: u64) -> Result<(), NoMemory> {
    rows.push(Row {
        key: Key {
            src,
            second: target.wrapping_add(1),
        },
        weight: weight(src, target),
    })?;
    Ok(())
}
