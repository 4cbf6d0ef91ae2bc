//! Images of small graphs, and tables as numbers.

ghost use Rattle.std.specs.Prelude.{◌≡◌, map, IfOk};
ghost use Rattle.graph_image.specs.Building.{AreStorable, AreEnded};

use graph_image::{Builder, Image, NoMemory, Table, Value};
use graph_model::{Key, Row};
use std::alloc::{AllocError, Global};
use std::process::Abort;
use std::test::Fail;

/// Vertices 1 to 4, and edges from 1 to 2 and from 2 to 3 that have no direction.
pub fn path(alloc: Global) -> Result<Image, NoMemory> {
    let rows = rows_of(
        alloc,
        &[
            (1, 0, 0),
            (1, 3, 1),
            (2, 0, 0),
            (2, 2, 1),
            (2, 4, 1),
            (3, 0, 0),
            (3, 3, 1),
            (4, 0, 0),
        ],
    )?;
    image_of(alloc, rows.as_slice())
}

/// Arcs from 1 to 2, from 2 to 3 and from 3 to 1.
pub fn ring(alloc: Global) -> Result<Image, NoMemory> {
    let rows = rows_of(
        alloc,
        &[
            (1, 0, 0),
            (1, 3, 1),
            (2, 0, 0),
            (2, 4, 1),
            (3, 0, 0),
            (3, 2, 1),
        ],
    )?;
    image_of(alloc, rows.as_slice())
}

/// Edges of the weights 5 from 1 to 2, 1 from 2 to 3 and 9 from 1 to 3, and a vertex 4 alone.
pub fn triangle(alloc: Global) -> Result<Image, NoMemory> {
    let rows = rows_of(
        alloc,
        &[
            (1, 0, 0),
            (1, 3, 5),
            (1, 4, 9),
            (2, 0, 0),
            (2, 2, 5),
            (2, 4, 1),
            (3, 0, 0),
            (3, 2, 9),
            (3, 3, 1),
            (4, 0, 0),
        ],
    )?;
    image_of(alloc, rows.as_slice())
}

/// Arcs from 3 to 9 and from 9 to 1, and a vertex 7 alone.
pub fn chain(alloc: Global) -> Result<Image, NoMemory> {
    let rows = rows_of(
        alloc,
        &[
            (1, 0, 0),
            (3, 0, 0),
            (3, 10, 1),
            (7, 0, 0),
            (9, 0, 0),
            (9, 2, 1),
        ],
    )?;
    image_of(alloc, rows.as_slice())
}

/// Arcs from 1 to 3, from 3 to 1 and from 2 to 1.
pub fn arrows(alloc: Global) -> Result<Image, NoMemory> {
    let rows = rows_of(
        alloc,
        &[
            (1, 0, 0),
            (1, 4, 1),
            (2, 0, 0),
            (2, 2, 1),
            (3, 0, 0),
            (3, 2, 1),
        ],
    )?;
    image_of(alloc, rows.as_slice())
}

/// The rows of these numbers: two of the key, and the weight.
pub fn rows_of(alloc: Global, numbers: &[(u64, u64, u64)]) -> Result<Vec<Row>, AllocError>
    ensures { IfOk result (λ rows. rows.items
        ≡ map (λ k. record { key = record { src = k.0; second = k.1 }; weight = k.2 }) numbers.now) }
{
    numbers
        .iter()
        .map(|row| Row {
            key: Key {
                src: row.0,
                second: row.1,
            },
            weight: row.2,
        })
        .collect(alloc)
}

/// The image of the rows.
pub fn image_of(alloc: Global, rows: &[Row]) -> Result<Image, NoMemory>
    requires storable { AreStorable rows.now }
    requires ended { AreEnded rows.now }
{
    let mut builder = Builder::new(alloc);
    builder.push(rows)?;
    builder.finish()
}

/// What stands for infinity in a case, where no number of the case is as great.
pub const INFINITE: u64 = 18446744073709551615;

/// Asserts the vertices of a table, each with its number.
pub fn assert_table<R: Abort>(
    rt: &R,
    alloc: Global,
    table: &Table,
    want: &[(u64, u64)],
    case: &str,
) -> Result<(), Fail> {
    let mut found = Vec::new(alloc);
    for entry in table.as_slice() {
        let number = match entry.value {
            Value::Number { n } => n,
            Value::Infinity => INFINITE,
        };
        found.push((entry.vertex, number))?;
    }
    assert_eq!(rt; found.as_slice(), want, "{case}");
    Ok(())
}
