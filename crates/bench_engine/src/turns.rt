//! Transactions of one pass, and turns of the service between them.

ghost use Rattle.std.specs.Prelude.{◌≡◌, None, IsSome, OnOk};

use bench_graphs::{Act, Edit};
use graph_model::{BeginRefusal, Cursor, Engine, Key, Refusal, Rows64};

/// So many transactions stand between two turns of the service: as many as when sixty scripts take their three lines
/// each by rotation.
const BETWEEN: usize = 20;

/// Makes each change in a transaction of its own, with turns of the service between them, and answers how many were
/// made.
pub fn run_all<E: Engine>(engine: &mut E, edits: &[Edit]) -> Result<u64, BeginRefusal>
    requires { (E.account engine.old).start ≡ None }
    ensures { OnOk result ((E.account engine.new).start ≡ None) }
{
    let mut made: u64 = 0;
    'edits: for number in 0..edits.len() {
        if make(engine, edits[number])? {
            made = made.wrapping_add(1);
        }
        if number % BETWEEN == 0 {
            let _ = engine.service_step();
        }
    }
    Ok(made)
}

/// Makes a change in a transaction of its own, and answers whether it was made.
fn make<E: Engine>(engine: &mut E, edit: Edit) -> Result<bool, BeginRefusal>
    requires { (E.account engine.old).start ≡ None }
    ensures { OnOk result ((E.account engine.new).start ≡ None) }
{
    engine.begin()?;
    let result = write(engine, edit);
    engine.commit();
    Ok(result.is_ok())
}

/// Makes a change in the open transaction.
fn write<E: Engine>(engine: &mut E, edit: Edit) -> Result<(), Refusal>
    requires { IsSome (E.account engine.old).start }
    ensures { (E.account engine.new).start ≡ (E.account engine.old).start }
{
    let u = u64::from(edit.u);
    let v = u64::from(edit.v);
    match edit.act {
        Act::Add => engine.add_edge(u, v, 1),
        Act::Set => engine.set_edge(u, v, 2),
        Act::Drop => engine.drop_edge(u, v),
    }
}

/// Scans all rows in one transaction, and answers how many there are.
pub fn scan_all<E: Engine>(engine: &mut E) -> Result<u64, BeginRefusal>
    requires { (E.account engine.old).start ≡ None }
{
    engine.begin()?;
    let mut cursor = Cursor {
        next: Key::of_vertex(0),
        until: Key::END,
        done: false,
    };
    let mut rows = Rows64::new();
    let mut count: u64 = 0;
    'scan: for _turn in 0..u64::MAX {
        if cursor.done {
            break;
        }
        engine.scan_step(&mut cursor, &mut rows);
        count = count.wrapping_add(rows.len() as u64);
    }
    engine.commit();
    Ok(count)
}
