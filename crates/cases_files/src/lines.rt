//! Lines of fields, and the text of a table.

use graph_model::{Entry, NoMemory, Table, Value};
use graphalytics_io::{Text, field_lines, write_table};
use std::alloc::Global;
use std::test::Fail;

#[test]
fn lines_that_say_something_are_given_with_their_numbers_and_fields(
    rt: HostRuntime,
) -> Result<(), Fail> {
    for (text, want) in [
        ("", ""),
        ("\n\r\n \t\n# 1\n#", ""),
        ("1 2\n3", "1(1)(2) 2(3) "),
        ("\n\t 7 \t  8 \r\n\n9\n", "2(7)(8) 4(9) "),
        (" # 1\n1#\n", "1(#)(1) 2(1#) "),
        ("1\r\r\n2\r", "1(1\r) 2(2) "),
        ("a\x0bb\n\x0c", "1(a\x0bb) 2(\x0c) "),
    ] {
        let got = said_lines(rt.alloc(), text)?;
        assert_eq!(rt; got.as_slice(), want.as_bytes(), "of {text}");
    }
    Ok(())
}

/// Each line as `1(a)(b)` for its number and its fields, with a blank after it.
fn said_lines(alloc: Global, text: &str) -> Result<Text, NoMemory> {
    let mut said = Text::new(alloc);
    let mut lines = field_lines(text.as_bytes());
    'lines: while let Some(mut line) = lines.next() {
        said.push_number(line.number)?;
        'fields: while let Some(field) = line.fields.next() {
            said.push_bytes(b"(")?;
            said.push_bytes(field)?;
            said.push_bytes(b")")?;
        }
        said.push_bytes(b" ")?;
    }
    Ok(said)
}

#[test]
fn a_table_is_written_behind_what_stands_in_the_text(rt: HostRuntime) -> Result<(), Fail> {
    let number = Value::Number {
        n: 18446744073709551615,
    };
    let mut table = Table::new(rt.alloc());
    for (vertex, value) in [(1, number), (9223372036854775806, Value::Infinity)] {
        table.push(Entry { vertex, value })?;
    }
    let mut text = Text::new(rt.alloc());
    text.push_bytes(b"# ")?;
    write_table(&table, &mut text)?;
    let want = b"# 1 18446744073709551615\n9223372036854775806 infinity\n";
    assert_eq!(rt; text.as_slice(), want.as_slice());
    Ok(())
}
