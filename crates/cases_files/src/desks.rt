//! Sources and files, as desks read and write them.

use desk_io::{Desk, Failed, MemoryDesk, SourceRefusal, StdDesk, read_source};
use std::path::PathBuf;
use std::test::Fail;
use std::{env, fs, io, process};

#[test]
fn a_source_is_read_whole_up_to_its_limit(rt: HostRuntime) -> Result<(), Fail> {
    let alloc = rt.alloc();
    let eleven = b"0123456789A".as_slice();
    let mut pieces = Vec::new(alloc);
    for i in 0..70_000u32 {
        pieces.push((i % 251) as u8)?;
    }
    for (text, limit, failing, want) in [
        (eleven, 10, 0, Err(SourceRefusal::TooLong)),
        (eleven, 11, 0, Ok(true)),
        (eleven, u64::MAX, 0, Ok(true)),
        (eleven, 11, 2, Err(SourceRefusal::ReadFault)),
        (pieces.as_slice(), 70_000, 0, Ok(true)),
    ] {
        let mut desk = MemoryDesk::with_failing(alloc, &[failing])?;
        desk.put("source", text)?;
        let got = match read_source(alloc, &mut desk, "source", limit) {
            Ok(bytes) => Ok(bytes.as_slice() == text),
            Err(refusal) => Err(refusal),
        };
        assert!(rt;
            got == want,
            "with limit {limit} and call {failing} failing"
        );
    }
    Ok(())
}

#[test]
fn a_file_has_what_was_written_last(rt: HostRuntime) -> Result<(), Fail> {
    let path = scratch_path(&rt)?;
    let name = path.as_path().as_str();
    let mut desk = StdDesk::new(rt.alloc(), rt.clone()?);
    write_over(&mut desk, name)?;
    let mut buffer = [0; 8];
    let reads = [
        desk.read(name, 4, &mut buffer[4..]),
        desk.read(name, 0, &mut buffer[..3]),
        desk.read(name, 3, &mut buffer[3..4]),
        desk.read(name, 8, &mut [0; 8]),
    ];
    let written = fs::read(&rt, name)?;
    fs::remove_file(&rt, name)?;
    let text = b"1 2\n3 4\n";
    assert_eq!(rt;
        (
            written.as_slice() == text.as_slice(),
            buffer == *text,
            reads == [Ok(4), Ok(3), Ok(1), Ok(0)]
        ),
        (true, true, true)
    );
    Ok(())
}

#[test]
fn what_cannot_be_reached_is_a_failure(rt: HostRuntime) -> Result<(), Fail> {
    let path = scratch_path(&rt)?;
    let gone = path.as_path().as_str();
    let mut desk = StdDesk::new(rt.alloc(), rt.clone()?);
    let failures = [
        desk.create("/").is_err(),
        desk.read("/", 0, &mut [0; 8]).is_err(),
        desk.read(gone, 0, &mut [0; 8]).is_err(),
        desk.write(gone, b"7").is_err(),
        desk.write("/dev/full", b"7").is_err(),
    ];
    assert_eq!(rt; failures, [true; 5]);
    Ok(())
}

// A text in two calls, over a longer one.
fn write_over(desk: &mut impl Desk, name: &str) -> Result<(), Failed> {
    desk.create(name)?;
    desk.write(name, b"5 6\n7 8\n9 9\n")?;
    desk.create(name)?;
    desk.write(name, b"1 2\n")?;
    desk.write(name, b"3 4\n")?;
    Ok(())
}

fn scratch_path(rt: &HostRuntime) -> io::Result<PathBuf> {
    let name = format!(in rt.alloc(); "cases_files-{}", process::id(rt.process()))?;
    Ok(env::temp_dir(rt)?.join(rt.alloc(), name.as_str())?)
}
