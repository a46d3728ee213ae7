//! The reader of files, over the machine's files.

mod failing;

use crate::expect::{expect_eq, expect_eq_at};
use std::alloc::{AllocError, Global};
use std::fs::Files;
use std::process::Abort;
use std::test::Fail;
use std::{env, fs, io, process};
use tz_base::error::ReadFault;
use tz_zone::inner::open_fault;
use tz_zone::timezone::{read_file, read_file_up_to};

/// Some MiB, of which the last piece of 2000 bytes is not whole.
fn many_bytes(alloc: Global) -> Result<Vec<u8>, AllocError> {
    let mut row = Vec::new(alloc);
    for byte in 0..251u8 {
        row.push(byte)?;
    }
    let mut bytes = Vec::new(alloc);
    for _ in 0..12_001 {
        bytes.extend_from_slice(&row)?;
    }
    Ok(bytes)
}

#[test]
fn a_file_of_the_machine_is_read_whole(rt: HostRuntime) -> Result<(), Fail> {
    let alloc = rt.alloc();
    let bytes = many_bytes(alloc)?;
    assert!(rt; bytes.len() % 2000 != 0);
    // Names of files may have 255 bytes.
    let letters = "x".repeat(alloc, 220)?;
    let name = format!(in alloc; "tz-read-file-{}-{letters}", process::id(rt.process()))?;
    let path = env::temp_dir(&rt)?.join(alloc, name.as_str())?;
    fs::write(&rt, path.as_str(), bytes.as_slice())?;
    let read = read_file(&rt, alloc, path.as_str());
    fs::remove_file(&rt, path.as_str())?;
    expect_eq(&rt, &read?, &bytes);
    Ok(())
}

#[test]
fn no_path_is_a_fault(rt: HostRuntime) -> Result<(), Fail> {
    for path in ["", "/etc\0/localtime"] {
        let read = read_file(&rt, rt.alloc(), path);
        assert!(rt; matches!(read, Err(ReadFault::Failed(_))), "{path}");
    }
    assert!(rt; read_file(&rt, rt.alloc(), "/dev/null")?.is_empty());
    Ok(())
}

/// A path, and the system's text of why it is not read.
static FAULTS: [(&str, &str); 3] = [
    ("/no/such/file", "No such file or directory (os error 2)"),
    ("/dev/null/file", "Not a directory (os error 20)"),
    ("/", "Is a directory (os error 21)"),
];

/// Nothing was read, for this reason.
fn expect_fault(
    rt: &impl Abort,
    alloc: Global,
    read: Result<Vec<u8>, ReadFault>,
    text: &str,
) -> Result<(), Fail> {
    let fault = read.err().ok_or("read")?;
    let printed = format!(in alloc; "{fault}")?;
    expect_eq(rt, &printed.as_str(), &text);
    Ok(())
}

#[test]
fn a_fault_has_the_text_of_the_system(rt: HostRuntime) -> Result<(), Fail> {
    let alloc = rt.alloc();
    for (path, text) in &FAULTS {
        expect_fault(&rt, alloc, read_file(&rt, alloc, path), text)?;
        expect_fault(&rt, alloc, read_file_up_to(&rt, alloc, 10, path), text)?;
    }
    Ok(())
}

/// Only the error of a missing file has a text of its own here, which is that of the system; a file
/// that may not be read is not missing.
#[test]
fn each_error_of_opening_has_its_own_text(rt: HostRuntime) -> Result<(), Fail> {
    static ROWS: [(i32, &str); 6] = [
        (1, "Operation not permitted (os error 1)"),
        (2, "No such file or directory (os error 2)"),
        (3, "No such process (os error 3)"),
        (13, "Permission denied (os error 13)"),
        (24, "Too many open files (os error 24)"),
        (40, "Too many levels of symbolic links (os error 40)"),
    ];
    let alloc = rt.alloc();
    for (number, text) in &ROWS {
        let fault = open_fault(io::Error::from_raw_os_error(*number));
        let printed = format!(in alloc; "{fault}")?;
        expect_eq_at(&rt, number, &printed.as_str(), text);
    }
    Ok(())
}

/// A limit, and the text that refuses a file at it; none where the file is read whole.
type Limit = (usize, Option<&'static str>);

/// A file at the path, of 70,002 bytes, is read whole or refused, at each of the limits.
fn expect_up_to<R: Files + Abort>(
    rt: &R,
    alloc: Global,
    path: &str,
    rows: &[Limit],
) -> Result<(), Fail> {
    let bytes = b"tz\n".repeat(alloc, 23_334)?;
    fs::write(rt, path, bytes.as_slice())?;
    for (limit, refusal) in rows {
        match read_file_up_to(rt, alloc, *limit, path) {
            Ok(read) => {
                expect_eq_at(rt, limit, &None, refusal);
                expect_eq_at(rt, limit, &read, &bytes);
            }
            Err(fault) => {
                let text = format!(in alloc; "{fault}")?;
                expect_eq_at(rt, limit, &Some(text.as_str()), refusal);
            }
        }
    }
    fs::remove_file(rt, path)?;
    Ok(())
}

#[test]
fn a_file_is_read_up_to_a_limit(rt: HostRuntime) -> Result<(), Fail> {
    static ROWS: [Limit; 9] = [
        (0, Some("file is longer than 0 bytes")),
        (1, Some("file is longer than 1 bytes")),
        (1999, Some("file is longer than 1999 bytes")),
        (65_536, Some("file is longer than 65536 bytes")),
        (70_001, Some("file is longer than 70001 bytes")),
        (70_002, None),
        (70_003, None),
        (100_000, None),
        (usize::MAX, None),
    ];
    let alloc = rt.alloc();
    let letters = "x".repeat(alloc, 220)?;
    let name = format!(in alloc;
        "tz-read-file-up-to-{}-{letters}",
        process::id(rt.process())
    )?;
    let path = env::temp_dir(&rt)?.join(alloc, name.as_str())?;
    expect_up_to(&rt, alloc, path.as_str(), &ROWS)
}

#[test]
fn devices_are_read_up_to_a_limit(rt: HostRuntime) -> Result<(), Fail> {
    let alloc = rt.alloc();
    assert!(rt; read_file_up_to(&rt, alloc, 0, "/dev/null")?.is_empty());
    let endless = read_file_up_to(&rt, alloc, 100_000, "/dev/zero");
    expect_fault(&rt, alloc, endless, "file is longer than 100000 bytes")
}
