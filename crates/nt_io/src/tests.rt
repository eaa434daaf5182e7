// What no clause says: that calls succeed, and what real files and the standard output do.
ghost use Rattle.std.specs.Prelude.{◌<◌};

use crate::{
    FailAt, Failed, FileInputs, FileSink, Inputs, MOST_PATH, MemInputs, MemSink, OutSink,
    ReadError, Sink, read_all, write_all,
};
use std::alloc::{AllocError, Global};
use std::fs;
use std::test::Fail;

// One file `a.sv`, before another of the same path and one of another.
fn inputs(alloc: Global, most: usize, calls: &[u64]) -> Result<MemInputs, AllocError>
    requires { 0 < most }
{
    let mut files = Vec::new(alloc);
    for (path, bytes) in [("b.sv", "other"), ("a.sv", "hello"), ("a.sv", "later")] {
        files.push((
            String::from_str(alloc, path)?,
            bytes.as_bytes().to_vec(alloc)?,
        ))?;
    }
    let calls = calls.to_vec(alloc)?;
    Ok(MemInputs::new(files, most, FailAt { calls }))
}

fn sink(alloc: Global, room: usize, most: usize, calls: &[u64]) -> Result<MemSink, AllocError>
    requires { 0 < most }
{
    let calls = calls.to_vec(alloc)?;
    MemSink::new(alloc, room, most, FailAt { calls })
}

#[test]
fn reads_alike_at_any_pace(rt: HostRuntime) -> Result<(), Fail> {
    let alloc = rt.alloc();
    for pace in 1..8 {
        let mut files = inputs(alloc, pace, &[])?;
        let bytes = read_all(alloc, &mut files, "a.sv", 100)?;
        assert_eq!(rt;
            bytes.as_slice(),
            b"hello".as_slice(),
            "at most {pace} at a time"
        );
        let bytes = read_all(alloc, &mut files, "b.sv", usize::MAX)?;
        assert_eq!(rt;
            bytes.as_slice(),
            b"other".as_slice(),
            "at most {pace} at a time"
        );
    }
    Ok(())
}

#[test]
fn reads_from_a_place_on(rt: HostRuntime) -> Result<(), Fail> {
    let mut files = inputs(rt.alloc(), 3, &[])?;
    let mut buf = [0u8; 4];
    for (at, want) in [
        (0, "hel"),
        (1, "ell"),
        (3, "lo"),
        (4, "o"),
        (5, ""),
        (u64::MAX, ""),
    ] {
        let count = files.read("a.sv", at, &mut buf);
        assert_eq!(rt; count, Ok(want.len()), "at {at}");
        assert!(rt; buf.starts_with(want.as_bytes()), "at {at}");
    }
    Ok(())
}

#[test]
fn allows_just_the_most(rt: HostRuntime) -> Result<(), Fail> {
    let alloc = rt.alloc();
    for (most, fits) in [(0, false), (4, false), (5, true), (6, true)] {
        for pace in 1..8 {
            let mut files = inputs(alloc, pace, &[])?;
            match read_all(alloc, &mut files, "a.sv", most) {
                Ok(bytes) => {
                    assert!(rt; fits, "{most} at {pace}");
                    assert_eq!(rt; bytes.as_slice(), b"hello".as_slice());
                }
                Err(error) => {
                    assert!(rt; !fits, "{most} at {pace}");
                    assert_eq!(rt; error, ReadError::TooLong);
                }
            }
        }
    }
    Ok(())
}

// Two bytes at a time the file takes four reads, the last of which finds its end.
#[test]
fn stops_at_a_failing_read(rt: HostRuntime) -> Result<(), Fail> {
    let alloc = rt.alloc();
    for (call, whole) in [(1, false), (2, false), (4, false), (5, true)] {
        let mut files = inputs(alloc, 2, &[call])?;
        let read = read_all(alloc, &mut files, "a.sv", 100);
        match read {
            Ok(bytes) => {
                assert!(rt; whole, "call {call}");
                assert_eq!(rt; bytes.as_slice(), b"hello".as_slice());
            }
            Err(error) => {
                assert!(rt; !whole, "call {call}");
                assert_eq!(rt; error, ReadError::Fault);
                assert_eq!(rt;
                    read_all(alloc, &mut files, "a.sv", 100)?.as_slice(),
                    b"hello".as_slice()
                );
            }
        }
    }
    let mut files = inputs(alloc, 2, &[])?;
    let missing = read_all(alloc, &mut files, "c.sv", 100);
    assert!(rt; matches!(&missing, Err(ReadError::Fault)));
    Ok(())
}

#[test]
fn writes_in_pieces(rt: HostRuntime) -> Result<(), Fail> {
    let alloc = rt.alloc();
    for most in 1..8 {
        let mut sink = sink(alloc, 10, most, &[])?;
        assert_eq!(rt; sink.path(), "");
        assert_eq!(rt;
            write_all(&mut sink, b"hello"),
            Ok(()),
            "at most {most} at a time"
        );
        assert_eq!(rt; sink.open("out.wit"), Ok(()));
        assert_eq!(rt; write_all(&mut sink, b""), Ok(()));
        assert_eq!(rt;
            write_all(&mut sink, b"there"),
            Ok(()),
            "at most {most} at a time"
        );
        assert_eq!(rt; sink.bytes(), b"hellothere".as_slice());
        assert_eq!(rt; sink.path(), "out.wit");
    }
    Ok(())
}

// Two bytes at a time, after one open: call 2 is the first put.
#[test]
fn says_how_much_went_out(rt: HostRuntime) -> Result<(), Fail> {
    let table = [
        (10, 1, "", "hello", None),
        (10, 2, "out", "", Some(0)),
        (10, 3, "out", "he", Some(2)),
        (10, 4, "out", "hell", Some(4)),
        (10, 5, "out", "hello", None),
        (3, 9, "out", "hel", Some(3)),
        (0, 9, "out", "", Some(0)),
    ];
    for (room, call, path, bytes, sent) in table {
        let mut sink = sink(rt.alloc(), room, 2, &[call])?;
        assert_eq!(rt;
            sink.open("out").is_ok(),
            !path.is_empty(),
            "{room}, {call}"
        );
        let written = write_all(&mut sink, b"hello");
        assert_eq!(rt;
            written.err().map(|fault| fault.sent),
            sent,
            "{room}, {call}"
        );
        assert_eq!(rt; sink.bytes(), bytes.as_bytes(), "{room}, {call}");
        assert_eq!(rt; sink.path(), path, "{room}, {call}");
    }
    Ok(())
}

#[test]
fn opens_paths_of_4096_bytes(rt: HostRuntime) -> Result<(), Fail> {
    let alloc = rt.alloc();
    let letters = vec![in alloc; b'a'; MOST_PATH + 1]?;
    let long = str::from_utf8(&letters)?;
    let most = long.get(..MOST_PATH).ok_or("short")?;
    let mut sink = sink(alloc, 10, 2, &[])?;
    assert_eq!(rt; sink.open(most), Ok(()));
    assert_eq!(rt; sink.path(), most);
    assert_eq!(rt; sink.open("b"), Ok(()));
    assert_eq!(rt; sink.open(long), Err(Failed));
    assert_eq!(rt; sink.path(), "b");
    Ok(())
}

#[test]
fn writes_and_reads_real_files(rt: HostRuntime) -> Result<(), Fail> {
    let alloc = rt.alloc();
    // more than two chunks, with no two of them alike
    let mut text = Vec::new(alloc);
    for i in 0..50000u32 {
        text.extend_from_slice(&i.to_le_bytes())?;
    }
    let mut sink = FileSink::new(&rt);
    assert_eq!(rt; sink.put(b"early"), Err(Failed));
    assert_eq!(rt; sink.open("missing/out"), Err(Failed));
    assert_eq!(rt; sink.open("test_first"), Ok(()));
    assert_eq!(rt; write_all(&mut sink, &text), Ok(()));
    assert_eq!(rt; sink.open("test_second"), Ok(()));
    assert_eq!(rt; write_all(&mut sink, b"short"), Ok(()));

    let mut files = FileInputs::new(&rt);
    assert_eq!(rt;
        read_all(alloc, &mut files, "test_first", 200000)?.as_slice(),
        text.as_slice()
    );
    assert_eq!(rt;
        read_all(alloc, &mut files, "test_second", 5)?.as_slice(),
        b"short".as_slice()
    );
    let wrong = [
        ("test_first", 199999, ReadError::TooLong),
        ("test_second", 4, ReadError::TooLong),
        ("test_third", 100, ReadError::Fault),
        (".", 100, ReadError::Fault),
    ];
    for (path, most, want) in wrong {
        let error = read_all(alloc, &mut files, path, most).err();
        assert_eq!(rt; error, Some(want), "{path}");
    }
    let mut buf = [0u8; 3];
    assert_eq!(rt; files.read("test_second", 3, &mut buf), Ok(2));
    assert!(rt; buf.starts_with(b"rt"));
    assert_eq!(rt; files.read("test_second", 6, &mut buf), Ok(0));
    fs::remove_file(&rt, "test_first")?;
    fs::remove_file(&rt, "test_second")?;
    Ok(())
}

#[test]
fn empties_a_file_that_is_opened_again(rt: HostRuntime) -> Result<(), Fail> {
    let alloc = rt.alloc();
    let mut sink = FileSink::new(&rt);
    for text in ["longer", "short"] {
        assert_eq!(rt; sink.open("test_again"), Ok(()));
        assert_eq!(rt; write_all(&mut sink, text.as_bytes()), Ok(()));
    }
    let mut files = FileInputs::new(&rt);
    assert_eq!(rt;
        read_all(alloc, &mut files, "test_again", 100)?.as_slice(),
        b"short".as_slice()
    );
    fs::remove_file(&rt, "test_again")?;
    Ok(())
}

#[test]
fn prints_and_opens_nothing(rt: HostRuntime) {
    let mut out = OutSink::new(&rt);
    assert_eq!(rt; write_all(&mut out, b"printed\n"), Ok(()));
    assert_eq!(rt; out.open("out"), Err(Failed));
}
