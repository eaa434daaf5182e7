// Runs over files and sinks in memory, which fail when they are told to.
ghost use Rattle.std.specs.Prelude.{◌<◌};

use super::*;
use nt_io::{FailAt, MemInputs, MemSink};
use std::alloc::Global;
use std::process::Abort;
use std::test::Fail;
use std::thread::Threads;

const TEXT: &str =
    "module top; nettype int N; N a; N b; N c; assign b = 7; assign a = 5; endmodule\n";

const TRACE: &str = "#0\ntop.a = 5\ntop.b = 7\ntop.c = 0\nend 0\n";

const WITNESS: &str = "nettype-witness 1\na 0 1\na 1 1\nr 0 2 0\nr 1 2 0\nr 2 1\nend\n";

// What a run left: its status, the trace, the witness and the witness's path.
#[derive(Drop)]
struct Left {
    status: Status,
    trace: MemSink,
    witness: MemSink,
}

fn words(alloc: Global) -> Result<Vec<String>, AllocError> {
    let mut words = Vec::new(alloc);
    for word in [
        "run",
        "a.sv",
        "--top",
        "top",
        "--until",
        "0",
        "--workers",
        "1",
    ] {
        words.push(String::from_str(alloc, word)?)?;
    }
    Ok(words)
}

fn fails(alloc: Global, call: u64) -> Result<FailAt, AllocError> {
    Ok(FailAt {
        calls: vec![in alloc; call]?,
    })
}

// The numbers of the calls that fail, 0 for none: reads, calls of the trace, calls of the witness.
#[derive(Clone, Copy)]
struct Failing {
    read: u64,
    trace: u64,
    witness: u64,
}

const NONE: Failing = Failing {
    read: 0,
    trace: 0,
    witness: 0,
};

// Runs a text from a file `a.sv`, where each read and put moves at most so many bytes.
fn run_with(
    rt: &(impl Threads + Sync),
    alloc: Global,
    words: &[String],
    text: &[u8],
    pace: usize,
    failing: Failing,
) -> Result<Left, AllocError>
    requires { 0 < pace }
{
    let mut files = Vec::new(alloc);
    files.push((
        String::from_str(alloc, "a.sv")?,
        Vec::from_slice(alloc, text)?,
    ))?;
    let mut inputs = MemInputs::new(files, pace, fails(alloc, failing.read)?);
    let mut trace = MemSink::new(alloc, 1000, pace, fails(alloc, failing.trace)?)?;
    let mut witness = MemSink::new(alloc, 1000, pace, fails(alloc, failing.witness)?)?;
    let status = simulate(rt, alloc, words, &mut inputs, &mut trace, &mut witness);
    Ok(Left {
        status,
        trace,
        witness,
    })
}

fn run(
    rt: &(impl Threads + Sync),
    alloc: Global,
    text: &str,
    pace: usize,
    failing: Failing,
) -> Result<Left, AllocError>
    requires { 0 < pace }
{
    run_with(rt, alloc, &words(alloc)?, text.as_bytes(), pace, failing)
}

fn expect_left(rt: &impl Abort, left: &Left, status: Status, trace: &str, witness: &str) {
    assert_eq!(rt; left.status, status);
    assert_eq!(rt; left.trace.bytes(), trace.as_bytes());
    assert_eq!(rt; left.witness.bytes(), witness.as_bytes());
}

#[test]
fn pieces_of_any_length(rt: HostRuntime) -> Result<(), Fail> {
    for pace in 1..100 {
        let left = run(&rt, rt.alloc(), TEXT, pace, NONE)?;
        expect_left(&rt, &left, Status::Done, TRACE, WITNESS);
        assert_eq!(rt; left.witness.path(), "top.wit");
    }
    Ok(())
}

#[test]
fn a_read_fails(rt: HostRuntime) -> Result<(), Fail> {
    for read in 1..3 {
        let left = run(&rt, rt.alloc(), TEXT, 4096, Failing { read, ..NONE })?;
        expect_left(&rt, &left, Status::ReadFault, "read fault a.sv\n", "");
        assert_eq!(rt; left.witness.path(), "");
    }
    let left = run(&rt, rt.alloc(), TEXT, 4096, Failing { read: 3, ..NONE })?;
    expect_left(&rt, &left, Status::Done, TRACE, WITNESS);
    Ok(())
}

#[test]
fn a_call_of_the_trace_fails(rt: HostRuntime) -> Result<(), Fail> {
    let all_but_end = "nettype-witness 1\na 0 1\na 1 1\nr 0 2 0\nr 1 2 0\nr 2 1\n";
    let first = run(&rt, rt.alloc(), TEXT, 4096, Failing { trace: 1, ..NONE })?;
    expect_left(&rt, &first, Status::WriteFault, "", all_but_end);
    let second = run(&rt, rt.alloc(), TEXT, 4096, Failing { trace: 2, ..NONE })?;
    expect_left(
        &rt,
        &second,
        Status::WriteFault,
        "#0\ntop.a = 5\ntop.b = 7\ntop.c = 0\n",
        all_but_end,
    );
    let third = run(&rt, rt.alloc(), TEXT, 4096, Failing { trace: 3, ..NONE })?;
    expect_left(&rt, &third, Status::Done, TRACE, WITNESS);
    Ok(())
}

#[test]
fn a_call_of_the_witness_fails(rt: HostRuntime) -> Result<(), Fail> {
    let head = "nettype-witness 1\n";
    let all_but_end = "nettype-witness 1\na 0 1\na 1 1\nr 0 2 0\nr 1 2 0\nr 2 1\n";
    let open = run(&rt, rt.alloc(), TEXT, 4096, Failing { witness: 1, ..NONE })?;
    expect_left(&rt, &open, Status::WriteFault, "", "");
    let first = run(&rt, rt.alloc(), TEXT, 4096, Failing { witness: 2, ..NONE })?;
    expect_left(&rt, &first, Status::WriteFault, "", "");
    let entries = run(&rt, rt.alloc(), TEXT, 4096, Failing { witness: 3, ..NONE })?;
    expect_left(&rt, &entries, Status::WriteFault, "", head);
    let end = run(&rt, rt.alloc(), TEXT, 4096, Failing { witness: 4, ..NONE })?;
    expect_left(&rt, &end, Status::WriteFault, TRACE, all_but_end);
    let past = run(&rt, rt.alloc(), TEXT, 4096, Failing { witness: 5, ..NONE })?;
    expect_left(&rt, &past, Status::Done, TRACE, WITNESS);
    Ok(())
}

// What a failing run holds is a front of what a whole run holds.
fn expect_fronts(rt: &impl Abort, left: &Left) {
    assert!(rt; TRACE.as_bytes().starts_with(left.trace.bytes()));
    assert!(rt; WITNESS.as_bytes().starts_with(left.witness.bytes()));
    let whole = left.trace.bytes() == TRACE.as_bytes()
        && left.witness.bytes() == WITNESS.as_bytes();
    assert_eq!(rt; left.status == Status::Done, whole);
    assert!(rt; left.status == Status::Done || left.status == Status::WriteFault);
}

#[test]
fn a_single_byte_fails(rt: HostRuntime) -> Result<(), Fail> {
    for call in 1..90 {
        let trace = run(
            &rt,
            rt.alloc(),
            TEXT,
            1,
            Failing {
                trace: call,
                ..NONE
            },
        )?;
        expect_fronts(&rt, &trace);
        let witness = run(
            &rt,
            rt.alloc(),
            TEXT,
            1,
            Failing {
                witness: call,
                ..NONE
            },
        )?;
        expect_fronts(&rt, &witness);
    }
    Ok(())
}

#[test]
fn a_status_line_fails(rt: HostRuntime) -> Result<(), Fail> {
    let not_yet = run(
        &rt,
        rt.alloc(),
        "module top; endmodule",
        4,
        Failing { trace: 2, ..NONE },
    )?;
    expect_left(&rt, &not_yet, Status::WriteFault, "not ", "");
    let fault = run(
        &rt,
        rt.alloc(),
        TEXT,
        4,
        Failing {
            read: 1,
            trace: 4,
            witness: 0,
        },
    )?;
    expect_left(&rt, &fault, Status::WriteFault, "read fault ", "");
    let few = run_with(
        &rt,
        rt.alloc(),
        &[],
        TEXT.as_bytes(),
        4,
        Failing { trace: 1, ..NONE },
    )?;
    expect_left(&rt, &few, Status::WriteFault, "", "");
    Ok(())
}

#[test]
fn other_words_and_texts(rt: HostRuntime) -> Result<(), Fail> {
    let usage = run_with(&rt, rt.alloc(), &[], TEXT.as_bytes(), 4096, NONE)?;
    expect_left(&rt, &usage, Status::Usage, "usage\n", "");
    assert_eq!(rt; usage.witness.path(), "");
    for text in [
        "",
        "module top; nettype int N; N a; N a; endmodule",
        "module up; nettype int N; endmodule",
    ] {
        let left = run(&rt, rt.alloc(), text, 4096, NONE)?;
        expect_left(&rt, &left, Status::NotYet, "not yet\n", "");
    }
    let none = run(
        &rt,
        rt.alloc(),
        "module top; nettype int N; endmodule",
        4096,
        NONE,
    )?;
    expect_left(
        &rt,
        &none,
        Status::Done,
        "#0\nend 0\n",
        "nettype-witness 1\nend\n",
    );
    Ok(())
}

// A text of this length: blanks, with the three nets at the front.
fn padded(alloc: Global, length: usize) -> Result<Vec<u8>, AllocError> {
    let mut text = Vec::from_slice(alloc, TEXT.as_bytes())?;
    let blanks = vec![in alloc; b' '; length.saturating_sub(text.len())]?;
    text.extend_from_slice(&blanks)?;
    Ok(text)
}

#[test]
fn the_longest_text(rt: HostRuntime) -> Result<(), Fail> {
    let words = words(rt.alloc())?;
    let longest = run_with(
        &rt,
        rt.alloc(),
        &words,
        &padded(rt.alloc(), 4_194_304)?,
        1_000_000,
        NONE,
    )?;
    expect_left(&rt, &longest, Status::Done, TRACE, WITNESS);
    let longer = run_with(
        &rt,
        rt.alloc(),
        &words,
        &padded(rt.alloc(), 4_194_305)?,
        1_000_000,
        NONE,
    )?;
    expect_left(&rt, &longer, Status::NotYet, "not yet\n", "");
    let blanks = vec![in rt.alloc(); b' '; 4_194_305]?;
    let blank = run_with(&rt, rt.alloc(), &words, &blanks, 1_000_000, NONE)?;
    expect_left(&rt, &blank, Status::NotYet, "not yet\n", "");
    Ok(())
}

#[test]
fn statuses_have_their_numbers(rt: HostRuntime) {
    assert_eq!(rt; Status::Done.number(), 0);
    assert_eq!(rt; Status::Usage.number(), 2);
    assert_eq!(rt; Status::ReadFault.number(), 3);
    assert_eq!(rt; Status::WriteFault.number(), 4);
    assert_eq!(rt; Status::OutOfMemory.number(), 7);
    assert_eq!(rt; Status::NotYet.number(), 12);
}
