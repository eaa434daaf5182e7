// Whole files, and whole pieces.
ghost use Rattle.std.specs.Prelude.{◌≡◌, ◌<◌, ◌≤◌, [], length, take, IfOk, IfErr, OnOk, IfSome};
ghost use Rattle.nt_io.specs.Causes.{Rose, NoneFalls};
ghost use Rattle.nt_io.specs.Sources.{SameFiles};
ghost use Rattle.nt_io.specs.Sinks.{Gained};

use crate::{Inputs, Sink};
use std::alloc::{AllocError, Global};

/// Why a whole file was not read.
#[derive(Debug, PartialEq, Eq, Drop)]
pub enum ReadError {
    /// A read of the file failed.
    Fault,
    /// The file has more bytes than the caller allowed.
    TooLong,
    /// No memory was left for the bytes.
    OutOfMemory(AllocError),
}

impl From<AllocError> for ReadError {
    ghost use Rattle.std.specs.Prelude.{◌≡◌};
    ghost use Rattle.nt_io.specs.declared.all.ReadError.TheVariants.{OutOfMemory};

    ghost from_gives = { λ refused e. e ≡ OutOfMemory refused };

    fn from(refused: AllocError) -> ReadError {
        ReadError::OutOfMemory(refused)
    }
}

/// A put failed on the way: the first `sent` bytes of the piece went out, and no more.
#[derive(Clone, Copy, Debug, PartialEq, Eq)]
pub struct WriteFault {
    /// How many bytes went out.
    pub sent: usize,
}

// How many bytes are asked for at once, at most.
const CHUNK: usize = 65536;

/// Reads a whole file of at most `most` bytes.
///
/// `TooLong` comes exactly where `most` + 1 bytes were taken, `Fault` only where a read of this file failed. Whatever
/// the answer, no told file changes and no count falls.
pub fn read_all<I: Inputs>(
    alloc: Global,
    inputs: &mut I,
    path: &str,
    most: usize,
) -> Result<Vec<u8>, ReadError>
    ensures whole { IfOk result (λ v. IfSome (I.bytes inputs.old path.now) (λ file. v.items ≡ file)) }
    ensures short { IfOk result (λ v. length v.items ≤ most) }
    ensures too_long { result ≡ Err ReadError.TooLong
        → IfSome (I.bytes inputs.old path.now) (λ file. most < length file) }
    ensures fault { result ≡ Err ReadError.Fault
        → Rose (I.faults inputs.old path.now) (I.faults inputs.new path.now) }
    ensures no_fall { NoneFalls (I.faults inputs.old) (I.faults inputs.new) }
    ensures same { SameFiles (I.bytes inputs.old) (I.bytes inputs.new) }
{
    let mut bytes = Vec::new(alloc);
    let mut chunk = vec![in alloc; 0u8; CHUNK]?;
    read_on(inputs, path, most, &mut bytes, &mut chunk)?;
    Ok(bytes)
}

// Reads a file to its end, into a vector that has none of it yet, by a buffer.
fn read_on<I: Inputs>(
    inputs: &mut I,
    path: &str,
    most: usize,
    bytes: &mut Vec<u8>,
    buffer: &mut [u8],
) -> Result<(), ReadError>
    requires none_yet { bytes.old.items ≡ [] }
    requires room { 0 < length buffer.old }
    ensures whole { OnOk result
        (IfSome (I.bytes inputs.old path.now) (λ file. bytes.new.items ≡ file)) }
    ensures short { OnOk result (length bytes.new.items ≤ most) }
    ensures too_long { result ≡ Err ReadError.TooLong
        → IfSome (I.bytes inputs.old path.now) (λ file. most < length file) }
    ensures fault { result ≡ Err ReadError.Fault
        → Rose (I.faults inputs.old path.now) (I.faults inputs.new path.now) }
    ensures no_fall { NoneFalls (I.faults inputs.old) (I.faults inputs.new) }
    ensures same { SameFiles (I.bytes inputs.old) (I.bytes inputs.new) }
{
    while bytes.len() <= most {
        let wanted = buffer.len().min((most - bytes.len()).saturating_add(1));
        let chunk = &mut buffer[..wanted];
        let count = match inputs.read(path, bytes.len() as u64, chunk) {
            Ok(count) => count,
            Err(_) => return Err(ReadError::Fault),
        };
        if count == 0 {
            return Ok(());
        }
        if let Err(refused) = bytes.extend_from_slice(&buffer[..count]) {
            return Err(ReadError::OutOfMemory(refused));
        }
    }
    Err(ReadError::TooLong)
}

/// Writes a whole piece, by as many puts as it takes. An empty piece takes none.
///
/// The error says how many bytes went out before a put failed. The path that the sink tells stays, whatever the
/// answer. It takes no memory.
pub fn write_all<S: Sink>(sink: &mut S, bytes: &[u8]) -> Result<(), WriteFault>
    ensures all { OnOk result (Gained (S.meaning sink.old) (S.meaning sink.new) bytes.now) }
    ensures part { IfErr result
        (λ fault. Gained (S.meaning sink.old) (S.meaning sink.new) (take fault.sent bytes.now)) }
    ensures sent { IfErr result (λ fault. fault.sent < length bytes.now) }
    ensures cause { IfErr result
        (λ _. Rose (S.meaning sink.old).faults (S.meaning sink.new).faults) }
{
    let mut sent = 0;
    while sent < bytes.len() {
        match sink.put(&bytes[sent..]) {
            Ok(count) => sent += count,
            Err(_) => return Err(WriteFault { sent }),
        }
    }
    Ok(())
}
