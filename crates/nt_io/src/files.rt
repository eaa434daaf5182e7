// Real files and the standard output. They tell no bytes: that a real file behaves so is not proved.
ghost use Rattle.std.specs.Prelude.{◌≡◌, ◌≤◌, ◌<◌, None, length, IfSome, IsErr};
ghost use Rattle.nt_io.specs.Sinks.{OpenLeaves, untold};

use crate::{Failed, Inputs, Sink};
use std::fs;
use std::io::{Read, Seek, SeekFrom, Write};
use std::marker::Model;
use std::rt::Files;

/// Reads real files, each read by a handle of its own. It tells no bytes. Contracts see it as its one count of failed
/// reads, of whatever path.
///
/// A file that is missing, that may not be read or that is a folder is `Failed`.
#[derive(Drop)]
pub struct FileInputs<'a, R: Files> {
    rt: &'a R,
    failed: u64,
}

impl<'a, R: Files> Model for FileInputs<'a, R> {
    ghost use Rattle.std.specs.Prelude.{ℕ};

    ghost Value = { ℕ };

    ghost view = { λ a. a.failed };
}

impl<'a, R: Files> FileInputs<'a, R> {
    /// Reads the files that the runtime reaches. No read has failed yet.
    pub fn new(rt: &'a R) -> FileInputs<'a, R>
        ensures { result ≡ 0 }
    {
        FileInputs { rt, failed: 0 }
    }
}

// The bytes of a file from a place on, and how many they are.
fn read_at<R: Files>(rt: &R, path: &str, at: u64, buf: &mut [u8]) -> Option<usize>
    ensures { IfSome result (λ n. n ≤ length buf.new) }
{
    let mut file = fs::open(rt, path).ok()?;
    file.seek(SeekFrom::Start(at)).ok()?;
    file.read(buf).ok()
}

impl<R: Files> Inputs for FileInputs<'_, R> {
    ghost bytes = { λ _ _. None };

    ghost faults = { λ failed _. failed };

    fn read(&mut self, path: &str, at: u64, buf: &mut [u8]) -> Result<usize, Failed> {
        match read_at(self.rt, path, at, buf) {
            Some(count) => Ok(count),
            None => {
                self.failed = self.failed.saturating_add(1);
                Err(Failed)
            }
        }
    }
}

/// Writes the real file that was opened last, which an open makes or empties. It tells neither bytes nor path.
/// Contracts see it as its one count of failures, of puts and opens. A put before the first open is `Failed`.
#[derive(Drop)]
pub struct FileSink<'a, R: Files> {
    rt: &'a R,
    file: Option<R::File>,
    failed: u64,
}

impl<'a, R: Files> Model for FileSink<'a, R> {
    ghost use Rattle.std.specs.Prelude.{ℕ};

    ghost Value = { ℕ };

    ghost view = { λ a. a.failed };
}

impl<'a, R: Files> FileSink<'a, R> {
    /// Writes files that the runtime reaches. No file is open yet, and no call has failed.
    pub fn new(rt: &'a R) -> FileSink<'a, R>
        ensures { result ≡ 0 }
    {
        FileSink {
            rt,
            file: None,
            failed: 0,
        }
    }
}

// Writes at least one of the bytes, and answers how many.
fn write_some<W: Write>(file: &mut Option<W>, bytes: &[u8]) -> Option<usize>
    ensures some { IfSome result (λ n. 0 < n) }
    ensures within { IfSome result (λ n. n ≤ length bytes.now) }
{
    match file {
        None => None,
        Some(file) => match file.write(bytes) {
            Ok(count) if count > 0 => Some(count),
            _ => None,
        },
    }
}

impl<R: Files> Sink for FileSink<'_, R> {
    ghost meaning = { untold };

    fn open(&mut self, name: &str) -> Result<(), Failed> {
        match fs::create(self.rt, name) {
            Ok(file) => {
                self.file = Some(file);
                Ok(())
            }
            Err(_) => {
                self.failed = self.failed.saturating_add(1);
                Err(Failed)
            }
        }
    }

    fn put(&mut self, bytes: &[u8]) -> Result<usize, Failed> {
        match write_some(&mut self.file, bytes) {
            Some(count) => Ok(count),
            None => {
                self.failed = self.failed.saturating_add(1);
                Err(Failed)
            }
        }
    }
}

/// Writes to the standard output, which cannot be opened by a path. It tells neither bytes nor path. Contracts see it
/// as its one count of failures, of puts and opens.
#[derive(Drop)]
pub struct OutSink<'a, R: Print> {
    rt: &'a R,
    // Whether there was a standard output at the start. Where there was none, a file that is opened later may stand in
    // its place, and is not to get these bytes.
    open: bool,
    failed: u64,
}

impl<'a, R: Print> Model for OutSink<'a, R> {
    ghost use Rattle.std.specs.Prelude.{ℕ};

    ghost Value = { ℕ };

    ghost view = { λ a. a.failed };
}

impl<'a, R: Print> OutSink<'a, R> {
    /// Writes to the standard output of the runtime, which is closed for good where it is closed now. Make it before any
    /// file is opened. No call has failed yet.
    pub fn new(rt: &'a R) -> OutSink<'a, R>
        ensures { result ≡ 0 }
    {
        OutSink {
            rt,
            open: rt.write_some(b"").is_ok(),
            failed: 0,
        }
    }
}

fn write_out<R: Print>(rt: &R, open: bool, bytes: &[u8]) -> Option<usize>
    ensures some { IfSome result (λ n. 0 < n) }
    ensures within { IfSome result (λ n. n ≤ length bytes.now) }
{
    if !open {
        return None;
    }
    match rt.write_some(bytes) {
        Ok(count) if count > 0 => Some(count),
        _ => None,
    }
}

impl<R: Print> Sink for OutSink<'_, R> {
    ghost meaning = { untold };

    /// Always `Failed`, and the count of failures rises.
    fn open(&mut self, _name: &str) -> Result<(), Failed>
        ensures opens { OpenLeaves (untold self.old) (untold self.new) _name.now result }
        ensures fails { IsErr result }
    {
        self.failed = self.failed.saturating_add(1);
        Err(Failed)
    }

    fn put(&mut self, bytes: &[u8]) -> Result<usize, Failed> {
        match write_out(self.rt, self.open, bytes) {
            Some(count) => Ok(count),
            None => {
                self.failed = self.failed.saturating_add(1);
                Err(Failed)
            }
        }
    }
}
