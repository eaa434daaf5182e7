// Files and a sink in memory, which fail when they are told to.
ghost use Rattle.std.specs.Prelude.{◌≡◌, ◌≤◌, ◌<◌, ◌-◌, [], Some, None, true, false, min, length};
ghost use Rattle.std.specs.Prelude.{IfOk, IfSome, IsOk, IsErr, MatchOption};
ghost use Rattle.nt_io.specs.Causes.{HasCause, NoneFalls};
ghost use Rattle.nt_io.specs.Sinks.{PutLeaves, OpenLeaves};
ghost use Rattle.nt_io.specs.Sources.{GivesPart, ReadsPart, SameFiles};
ghost use Rattle.nt_io.specs.Memory.{next_count, is_chosen, next_fails, failed_after, listed, file_of, sink_meaning};

use crate::{Failed, Inputs, Sink};
use std::alloc::{AllocError, Global};
use std::marker::Model;

/// Which calls of an object in memory fail.
#[derive(Debug, Drop)]
pub struct FailAt {
    /// The numbers of the calls that fail, from 1. Where the list is empty, no call fails for this cause.
    pub calls: Vec<u64>,
}

impl FailAt {
    // Whether the call of this number is one that fails.
    fn chooses(&self, number: u64) -> bool
        ensures { result ≡ is_chosen self.now.calls.items number }
    {
        self.calls.contains(&number)
    }
}

/// Files in memory. It tells their bytes, and has one count of failures for all paths.
#[derive(Drop)]
pub struct MemInputs {
    files: Vec<(String, Vec<u8>)>,
    most: usize,
    fails: FailAt,
    calls: u64,
    failed: u64,
}

impl Model for MemInputs {
    ghost use Rattle.std.specs.Prelude.{◌<◌};
    ghost use Rattle.nt_io.specs.Memory.{MemInputsMeaning, listed};

    ghost Value = { MemInputsMeaning };

    ghost view = { λ a. record {
      files = listed a.files.items;
      most = a.most;
      fails = a.fails.calls.items;
      calls = a.calls;
      failed = a.failed;
    } };

    ghost invariant = { λ a. 0 < a.most };
}

impl MemInputs {
    /// Files by path, of which the first of a path counts, read at most `most` bytes at a time.
    pub fn new(files: Vec<(String, Vec<u8>)>, most: usize, fails: FailAt) -> MemInputs
        requires { 0 < most }
        ensures { result ≡ record {
          files = listed files.items;
          most = most;
          fails = fails.calls.items;
          calls = 0;
          failed = 0;
        } }
    {
        MemInputs {
            files,
            most,
            fails,
            calls: 0,
            failed: 0,
        }
    }
}

// The bytes of the first file of a path.
fn find<'a>(files: &'a [(String, Vec<u8>)], path: &str) -> Option<&'a [u8]>
    ensures { MatchOption result (file_of (listed files.now) path.now ≡ None)
        (λ bytes. file_of (listed files.now) path.now ≡ Some bytes.now) }
{
    for (name, bytes) in files {
        if name.as_str() == path {
            return Some(bytes.as_slice());
        }
    }
    None
}

// Copies what fits of the file from a place on.
fn give(file: &[u8], at: u64, most: usize, buf: &mut [u8]) -> usize
    requires some { 0 < most }
    requires room { 0 < length buf.old }
    ensures count { result ≡ min (min (length file.now - at) most) (length buf.old) }
    ensures part { GivesPart file.now at buf.new result }
{
    if at >= file.len() as u64 {
        return 0;
    }
    let rest = &file[at as usize..];
    let count = rest.len().min(most).min(buf.len());
    buf[..count].copy_from_slice(&rest[..count]);
    count
}

impl Inputs for MemInputs {
    ghost bytes = { λ m. file_of m.files };

    ghost faults = { λ m _. m.failed };

    /// Gives as many bytes as the buffer, the most at a time and the rest of the file allow.
    ///
    /// `Failed` where the call's number is one that fails, or where there is no file of the path.
    fn read(&mut self, path: &str, at: u64, buf: &mut [u8]) -> Result<usize, Failed>
        requires { 0 < length buf.old }
        ensures within { IfOk result (λ n. n ≤ length buf.new) }
        ensures part { ReadsPart (file_of self.old.files path.now) at buf.new result }
        ensures same { SameFiles (file_of self.old.files) (file_of self.new.files) }
        ensures no_fall { NoneFalls (λ _. self.old.failed) (λ _. self.new.failed) }
        ensures cause { HasCause self.old.failed self.new.failed result }

        ensures chosen { next_fails self.old.fails self.old.calls ≡ true → IsErr result }
        ensures missing { file_of self.old.files path.now ≡ None → IsErr result }
        ensures gives { next_fails self.old.fails self.old.calls ≡ false
            → IfSome (file_of self.old.files path.now) (λ file. result
            ≡ Ok (min (min (length file - at) self.old.most) (length buf.old))) }
        ensures never_fails { self.old.fails ≡ []
            → IfSome (file_of self.old.files path.now) (λ _. IsOk result) }
        ensures leaves { self.new ≡ record self.old {
          calls = next_count self.old.calls;
          failed = failed_after self.old.failed result;
        } }
    {
        self.calls = self.calls.saturating_add(1);
        if !self.fails.chooses(self.calls) {
            if let Some(file) = find(&self.files, path) {
                return Ok(give(file, at, self.most, buf));
            }
        }
        self.failed = self.failed.saturating_add(1);
        Err(Failed)
    }
}

/// The longest path that a sink in memory opens, in bytes.
pub const MOST_PATH: usize = 4096;

/// A sink in memory. It tells its bytes and its path, and has one count of failures for puts and opens.
#[derive(Drop)]
pub struct MemSink {
    bytes: Vec<u8>,
    path: String,
    room: usize,
    most: usize,
    fails: FailAt,
    calls: u64,
    failed: u64,
}

impl Model for MemSink {
    ghost use Rattle.std.specs.Prelude.{◌<◌, ◌≤◌, vec_capacity, string_bytes};
    ghost use Rattle.std.specs.String.{string_capacity};
    ghost use Rattle.nt_io.specs.Memory.{MemSinkMeaning};

    ghost Value = { MemSinkMeaning };

    ghost view = { λ a. record {
      written = a.bytes.items;
      path = string_bytes a.path;
      room = a.room;
      most = a.most;
      fails = a.fails.calls.items;
      calls = a.calls;
      failed = a.failed;
    } };

    ghost invariant = { λ a. (0 < a.most) × (a.room ≤ vec_capacity a.bytes)
        × (4096 ≤ string_capacity a.path) };
}

impl MemSink {
    /// A sink with room for `room` bytes in all, which takes at most `most` bytes at a time. Its path is empty, and it
    /// takes its memory now. It fails only where no memory is left.
    pub fn new(
        alloc: Global,
        room: usize,
        most: usize,
        fails: FailAt,
    ) -> Result<MemSink, AllocError>
        requires { 0 < most }
        ensures { IfOk result (λ sink. sink ≡ record {
          written = [];
          path = [];
          room = room;
          most = most;
          fails = fails.calls.items;
          calls = 0;
          failed = 0;
        }) }
    {
        Ok(MemSink {
            bytes: Vec::with_capacity(alloc, room)?,
            path: String::with_capacity(alloc, MOST_PATH)?,
            room,
            most,
            fails,
            calls: 0,
            failed: 0,
        })
    }

    /// The bytes written so far.
    pub fn bytes(&self) -> &[u8]
        ensures { result.now ≡ self.now.written }
    {
        &self.bytes
    }

    /// The path of the last open that succeeded, and empty before.
    pub fn path(&self) -> &str
        ensures { result.now ≡ self.now.path }
    {
        self.path.as_str()
    }
}

impl Sink for MemSink {
    ghost meaning = { sink_meaning };

    /// `Failed` where the call's number is one that fails, or where the path has more than 4,096 bytes.
    fn open(&mut self, name: &str) -> Result<(), Failed>
        ensures opens { OpenLeaves (sink_meaning self.old) (sink_meaning self.new) name.now result }

        ensures chosen { next_fails self.old.fails self.old.calls ≡ true → IsErr result }
        ensures long { MOST_PATH < length name.now → IsErr result }
        ensures works { next_fails self.old.fails self.old.calls ≡ false
            → length name.now ≤ MOST_PATH → IsOk result }
        ensures never_fails { self.old.fails ≡ [] → length name.now ≤ MOST_PATH → IsOk result }
        ensures leaves { self.new ≡ record self.old {
          path = self.new.path;
          calls = next_count self.old.calls;
          failed = failed_after self.old.failed result;
        } }
    {
        self.calls = self.calls.saturating_add(1);
        if self.fails.chooses(self.calls) || name.len() > MOST_PATH {
            self.failed = self.failed.saturating_add(1);
            return Err(Failed);
        }
        self.path.clear();
        match self.path.push_str(name) {
            Ok(()) => Ok(()),
            Err(_) => unreachable!(),
        }
    }

    /// Takes as many bytes as the piece, the most at a time and the room that is left allow.
    ///
    /// `Failed` where the call's number is one that fails, or where no room is left.
    fn put(&mut self, bytes: &[u8]) -> Result<usize, Failed>
        requires { 0 < length bytes.now }
        ensures some { IfOk result (λ n. 0 < n) }
        ensures within { IfOk result (λ n. n ≤ length bytes.now) }
        ensures adds { PutLeaves (sink_meaning self.old) (sink_meaning self.new) bytes.now result }
        ensures cause { HasCause self.old.failed self.new.failed result }

        ensures chosen { next_fails self.old.fails self.old.calls ≡ true → IsErr result }
        ensures full { self.old.room ≤ length self.old.written → IsErr result }
        ensures takes { next_fails self.old.fails self.old.calls ≡ false
            → length self.old.written < self.old.room
            → result ≡ Ok (min (min (length bytes.now) self.old.most)
            (self.old.room - length self.old.written)) }
        ensures never_fails { self.old.fails ≡ []
            → length self.old.written < self.old.room → IsOk result }
        ensures leaves { self.new ≡ record self.old {
          written = self.new.written;
          calls = next_count self.old.calls;
          failed = failed_after self.old.failed result;
        } }
    {
        self.calls = self.calls.saturating_add(1);
        let left = self.room.saturating_sub(self.bytes.len());
        if left == 0 || self.fails.chooses(self.calls) {
            self.failed = self.failed.saturating_add(1);
            return Err(Failed);
        }
        let count = bytes.len().min(self.most).min(left);
        match self.bytes.extend_from_slice(&bytes[..count]) {
            Ok(()) => Ok(count),
            Err(_) => unreachable!(),
        }
    }
}
