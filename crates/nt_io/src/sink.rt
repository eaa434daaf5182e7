// What takes the bytes that are written.
ghost use Rattle.std.specs.Prelude.{◌<◌, ◌≤◌, length, IfOk};
ghost use Rattle.nt_io.specs.Causes.{HasCause};
ghost use Rattle.nt_io.specs.Sinks.{SinkMeaning, PutLeaves, OpenLeaves};

use crate::Failed;

/// What bytes are written to: a file, the standard output or memory.
///
/// An object may tell what it holds, or keep it to itself as a real file does. It counts its own failures, each count
/// up to 2^64 - 1, and a call answers `Failed` only where the count for that call rose.
pub trait Sink {
    /// The bytes written so far and the path opened last, where the object tells them, and its counts of failures.
    ghost meaning: { Self → SinkMeaning };

    /// Opens the path that is written to from then on. It writes no byte.
    ///
    /// `Failed` only where the count of failed opens of this path rose. The path that was open stays then.
    fn open(&mut self, name: &str) -> Result<(), Failed>
        ensures { OpenLeaves (meaning self.old) (meaning self.new) name.now result };

    /// Writes the first bytes of a piece, at least one of them, and answers how many.
    ///
    /// `Failed` only where the count of failed puts rose. No byte is written then.
    fn put(&mut self, bytes: &[u8]) -> Result<usize, Failed>
        requires { 0 < length bytes.now }
        ensures some { IfOk result (λ n. 0 < n) }
        ensures within { IfOk result (λ n. n ≤ length bytes.now) }
        ensures adds { PutLeaves (meaning self.old) (meaning self.new) bytes.now result }
        ensures cause { HasCause (meaning self.old).faults (meaning self.new).faults result };
}
