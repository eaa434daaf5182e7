// Files that are read by path and place.
ghost use Rattle.std.specs.Prelude.{◌<◌, ◌≤◌, List, ℕ, Option, length, IfOk};
ghost use Rattle.nt_io.specs.Causes.{HasCause, NoneFalls};
ghost use Rattle.nt_io.specs.Sources.{ReadsPart, SameFiles};

/// A read, an open or a put did not succeed.
#[derive(Clone, Copy, Debug, PartialEq, Eq)]
pub struct Failed;

/// Files that are read by their path, from any place on.
///
/// An object may tell the bytes of its files, or keep them to itself as a real folder does. It counts its failures for
/// each path, up to 2^64 - 1.
pub trait Inputs {
    /// The bytes of the file of a path, where the object tells them. No call changes them.
    ghost bytes: { Self → List ℕ → Option (List ℕ) };

    /// How many reads of a path have failed.
    ghost faults: { Self → List ℕ → ℕ };

    /// Reads bytes of a file into the front of the buffer, from place `at` on, counted in bytes from 0, and answers how
    /// many. It may give fewer than there are, but `Ok(0)` is the end of the file.
    ///
    /// `Failed` only where the count of this path rose, as for a path that names no file.
    fn read(&mut self, path: &str, at: u64, buf: &mut [u8]) -> Result<usize, Failed>
        requires { 0 < length buf.old }
        ensures within { IfOk result (λ n. n ≤ length buf.new) }
        ensures part { ReadsPart (bytes self.old path.now) at buf.new result }
        ensures same { SameFiles (bytes self.old) (bytes self.new) }
        ensures no_fall { NoneFalls (faults self.old) (faults self.new) }
        ensures cause { HasCause (faults self.old path.now) (faults self.new path.now) result };
}
