//! What a source and a sink promise.
ghost use Rattle.std.specs.Prelude.{◌<◌, ◌≡◌, ℕ, Bool, true, List, length, IsOk, OnErr};
ghost use Rattle.std.specs.declared.option.Option.{Option};
ghost use Rattle.std.specs.Io.{ReadsAtMost};
ghost use Rattle.std.specs.Io.KnownBytes.{ReadConsumes, WriteAppends};
ghost use Rattle.ncq_outside.specs.Causes.{HasCause, Counts, TakesSome, IsFull};

/// A read or a write failed, and the count of faults rose. No byte was moved, so far as the bytes
/// are told.
#[derive(Clone, Copy, Debug, PartialEq, Eq)]
pub struct Failed;

/// Bytes that are read piece by piece.
pub trait Source {
    /// The bytes not yet read, where they are told.
    ghost left: { Self → Option (List ℕ) };

    /// How many bytes were given, up to 2^64 - 1.
    ghost given: { Self → ℕ };

    /// How many faults there were, up to 2^64 - 1.
    ghost faults: { Self → ℕ };

    /// Whether it never fails. This never changes.
    ghost is_sure: { Self → Bool };

    /// Puts the next bytes at the front of `buf`, which is not empty, and gives their number, at
    /// most `buf.len()`. It is 0 only at the end of the bytes. `Failed` comes only where the count
    /// of faults rose; the bytes left are then as they were.
    fn read(&mut self, buf: &mut [u8]) -> Result<usize, Failed>
        requires { 0 < length buf.old }
        ensures bound { ReadsAtMost result buf.new }
        ensures bytes { ReadConsumes (left self.old) (left self.new) result buf.new }
        ensures given { Counts (given self.old) (given self.new) result }
        ensures cause { HasCause (faults self.old) (faults self.new) result }
        ensures stays { is_sure self.new ≡ is_sure self.old }
        ensures sure { is_sure self.old ≡ true → IsOk result };
}

/// A place that bytes are written to.
pub trait Sink {
    /// The bytes that it holds, where they are told.
    ghost held: { Self → Option (List ℕ) };

    /// How many faults there were, up to 2^64 - 1.
    ghost faults: { Self → ℕ };

    /// How many bytes it is sure to hold; 0 where nothing is sure. This never changes.
    ghost sure: { Self → ℕ };

    /// Takes bytes from the front of `buf`, which is not empty, and gives their number, 1 to
    /// `buf.len()`.
    /// `Failed` comes only where the count of faults rose. Where the bytes held are told, they are
    /// then as they were, and no fewer than it is sure to hold.
    fn write(&mut self, buf: &[u8]) -> Result<usize, Failed>
        requires { 0 < length buf.now }
        ensures bound { TakesSome result buf.now }
        ensures bytes { WriteAppends (held self.old) (held self.new) result buf.now }
        ensures cause { HasCause (faults self.old) (faults self.new) result }
        ensures stays { sure self.new ≡ sure self.old }
        ensures full { OnErr result (IsFull (sure self.old) (held self.new)) };
}
