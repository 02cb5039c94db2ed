//! A source over any reader and a sink over any writer of std.
ghost use Rattle.std.specs.Prelude.{◌<◌, ◌≡◌, None, false, IfOk, length, take};
ghost use Rattle.std.specs.Io.{ReadsAtMost};
ghost use Rattle.std.specs.Io.KnownBytes.{ReadConsumes, WriteAppends, Appends};
ghost use Rattle.ncq_outside.specs.Causes.{HasCause, Counts, CountsFault, TakesSome};

use crate::traits::{Failed, Sink, Source};
use std::io::{Read, Write};
use std::marker::Model;

/// A source over any reader. It tells what its reader tells: over a file or a terminal, nothing.
#[derive(Drop)]
pub struct StdSource<R> {
    inner: R,
    given: u64,
    faults: u64,
}

impl<R> Model for StdSource<R> {
    ghost use Rattle.ncq_outside.specs.States.{ReaderState};

    ghost Value = { ReaderState R };

    ghost view = { λ s. record { reader = s.inner; given = s.given; faults = s.faults } };
}

impl<R> StdSource<R> {
    /// A source over this reader. It gave nothing yet, and had no fault.
    pub fn new(inner: R) -> StdSource<R>
        ensures { result ≡ record { reader = inner; given = 0; faults = 0 } }
    {
        StdSource {
            inner,
            given: 0,
            faults: 0,
        }
    }
}

impl<R: Read> Source for StdSource<R> {
    ghost left = { λ s. R.remaining s.reader };

    ghost given = { λ s. s.given };

    ghost faults = { λ s. s.faults };

    ghost is_sure = { λ _. false };

    fn read(&mut self, buf: &mut [u8]) -> Result<usize, Failed>
        requires { 0 < length buf.old }
        ensures bound { ReadsAtMost result buf.new }
        ensures bytes { ReadConsumes (R.remaining self.old.reader)
            (R.remaining self.new.reader) result buf.new }
        ensures given { Counts self.old.given self.new.given result }
        ensures cause { HasCause self.old.faults self.new.faults result }
        ensures faults { CountsFault self.old.faults self.new.faults result }
    {
        match self.inner.read(buf) {
            Ok(count) => {
                self.given = self.given.saturating_add(count as u64);
                Ok(count)
            }
            Err(_) => {
                self.faults = self.faults.saturating_add(1);
                Err(Failed)
            }
        }
    }
}

/// A sink over any writer, which is flushed after each write. A write that takes nothing is a
/// fault. It tells no bytes, since a flush may fail after the writer took some.
/// That it flushes is tested, and no clause says it: a clause knows what the writer took, and not
/// where that went.
#[derive(Drop)]
pub struct StdSink<W> {
    inner: W,
    faults: u64,
}

impl<W> Model for StdSink<W> {
    ghost use Rattle.ncq_outside.specs.States.{WriterState};

    ghost Value = { WriterState W };

    ghost view = { λ s. record { writer = s.inner; faults = s.faults } };
}

impl<W> StdSink<W> {
    /// A sink over this writer. It had no fault yet.
    pub fn new(inner: W) -> StdSink<W>
        ensures { result ≡ record { writer = inner; faults = 0 } }
    {
        StdSink { inner, faults: 0 }
    }
}

impl<W: Write> Sink for StdSink<W> {
    ghost held = { λ _. None };

    ghost faults = { λ s. s.faults };

    ghost sure = { λ _. 0 };

    fn write(&mut self, buf: &[u8]) -> Result<usize, Failed>
        requires { 0 < length buf.now }
        ensures bound { TakesSome result buf.now }
        ensures bytes { WriteAppends None None result buf.now }
        ensures cause { HasCause self.old.faults self.new.faults result }
        ensures faults { CountsFault self.old.faults self.new.faults result }
        ensures written { IfOk result (λ n.
            Appends (W.contents self.old.writer) (W.contents self.new.writer) (take n buf.now)) }
    {
        if let Ok(count) = self.inner.write(buf)
            && count > 0
            && self.inner.flush().is_ok()
        {
            return Ok(count);
        }
        self.faults = self.faults.saturating_add(1);
        Err(Failed)
    }
}
