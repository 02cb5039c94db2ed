//! A source and a sink that never fail.
ghost use Rattle.std.specs.Prelude.{◌<◌, ◌≤◌, ◌≡◌, None, Some, true, IfOk, IsOk, length};
ghost use Rattle.std.specs.Io.{ReadsAtMost};
ghost use Rattle.std.specs.Io.KnownBytes.{ReadConsumes, WriteAppends};
ghost use Rattle.ncq_outside.specs.Causes.{HasCause, Counts, TakesSome};

use crate::piece::give;
use crate::traits::{Failed, Sink, Source};
use ncq_base::Bytes;
use std::marker::Model;

/// Bytes in memory, given in pieces. It tells which bytes are left, and never fails.
#[derive(Drop)]
pub struct PlainSource {
    bytes: Bytes,
    at: usize,
    piece: usize,
    given: u64,
}

impl Model for PlainSource {
    ghost use Rattle.std.specs.Prelude.{◌<◌, ◌≤◌, drop, length};
    ghost use Rattle.ncq_outside.specs.States.{PlainState};

    ghost Value = { PlainState };

    ghost view = { λ s. record { left = drop s.at s.bytes; piece = s.piece; given = s.given } };

    ghost invariant = { λ s. (s.at ≤ length s.bytes) × (0 < s.piece) };
}

/// A source of these bytes, which gives at most `piece` of them, 1 or more, in a call.
pub fn plain_source(bytes: Bytes, piece: usize) -> PlainSource
    requires { 0 < piece }
    ensures { result ≡ record { left = bytes; piece = piece; given = 0 } }
{
    PlainSource {
        bytes,
        at: 0,
        piece,
        given: 0,
    }
}

impl Source for PlainSource {
    ghost left = { λ s. Some s.left };

    ghost given = { λ s. s.given };

    ghost faults = { λ _. 0 };

    ghost is_sure = { λ _. true };

    fn read(&mut self, buf: &mut [u8]) -> Result<usize, Failed>
        requires { 0 < length buf.old }
        ensures bound { ReadsAtMost result buf.new }
        ensures bytes { ReadConsumes (Some self.old.left) (Some self.new.left) result buf.new }
        ensures given { Counts self.old.given self.new.given result }
        ensures cause { HasCause 0 0 result }
        ensures never_fails { IsOk result }
        ensures piece { IfOk result (λ n. n ≤ self.old.piece) }
        ensures keeps { self.new.piece ≡ self.old.piece }
    {
        let count = give(self.bytes.as_slice(), self.at, buf, self.piece);
        self.at += count;
        self.given = self.given.saturating_add(count as u64);
        Ok(count)
    }
}

/// A sink that takes each piece whole, keeps no byte and tells none. It never fails.
#[derive(Drop)]
pub struct PlainSink {}

/// A sink that never fails: its count of faults is always 0.
pub fn plain_sink() -> PlainSink
    ensures held { ⟦<PlainSink as Sink>⟧.held result ≡ None }
    ensures faults { ⟦<PlainSink as Sink>⟧.faults result ≡ 0 }
{
    PlainSink {}
}

impl Sink for PlainSink {
    ghost held = { λ _. None };

    ghost faults = { λ _. 0 };

    ghost sure = { λ _. 0 };

    fn write(&mut self, buf: &[u8]) -> Result<usize, Failed>
        requires { 0 < length buf.now }
        ensures bound { TakesSome result buf.now }
        ensures bytes { WriteAppends None None result buf.now }
        ensures cause { HasCause 0 0 result }
        ensures never_fails { IsOk result }
        ensures whole { IfOk result (λ n. n ≡ length buf.now) }
    {
        Ok(buf.len())
    }
}
