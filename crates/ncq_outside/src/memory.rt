//! A source and a sink in memory. Each fails at the calls that it was told to fail at.
ghost use Rattle.std.specs.Prelude.{◌<◌, ◌≤◌, ◌≡◌, ◌⊎◌, ◌-◌, ◌↔◌, [], Some, true, IsTrue, IsOk};
ghost use Rattle.std.specs.Prelude.{IsErr, IfOk, OnErr, Contains, length, min};
ghost use Rattle.std.specs.Io.{ReadsAtMost};
ghost use Rattle.std.specs.Io.KnownBytes.{ReadConsumes, WriteAppends};
ghost use Rattle.ncq_outside.specs.Causes.{HasCause, Counts, CountsFault, IsFull, TakesSome};
ghost use Rattle.ncq_outside.specs.Causes.{one_more};
ghost use Rattle.ncq_outside.specs.States.{none_fails, sure_room};

use crate::piece::give;
use crate::traits::{Failed, Sink, Source};
use ncq_base::{Bytes, Sequence};
use std::alloc::{AllocError, Global};
use std::marker::Model;

/// The numbers of the calls that fail. The first call has number 1.
pub type Calls = Sequence<u64>;

/// Whether the call of this number is among them.
fn has(calls: &[u64], call: u64) -> bool
    ensures { IsTrue result ↔ Contains calls.now call }
{
    calls.contains(&call)
}

/// Bytes in memory, given in pieces. It tells which bytes are left.
pub struct MemorySource {
    bytes: Bytes,
    at: usize,
    piece: usize,
    failing: Calls,
    calls: u64,
    faults: u64,
    given: u64,
}

impl Drop for MemorySource {
    fn drop(self) {
        let MemorySource {
            bytes,
            at: _,
            piece: _,
            failing: _,
            calls: _,
            faults: _,
            given: _,
        } = self;
        drop(bytes);
    }
}

impl Model for MemorySource {
    ghost use Rattle.std.specs.Prelude.{◌<◌, ◌≤◌, ◌≡◌, [], drop, length};
    ghost use Rattle.ncq_outside.specs.States.{SourceState};

    ghost Value = { SourceState };

    ghost view = { λ s. record {
      left = drop s.at s.bytes;
      piece = s.piece;
      failing = s.failing;
      calls = s.calls;
      faults = s.faults;
      given = s.given;
    } };

    ghost invariant = { λ s. (s.at ≤ length s.bytes) × (0 < s.piece)
        × (s.failing ≡ [] → s.faults ≡ 0) };
}

/// A source of these bytes, which gives at most `piece` of them, 1 or more, in a call.
/// The calls whose numbers stand in `failing` fail, and no others.
pub fn memory_source(bytes: Bytes, piece: usize, failing: Calls) -> MemorySource
    requires { 0 < piece }
    ensures { result ≡ record {
      left = bytes;
      piece = piece;
      failing = failing;
      calls = 0;
      faults = 0;
      given = 0;
    } }
{
    MemorySource {
        bytes,
        at: 0,
        piece,
        failing,
        calls: 0,
        faults: 0,
        given: 0,
    }
}

impl MemorySource {
    /// How many calls failed: none, where no call was told to fail.
    pub fn faults(&self) -> u64
        ensures count { result ≡ self.now.faults }
        ensures sure { self.now.failing ≡ [] → self.now.faults ≡ 0 }
    {
        self.faults
    }
}

impl Source for MemorySource {
    ghost left = { λ s. Some s.left };

    ghost given = { λ s. s.given };

    ghost faults = { λ s. s.faults };

    ghost is_sure = { λ s. none_fails s.failing };

    fn read(&mut self, buf: &mut [u8]) -> Result<usize, Failed>
        requires { 0 < length buf.old }
        ensures bound { ReadsAtMost result buf.new }
        ensures bytes { ReadConsumes (Some self.old.left) (Some self.new.left) result buf.new }
        ensures given { Counts self.old.given self.new.given result }
        ensures cause { HasCause self.old.faults self.new.faults result }
        ensures stays { none_fails self.new.failing ≡ none_fails self.old.failing }
        ensures sure { none_fails self.old.failing ≡ true → IsOk result }
        ensures piece { IfOk result (λ n. n ≤ self.old.piece) }
        ensures fails { IsErr result ↔ Contains self.old.failing (one_more self.old.calls) }
        ensures faults { CountsFault self.old.faults self.new.faults result }
        ensures calls { self.new.calls ≡ one_more self.old.calls }
        ensures keeps { (self.new.piece ≡ self.old.piece) × (self.new.failing ≡ self.old.failing) }
    {
        self.calls = self.calls.saturating_add(1);
        if has(self.failing.as_slice(), self.calls) {
            self.faults = self.faults.saturating_add(1);
            return Err(Failed);
        }
        let count = give(self.bytes.as_slice(), self.at, buf, self.piece);
        self.at += count;
        self.given = self.given.saturating_add(count as u64);
        Ok(count)
    }
}

/// A place in memory with so much room. It tells which bytes it holds.
pub struct MemorySink {
    held: Vec<u8>,
    room: usize,
    failing: Calls,
    calls: u64,
    faults: u64,
}

impl Drop for MemorySink {
    fn drop(self) {
        let MemorySink {
            held,
            room: _,
            failing: _,
            calls: _,
            faults: _,
        } = self;
        drop(held);
    }
}

impl Model for MemorySink {
    ghost use Rattle.std.specs.Prelude.{◌≤◌, ◌<◌, ◌≡◌, [], vec_len, vec_capacity};
    ghost use Rattle.ncq_outside.specs.States.{SinkState};

    ghost Value = { SinkState };

    ghost view = { λ s. record {
      held = s.held.items;
      room = s.room;
      failing = s.failing;
      calls = s.calls;
      faults = s.faults;
    } };

    ghost invariant = { λ s. (vec_len s.held ≤ s.room) × (s.room ≤ vec_capacity s.held)
        × (s.failing ≡ [] → 0 < s.faults → s.room ≤ vec_len s.held) };
}

/// An empty sink with room for `room` bytes; all its memory is taken here.
/// The calls whose numbers stand in `failing` fail, and so do those that find no room left.
/// `AllocError` comes where there is no memory for the room.
pub fn memory_sink(alloc: Global, room: usize, failing: Calls) -> Result<MemorySink, AllocError>
    ensures { IfOk result (λ sink. sink ≡ record {
      held = [];
      room = room;
      failing = failing;
      calls = 0;
      faults = 0;
    }) }
{
    Ok(MemorySink {
        held: Vec::with_capacity(alloc, room)?,
        room,
        failing,
        calls: 0,
        faults: 0,
    })
}

impl MemorySink {
    /// The bytes that it holds, in the order in which they were written.
    pub fn held(&self) -> &[u8]
        ensures { result.now ≡ self.now.held }
    {
        self.held.as_slice()
    }

    /// How many calls failed: some, where no call was told to fail, only once it holds as many
    /// bytes as it has room for.
    pub fn faults(&self) -> u64
        ensures count { result ≡ self.now.faults }
        ensures full { self.now.failing ≡ [] → 0 < self.now.faults
            → self.now.room ≤ length self.now.held }
    {
        self.faults
    }
}

impl Sink for MemorySink {
    ghost held = { λ s. Some s.held };

    ghost faults = { λ s. s.faults };

    ghost sure = { sure_room };

    fn write(&mut self, buf: &[u8]) -> Result<usize, Failed>
        requires { 0 < length buf.now }
        ensures bound { TakesSome result buf.now }
        ensures bytes { WriteAppends (Some self.old.held) (Some self.new.held) result buf.now }
        ensures cause { HasCause self.old.faults self.new.faults result }
        ensures stays { sure_room self.new ≡ sure_room self.old }
        ensures full { OnErr result (IsFull (sure_room self.old) (Some self.new.held)) }
        ensures fails { IsErr result
            ↔ (Contains self.old.failing (one_more self.old.calls)
            ⊎ (self.old.room ≤ length self.old.held)) }
        ensures takes { IfOk result (λ n.
            n ≡ min (length buf.now) (self.old.room - length self.old.held)) }
        ensures faults { CountsFault self.old.faults self.new.faults result }
        ensures calls { self.new.calls ≡ one_more self.old.calls }
        ensures keeps { (self.new.room ≡ self.old.room) × (self.new.failing ≡ self.old.failing) }
    {
        self.calls = self.calls.saturating_add(1);
        let count = buf.len().min(self.room - self.held.len());
        let fails = has(self.failing.as_slice(), self.calls);
        if fails || count == 0 {
            self.faults = self.faults.saturating_add(1);
            return Err(Failed);
        }
        match self.held.extend_from_slice(&buf[..count]) {
            Ok(()) => Ok(count),
            Err(_) => unreachable!(),
        }
    }
}
