//! A source that gives one line again and again, up to so many bytes in all.
ghost use Rattle.std.specs.Prelude.{◌<◌, ◌≤◌, ◌≡◌, ◌+◌, ◌%◌, ◌^◌, None, true, IfOk, IsOk};
ghost use Rattle.std.specs.Prelude.{length, take};
ghost use Rattle.std.specs.Io.{ReadsAtMost};
ghost use Rattle.std.specs.Io.KnownBytes.{ReadConsumes};
ghost use Rattle.ncq_outside.specs.Causes.{HasCause, Counts};
ghost use Rattle.ncq_outside.specs.Repeats.{again, next_count};

use crate::traits::{Failed, Source};
use ncq_base::Bytes;
use std::marker::Model;

/// The most bytes that a call gives.
const PIECE: u64 = 65_536;

/// A line that is given again and again, up to so many bytes in all. It takes no memory, never
/// fails, and does not tell which bytes are left: its clauses say which it gives.
#[derive(Drop)]
pub struct RepeatSource {
    line: Bytes,
    total: u64,
    given: u64,
}

impl Model for RepeatSource {
    ghost use Rattle.std.specs.Prelude.{◌<◌, ◌≤◌, length};
    ghost use Rattle.ncq_outside.specs.States.{RepeatState};

    ghost Value = { RepeatState };

    ghost view = { λ s. record { line = s.line; total = s.total; given = s.given } };

    ghost invariant = { λ s. (0 < length s.line) × (s.given ≤ s.total) };
}

/// A source of this line, which is not empty, again and again: `total` bytes in all.
pub fn repeat_source(line: Bytes, total: u64) -> RepeatSource
    requires { 0 < length line }
    ensures { result ≡ record { line = line; total = total; given = 0 } }
{
    RepeatSource {
        line,
        total,
        given: 0,
    }
}

/// Fills the buffer with the line, again and again, from a place on.
fn fill_again(line: &[u8], from: u64, to: &mut [u8])
    requires { 0 < length line.now }
    ensures { to.new ≡ again line.now from (length to.old) }
{
    let mut at = (from % line.len() as u64) as usize;
    for byte in to.iter_mut() {
        *byte = line[at];
        at = if at + 1 < line.len() { at + 1 } else { 0 };
    }
}

impl Source for RepeatSource {
    ghost left = { λ _. None };

    ghost given = { λ s. s.given };

    ghost faults = { λ _. 0 };

    ghost is_sure = { λ _. true };

    fn read(&mut self, buf: &mut [u8]) -> Result<usize, Failed>
        requires { 0 < length buf.old }
        ensures bound { ReadsAtMost result buf.new }
        ensures bytes { ReadConsumes None None result buf.new }
        ensures given { Counts self.old.given self.new.given result }
        ensures cause { HasCause 0 0 result }
        ensures never_fails { IsOk result }
        ensures count { IfOk result (λ n. n ≡ next_count self.old (length buf.old)) }
        ensures again { IfOk result (λ n.
            take n buf.new ≡ again self.old.line self.old.given n) }
        ensures counted { IfOk result (λ n. self.new.given ≡ self.old.given + n) }
        ensures keeps { (self.new.line ≡ self.old.line) × (self.new.total ≡ self.old.total) }
    {
        let rest = self.total - self.given;
        let count = rest.min(PIECE).min(buf.len() as u64);
        let front = &mut buf[..count as usize];
        fill_again(self.line.as_slice(), self.given, front);
        self.given += count;
        Ok(count as usize)
    }
}
