//! The lines of a script that comes in pieces.
ghost use Rattle.std.specs.Prelude.{◌≡◌, ◌<◌, ◌≤◌, ◌+◌, ◌++◌, ◌^◌, [], ℕ, List, false, true, IfOk};
ghost use Rattle.std.specs.Prelude.{OnOk, OnErr, length, drop, take, vec_len};
ghost use Rattle.std.specs.Str.Lines.{strip_carriage_return};
ghost use Rattle.ncq_base.specs.Lines.{IsClean};
ghost use Rattle.ncq_script.specs.Lines.{line_at};
ghost use Rattle.ncq_script.specs.LineReading.{LineState, IsKept, IsLean, FollowsLines};

use ncq_base::first_line;
use std::alloc::{AllocError, Global};
use std::marker::Model;

// Keeps more bytes of the line that is not whole, as far as they matter: one byte beyond the limit
// may be a carriage return.
fn keep(kept: &mut Vec<u8>, over: &mut bool, more: &[u8], limit: usize) -> Result<(), AllocError>
    requires small { limit < 2 ^ 63 }
    requires few { vec_len kept.old ≤ limit + 1 }
    ensures ok { OnOk result ((part : List ℕ) → IsKept limit kept.old.items over.old part
        → IsKept limit kept.new.items over.new (part ++ more.now)) }
    ensures err { OnErr result ((kept.new.items ≡ kept.old.items) × (over.new ≡ over.old)) }
    ensures few { vec_len kept.new ≤ limit + 1 }
    ensures clean { IsClean kept.old.items → IsClean more.now → IsClean kept.new.items }
    ensures grown { vec_len kept.new ≤ vec_len kept.old + length more.now }
{
    let count = more.len().min(limit + 1 - kept.len());
    kept.extend_from_slice(&more[..count])?;
    if count < more.len() {
        *over = true;
    }
    Ok(())
}

// The text without one carriage return at its end.
fn strip(text: &[u8]) -> &[u8]
    ensures { result.now ≡ strip_carriage_return text.now }
{
    match text {
        [front @ .., b'\r'] => front,
        _ => text,
    }
}

// So many bytes of a text, or all of it.
fn cut(text: &[u8], limit: usize) -> &[u8]
    ensures { result.now ≡ take limit text.now }
{
    if text.len() <= limit {
        return text;
    }
    &text[..limit]
}

// The line of what stands between two line feeds, and whether it was longer than the limit.
fn line_at(part: &[u8], limit: usize) -> (&[u8], bool)
    ensures line { record { bytes = result.0.now; long = result.1 } ≡ line_at limit part.now }
    ensures clean { IsClean part.now → IsClean result.0.now }
{
    let line = strip(part);
    (cut(line, limit), line.len() > limit)
}

// The line of a part of which so much was kept.
fn line_kept(kept: &[u8], over: bool, limit: usize) -> (&[u8], bool)
    ensures line { (part : List ℕ) → IsKept limit kept.now over part →
        record { bytes = result.0.now; long = result.1 } ≡ line_at limit part }
    ensures clean { IsClean kept.now → IsClean result.0.now }
{
    if over {
        return (cut(kept, limit), true);
    }
    line_at(kept, limit)
}

/// What a reader of lines has next.
#[derive(Drop)]
pub(crate) enum Found {
    /// A line, which so many of the bytes that were not yet looked at end.
    Line(usize),
    /// No further line is whole, and the end is not marked.
    Wanting,
    /// The end is marked, and all lines were given.
    End,
}

/// The lines of bytes that are pushed piece by piece.
///
/// A line that stands whole in the pieces is lent and not copied. What is left of them without a
/// line feed joins the line that is not whole, of which no more is kept than the limit and one
/// byte, and the pieces go. So where `find` is called up to `Wanting` after each `push`, nothing of
/// the earlier pieces is kept but that line.
#[derive(Drop)]
pub(crate) struct LineReader {
    limit: usize,
    // The front of the line that is not whole, and whether more of it came.
    kept: Vec<u8>,
    over: bool,
    // The pieces since the last `Wanting`, looked at up to `at`.
    pending: Vec<u8>,
    at: usize,
    finished: bool,
}

impl Model for LineReader {
    ghost use Rattle.std.specs.Prelude.{◌<◌, ◌≤◌, ◌+◌, ◌-◌, ◌^◌, drop, vec_len};
    ghost use Rattle.ncq_base.specs.Lines.{IsClean};
    ghost use Rattle.ncq_script.specs.LineReading.{LineState};

    ghost Value = { LineState };

    ghost view = { λ r. record {
      limit = r.limit;
      kept = r.kept.items;
      over = r.over;
      ahead = drop r.at r.pending.items;
      finished = r.finished;
    } };

    // The pieces go as soon as all of them was looked at: else less than their length was.
    ghost invariant = { λ r. (r.limit < 2 ^ 62) × (vec_len r.kept ≤ r.limit + 1)
        × (r.at ≤ vec_len r.pending - 1) × IsClean r.kept.items };
}

impl LineReader {
    ghost use Rattle.ncq_script.specs.NextOfLines.{IsFound, IsReady, passed};

    /// A reader that was pushed nothing, for lines of at most `limit` bytes.
    pub fn new(alloc: Global, limit: usize) -> LineReader
        requires { limit < 2 ^ 62 }
        ensures follows { FollowsLines result [] 0 }
        ensures limit { result.limit ≡ limit }
        ensures open { result.finished ≡ false }
    {
        LineReader {
            limit,
            kept: Vec::new(alloc),
            over: false,
            pending: Vec::new(alloc),
            at: 0,
            finished: false,
        }
    }

    /// Takes the next piece. Where memory runs out, the reader is as before.
    pub fn push(&mut self, piece: &[u8]) -> Result<(), AllocError>
        requires { self.old.finished ≡ false }
        ensures ok { OnOk result ((pushed : List ℕ) (count : ℕ) → FollowsLines self.old pushed count
            → FollowsLines self.new (pushed ++ piece.now) count) }
        ensures err { OnErr result (self.new ≡ self.old) }
        ensures limit { self.new.limit ≡ self.old.limit }
        ensures open { self.new.finished ≡ false }
    {
        self.pending.extend_from_slice(piece)?;
        Ok(())
    }

    /// Marks the end.
    pub fn finish(&mut self)
        ensures follows { (pushed : List ℕ) (count : ℕ) → FollowsLines self.old pushed count
            → FollowsLines self.new pushed count }
        ensures limit { self.new.limit ≡ self.old.limit }
        ensures closed { self.new.finished ≡ true }
    {
        self.finished = true;
    }

    /// Looks for the next line of the bytes that were pushed. Where memory runs out, the reader is
    /// as before.
    pub fn find(&mut self) -> Result<Found, AllocError>
        ensures found { IfOk result (λ found. (pushed : List ℕ) (count : ℕ) →
            FollowsLines self.old pushed count → IsFound self.old self.new pushed count found) }
        ensures ready { IfOk result (λ found. (len : ℕ) → found ≡ Found.Line len
            → IsReady self.new len) }
        ensures lean { IfOk result (λ found. found ≡ Found.Wanting → IsLean self.new) }
        ensures err { OnErr result (self.new ≡ self.old) }
        ensures less { length self.new.kept + length self.new.ahead
            ≤ length self.old.kept + length self.old.ahead }
        ensures limit { self.new.limit ≡ self.old.limit }
        ensures finished { self.new.finished ≡ self.old.finished }
    {
        let ahead = ahead_of(&self.pending, self.at);
        match first_line(ahead) {
            Some((front, _)) => {
                if self.kept.is_empty() {
                    return Ok(Found::Line(front.len()));
                }
                keep(&mut self.kept, &mut self.over, front, self.limit)?;
                self.at += front.len();
                Ok(Found::Line(0))
            }
            None => {
                keep(&mut self.kept, &mut self.over, ahead, self.limit)?;
                self.pending.clear();
                self.at = 0;
                if !self.finished {
                    return Ok(Found::Wanting);
                }
                if self.kept.is_empty() {
                    return Ok(Found::End);
                }
                Ok(Found::Line(0))
            }
        }
    }

    /// The line that was found, up to the limit, and whether it was longer.
    pub fn line(&self, len: usize) -> (&[u8], bool)
        requires { IsReady self.now len }
        ensures line { (part : List ℕ) → IsKept self.now.limit self.now.kept self.now.over part →
            record { bytes = result.0.now; long = result.1 }
            ≡ line_at self.now.limit (part ++ take len self.now.ahead) }
        ensures clean { IsClean result.0.now }
    {
        if self.kept.is_empty() {
            return line_at(cut(ahead_of(&self.pending, self.at), len), self.limit);
        }
        line_kept(self.kept.as_slice(), self.over, self.limit)
    }

    /// Goes behind the line that was found.
    pub fn pass(&mut self, len: usize)
        requires { len ≤ length self.old.ahead }
        ensures { self.new ≡ passed self.old len }
    {
        self.kept.clear();
        self.over = false;
        let behind = self.at + len + 1;
        if behind < self.pending.len() {
            self.at = behind;
        } else {
            self.pending.clear();
            self.at = 0;
        }
    }
}

// The bytes from a place on.
fn ahead_of(pending: &[u8], at: usize) -> &[u8]
    requires { at ≤ length pending.now }
    ensures { result.now ≡ drop at pending.now }
{
    &pending[at..]
}
