ghost use Rattle.std.specs.Prelude.{◌≡◌, ◌+◌, ◌<◌, ◌^◌, IfOk, OnOk, OnErr, ◌++◌, ◌≤◌, nat_abs};
ghost use Rattle.std.specs.Prelude.{◌+ℤ◌, List, ◌∷◌};
ghost use Rattle.std.specs.FinMap.{empty};
ghost use Rattle.std.specs.List.{flat_map, sum_by};
ghost use Rattle.ncq_bag.specs.Added.{IsRising, runs, with_adds};
ghost use Rattle.ncq_bag.specs.Bags.{added, differences, difference_of, no_counts, signed};

use crate::rising::sort_by_bytes;
use ncq_base::{Bytes, Copied, Sequence};
use std::alloc::{AllocError, Global};
use std::marker::Model;
use std::mem::replace;

/// A byte string that stands more often in one of two bags.
#[derive(Debug, Drop)]
pub struct Difference {
    pub gain: bool,
    pub count: u64,
    pub bytes: Bytes,
}

impl Copied for Difference {
    fn copy(&self, alloc: Global) -> Result<Difference, AllocError> {
        Ok(Difference {
            gain: self.gain,
            count: self.count,
            bytes: self.bytes.copy(alloc)?,
        })
    }
}

pub type Differences = Sequence<Difference>;

/// Counts of byte strings. What is added is kept as a list, which is sorted once, when the counts
/// are asked for. The sort goes by comparisons, so that nobody who picks the byte strings can make
/// it slow.
#[derive(Drop)]
pub struct SignedBag {
    /// What each add changed.
    list: Vec<Difference>,
    adds: u64,
}

impl Model for SignedBag {
    ghost use Rattle.std.specs.FinMap.{empty};
    ghost use Rattle.ncq_bag.specs.Added.{IsWithin, with_adds};
    ghost use Rattle.ncq_bag.specs.Counted.{Counted, counted_code};

    ghost Value = { Counted };

    ghost coded = { counted_code };

    ghost view = { λ b. record { counts = with_adds empty b.list.items; adds = b.adds } };

    ghost invariant = { λ b. IsWithin b.list.items b.adds };
}

impl SignedBag {
    /// How many adds a bag can take.
    pub const MOST_ADDS: u64 = 1 << 63;

    pub fn new(alloc: Global) -> SignedBag
        ensures { result ≡ no_counts }
    {
        SignedBag {
            list: Vec::new(alloc),
            adds: 0,
        }
    }

    pub fn adds(&self) -> u64
        ensures { result ≡ self.now.adds }
    {
        self.adds
    }

    /// So many more of the key, or so many less. After want of memory the bag is as before.
    pub fn add(&mut self, key: Bytes, times: u64, gain: bool) -> Result<(), AllocError>
        requires { self.old.adds + times ≤ 2 ^ 63 }
        ensures counts { OnOk result (self.new.counts ≡ added self.old.counts key times gain) }
        ensures adds { OnOk result (self.new.adds ≡ self.old.adds + times) }
        ensures err { OnErr result (self.new ≡ self.old) }
    {
        self.list.push(Difference {
            gain,
            count: times,
            bytes: key,
        })?;
        self.adds += times;
        Ok(())
    }

    /// The keys whose count is not 0, rising by bytes, each with the size and the sign of its
    /// count.
    pub fn difference(self, alloc: Global) -> Result<Differences, AllocError>
        ensures { IfOk result (λ d. d ≡ differences self.counts) }
    {
        let SignedBag { mut list, adds: _ } = self;
        sort_by_bytes(&mut list)?;
        summed(alloc, list)
    }
}

/// The differences that adds leave, of which the byte strings rise: those of one stand together.
fn summed(alloc: Global, list: Vec<Difference>) -> Result<Differences, AllocError>
    requires rising { IsRising list.items }
    requires within { sum_by (λ d. d.count) list.items ≤ 2 ^ 63 }
    ensures { IfOk result (λ d. d ≡ differences (with_adds empty list.items)) }
{
    let mut out = Differences::new(alloc);
    let mut run = Run {
        key: Bytes::new(alloc),
        count: 0,
    };
    for add in list {
        run.take(add, &mut out)?;
    }
    push_difference(&mut out, run.key, run.count)?;
    Ok(out)
}

/// Adds of one byte string that stand together.
#[derive(Drop)]
struct Run {
    key: Bytes,
    count: i128,
}

impl Run {
    /// Takes one more add. One of another byte string ends the run, of which the difference goes
    /// out, and begins the next.
    fn take(&mut self, add: Difference, out: &mut Differences) -> Result<(), AllocError>
        requires { nat_abs self.old.count + add.count ≤ 2 ^ 63 }
        ensures runs { OnOk result ((more : List Difference)
            → out.new ++ flat_map difference_of (runs self.new.key self.new.count more)
            ≡ out.old ++ flat_map difference_of (runs self.old.key self.old.count (add ∷ more))) }
        ensures within { OnOk result (nat_abs self.new.count ≤ nat_abs self.old.count + add.count) }
    {
        if add.bytes == self.key {
            self.count = stepped(self.count, add.count, add.gain);
            return Ok(());
        }
        push_difference(out, replace(&mut self.key, add.bytes), self.count)?;
        self.count = stepped(0, add.count, add.gain);
        Ok(())
    }
}

fn stepped(count: i128, times: u64, gain: bool) -> i128
    requires { nat_abs count + times ≤ 2 ^ 63 }
    ensures value { result ≡ count +ℤ signed gain times }
    ensures within { nat_abs result ≤ nat_abs count + times }
    ensures small { nat_abs result ≤ 2 ^ 63 }
{
    if gain {
        count + times as i128
    } else {
        count - times as i128
    }
}

fn push_difference(out: &mut Differences, bytes: Bytes, count: i128) -> Result<(), AllocError>
    requires { nat_abs count ≤ 2 ^ 63 }
    ensures { OnOk result (out.new ≡ out.old ++ difference_of (bytes, count)) }
{
    if count == 0 {
        return Ok(());
    }
    out.push(Difference {
        gain: count > 0,
        count: count.unsigned_abs() as u64,
        bytes,
    })
}
