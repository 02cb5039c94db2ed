//! States of a reading.
ghost use Rattle.std.specs.Prelude.{◌≡◌, ◌↔◌, ◌&&◌, ◌≤◌, ℕ, IsTrue};
ghost use Rattle.std.specs.Prelude.{List, [], ◌∷◌, ◌++◌, length};
ghost use Rattle.std.specs.Str.{bytes_eq};
ghost use Rattle.ncq_path.specs.Paths.{InPath};
ghost use Rattle.ncq_path.specs.After.{IsAfter};
ghost use Rattle.ncq_path.specs.Positions.{has};
ghost use Rattle.ncq_path.specs.Links.{meets, takes};

use crate::ends::position;
use crate::link::Link;
use crate::machine::Machine;
use std::marker::Model;

/// Where a reading of names along a path may stand. Contracts see it as the rising list of the
/// positions.
#[derive(Clone, Copy)]
pub struct State {
    bits: u64,
}

impl Model for State {
    ghost use Rattle.std.specs.Prelude.{List, ℕ, ◌<◌, ◌^◌};
    ghost use Rattle.ncq_path.specs.Positions.{positions, bits_of};
    ghost use Rattle.ncq_path.specs.PositionLaws.{bits_of_positions};

    ghost Value = { List ℕ };

    ghost view = { λ s. positions s.bits };

    ghost invariant = { λ s. s.bits < 2 ^ 64 };

    ghost inverse = { λ found. record { bits = bits_of found } };

    ghost inverse_ok = { λ s h. λ i. record { bits = bits_of_positions s.bits h i } };
}

impl State {
    /// Whether it has no position: then no more names lead on to a list in the path.
    pub fn is_empty(self) -> bool
        ensures { IsTrue result ↔ (self ≡ []) }
    {
        self.bits == 0
    }
}

/// The state in front of the path.
pub fn start(machine: &Machine) -> State
    ensures { IsAfter machine.now [] result }
{
    State { bits: 1 }
}

/// The state behind one more name.
pub fn step(machine: &Machine, state: State, tag: &[u8]) -> State
    ensures { (tags : List (List ℕ)) → IsAfter machine.now tags state
        → IsAfter machine.now (tags ++ tag.now ∷ []) result }
{
    let links = &machine.links;
    State {
        bits: takers(links.as_slice(), state.bits, tag),
    }
}

/// Whether the names that led to the state are in the path.
pub fn accepts(machine: &Machine, state: State) -> bool
    ensures { (tags : List (List ℕ)) → IsAfter machine.now tags state
        → IsTrue result ↔ InPath machine.now tags }
{
    state.bits & machine.last != 0
}

/// The positions of the names that take the tag behind one of the positions.
fn takers(links: &[Link], bits: u64, tag: &[u8]) -> u64
    requires { length links.now ≤ 32 }
    ensures { (position : ℕ) → has result position ≡ takes links.now 0 bits tag.now position }
{
    let mut found = 0;
    for i in 0..links.len() {
        if is_taken(&links[i], bits, tag) {
            found |= position(i + 1);
        }
    }
    found
}

/// Whether the name takes the tag behind one of the positions.
fn is_taken(link: &Link, bits: u64, tag: &[u8]) -> bool
    ensures { result ≡ (bytes_eq link.now.name tag.now && meets bits link.now.before) }
{
    link.name.as_slice() == tag && bits & link.before != 0
}
