//! What a query asks of a row.
ghost use Rattle.std.specs.Prelude.{◌≡◌, ◌++◌, ◌∷◌, [], IfOk, OnOk};
ghost use Rattle.std.specs.List.{flat_map};
ghost use Rattle.ncq_bind.specs.Answers.{argument_atom};
ghost use Rattle.ncq_bind.specs.Constraints.{condition_constraints, constant_constraint};
ghost use Rattle.ncq_bind.specs.Constraints.{constraints_from, constraints_of, first_slot};
ghost use Rattle.ncq_bind.specs.Constraints.{item_constraints, order_constraint};
ghost use Rattle.ncq_bind.specs.Constraints.{place_constraints, slots_constraints, turned};

use crate::names::Names;
use ncq_base::{Atom, Bytes, Copied, Op, Sequence, atom_of};
use ncq_plan::{Check, Side, Test};
use ncq_xmlql::{Operand, QueryItem};
use std::alloc::{AllocError, Global};

/// One thing that a query asks of a row, by slots of the whole query.
#[derive(Drop)]
pub enum Constraint {
    /// The slot has this atom.
    Equal { slot: usize, constant: Atom },
    /// The slot has a number on this side of the number; the comparison is one of the four of
    /// order.
    Bound { slot: usize, op: Op, number: i128 },
    /// The two slots have one atom. The left one is the smaller.
    Alike { left: usize, right: usize },
    /// Any other condition.
    Other { check: Check },
}

/// Constraints in the order in which a query has them.
pub(crate) type Constraints = Sequence<Constraint>;

/// What the places ask, then what the conditions ask.
pub(crate) fn constraints_of(
    alloc: Global,
    names: &Names,
    items: &[QueryItem],
) -> Result<Constraints, AllocError>
    ensures { IfOk result (λ c. c ≡ constraints_of names.now items.now) }
{
    let mut constraints = Constraints::new(alloc);
    add_places(alloc, names, &mut constraints)?;
    add_items(alloc, names, items, &mut constraints)?;
    Ok(constraints)
}

/// Adds what each place asks.
fn add_places(alloc: Global, names: &Names, constraints: &mut Constraints) -> Result<(), AllocError>
    ensures { OnOk result (constraints.new
        ≡ constraints.old ++ constraints_from (first_slot names.now) 0 names.now) }
{
    let places = names.places();
    for (slot, place) in places.iter().enumerate() {
        add_place(alloc, names, slot, place, constraints)?;
    }
    Ok(())
}

/// Adds what a place asks: a literal its atom, a further occurrence the atom of the first.
fn add_place(
    alloc: Global,
    names: &Names,
    slot: usize,
    place: &Operand,
    constraints: &mut Constraints,
) -> Result<(), AllocError>
    ensures { OnOk result (constraints.new
        ≡ constraints.old ++ place_constraints (first_slot names.now) slot place.now) }
{
    match place {
        Operand::Literal(text) => {
            let constant = atom_of(alloc, text.as_slice())?;
            constraints.push(Constraint::Equal { slot, constant })
        }
        Operand::Variable(x) => {
            let first = names.slot(x);
            if first == slot {
                return Ok(());
            }
            constraints.push(Constraint::Alike {
                left: first,
                right: slot,
            })
        }
    }
}

/// Adds what each condition asks.
fn add_items(
    alloc: Global,
    names: &Names,
    items: &[QueryItem],
    constraints: &mut Constraints,
) -> Result<(), AllocError>
    ensures { OnOk result (constraints.new
        ≡ constraints.old ++ flat_map (item_constraints (first_slot names.now)) items.now) }
{
    for item in items {
        add_item(alloc, names, item, constraints)?;
    }
    Ok(())
}

/// Adds what an item asks, where it is a condition.
fn add_item(
    alloc: Global,
    names: &Names,
    item: &QueryItem,
    constraints: &mut Constraints,
) -> Result<(), AllocError>
    ensures { OnOk result (constraints.new
        ≡ constraints.old ++ item_constraints (first_slot names.now) item.now) }
{
    match item {
        QueryItem::Match { .. } => Ok(()),
        QueryItem::Condition { left, op, right } => {
            add_condition(alloc, names, left, *op, right, constraints)
        }
        QueryItem::Satisfies {
            variable,
            predicate,
            argument,
        } => {
            let argument = argument_atom(alloc, argument)?;
            constraints.push(Constraint::Other {
                check: Check::Satisfies {
                    slot: names.slot(variable),
                    predicate: predicate.copy(alloc)?,
                    argument,
                },
            })
        }
    }
}

/// Adds what a condition asks. One with a literal on its left is turned round.
fn add_condition(
    alloc: Global,
    names: &Names,
    left: &Operand,
    op: Op,
    right: &Operand,
    constraints: &mut Constraints,
) -> Result<(), AllocError>
    ensures { OnOk result (constraints.new
        ≡ constraints.old
        ++ condition_constraints (first_slot names.now) left.now op right.now) }
{
    match (left, right) {
        (Operand::Variable(x), Operand::Variable(y)) => {
            add_slots(op, names.slot(x), names.slot(y), constraints)
        }
        (Operand::Variable(x), Operand::Literal(text)) => {
            let constant = atom_of(alloc, text.as_slice())?;
            constraints.push(constant_constraint(op, names.slot(x), constant))
        }
        (Operand::Literal(text), Operand::Variable(x)) => {
            let constant = atom_of(alloc, text.as_slice())?;
            constraints.push(constant_constraint(turned(op), names.slot(x), constant))
        }
        (Operand::Literal(_), Operand::Literal(_)) => Ok(()),
    }
}

/// The same comparison with its sides exchanged.
fn turned(op: Op) -> Op
    ensures { result ≡ turned op }
{
    match op {
        Op::Eq => Op::Eq,
        Op::Ne => Op::Ne,
        Op::Lt => Op::Gt,
        Op::Le => Op::Ge,
        Op::Gt => Op::Lt,
        Op::Ge => Op::Le,
    }
}

/// A slot compared with a constant.
fn constant_constraint(op: Op, slot: usize, constant: Atom) -> Constraint
    ensures { result ≡ constant_constraint op slot constant }
{
    match op {
        Op::Eq => Constraint::Equal { slot, constant },
        Op::Ne => Constraint::Other {
            check: Check::Compare(Test {
                op,
                left: slot,
                right: Side::Constant(constant),
            }),
        },
        Op::Lt | Op::Le | Op::Gt | Op::Ge => order_constraint(op, slot, constant),
    }
}

/// A slot compared by order with a constant: with a number a bound, with a text a test.
fn order_constraint(op: Op, slot: usize, constant: Atom) -> Constraint
    ensures { result ≡ order_constraint op slot constant }
{
    match &constant {
        Atom::Num(number) => Constraint::Bound {
            slot,
            op,
            number: *number,
        },
        Atom::Text(_) => Constraint::Other {
            check: Check::Compare(Test {
                op,
                left: slot,
                right: Side::Constant(constant),
            }),
        },
    }
}

/// Adds what the comparison of two slots asks.
fn add_slots(
    op: Op,
    left: usize,
    right: usize,
    constraints: &mut Constraints,
) -> Result<(), AllocError>
    ensures { OnOk result (constraints.new ≡ constraints.old ++ slots_constraints op left right) }
{
    match op {
        Op::Eq => {
            if left == right {
                return Ok(());
            }
            constraints.push(Constraint::Alike {
                left: left.min(right),
                right: left.max(right),
            })
        }
        Op::Ne | Op::Lt | Op::Le | Op::Gt | Op::Ge => constraints.push(Constraint::Other {
            check: Check::Compare(Test {
                op,
                left,
                right: Side::Slot(right),
            }),
        }),
    }
}

/// The atom of an argument: that of the empty text where there is none.
fn argument_atom(alloc: Global, argument: &Option<Bytes>) -> Result<Atom, AllocError>
    ensures { IfOk result (λ a. a ≡ argument_atom argument.now) }
{
    match argument {
        Some(text) => atom_of(alloc, text.as_slice()),
        None => atom_of(alloc, b""),
    }
}
