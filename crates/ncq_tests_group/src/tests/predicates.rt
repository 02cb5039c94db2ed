//! Conditions that ask a predicate, their normal queries and why some have none.
ghost use Rattle.std.specs.Prelude.{◌≡◌, []};
ghost use Rattle.ncq_plan.specs.Relations.{relates};
ghost use Rattle.ncq_plan.specs.declared.relation.Relation.TheVariants.{Member, Multiple, Prefix};

use super::queries::{expect_conditions, expect_each, sources};
use ncq_base::{Atom, bytes_of};
use ncq_plan::{AtomTest, Atoms, Predicate, Predicates, Relation, multiple, starts};
use std::alloc::{AllocError, Global};
use std::hash::RandomState;
use std::process::Abort;
use std::test::Fail;

/// Conditions on `$s`, slot 0, and `$p`, slot 1, of one arm; and what stands between the shape of
/// the arm and the template.
const CONDITIONS: &[(&str, &str)] = &[
    (
        "$s satisfies starts \"IN\"",
        "; #0 satisfies starts \"IN\"; ",
    ),
    ("$s SATISFIES Starts in", "; #0 satisfies starts \"in\"; "),
    ("$p satisfies multiple 5.0", "; #1 satisfies multiple 5; "),
    // an argument is the atom of its text, whatever the predicate asks
    ("$s satisfies starts 05", "; #0 satisfies starts 5; "),
    (
        "$p satisfies multiple \"a\"",
        "; #1 satisfies multiple \"a\"; ",
    ),
    // an empty argument is one; a missing one is the empty text
    ("$s satisfies starts \"\"", "; #0 satisfies starts \"\"; "),
    ("$s satisfies known", "; #0 satisfies known \"\"; "),
    // they stand among the other conditions, behind the equalities within an arm
    (
        "$s satisfies starts A, $p != 3, $p = $s, $s < $p, $p > 1, $s satisfies known, $s > abc",
        " 1 in (1,-); #0 = #1; #0 satisfies starts \"A\"; #1 != 3; #0 < #1; \
         #0 satisfies known \"\"; #0 > \"abc\"; ",
    ),
];

const QUERIES: &[(&str, &str)] = &[
    // the first slot of a variable
    (
        "<Cs><A>$x</><B>$y</><D>$x</></> in c, $x satisfies starts A, $y satisfies multiple 5 \
         construct $y",
        "c:A=; c:B=; c:D= 0~0; #0 satisfies starts \"A\"; #1 satisfies multiple 5; #1",
    ),
    // no such predicate
    (
        "<Cs><C>$s</></> in c, $s satisfies unknown construct $s",
        "unbound",
    ),
    (
        "<Cs><C>$s</></> in c, $s satisfies unknown A construct $s",
        "unbound",
    ),
    (
        "<Cs><C>$s</></> in c, $s satisfies start A construct $s",
        "unbound",
    ),
    // an argument that is missing, and one that is too much
    (
        "<Cs><C>$s</></> in c, $s satisfies starts construct $s",
        "unbound",
    ),
    (
        "<Cs><C>$s</></> in c, $s satisfies multiple construct $s",
        "unbound",
    ),
    (
        "<Cs><C>$s</></> in c, $s satisfies known A construct $s",
        "unbound",
    ),
    (
        "<Cs><C>$s</></> in c, $s satisfies known \"\" construct $s",
        "unbound",
    ),
    (
        "<Cs><C>$s</></> in c, $s satisfies starts A, $s satisfies starts construct $s",
        "unbound",
    ),
    // a variable that no pattern has
    (
        "<Cs><C>$s</></> in c, $h satisfies starts A construct $s",
        "unbound",
    ),
    // the sources are asked first, then the roots
    (
        "<Cs><C>$s</></> in x, $s satisfies unknown construct $s",
        "no source",
    ),
    (
        "<Cs><C>$s</></> in c, $s satisfies starts, <Cs><C/></> in x construct $s",
        "no source",
    ),
    (
        "<C><C>$s</></> in c, $s satisfies unknown construct $s",
        "root",
    ),
    (
        "<Cs><C>$s</></> in c, $s satisfies known A, <C><C/></> in c construct $s",
        "root",
    ),
];

fn add_predicate(
    alloc: Global,
    predicates: &mut Predicates,
    name: &[u8],
    relation: Relation,
    test: AtomTest,
) -> Result<(), AllocError>
    requires callable { AtomTest.IsAlwaysCallable test }
    requires tells { (value : _) (argument : _) (result : _)
        → AtomTest.post test value argument result
        → result ≡ relates relation value.now argument.now }
{
    predicates.push(Predicate::new(bytes_of(alloc, name)?, relation, test))?;
    Ok(())
}

#[test]
fn predicates_are_asked_where_they_are_there(rt: HostRuntime) -> Result<(), Fail> {
    let alloc = rt.alloc();
    let store = sources(alloc, RandomState::new(&rt)?)?;
    let starts: AtomTest = Box::new(
        alloc,
        |value: &Atom, argument: &Atom| -> bool
            ensures { result ≡ relates Prefix value.now argument.now }
        { starts(value, argument) },
    )?;
    let multiple: AtomTest = Box::new(
        alloc,
        |value: &Atom, argument: &Atom| -> bool
            ensures { result ≡ relates Multiple value.now argument.now }
        { multiple(value, argument) },
    )?;
    let none: AtomTest = Box::new(
        alloc,
        |value: &Atom, argument: &Atom| -> bool
            ensures { result ≡ relates (Member []) value.now argument.now }
        { false },
    )?;
    let mut predicates = Predicates::new(alloc);
    add_predicate(alloc, &mut predicates, b"starts", Relation::Prefix, starts)?;
    add_predicate(
        alloc,
        &mut predicates,
        b"multiple",
        Relation::Multiple,
        multiple,
    )?;
    let known = Relation::Member(Atoms::new(alloc));
    add_predicate(alloc, &mut predicates, b"known", known, none)?;
    expect_conditions(&rt, alloc, &store, &predicates, CONDITIONS)?;
    expect_each(&rt, alloc, &store, &predicates, QUERIES)
}
