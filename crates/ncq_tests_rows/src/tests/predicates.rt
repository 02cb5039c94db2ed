//! What the relations of predicates say of values and arguments, worked out by hand.
use ncq_base::{Atom, atom_of};
use ncq_plan::{multiple, starts};
use std::alloc::{AllocError, Global};
use std::process::Abort;
use std::test::Fail;

/// Values and arguments, and whether the value starts with the argument.
const STARTS: &[(&str, &str, bool)] = &[
    ("INTC", "IN", true),
    ("INTC", "INTC", true),
    ("IBM", "IN", false),
    ("IN", "INTC", false),
    // Each text starts with the empty one.
    ("INTC", "", true),
    ("", "", true),
    ("", "IN", false),
    // A number starts with nothing, and no text starts with a number.
    ("12", "1", false),
    ("12", "", false),
    ("12", "IN", false),
    ("1NTC", "1", false),
];

/// Values and arguments, and whether the value is a multiple of the argument.
const MULTIPLES: &[(&str, &str, bool)] = &[
    ("10", "5", true),
    ("7", "5", false),
    // 0 is a multiple of each number but 0, of which nothing is one.
    ("0", "5", true),
    ("5", "0", false),
    ("0", "0", false),
    // Signs do not matter.
    ("-10", "5", true),
    ("10", "-5", true),
    ("-10", "-5", true),
    ("-7", "5", false),
    // Nor do points: both are counted in millionths.
    ("1.5", "0.5", true),
    ("1.5", "0.4", false),
    ("1", "0.000001", true),
    ("0.000001", "0.000002", false),
    ("0.000002", "0.000001", true),
    // A text is a multiple of nothing, and nothing is one of a text.
    ("INTC", "5", false),
    ("10", "INTC", false),
    ("10", "", false),
    ("INTC", "INTC", false),
];

/// The atom of the text.
fn atom(alloc: Global, text: &str) -> Result<Atom, AllocError> {
    atom_of(alloc, text.as_bytes())
}

#[test]
fn a_text_starts_with_its_front(rt: HostRuntime) -> Result<(), Fail> {
    let alloc = rt.alloc();
    for (value, argument, want) in STARTS {
        let told = starts(&atom(alloc, value)?, &atom(alloc, argument)?);
        assert!(rt; told == *want, "{value} {argument}");
    }
    Ok(())
}

#[test]
fn a_number_is_a_multiple_of_its_parts(rt: HostRuntime) -> Result<(), Fail> {
    let alloc = rt.alloc();
    for (value, argument, want) in MULTIPLES {
        let told = multiple(&atom(alloc, value)?, &atom(alloc, argument)?);
        assert!(rt; told == *want, "{value} {argument}");
    }
    Ok(())
}
