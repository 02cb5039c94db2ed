//! What is told of rows that come and go, worked out by hand.
ghost use Rattle.std.specs.Prelude.{◌≡◌, ◌∷◌, [], IfOk};

use super::making::{element_with, rows_of, shape_with, text_element, value_shapes};
use ncq_base::{Op, atom_of};
use ncq_callback::{Entries, Gather};
use ncq_plan::{Check, Checks, Predicates, Side, SlotTemplate, Test};
use ncq_row::{Names, Row, Rows, Shape, ShapeSuffix};
use ncq_tree::{Element, Forest, Node};
use std::alloc::{AllocError, Global};
use std::process::Abort;
use std::test::Fail;

const VALUES: &[&str] = &["a", "b", "c", "no"];

/// `<a>value</>`
fn child(alloc: Global, value: &str) -> Result<Node, AllocError> {
    let element = text_element(alloc, b"a", value.as_bytes())?;
    Ok(Node::Element(element))
}

fn children(alloc: Global, values: &[&str]) -> Result<Forest, AllocError> {
    let mut children = Forest::new(alloc);
    for value in values {
        children.push(child(alloc, value)?)?;
    }
    Ok(children)
}

/// `<q><a>a</><a>b</><a>c</><a>no</></>`
fn element(alloc: Global) -> Result<Element, AllocError> {
    let children = children(alloc, VALUES)?;
    element_with(alloc, b"q", children)
}

/// `<q><a>$0</></> ELEMENT_AS $1`
fn shape(alloc: Global) -> Result<Shape, AllocError> {
    let parts = value_shapes(alloc, &["a"])?;
    shape_with(alloc, b"q", Names::new(alloc), parts, ShapeSuffix::Element)
}

/// The rows of the element, one for each of the values.
fn the_rows(rt: &HostRuntime) -> Result<Rows, AllocError> {
    let shape = shape(rt.alloc())?;
    let element = element(rt.alloc())?;
    let (rows, _) = rows_of(rt, &shape, &element)?;
    Ok(rows)
}

fn lone_check(alloc: Global, check: Check) -> Result<Checks, AllocError>
    ensures { IfOk result (λ checks. checks ≡ check ∷ []) }
{
    let mut checks = Checks::new(alloc);
    checks.push(check)?;
    Ok(checks)
}

/// Takes a row under the test that its value is not `no`.
fn take_other(
    alloc: Global,
    gather: &mut Gather,
    template: &SlotTemplate,
    row: &Row,
    gain: bool,
) -> Result<(), AllocError> {
    if row.len() == 0 || gather.takes() >= Gather::MOST_TAKES {
        return Ok(());
    }
    let right = Side::Constant(atom_of(alloc, b"no")?);
    let test = Test {
        op: Op::Ne,
        left: 0,
        right,
    };
    let checks = lone_check(alloc, Check::Compare(test))?;
    let predicates = Predicates::new(alloc);
    gather.take(alloc, &checks, &predicates, template, row, gain)
}

/// Takes a row under each of the templates.
fn take_each(
    alloc: Global,
    gather: &mut Gather,
    templates: &[SlotTemplate],
    row: &Row,
    gain: bool,
) -> Result<(), AllocError> {
    for template in templates {
        take_other(alloc, gather, template, row, gain)?;
    }
    Ok(())
}

/// Takes the rows at these places, which come or go.
fn take_places(
    alloc: Global,
    gather: &mut Gather,
    rows: &Rows,
    templates: &[SlotTemplate],
    places: &[(usize, bool)],
) -> Result<(), AllocError> {
    for (place, gain) in places {
        if let Some(row) = rows.get(*place) {
            take_each(alloc, gather, templates, row, *gain)?;
        }
    }
    Ok(())
}

/// What is told, under each of the templates, where the rows at these places come or go.
fn gathered(
    alloc: Global,
    rows: &Rows,
    templates: &[SlotTemplate],
    places: &[(usize, bool)],
) -> Result<(Entries, u64), AllocError> {
    let mut gather = Gather::new(alloc);
    take_places(alloc, &mut gather, rows, templates, places)?;
    let takes = gather.takes();
    let entries = gather.finish(alloc)?;
    Ok((entries, takes))
}

/// So many rows come or go, each of which answers what the template makes of the row.
pub fn take_times(
    alloc: Global,
    gather: &mut Gather,
    template: &SlotTemplate,
    row: &Row,
    times: u64,
    gain: bool,
) -> Result<(), AllocError> {
    for _ in 0..times {
        if gather.takes() >= Gather::MOST_TAKES {
            return Err(AllocError);
        }
        gather.take(
            alloc,
            &Checks::new(alloc),
            &Predicates::new(alloc),
            template,
            row,
            gain,
        )?;
    }
    Ok(())
}

/// Whether the entries are these, with their sign and count.
pub fn are_entries(entries: &Entries, want: &[(bool, u64, &str)]) -> bool {
    let got = entries.as_slice();
    if got.len() != want.len() {
        return false;
    }
    for (entry, (gain, count, text)) in got.iter().zip(want) {
        let same = entry.gain == *gain && entry.count == *count;
        if !same || entry.bytes.as_slice() != text.as_bytes() {
            return false;
        }
    }
    true
}

const WHOLE: &str = "(q\n(a\n-a\n)a\n(a\n-b\n)a\n(a\n-c\n)a\n(a\n-no\n)a\n)q\n";

/// Each row comes.
const COMES: &[(usize, bool)] = &[(0, true), (1, true), (2, true), (3, true)];

/// One value after the other, some again, one back and forth.
const BACK_AND_FORTH: &[(usize, bool)] = &[
    (1, false),
    (0, true),
    (3, true),
    (0, true),
    (0, true),
    (0, false),
    (2, true),
    (2, false),
    (2, false),
    (2, true),
    (1, true),
    (1, false),
];

/// The slots of the templates, the places that come or go, how many rows were taken, and what is
/// told.
const GATHERED: &[(&[usize], &[(usize, bool)], u64, &[(bool, u64, &str)])] = &[
    (&[0], &[], 0, &[]),
    (
        &[0],
        BACK_AND_FORTH,
        12,
        &[(true, 2, "-a\n"), (false, 1, "-b\n")],
    ),
    // one element for all its rows
    (&[1], COMES, 4, &[(true, 3, WHOLE)]),
    // two templates in turn
    (
        &[0, 1],
        COMES,
        8,
        &[
            (true, 3, WHOLE),
            (true, 1, "-a\n"),
            (true, 1, "-b\n"),
            (true, 1, "-c\n"),
        ],
    ),
];

fn templates(alloc: Global, slots: &[usize]) -> Result<Vec<SlotTemplate>, AllocError> {
    let mut templates = Vec::new(alloc);
    for slot in slots {
        templates.push(SlotTemplate::Slot(*slot))?;
    }
    Ok(templates)
}

/// Whether so many rows are taken, and these entries told.
fn are_gathered(
    alloc: Global,
    rows: &Rows,
    templates: &[SlotTemplate],
    places: &[(usize, bool)],
    takes: u64,
    want: &[(bool, u64, &str)],
) -> Result<bool, AllocError> {
    let (entries, taken) = gathered(alloc, rows, templates, places)?;
    Ok(taken == takes && are_entries(&entries, want))
}

/// Compares what is told of the rows under templates that are these slots.
fn expect_gathered(
    rt: &impl Abort,
    alloc: Global,
    rows: &Rows,
    row: &(&[usize], &[(usize, bool)], u64, &[(bool, u64, &str)]),
) -> Result<(), AllocError> {
    let (slots, places, takes, want) = row;
    let templates = templates(alloc, slots)?;
    assert!(rt; are_gathered(alloc, rows, templates.as_slice(), places, *takes, want)?);
    Ok(())
}

#[test]
fn rows_that_pass_make_entries(rt: HostRuntime) -> Result<(), Fail> {
    let rows = the_rows(&rt)?;
    assert!(rt; rows.len() == 4);
    for row in GATHERED {
        expect_gathered(&rt, rt.alloc(), &rows, row)?;
    }
    Ok(())
}
