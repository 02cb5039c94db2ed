//! The plans of four statements, and their texts worked out by hand.
ghost use Rattle.std.specs.Prelude.{◌≡◌, ◌≤◌, ◌+◌, ◌∷◌, [], true, length, IfOk};
ghost use Rattle.std.specs.List.{list_all, sum_by};
ghost use Rattle.ncq_row.specs.Formed.{shape_is_formed};
ghost use Rattle.ncq_row.specs.Widths.{width, suffix_width};
ghost use Rattle.ncq_plan.specs.Products.{arm_width};
ghost use Rattle.ncq_plan.specs.WellFormed.{arms_width, equals_in, ranges_in, ArmsFit};
ghost use Rattle.ncq_plan.specs.WellFormed.{arm_is_formed, IsWellFormed};

use super::making::{shape_with, value_shape};
use super::signatures::text;
use ncq_base::{Atom, Shared, bytes_of, write_atom};
use ncq_plan::{
    Arm, Arms, Checks, EqualTo, EqualTos, Expr, NormalQuery, Pair, Pairs, SlotTemplate, Withins,
    bare, plan, plan_late,
};
use ncq_row::{Names, ShapeSuffix, Shapes};
use std::alloc::{AllocError, Global};
use std::process::Abort;
use std::test::Fail;

/// The arm of quotes with these parts.
fn quotes(alloc: Global, parts: Shapes, suffix: ShapeSuffix) -> Result<Arm, AllocError>
    ensures width { IfOk result (λ a. arm_width a ≡ sum_by width parts + suffix_width suffix) }
    ensures formed { IfOk result (λ a. arm_is_formed a ≡ list_all shape_is_formed parts) }
    ensures equals { IfOk result (λ a. a.equals ≡ []) }
    ensures ranges { IfOk result (λ a. a.ranges ≡ []) }
    ensures pairs { IfOk result (λ a. a.pairs ≡ []) }
{
    let shape = shape_with(alloc, b"Quote", Names::new(alloc), parts, suffix)?;
    let source = bytes_of(alloc, b"quotes")?;
    Ok(Arm {
        source,
        shape: Shared::new(alloc, shape)?,
        equals: EqualTos::new(alloc),
        ranges: Withins::new(alloc),
        pairs: Pairs::new(alloc),
    })
}

/// The query of these arms.
fn query(alloc: Global, arms: Arms) -> Result<NormalQuery, AllocError>
    requires some { 1 ≤ length arms }
    requires few { length arms ≤ 8 }
    requires slots { arms_width arms ≤ 64 }
    requires equals { equals_in arms ≤ 96 }
    requires ranges { ranges_in arms ≤ 32 }
    requires arms { ArmsFit 0 arms }
    requires paths { list_all arm_is_formed arms ≡ true }
    ensures { IfOk result IsWellFormed }
{
    Ok(NormalQuery {
        arms,
        residual: Checks::new(alloc),
        template: SlotTemplate::Text(bytes_of(alloc, b"")?),
    })
}

/// One part that is a value.
fn lone_part(alloc: Global, tag: &str) -> Result<Shapes, AllocError>
    ensures width { IfOk result (λ parts. sum_by width parts ≡ 1) }
    ensures formed { IfOk result (λ parts. list_all shape_is_formed parts ≡ true) }
{
    let mut parts = Shapes::new(alloc);
    parts.push(value_shape(alloc, tag.as_bytes())?)?;
    Ok(parts)
}

fn lone_arm(alloc: Global, arm: Arm) -> Result<Arms, AllocError>
    ensures { IfOk result (λ arms. arms ≡ arm ∷ []) }
{
    let mut arms = Arms::new(alloc);
    arms.push(arm)?;
    Ok(arms)
}

/// The query of quotes with one part, whose first slot is the constant.
fn equal_quotes(
    alloc: Global,
    tag: &str,
    suffix: ShapeSuffix,
    constant: Atom,
) -> Result<NormalQuery, AllocError>
    ensures { IfOk result IsWellFormed }
{
    let parts = lone_part(alloc, tag)?;
    let mut arm = quotes(alloc, parts, suffix)?;
    arm.equals.push(EqualTo { slot: 0, constant })?;
    let arms = lone_arm(alloc, arm)?;
    query(alloc, arms)
}

/// The arm of quotes with a symbol and a price.
fn priced(alloc: Global) -> Result<Arm, AllocError>
    ensures width { IfOk result (λ a. arm_width a ≡ 2) }
    ensures formed { IfOk result (λ a. arm_is_formed a ≡ true) }
    ensures equals { IfOk result (λ a. a.equals ≡ []) }
    ensures ranges { IfOk result (λ a. a.ranges ≡ []) }
    ensures pairs { IfOk result (λ a. a.pairs ≡ []) }
{
    let mut parts = Shapes::new(alloc);
    parts.push(value_shape(alloc, b"Symbol")?)?;
    parts.push(value_shape(alloc, b"Price")?)?;
    quotes(alloc, parts, ShapeSuffix::Plain)
}

/// The query of quotes with a symbol and a price.
pub(super) fn priced_quotes(alloc: Global) -> Result<NormalQuery, AllocError>
    ensures { IfOk result IsWellFormed }
{
    let arms = lone_arm(alloc, priced(alloc)?)?;
    query(alloc, arms)
}

/// The query of two quotes of one price, of which the second has this symbol.
fn paired_with(alloc: Global, constant: Atom) -> Result<NormalQuery, AllocError>
    ensures { IfOk result IsWellFormed }
{
    let mut arms = Arms::new(alloc);
    arms.push(priced(alloc)?)?;
    let mut arm = priced(alloc)?;
    arm.pairs.push(Pair { left: 1, right: 1 })?;
    arm.equals.push(EqualTo { slot: 0, constant })?;
    arms.push(arm)?;
    query(alloc, arms)
}

/// The query of two quotes of one price.
pub(super) fn paired_quotes(alloc: Global) -> Result<NormalQuery, AllocError>
    ensures { IfOk result IsWellFormed }
{
    let mut arms = Arms::new(alloc);
    arms.push(priced(alloc)?)?;
    let mut arm = priced(alloc)?;
    arm.pairs.push(Pair { left: 1, right: 1 })?;
    arms.push(arm)?;
    query(alloc, arms)
}

/// The constant in place of the last bracket, and the bracket.
fn close(out: &mut Vec<u8>, constant: &Atom) -> Result<(), AllocError> {
    out.pop();
    out.push(b',')?;
    write_atom(constant, out)?;
    out.push(b')')?;
    Ok(())
}

/// The constant in place of the last bracket, where the expression ends in an equality.
fn close_equality(out: &mut Vec<u8>, expr: &Expr) -> Result<(), AllocError> {
    match expr {
        Expr::EqSel { constant, .. } => close(out, constant),
        _ => Ok(()),
    }
}

/// The text of an expression: that of its signature, with the constant of an equality.
fn whole_text(alloc: Global, expr: &Expr) -> Result<Vec<u8>, AllocError> {
    let mut out = text(alloc, expr)?;
    close_equality(&mut out, expr)?;
    Ok(out)
}

/// The text of the plan of a query.
fn plan_text(alloc: Global, query: &NormalQuery) -> Result<Vec<u8>, AllocError>
    requires { IsWellFormed query.now }
{
    let whole = plan(alloc, query)?;
    whole_text(alloc, &whole)
}

/// Compares the text of the plan of a query.
fn expect_plan(
    rt: &impl Abort,
    alloc: Global,
    query: NormalQuery,
    want: &str,
) -> Result<(), AllocError>
    requires { IsWellFormed query }
{
    let text = plan_text(alloc, &query)?;
    assert!(rt; text.as_slice() == want.as_bytes(), "{want}");
    Ok(())
}

#[test]
fn an_equality_of_a_text(rt: HostRuntime) -> Result<(), Fail> {
    let intc = Atom::Text(bytes_of(rt.alloc(), b"INTC")?);
    let query = equal_quotes(rt.alloc(), "Symbol", ShapeSuffix::Element, intc)?;
    let want = "eq(scan(quotes,Quote(Symbol=)!e),0,\"INTC\")";
    expect_plan(&rt, rt.alloc(), query, want)?;
    Ok(())
}

#[test]
fn an_equality_of_a_number(rt: HostRuntime) -> Result<(), Fail> {
    let hundred = Atom::Num(100_000_000);
    let query = equal_quotes(rt.alloc(), "Price", ShapeSuffix::Plain, hundred)?;
    let want = "eq(scan(quotes,Quote(Price=)),0,100)";
    expect_plan(&rt, rt.alloc(), query, want)?;
    Ok(())
}

#[test]
fn a_join_by_one_pair(rt: HostRuntime) -> Result<(), Fail> {
    let query = paired_quotes(rt.alloc())?;
    let want = "join(scan(quotes,Quote(Symbol=,Price=)),scan(quotes,Quote(Symbol=,Price=)),1=1)";
    expect_plan(&rt, rt.alloc(), query, want)?;
    Ok(())
}

/// The texts of the two plans of a query and of its bare plan.
const PLANS: [&str; 3] = [
    "join(scan(quotes,Quote(Symbol=,Price=)),eq(scan(quotes,Quote(Symbol=,Price=)),0,\"INTC\"),\
     1=1)",
    "eq(join(scan(quotes,Quote(Symbol=,Price=)),scan(quotes,Quote(Symbol=,Price=)),1=1),\
     2,\"INTC\")",
    "join(scan(quotes,Quote(Symbol=,Price=)),scan(quotes,Quote(Symbol=,Price=)),1=1)",
];

/// Compares the text of the plan of a query that joins first.
fn expect_late(
    rt: &impl Abort,
    alloc: Global,
    query: &NormalQuery,
    want: &str,
) -> Result<(), AllocError>
    requires { IsWellFormed query.now }
{
    let whole = plan_late(alloc, query)?;
    let text = whole_text(alloc, &whole)?;
    assert!(rt; text.as_slice() == want.as_bytes(), "{want}");
    Ok(())
}

/// Compares the text of the bare plan of a query.
fn expect_bare(
    rt: &impl Abort,
    alloc: Global,
    query: &NormalQuery,
    want: &str,
) -> Result<(), AllocError>
    requires { IsWellFormed query.now }
{
    let whole = bare(alloc, query)?;
    let text = whole_text(alloc, &whole)?;
    assert!(rt; text.as_slice() == want.as_bytes(), "{want}");
    Ok(())
}

#[test]
fn an_equality_below_a_join_or_above(rt: HostRuntime) -> Result<(), Fail> {
    let intc = Atom::Text(bytes_of(rt.alloc(), b"INTC")?);
    let query = paired_with(rt.alloc(), intc)?;
    expect_late(&rt, rt.alloc(), &query, PLANS[1])?;
    expect_bare(&rt, rt.alloc(), &query, PLANS[2])?;
    expect_plan(&rt, rt.alloc(), query, PLANS[0])?;
    Ok(())
}
