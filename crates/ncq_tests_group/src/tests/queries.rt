//! Statements and their normal queries, worked out by hand and shown as `shown` says.
ghost use Rattle.ncq_xmlql.specs.WellFormed.{IsWellFormed};

use super::shown::add_query;
use super::{expect_bytes, joined};
use ncq_base::bytes_of;
use ncq_bind::{BindError, bind};
use ncq_plan::{NormalQuery, Predicates};
use ncq_source::{Key, Store};
use ncq_xmlql::{Statement, parse_statement};
use std::alloc::{AllocError, Global};
use std::hash::RandomState;
use std::process::Abort;
use std::test::Fail;

fn declare(alloc: Global, store: &mut Store, name: &str, root: &str) -> Result<(), Fail> {
    let key = Key::Child(bytes_of(alloc, b"Symbol")?);
    let name = bytes_of(alloc, name.as_bytes())?;
    let root = bytes_of(alloc, root.as_bytes())?;
    store.declare(alloc, name, root, key)?;
    Ok(())
}

/// The sources `quotes`, `companies` and `c`, with the roots `Quotes`, `Companies` and `Cs`.
pub(super) fn sources(alloc: Global, seed: RandomState) -> Result<Store, Fail> {
    let mut store = Store::new(alloc, seed);
    declare(alloc, &mut store, "quotes", "Quotes")?;
    declare(alloc, &mut store, "companies", "Companies")?;
    declare(alloc, &mut store, "c", "Cs")?;
    Ok(store)
}

/// The text of a normal query.
fn text_of(alloc: Global, query: &NormalQuery) -> Result<Vec<u8>, AllocError> {
    let mut out = Vec::new(alloc);
    add_query(&mut out, query)?;
    Ok(out)
}

/// Why a statement has no normal query.
fn refusal(error: BindError) -> Result<&'static str, AllocError> {
    match error {
        BindError::NoSource => Ok("no source"),
        BindError::RootDiffers => Ok("root"),
        BindError::Unbound => Ok("unbound"),
        BindError::OutOfMemory => Err(AllocError),
    }
}

/// What a statement means, or why it means nothing.
fn meaning(
    alloc: Global,
    store: &Store,
    predicates: &Predicates,
    statement: &Statement,
) -> Result<Vec<u8>, AllocError>
    requires { IsWellFormed statement.now }
{
    match bind(alloc, statement, store, predicates) {
        Ok(query) => text_of(alloc, &query),
        Err(error) => joined(alloc, &[refusal(error)?]),
    }
}

/// The normal query of the statement, or why it has none.
fn answer(
    alloc: Global,
    store: &Store,
    predicates: &Predicates,
    text: &[u8],
) -> Result<Vec<u8>, Fail> {
    let statement = parse_statement(alloc, text)?;
    Ok(meaning(alloc, store, predicates, &statement)?)
}

/// The statement of this text has this normal query.
fn expect_answer(
    rt: &impl Abort,
    alloc: Global,
    store: &Store,
    predicates: &Predicates,
    text: &[&str],
    want: &[&str],
) -> Result<(), Fail> {
    let text = joined(alloc, text)?;
    let want = joined(alloc, want)?;
    let got = answer(alloc, store, predicates, text.as_slice())?;
    expect_bytes(rt, got.as_slice(), want.as_slice(), "");
    Ok(())
}

/// Each query has its normal query, where these predicates are handed in.
pub(super) fn expect_each(
    rt: &impl Abort,
    alloc: Global,
    store: &Store,
    predicates: &Predicates,
    cases: &[(&str, &str)],
) -> Result<(), Fail> {
    for (query, want) in cases {
        let text = ["create x where ", query, " do print"];
        expect_answer(rt, alloc, store, predicates, &text, &[want])?;
    }
    Ok(())
}

/// Each query has its normal query, where no predicate is handed in.
fn expect_answers(
    rt: &impl Abort,
    alloc: Global,
    seed: RandomState,
    cases: &[(&str, &str)],
) -> Result<(), Fail> {
    let store = sources(alloc, seed)?;
    let predicates = Predicates::new(alloc);
    expect_each(rt, alloc, &store, &predicates, cases)
}

const STATEMENTS: &[(&str, &str)] = &[
    (
        "<Quotes><Quote><Symbol>INTC</></> ELEMENT_AS $g</> IN \"quotes\" CONSTRUCT $g",
        "quotes:Quote(Symbol=)!e 0=\"INTC\"; #1",
    ),
    (
        "<Quotes><Quote><Tag>$s</></></> IN \"quotes\" CONSTRUCT <r>$s</>",
        "quotes:Quote(Tag=); <r(#0)>",
    ),
    // The normal query is the same: who is told the answer counts it.
    (
        "<Quotes><Quote><Tag>$s</></></> IN \"quotes\" CONSTRUCT DISTINCT <r>$s</>",
        "quotes:Quote(Tag=); <r(#0)>",
    ),
    (
        "<Quotes><Quote><Price>$p</></></> IN \"quotes\", $p = 100 CONSTRUCT <p>$p</>",
        "quotes:Quote(Price=) 0=100; <p(#0)>",
    ),
    (
        "<Quotes><Quote><Price>$p</></></> IN \"quotes\", $p > abc CONSTRUCT <p>$p</>",
        "quotes:Quote(Price=); #0 > \"abc\"; <p(#0)>",
    ),
    (
        "<Quotes><Quote><Symbol>$s</><Price>$p</></></> IN \"quotes\", \
         <Companies><Company><Symbol>$s</><Area>$a</></></> IN \"companies\" \
         CONSTRUCT <hit><s>$s</><p>$p</><a>$a</></>",
        "quotes:Quote(Symbol=Price=); companies:Company(Symbol=Area=) 0~0; \
         <hit(<s(#0)><p(#1)><a(#3)>)>",
    ),
    (
        "<Quotes><Quote><Symbol>$a</><Price>$p</></><Quote><Symbol>$b</><Price>$p</></></> \
         IN \"quotes\" CONSTRUCT <pair a=$a b=$b/>",
        "quotes:Quote(Symbol=Price=); quotes:Quote(Symbol=Price=) 1~1; <pair a=#0 b=#2()>",
    ),
    (
        "<Quotes><Quote><Symbol>$s</></></> IN \"quotes\" CONSTRUCT $s",
        "quotes:Quote(Symbol=); #0",
    ),
    (
        "<Quotes><Quote><Symbol>$s</><Price>$p</></></> IN \"quotes\" \
         CONSTRUCT <r sym=$s>\"Price of \" $s is $p</>",
        "quotes:Quote(Symbol=Price=); <r sym=#0('Price of '#0'is'#1)>",
    ),
    (
        "<Cs><C id=\"7.0\"></> ELEMENT_AS $e</> IN \"c\" CONSTRUCT $e",
        "c:C@id()!e 0=7; #1",
    ),
];

#[test]
fn statements_have_their_normal_queries(rt: HostRuntime) -> Result<(), Fail> {
    expect_answers(&rt, rt.alloc(), RandomState::new(&rt)?, STATEMENTS)
}

const PATTERNS: &[(&str, &str)] = &[
    ("<Cs><C></C></Cs> in c construct <r/>", "c:C(); <r()>"),
    ("<Cs><C>$x</></> in c construct $x", "c:C=; #0"),
    ("<Cs><C>07</></> in c construct <r/>", "c:C= 0=7; <r()>"),
    (
        "<Cs><C>a  b</></> in c construct <r>c  d</>",
        "c:C= 0=\"a b\"; <r('c d')>",
    ),
    // a literal twice
    (
        "<Quotes><Quote><Symbol>A</><Name>A</></></> in quotes construct <r/>",
        "quotes:Quote(Symbol=Name=) 0=\"A\" 1=\"A\"; <r()>",
    ),
    // an attribute with a literal number; attributes stand as they are written
    (
        "<Cs><C k=$k id=\"7.0\"/></> in c construct $k",
        "c:C@k@id() 1=7; #0",
    ),
    // attributes, then parts, then the suffix
    (
        "<Cs><C id=$i><A>$a</> element_as $x <B j=$j><D/></></> content_as $y</> in c \
         construct <r y=$y><i>$i</>$a $x $j</>",
        "c:C@id(A=!eB@j(D()))!c; <r y=#4(<i(#0)>#1#2#3)>",
    ),
    // a variable twice and three times in one arm
    (
        "<Quotes><Quote><A>$s</><B>$s</></></> in quotes construct $s",
        "quotes:Quote(A=B=); #0 = #1; #0",
    ),
    (
        "<Quotes><Quote><A>$s</><B>$t</><C>$s</><D>$s</></></> in quotes construct $t",
        "quotes:Quote(A=B=C=D=); #0 = #2; #0 = #3; #1",
    ),
    // three occurrences over two arms
    (
        "<Quotes><Quote><A>$s</></><Quote><A>$s</><B>$s</></></> in quotes construct $s",
        "quotes:Quote(A=); quotes:Quote(A=B=) 0~0 0~1; #0",
    ),
    (
        "<Quotes><Quote><A>$s</><B>$s</></><Quote><A>$s</></></> in quotes construct $s",
        "quotes:Quote(A=B=); quotes:Quote(A=) 0~0; #0 = #1; #0",
    ),
    // over three arms, where a pair leads to the first
    (
        "<Cs><A>$x</><B>$y</><D i=$y j=$x/></> in c construct $y",
        "c:A=; c:B=; c:D@i@j() 0~1 1~0; #1",
    ),
    // a variable that stands first in a later item
    (
        "<Quotes><Quote><Symbol>$s</></></> in quotes, $a = Chips, $b < 9, \
         <Companies><Company><Symbol>$s</><Area>$a</><Size>$b</></></> in companies construct $a",
        "quotes:Quote(Symbol=); \
         companies:Company(Symbol=Area=Size=) 1=\"Chips\" 2 in (-,9) 0~0; #2",
    ),
    // conditions across arms
    (
        "<Cs><A>$x</><B>$y</></> in c, $y = $x, $x = $y, $x != $y construct $y",
        "c:A=; c:B= 0~0; #0 != #1; #1",
    ),
    (
        "<Cs><A>$x</><B i=$x>$z</></> in c, $z = $x, $y > 5, <Cs><D>$y</></> in c construct $z",
        "c:A=; c:B@i= 0~0 0~1; c:D= 0 in (5,-); #2",
    ),
    // whole elements and their children
    (
        "<Cs><C/> element_as $x <C/> content_as $x</> in c construct $x",
        "c:C()!e; c:C()!c 0~0; #0",
    ),
    // sources in any order
    (
        "<Companies><Company><Symbol>$s</></></> in companies, <Quotes><Quote/></> in quotes \
         construct $s",
        "companies:Company(Symbol=); quotes:Quote(); #0",
    ),
];

#[test]
fn patterns_have_their_slots(rt: HostRuntime) -> Result<(), Fail> {
    expect_answers(&rt, rt.alloc(), RandomState::new(&rt)?, PATTERNS)
}

const REFUSALS: &[(&str, &str)] = &[
    ("<Quotes><Quote/></> in x construct <r/>", "no source"),
    ("<Quotes><Quote/></> in Quotes construct <r/>", "no source"),
    ("<Quote><Quote/></> in quotes construct <r/>", "root"),
    ("<quotes><Quote/></> in quotes construct <r/>", "root"),
    ("<Quotes><Quote/></> in companies construct <r/>", "root"),
    ("<Quotes><Quote/></> in quotes construct $h", "unbound"),
    (
        "<Quotes><Quote/></> in quotes construct <r><s>$h</></>",
        "unbound",
    ),
    (
        "<Quotes><Quote/></> in quotes construct <r><s a=$h/></>",
        "unbound",
    ),
    (
        "<Quotes><Quote/></> in quotes, $h = $h construct <r/>",
        "unbound",
    ),
    (
        "<Quotes><Quote/></> in quotes, 5 < $h construct <r/>",
        "unbound",
    ),
    ("<Quotes><Quote>$H</></> in quotes construct $h", "unbound"),
    // any match may name what is not there
    (
        "<Quotes><Quote>$q</></> in quotes, <Cs><C/></> in x construct $q",
        "no source",
    ),
    (
        "<Quotes><Quote>$q</></> in quotes, <C><C/></> in c construct $q",
        "root",
    ),
    // the first of them is told
    (
        "<Q><Quote>$q</></> in quotes, <Cs><C/></> in x construct $h",
        "no source",
    ),
    ("<Q><Quote>$q</></> in quotes, $h = 5 construct $h", "root"),
    // no predicate is handed in
    (
        "<Quotes><Quote>$q</></> in quotes, $q satisfies starts A construct $q",
        "unbound",
    ),
];

#[test]
fn refusals_come_in_their_order(rt: HostRuntime) -> Result<(), Fail> {
    expect_answers(&rt, rt.alloc(), RandomState::new(&rt)?, REFUSALS)
}

/// Conditions on `$s`, slot 0, and `$p`, slot 1, of one arm; and what stands between the shape of
/// the arm and the template.
const CONDITIONS: &[(&str, &str)] = &[
    ("$p = 5", " 1=5; "),
    ("5 = $p", " 1=5; "),
    ("$p = 5, $p = 5.0", " 1=5; "),
    ("$p = 6, $p = 5", " 1=5 1=6; "),
    ("$p = A, $p = 5", " 1=5 1=\"A\"; "),
    ("$p = B, $s = A", " 0=\"A\" 1=\"B\"; "),
    // the greatest lower and the least upper bound; at one number the one without the number
    ("$p > 10, $p <= 90", " 1 in (10,90]; "),
    ("$p > 10, $p > 20", " 1 in (20,-); "),
    ("$p > 20, $p > 10", " 1 in (20,-); "),
    ("$p >= 10, $p > 10", " 1 in (10,-); "),
    ("$p > 10, $p >= 10", " 1 in (10,-); "),
    ("$p >= 11, $p > 10", " 1 in [11,-); "),
    ("$p < 10, $p <= 10", " 1 in (-,10); "),
    ("$p <= 10, $p < 10", " 1 in (-,10); "),
    ("$p < 10, $p <= 9", " 1 in (-,9]; "),
    ("$p < 10, $p < 9", " 1 in (-,9); "),
    ("$p > 10, $p <= 5", " 1 in (10,5]; "),
    ("$p > -0.5", " 1 in (-0.5,-); "),
    ("$p < 4, $s > 3", " 0 in (3,-) 1 in (-,4); "),
    // a literal on the left is turned round
    ("5 < $p", " 1 in (5,-); "),
    ("5 <= $p", " 1 in [5,-); "),
    ("5 > $p", " 1 in (-,5); "),
    ("5 >= $p", " 1 in (-,5]; "),
    // what is no equality and no bound is tested at the end
    ("$p > abc", "; #1 > \"abc\"; "),
    ("abc > $p", "; #1 < \"abc\"; "),
    ("$p != 5", "; #1 != 5; "),
    ("5 != $p", "; #1 != 5; "),
    ("$p = $p", "; "),
    ("$p <= $p", "; #1 <= #1; "),
    ("$p != $p", "; #1 != #1; "),
    ("$s != $p", "; #0 != #1; "),
    ("$p > $s", "; #1 > #0; "),
    ("$s = $p", "; #0 = #1; "),
    ("$p = $s", "; #0 = #1; "),
    (
        "$p != 3, $s < $p, $p = $s, $p > 1, $s = A",
        " 0=\"A\" 1 in (1,-); #0 = #1; #1 != 3; #0 < #1; ",
    ),
];

/// Each list of conditions has its normal query.
pub(super) fn expect_conditions(
    rt: &impl Abort,
    alloc: Global,
    store: &Store,
    predicates: &Predicates,
    cases: &[(&str, &str)],
) -> Result<(), Fail> {
    let front = "create x where <Quotes><Quote><Symbol>$s</><Price>$p</></></> in quotes, ";
    for (conditions, want) in cases {
        let text = [front, conditions, " construct $p do print"];
        let want = ["quotes:Quote(Symbol=Price=)", want, "#1"];
        expect_answer(rt, alloc, store, predicates, &text, &want)?;
    }
    Ok(())
}

#[test]
fn conditions_stand_where_they_are_met(rt: HostRuntime) -> Result<(), Fail> {
    let store = sources(rt.alloc(), RandomState::new(&rt)?)?;
    let predicates = Predicates::new(rt.alloc());
    expect_conditions(&rt, rt.alloc(), &store, &predicates, CONDITIONS)
}

/// 8 arms with 64 slots together, and 32 conditions.
const LARGEST: &[(&str, &str)] = &[(
    "<Cs>\
         <C a=$x b=$x c=$x d=$x e=$x f=$x g=$x h=$x/>\
         <C a=$x b=$x c=$x d=$x e=$x f=$x g=$x h=$x/>\
         <C a=$x b=$x c=$x d=$x e=$x f=$x g=$x h=$x/>\
         <C a=$x b=$x c=$x d=$x e=$x f=$x g=$x h=$x/>\
         <C a=$x b=$x c=$x d=$x e=$x f=$x g=$x h=$x/>\
         <C a=$x b=$x c=$x d=$x e=$x f=$x g=$x h=$x/>\
         <C a=$x b=$x c=$x d=$x e=$x f=$x g=$x h=$x/>\
         <C a=$x b=$x c=$x d=$x e=$x f=$x g=$x h=$x/>\
         </> in c\
         , $x != 1, $x != 1, $x != 1, $x != 1, $x != 1, $x != 1, $x != 1, $x != 1\
         , $x != 1, $x != 1, $x != 1, $x != 1, $x != 1, $x != 1, $x != 1, $x != 1\
         , $x != 1, $x != 1, $x != 1, $x != 1, $x != 1, $x != 1, $x != 1, $x != 1\
         , $x != 1, $x != 1, $x != 1, $x != 1, $x != 1, $x != 1, $x != 1, $x != 1\
         \x20construct $x",
    "c:C@a@b@c@d@e@f@g@h(); \
         c:C@a@b@c@d@e@f@g@h() 0~0 0~1 0~2 0~3 0~4 0~5 0~6 0~7; \
         c:C@a@b@c@d@e@f@g@h() 0~0 0~1 0~2 0~3 0~4 0~5 0~6 0~7; \
         c:C@a@b@c@d@e@f@g@h() 0~0 0~1 0~2 0~3 0~4 0~5 0~6 0~7; \
         c:C@a@b@c@d@e@f@g@h() 0~0 0~1 0~2 0~3 0~4 0~5 0~6 0~7; \
         c:C@a@b@c@d@e@f@g@h() 0~0 0~1 0~2 0~3 0~4 0~5 0~6 0~7; \
         c:C@a@b@c@d@e@f@g@h() 0~0 0~1 0~2 0~3 0~4 0~5 0~6 0~7; \
         c:C@a@b@c@d@e@f@g@h() 0~0 0~1 0~2 0~3 0~4 0~5 0~6 0~7; \
         #0 = #1; #0 = #2; #0 = #3; #0 = #4; #0 = #5; #0 = #6; #0 = #7; \
         #0 != 1; #0 != 1; #0 != 1; #0 != 1; #0 != 1; #0 != 1; #0 != 1; #0 != 1; \
         #0 != 1; #0 != 1; #0 != 1; #0 != 1; #0 != 1; #0 != 1; #0 != 1; #0 != 1; \
         #0 != 1; #0 != 1; #0 != 1; #0 != 1; #0 != 1; #0 != 1; #0 != 1; #0 != 1; \
         #0 != 1; #0 != 1; #0 != 1; #0 != 1; #0 != 1; #0 != 1; #0 != 1; #0 != 1; \
         #0",
)];

#[test]
fn the_largest_query(rt: HostRuntime) -> Result<(), Fail> {
    expect_answers(&rt, rt.alloc(), RandomState::new(&rt)?, LARGEST)
}
