//! Statements, each shown as a text that has all its parts.

use super::{Pair, expect_bytes, joined};
use ncq_base::{Bytes, Limit, Op};
use ncq_path::write_path;
use ncq_xmlql::{
    Content, Operand, Pattern, Query, QueryItem, Statement, StatementError, Suffix, Template,
    parse_statement,
};
use std::alloc::{AllocError, Global};
use std::process::Abort;
use std::test::Fail;

fn show_bytes(
    out: &mut Vec<u8>,
    before: &str,
    bytes: &Bytes,
    behind: &str,
) -> Result<(), AllocError> {
    out.extend_from_slice(before.as_bytes())?;
    out.extend_from_slice(bytes.as_slice())?;
    out.extend_from_slice(behind.as_bytes())
}

/// `$x` or `'text'`.
fn show_operand(out: &mut Vec<u8>, operand: &Operand) -> Result<(), AllocError> {
    match operand {
        Operand::Variable(name) => show_bytes(out, "$", name, ""),
        Operand::Literal(text) => show_bytes(out, "'", text, "'"),
    }
}

/// `<path name=value(parts)>`, or `=value` in place of the parts, with `!e$x` or `!c$x` for a
/// suffix.
#[cycle(patterns)]
fn show_pattern(out: &mut Vec<u8>, pattern: &Pattern) -> Result<(), AllocError> {
    out.push(b'<')?;
    write_path(&pattern.tag, out)?;
    for attribute in pattern.attributes.as_slice() {
        show_bytes(out, " ", &attribute.name, "=")?;
        show_operand(out, &attribute.value)?;
    }
    show_content(out, &pattern.content)?;
    match &pattern.suffix {
        Suffix::Plain => out.push(b'>')?,
        Suffix::ElementAs(x) => show_bytes(out, "!e$", x, ">")?,
        Suffix::ContentAs(x) => show_bytes(out, "!c$", x, ">")?,
    }
    Ok(())
}

#[cycle(patterns)]
fn show_content(out: &mut Vec<u8>, content: &Content) -> Result<(), AllocError> {
    match content {
        Content::Parts(parts) => show_patterns(out, parts.as_slice()),
        Content::Value(operand) => {
            out.push(b'=')?;
            show_operand(out, operand)
        }
    }
}

#[cycle(patterns)]
fn show_patterns(out: &mut Vec<u8>, patterns: &[Pattern]) -> Result<(), AllocError> {
    out.push(b'(')?;
    for pattern in patterns {
        show_pattern(out, pattern)?;
    }
    out.push(b')')?;
    Ok(())
}

/// `$x`, `'text'` or `<tag name=value(parts)>`.
#[cycle(templates)]
fn show_template(out: &mut Vec<u8>, template: &Template) -> Result<(), AllocError> {
    match template {
        Template::Variable(name) => show_bytes(out, "$", name, ""),
        Template::Literal(text) => show_bytes(out, "'", text, "'"),
        Template::Element {
            tag,
            attributes,
            content,
        } => {
            show_bytes(out, "<", tag, "")?;
            for attribute in attributes.as_slice() {
                show_bytes(out, " ", &attribute.name, "=")?;
                show_operand(out, &attribute.value)?;
            }
            show_templates(out, content.as_slice())
        }
    }
}

#[cycle(templates)]
fn show_templates(out: &mut Vec<u8>, templates: &[Template]) -> Result<(), AllocError> {
    out.push(b'(')?;
    for template in templates {
        show_template(out, template)?;
    }
    out.extend_from_slice(b")>")
}

fn mark_of(op: Op) -> &'static str {
    match op {
        Op::Eq => " = ",
        Op::Ne => " != ",
        Op::Lt => " < ",
        Op::Le => " <= ",
        Op::Gt => " > ",
        Op::Ge => " >= ",
    }
}

/// `root(patterns) in source; `, `left op right; `, or `$x satisfies predicate 'argument'; `.
fn show_item(out: &mut Vec<u8>, item: &QueryItem) -> Result<(), AllocError> {
    match item {
        QueryItem::Match { root, arms, source } => {
            show_bytes(out, "", root, "")?;
            show_patterns(out, arms.as_slice())?;
            show_bytes(out, " in ", source, "; ")
        }
        QueryItem::Condition { left, op, right } => {
            show_operand(out, left)?;
            out.extend_from_slice(mark_of(*op).as_bytes())?;
            show_operand(out, right)?;
            out.extend_from_slice(b"; ")
        }
        QueryItem::Satisfies {
            variable,
            predicate,
            argument,
        } => {
            show_bytes(out, "$", variable, " satisfies ")?;
            show_bytes(out, "", predicate, "")?;
            if let Some(text) = argument {
                show_bytes(out, " '", text, "'")?;
            }
            out.extend_from_slice(b"; ")
        }
    }
}

fn show_query(out: &mut Vec<u8>, query: &Query) -> Result<(), AllocError> {
    for item in query.items.as_slice() {
        show_item(out, item)?;
    }
    out.extend_from_slice(if query.distinct { "-> once " } else { "-> " }.as_bytes())?;
    show_template(out, &query.template)
}

fn show_time(out: &mut Vec<u8>, word: &str, time: Option<u64>) -> Result<(), AllocError> {
    if let Some(n) = time {
        out.extend_from_slice(word.as_bytes())?;
        ncq_base::write_decimal(n, out)?;
    }
    Ok(())
}

/// `name: items -> template do action 'argument' start n every n expire n`, with `once` before the
/// template where each forest is asked once.
fn show_statement(out: &mut Vec<u8>, statement: &Statement) -> Result<(), AllocError> {
    show_bytes(out, "", &statement.name, ": ")?;
    show_query(out, &statement.query)?;
    show_bytes(out, " do ", &statement.action, "")?;
    if let Some(argument) = &statement.argument {
        show_bytes(out, " '", argument, "'")?;
    }
    show_time(out, " start ", statement.start)?;
    show_time(out, " every ", Some(statement.every))?;
    show_time(out, " expire ", statement.expire)
}

fn word_of(which: Limit) -> &'static str {
    match which {
        Limit::Pattern => "limit pattern",
        Limit::Arms => "limit arms",
        Limit::Slots => "limit slots",
        Limit::Conditions => "limit conditions",
        Limit::Path => "limit path",
        _ => "another limit",
    }
}

/// The statement as a text.
fn shown(alloc: Global, statement: &Statement) -> Result<Vec<u8>, AllocError> {
    let mut out = Vec::new(alloc);
    show_statement(&mut out, statement)?;
    Ok(out)
}

/// The statement as a text, or `none`, or the limit.
pub(super) fn answer(alloc: Global, text: &[u8]) -> Result<Vec<u8>, AllocError> {
    match parse_statement(alloc, text) {
        Ok(statement) => shown(alloc, &statement),
        Err(StatementError::NotAStatement) => Vec::from_slice(alloc, b"none"),
        Err(StatementError::Limit { which }) => Vec::from_slice(alloc, word_of(which).as_bytes()),
        Err(StatementError::OutOfMemory) => Err(AllocError),
    }
}

/// The answer to the text behind the head.
fn answer_behind(alloc: Global, head: &str, text: &str) -> Result<Vec<u8>, AllocError> {
    let whole = joined(alloc, &[head, text])?;
    answer(alloc, &whole)
}

/// The answer behind the shown head; `none` stands alone.
fn wanted(alloc: Global, shown_head: &str, want: &str) -> Result<Vec<u8>, AllocError> {
    let before = if want == "none" { "" } else { shown_head };
    joined(alloc, &[before, want])
}

/// Compares the answer to the text behind the head.
fn expect_case(
    rt: &impl Abort,
    alloc: Global,
    heads: (&str, &str),
    text: &str,
    want: &str,
) -> Result<(), AllocError> {
    let got = answer_behind(alloc, heads.0, text)?;
    let expected = wanted(alloc, heads.1, want)?;
    expect_bytes(rt, &got, &expected, text);
    Ok(())
}

/// Each text and its answer. The head stands before each of the texts, and the shown head before
/// each answer but `none`.
pub(super) fn expect_behind(
    rt: &impl Abort,
    alloc: Global,
    head: &str,
    shown_head: &str,
    cases: &[Pair],
) -> Result<(), AllocError> {
    for (text, want) in cases {
        expect_case(rt, alloc, (head, shown_head), text, want)?;
    }
    Ok(())
}

const WHOLE_STATEMENTS: &[Pair] = &[
    (
        "r WHERE <Quotes><Quote><Tag>$s</></></> IN \"quotes\" CONSTRUCT <r>$s</> DO print",
        "r: Quotes(<Quote(<Tag=$s>)>) in quotes; -> <r($s)> do print every 0",
    ),
    (
        "e WHERE <Quotes><Quote><Price>$p</></></> IN \"quotes\", $p = 100 CONSTRUCT <p>$p</> DO \
         print",
        "e: Quotes(<Quote(<Price=$p>)>) in quotes; $p = '100'; -> <p($p)> do print every 0",
    ),
    (
        "e WHERE <Quotes><Quote><Price>$p</></></> IN \"quotes\", $p > abc CONSTRUCT <p>$p</> DO \
         print",
        "e: Quotes(<Quote(<Price=$p>)>) in quotes; $p > 'abc'; -> <p($p)> do print every 0",
    ),
    (
        "j WHERE <Quotes><Quote><Symbol>$s</><Price>$p</></></> IN \"quotes\", \
         <Companies><Company><Symbol>$s</><Area>$a</></></> IN \"companies\" CONSTRUCT \
         <hit><s>$s</><p>$p</><a>$a</></> DO print",
        "j: Quotes(<Quote(<Symbol=$s><Price=$p>)>) in quotes; \
         Companies(<Company(<Symbol=$s><Area=$a>)>) in companies; -> <hit(<s($s)><p($p)><a($a)>)> \
         do print every 0",
    ),
    (
        "p WHERE <Quotes><Quote><Symbol>$a</><Price>$p</></><Quote><Symbol>$b</><Price>$p</></></> \
         IN \"quotes\" CONSTRUCT <pair a=$a b=$b/> DO print",
        "p: Quotes(<Quote(<Symbol=$a><Price=$p>)><Quote(<Symbol=$b><Price=$p>)>) in quotes; -> \
         <pair a=$a b=$b()> do print every 0",
    ),
    (
        "t WHERE <Quotes><Quote><Symbol>$s</></></> IN \"quotes\" CONSTRUCT $s DO print START 10 \
         EVERY 10",
        "t: Quotes(<Quote(<Symbol=$s>)>) in quotes; -> $s do print start 10 every 10",
    ),
    (
        "t WHERE <Quotes><Quote><Symbol>$s</></></> IN \"quotes\" CONSTRUCT $s DO print EVERY 1",
        "t: Quotes(<Quote(<Symbol=$s>)>) in quotes; -> $s do print every 1",
    ),
    (
        "n WHERE <Quotes><Quote><Symbol>$s</><Price>$p</></></> IN \"quotes\" CONSTRUCT <r \
         sym=$s>\"Price of \" $s is $p</> DO print",
        "n: Quotes(<Quote(<Symbol=$s><Price=$p>)>) in quotes; -> <r sym=$s('Price of '$s'is'$p)> \
         do print every 0",
    ),
    (
        "i WHERE <Cs><C id=\"7.0\"></> ELEMENT_AS $e</> IN \"c\" CONSTRUCT $e DO print",
        "i: Cs(<C id='7.0'()!e$e>) in c; -> $e do print every 0",
    ),
];

#[test]
fn whole_statements(rt: HostRuntime) -> Result<(), Fail> {
    expect_behind(&rt, rt.alloc(), "create ", "", WHOLE_STATEMENTS)?;
    Ok(())
}

const ACTIONS_ARGUMENTS_AND_TIMES: &[Pair] = &[
    ("print", "print every 0"),
    ("print START 5 EXPIRE 5", "print start 5 every 0 expire 5"),
    ("print EXPIRE 4 START 5", "print start 5 every 0 expire 4"),
    ("MailTo \"ops desk\"", "mailto 'ops desk' every 0"),
    ("MailTo Ops", "mailto 'Ops' every 0"),
    ("print \"\"", "print '' every 0"),
    ("count", "count every 0"),
    ("fax", "fax every 0"),
    ("print x", "print 'x' every 0"),
    ("mailto", "mailto every 0"),
    ("start 5", "start '5' every 0"),
    ("start start 5", "start start 5 every 0"),
    ("mailto EVERY 5", "mailto every 5"),
    ("mailto \"start\" start 5", "mailto 'start' start 5 every 0"),
    ("x expire 1 every 2 start 3", "x start 3 every 2 expire 1"),
    ("x every 0", "x every 0"),
    (
        "x start 18446744073709551615",
        "x start 18446744073709551615 every 0",
    ),
    ("x start 18446744073709551616", "none"),
    ("x start 00000000000000000007", "x start 7 every 0"),
    ("x start 000000000000000000007", "none"),
    ("x start \"5\"", "none"),
    ("x start", "none"),
    ("x start y", "none"),
    ("x start 1 start 2", "none"),
    ("x every 1 every 1", "none"),
    ("x expire 1 expire 1", "none"),
    ("x y z", "none"),
    ("x start 1 y", "none"),
    ("\"x\"", "none"),
    ("", "none"),
];

#[test]
fn actions_arguments_and_times(rt: HostRuntime) -> Result<(), Fail> {
    expect_behind(
        &rt,
        rt.alloc(),
        "create w WHERE <Quotes><Quote><Symbol>INTC</></> ELEMENT_AS $g</> IN \"quotes\" CONSTRUCT \
         $g DO ",
        "w: Quotes(<Quote(<Symbol='INTC'>)!e$g>) in quotes; -> $g do ",
        ACTIONS_ARGUMENTS_AND_TIMES,
    )?;
    Ok(())
}

const KEYWORDS_AND_NAMES: &[Pair] = &[
    (
        "CREATE w where <R><a></a></R> in q construct $x do x",
        "w: R(<a()>) in q; -> $x do x every 0",
    ),
    (
        "Create w Where <R><a/></> In q, Construct $x Do x",
        "w: R(<a()>) in q; -> $x do x every 0",
    ),
    (
        "create create where <R><a/></> in q construct $x do x",
        "create: R(<a()>) in q; -> $x do x every 0",
    ),
    (
        "create x-1:y where <R><a/></> in q construct $x do x",
        "x-1:y: R(<a()>) in q; -> $x do x every 0",
    ),
    ("create 1x where <R><a/></> in q construct $x do x", "none"),
    (
        "create \"x\" where <R><a/></> in q construct $x do x",
        "none",
    ),
    ("made x where <R><a/></> in q construct $x do x", "none"),
    ("create x <R><a/></> in q construct $x do x", "none"),
    ("create x where <R><a/></> q construct $x do x", "none"),
    ("create x where <R><a/></> in q $x do x", "none"),
    ("create x where <R><a/></> in q construct $x x", "none"),
    ("create x where <R><a/></> in q,, construct $x do x", "none"),
    (
        "create x where <R><a/></> in construct CONSTRUCT $x do x",
        "x: R(<a()>) in construct; -> $x do x every 0",
    ),
    ("", "none"),
    ("create", "none"),
    ("create x where <R><a/></> in \"q construct $x do x", "none"),
    ("create x where <R><a/></> in q construct $ do x", "none"),
    ("create x where <9><a/></> in q construct $x do x", "none"),
];

#[test]
fn keywords_and_names(rt: HostRuntime) -> Result<(), Fail> {
    expect_behind(&rt, rt.alloc(), "", "", KEYWORDS_AND_NAMES)?;
    Ok(())
}

const PATTERNS: &[Pair] = &[
    (
        "<R><a>x  y</></> in \"q r\" construct $x do x",
        "R(<a='x y'>) in q r; -> $x do x every 0",
    ),
    (
        "<R><a>\"x  y\"</></> in q construct $x do x",
        "R(<a='x  y'>) in q; -> $x do x every 0",
    ),
    (
        "<R><a>$y</a></> in q construct $x do x",
        "R(<a=$y>) in q; -> $x do x every 0",
    ),
    (
        "<R><a b=\"1\" B=$c/> content_as $d</> in q construct $x do x",
        "R(<a b='1' B=$c()!c$d>) in q; -> $x do x every 0",
    ),
    (
        "<R><a>element_as</></> in q construct $x do x",
        "R(<a='element_as'>) in q; -> $x do x every 0",
    ),
    (
        "<R><a><b/><c/></></> in q construct $x do x",
        "R(<a(<b()><c()>)>) in q; -> $x do x every 0",
    ),
    (
        "<R><a/></R> in q, <S><b/></S> in r, construct $x do x",
        "R(<a()>) in q; S(<b()>) in r; -> $x do x every 0",
    ),
    ("<R></> in q construct $x do x", "none"),
    ("$x satisfies p, <R><a/></> in q construct $x do x", "none"),
    ("<R/> in q construct $x do x", "none"),
    ("<R b=\"1\"><a/></> in q construct $x do x", "none"),
    ("<R><a></b></> in q construct $x do x", "none"),
    ("<R><a></A></> in q construct $x do x", "none"),
    ("<R><a/></S> in q construct $x do x", "none"),
    ("<R><a/> element_as</> in q construct $x do x", "none"),
    (
        "<R><a/> element_as $x content_as $y</> in q construct $x do x",
        "none",
    ),
    ("<R><a/></> element_as $x in q construct $x do x", "none"),
    ("<R><a b=\"1\" b=\"2\"/></> in q construct $x do x", "none"),
    ("<R><a b/></> in q construct $x do x", "none"),
    ("<R><a b=1/></> in q construct $x do x", "none"),
    ("<R><a>x \"y\"</></> in q construct $x do x", "none"),
    ("<R><a>x <b/></></> in q construct $x do x", "none"),
    ("<R><a></> in q construct $x do x", "none"),
    ("$x = 1 construct $x do x", "none"),
];

#[test]
fn patterns(rt: HostRuntime) -> Result<(), Fail> {
    expect_behind(&rt, rt.alloc(), "create w where ", "w: ", PATTERNS)?;
    Ok(())
}

const CONDITIONS_AND_TEMPLATES: &[Pair] = &[
    (
        ", $x = $y, $x != 1, 1 < $x, \"a b\" <= $x, $x > -1.5, $x >= \"\" construct $x do x",
        "$x = $y; $x != '1'; '1' < $x; 'a b' <= $x; $x > '-1.5'; $x >= ''; -> $x do x every 0",
    ),
    (
        ", $x = construct CONSTRUCT $x do x",
        "$x = 'construct'; -> $x do x every 0",
    ),
    (", construct = $x construct $x do x", "none"),
    (", 1 = 1 construct $x do x", "none"),
    (", $x construct $x do x", "none"),
    (", $x = construct $x do x", "none"),
    (" $x = 1 construct $x do x", "none"),
    (" construct <r/> do x", "-> <r()> do x every 0"),
    (
        " construct <r b=\"1\" c=$d></r> do x",
        "-> <r b='1' c=$d()> do x every 0",
    ),
    (
        " construct <r>x y \"z\" $v w <s>t</s> u</> do x",
        "-> <r('x y''z'$v'w'<s('t')>'u')> do x every 0",
    ),
    (" construct <r b=\"1\" b=$c/> do x", "none"),
    (" construct <r></s> do x", "none"),
    (" construct <r> do x", "none"),
    (" construct r do x", "none"),
    (" construct \"r\" do x", "none"),
    (" construct $x $y do x", "none"),
];

#[test]
fn conditions_and_templates(rt: HostRuntime) -> Result<(), Fail> {
    expect_behind(
        &rt,
        rt.alloc(),
        "create w where <R><a/></> in q",
        "w: R(<a()>) in q; ",
        CONDITIONS_AND_TEMPLATES,
    )?;
    Ok(())
}

const PREDICATES: &[Pair] = &[
    (
        ", $s satisfies starts \"IN\" construct $s do x",
        "$s satisfies starts 'IN'; -> $s do x every 0",
    ),
    (
        ", $s SATISFIES Starts in construct $s do x",
        "$s satisfies starts 'in'; -> $s do x every 0",
    ),
    (
        ", $p satisfies multiple 5 construct $s do x",
        "$p satisfies multiple '5'; -> $s do x every 0",
    ),
    (
        ", $s satisfies starts \"\" construct $s do x",
        "$s satisfies starts ''; -> $s do x every 0",
    ),
    (
        ", $s satisfies known construct $s do x",
        "$s satisfies known; -> $s do x every 0",
    ),
    (
        ", $s satisfies known, construct $s do x",
        "$s satisfies known; -> $s do x every 0",
    ),
    (
        ", $s satisfies known, $s = 1 construct $s do x",
        "$s satisfies known; $s = '1'; -> $s do x every 0",
    ),
    (
        ", $s satisfies KNOWN, <S><b/></> in r, $t satisfies starts \"a b\", construct $s do x",
        "$s satisfies known; S(<b()>) in r; $t satisfies starts 'a b'; -> $s do x every 0",
    ),
    // Words of the grammar, where it does not ask for them.
    (
        ", $s satisfies starts \"construct\" construct $s do x",
        "$s satisfies starts 'construct'; -> $s do x every 0",
    ),
    (
        ", $s satisfies starts Distinct construct $s do x",
        "$s satisfies starts 'Distinct'; -> $s do x every 0",
    ),
    (
        ", $s satisfies construct construct $s do x",
        "$s satisfies construct; -> $s do x every 0",
    ),
    (
        ", $satisfies satisfies satisfies Satisfies construct $s do x",
        "$satisfies satisfies satisfies 'Satisfies'; -> $s do x every 0",
    ),
    (
        ", $satisfies = satisfies, satisfies = $s construct $s do x",
        "$satisfies = 'satisfies'; 'satisfies' = $s; -> $s do x every 0",
    ),
    (
        ", $s satisfies known construct distinct $s do x",
        "$s satisfies known; -> once $s do x every 0",
    ),
    (", \"x\" satisfies p construct $s do x", "none"),
    (", x satisfies p construct $s do x", "none"),
    (", $s satisfies construct $s do x", "none"),
    (", $s satisfies, construct $s do x", "none"),
    (", $s satisfies \"p\" construct $s do x", "none"),
    (", $s satisfies $p construct $s do x", "none"),
    (", $s satisfies = 1 construct $s do x", "none"),
    (", $s satisfies p $t construct $s do x", "none"),
    (", $s satisfies p a b construct $s do x", "none"),
    (", $s satisfies p \"a\" \"b\" construct $s do x", "none"),
    (", $s satisfies p construct construct $s do x", "none"),
    (", $s satisfies p a = 1 construct $s do x", "none"),
    (", $s \"satisfies\" p construct $s do x", "none"),
    (", $s satisfy p construct $s do x", "none"),
    (", satisfies $s p construct $s do x", "none"),
    (" $s satisfies p construct $s do x", "none"),
];

#[test]
fn predicates(rt: HostRuntime) -> Result<(), Fail> {
    expect_behind(
        &rt,
        rt.alloc(),
        "create w where <R><a>$s</></> in q",
        "w: R(<a=$s>) in q; ",
        PREDICATES,
    )?;
    Ok(())
}

const DISTINCT: &[Pair] = &[
    (
        " CONSTRUCT DISTINCT <r>$s</> DO print",
        "-> once <r($s)> do print every 0",
    ),
    (
        " CONSTRUCT distinct <r>$s</> DO print",
        "-> once <r($s)> do print every 0",
    ),
    (
        " construct Distinct $s do print",
        "-> once $s do print every 0",
    ),
    (
        ", CONSTRUCT DISTINCT <r/> DO count EVERY 5",
        "-> once <r()> do count every 5",
    ),
    (
        ", $s != 1, CONSTRUCT dISTINCT $s DO print",
        "$s != '1'; -> once $s do print every 0",
    ),
    (
        " CONSTRUCT <r>$s</> DO print",
        "-> <r($s)> do print every 0",
    ),
    (" CONSTRUCT $s DO print", "-> $s do print every 0"),
    // Elsewhere it is a word as any other.
    (
        " CONSTRUCT <r>distinct</> DO print",
        "-> <r('distinct')> do print every 0",
    ),
    (
        " CONSTRUCT DISTINCT <r>DISTINCT $s</> DO print",
        "-> once <r('DISTINCT'$s)> do print every 0",
    ),
    (
        " CONSTRUCT <distinct distinct=$distinct/> DO distinct DISTINCT",
        "-> <distinct distinct=$distinct()> do distinct 'DISTINCT' every 0",
    ),
    (
        ", $s = distinct CONSTRUCT $s DO print",
        "$s = 'distinct'; -> $s do print every 0",
    ),
    (" CONSTRUCT DISTINCT DISTINCT $g DO print", "none"),
    (" CONSTRUCT DISTINCT DO print", "none"),
    (" CONSTRUCT DISTINCT", "none"),
    (" DISTINCT CONSTRUCT $s DO print", "none"),
    (", DISTINCT CONSTRUCT $s DO print", "none"),
    (" CONSTRUCT, DISTINCT $s DO print", "none"),
    (" CONSTRUCT DISTINCT, $s DO print", "none"),
    (" CONSTRUCT $s DISTINCT DO print", "none"),
    (" CONSTRUCT \"DISTINCT\" $s DO print", "none"),
    (" CONSTRUCT DISTINCTS $s DO print", "none"),
];

#[test]
fn distinct(rt: HostRuntime) -> Result<(), Fail> {
    expect_behind(
        &rt,
        rt.alloc(),
        "create w where <R><a>$s</></> in q",
        "w: R(<a=$s>) in q; ",
        DISTINCT,
    )?;
    Ok(())
}

/// A text that is a head, a piece again and again, a middle, another piece as often, and a tail.
pub(super) type Repeated = (
    &'static str,
    (&'static str, &'static str),
    usize,
    (&'static str, &'static str),
);

const END: &str = "</> in q construct $x do x";

const LIMITS: &[(Repeated, &str)] = &[
    (
        ("create w where <R>", ("<a>", "</>"), 31, ("", END)),
        "statement",
    ),
    (
        ("create w where <R>", ("<a>", "</>"), 32, ("", END)),
        "limit pattern",
    ),
    (
        ("create w where <R>", ("<a>", "</>"), 31, ("<b/>", END)),
        "limit pattern",
    ),
    (("", ("<a>", ""), 32, ("", "")), "none"),
    (("", ("<a>", ""), 33, ("", "")), "limit pattern"),
    (("", ("<a>", ""), 33, ("$", "")), "none"),
    (
        ("create w where <R>", ("<a/>", ""), 8, ("", END)),
        "statement",
    ),
    (
        ("create w where <R>", ("<a/>", ""), 9, ("", END)),
        "limit arms",
    ),
    (
        ("create w where <R><a>", ("<b>x</>", ""), 64, ("</>", END)),
        "statement",
    ),
    (
        ("create w where <R><a>", ("<b>x</>", ""), 65, ("</>", END)),
        "limit slots",
    ),
    (
        (
            "create w where <R><a>",
            ("<b c=\"\"/> element_as $y", ""),
            32,
            ("</>", END),
        ),
        "statement",
    ),
    (
        (
            "create w where <R><a>",
            ("<b c=\"\"/> element_as $y", ""),
            33,
            ("</>", END),
        ),
        "limit slots",
    ),
    (
        (
            "create w where <R><a/></> in q",
            (", $x = 1", ""),
            32,
            (" construct $x do x", ""),
        ),
        "statement",
    ),
    (
        (
            "create w where <R><a/></> in q",
            (", $x = 1", ""),
            33,
            (" construct $x do x", ""),
        ),
        "limit conditions",
    ),
    (
        (
            "create w where <R><a/></> in q",
            (", $x satisfies p", ""),
            32,
            (" construct $x do x", ""),
        ),
        "statement",
    ),
    (
        (
            "create w where <R><a/></> in q",
            (", $x satisfies p", ""),
            33,
            (" construct $x do x", ""),
        ),
        "limit conditions",
    ),
    (
        (
            "create w where <R><a/></> in q",
            (", $x satisfies p 1, $x = 1", ""),
            16,
            (", construct $x do x", ""),
        ),
        "statement",
    ),
    (
        (
            "create w where <R><a/></> in q",
            (", $x satisfies p 1, $x = 1", ""),
            16,
            (", $x satisfies \"p\" construct $x do x", ""),
        ),
        "none",
    ),
    (
        (
            "create w where <R><a/></> in q",
            (", $x satisfies p 1, $x = 1", ""),
            16,
            (", $x satisfies p construct $x do x", ""),
        ),
        "limit conditions",
    ),
    (
        (
            "create w where <R>",
            ("<a c=\"\" d=\"\">x</>", ""),
            33,
            ("", END),
        ),
        "limit arms",
    ),
    (
        (
            "create w where <R><a>",
            ("<b>x</>", ""),
            65,
            ("</></> in q", " construct $x do"),
        ),
        "none",
    ),
];

fn push_times(text: &mut Vec<u8>, piece: &str, times: usize) -> Result<(), AllocError> {
    for _ in 0..times {
        text.extend_from_slice(piece.as_bytes())?;
    }
    Ok(())
}

/// The whole text.
fn whole(alloc: Global, repeated: &Repeated) -> Result<Vec<u8>, AllocError> {
    let (head, pieces, times, tails) = *repeated;
    let mut text = Vec::from_slice(alloc, head.as_bytes())?;
    push_times(&mut text, pieces.0, times)?;
    push_times(&mut text, tails.0, 1)?;
    push_times(&mut text, pieces.1, times)?;
    push_times(&mut text, tails.1, 1)?;
    Ok(text)
}

/// What kind of answer the text has.
fn kind_of(alloc: Global, repeated: &Repeated) -> Result<Vec<u8>, AllocError> {
    let text = whole(alloc, repeated)?;
    let shown = answer(alloc, &text)?;
    if shown.as_slice().starts_with(b"w: ") {
        return Vec::from_slice(alloc, b"statement");
    }
    Ok(shown)
}

fn expect_kind(rt: &impl Abort, got: &[u8], want: &str, head: &str, times: usize) {
    assert!(rt; got == want.as_bytes(), "at {head} and {times} pieces");
}

/// Compares what kind of answer each text has.
pub(super) fn expect_kinds(
    rt: &impl Abort,
    alloc: Global,
    rows: &[(Repeated, &str)],
) -> Result<(), AllocError> {
    for (repeated, want) in rows {
        let got = kind_of(alloc, repeated)?;
        expect_kind(rt, &got, want, repeated.0, repeated.2);
    }
    Ok(())
}

#[test]
fn limits(rt: HostRuntime) -> Result<(), Fail> {
    expect_kinds(&rt, rt.alloc(), LIMITS)?;
    Ok(())
}
