//! What a query answers: its bindings, its conditions, and what is made of them.

use super::{Parts, SOURCE, expect_parts};
use std::test::Fail;

/// Puts of quotes by their symbol and price.
const PUT_A_5: &str = "delta quotes\n(Quote\n(Symbol\n-A\n)Symbol\n(Price\n-5\n)Price\n)Quote\n.\n";

const PUT_B_5: &str =
    "delta quotes\n(Quote\n(Symbol\n-B\n)Symbol\n(Price\n-5.0\n)Price\n)Quote\n.\n";

const PUT_INTC: &str =
    "delta quotes\n(Quote\n(Symbol\n-INTC\n)Symbol\n(Price\n-95.5\n)Price\n)Quote\n.\n";

/// The tags of a quote.
const TAGS: &str =
    "create r WHERE <Quotes><Quote><Tag>$s</></></> IN \"quotes\" CONSTRUCT <r>$s</> DO print\n.\n";

/// The symbol and the price of a quote, in an attribute and in a text.
const TEXTS: &str =
    "create r WHERE <Quotes><Quote><Symbol>$s</><Price>$p</></></> IN \"quotes\" CONSTRUCT <r \
     sym=$s>\"Price of \" $s is $p</> DO print\n.\n";

/// A source of other elements, whose key is an attribute.
const CASES: &str = "source c root Cs key @id\n";

/// Each answer stands once, with how often it is made.
const TEMPLATES: &[Parts<'_>] = &[
    // Two children of one text are two bindings and one answer.
    (
        &[
            SOURCE,
            TAGS,
            "delta quotes\n(Quote\n(Symbol\n-A\n)Symbol\n(Tag\n-x\n)Tag\n(Tag\n-x\n)Tag\n)Quote\n\
             .\n",
        ],
        &["1 ok\n2 ok\n3 ok\nnotice r 0\ngain 2\n(r\n-x\n)r\nend\n"],
    ),
    // Texts lose the white space at the ends of what they are merged to, and no more.
    (
        &[SOURCE, TEXTS, PUT_INTC],
        &["1 ok\n2 ok\n3 ok\nnotice r 0\ngain 1\n(r\nAsym INTC\n-Price of INTCis95.5\n)r\nend\n"],
    ),
    // An attribute is met by its value, and an element without a child is what it is.
    (
        &[
            CASES,
            "delta c\n(C\nAid 7\n-a\n- b\n?x\n-\\n\n)C\n.\n",
            "create e WHERE <Cs><C id=\"7.0\"></> ELEMENT_AS $e</> IN \"c\" CONSTRUCT $e DO print\n\
             .\n",
        ],
        &["1 ok\n2 ok\n3 ok\nnotice e 0\ngain 1\n(C\nAid 7\n-a b\n)C\nend\n"],
    ),
    // The content of an element without a child is an empty answer.
    (
        &[
            CASES,
            "create e WHERE <Cs><C/> CONTENT_AS $e</> IN \"c\" CONSTRUCT $e DO print\n.\n",
            "delta c\n(C\nAid 7\n)C\n(C\nAid 8\n-a\n)C\n(D\nAid 9\n-a\n)D\n.\n",
        ],
        &["1 ok\n2 ok\n3 ok\nnotice e 0\ngain 1\ngain 1\n-a\nend\n"],
    ),
];

#[test]
fn an_answer_is_made_of_a_binding(rt: HostRuntime) -> Result<(), Fail> {
    expect_parts(&rt, &rt, TEMPLATES)
}

/// The prices that meet a condition, which stands between the two.
const PRICES: &str = "create e WHERE <Quotes><Quote><Price>$p</></></> IN \"quotes\"";

const AS_PRICE: &str = " CONSTRUCT <p>$p</> DO print\n.\n";

/// Two quotes of one price in two spellings.
const PUT_100: &str =
    "delta quotes\n(Quote\n(Symbol\n-A\n)Symbol\n(Price\n-100\n)Price\n)Quote\n(Quote\n(Symbol\n\
     -B\n)Symbol\n(Price\n-100.0\n)Price\n)Quote\n.\n";

/// What the query of the prices is told of them where they meet its condition.
const TOLD_100: &str = "notice e 0\ngain 1\n(p\n-100\n)p\ngain 1\n(p\n-100.0\n)p\nend\n";

const CONDITIONS: &[Parts<'_>] = &[
    (
        &[SOURCE, PRICES, ", $p = 100", AS_PRICE, PUT_100],
        &["1 ok\n2 ok\n3 ok\n", TOLD_100],
    ),
    (
        &[SOURCE, PRICES, ", $p > 99.5, $p <= 100", AS_PRICE, PUT_100],
        &["1 ok\n2 ok\n3 ok\n", TOLD_100],
    ),
    (
        &[SOURCE, PRICES, ", 100 >= $p, $p != abc", AS_PRICE, PUT_100],
        &["1 ok\n2 ok\n3 ok\n", TOLD_100],
    ),
    // An order holds between numbers alone.
    (
        &[SOURCE, PRICES, ", $p > abc", AS_PRICE, PUT_100],
        &["1 ok\n2 ok\n3 ok\n"],
    ),
    (
        &[SOURCE, PRICES, ", $p > 100", AS_PRICE, PUT_100],
        &["1 ok\n2 ok\n3 ok\n"],
    ),
    (
        &[SOURCE, PRICES, ", $p != 100", AS_PRICE, PUT_100],
        &["1 ok\n2 ok\n3 ok\n"],
    ),
    (
        &[SOURCE, PRICES, ", $p != $p", AS_PRICE, PUT_100],
        &["1 ok\n2 ok\n3 ok\n"],
    ),
];

#[test]
fn an_answer_meets_each_condition(rt: HostRuntime) -> Result<(), Fail> {
    expect_parts(&rt, &rt, CONDITIONS)
}

/// The quotes beside the companies of their symbol.
const COMPANIES: &str = "source companies root Companies key Symbol\n";

const JOIN: &str = "create j WHERE <Quotes><Quote><Symbol>$s</><Price>$p</></></> IN \"quotes\", \
     <Companies><Company><Symbol>$s</><Area>$a</></></> IN \"companies\" CONSTRUCT \
     <hit><s>$s</><p>$p</><a>$a</></> DO print\n.\n";

const PUT_COMPANY: &str =
    "delta companies\n(Company\n(Symbol\n-INTC\n)Symbol\n(Area\n-Chips\n)Area\n)Company\n.\n";

const HIT: &str = "1\n(hit\n(s\n-INTC\n)s\n(p\n-95.5\n)p\n(a\n-Chips\n)a\n)hit\nend\n";

/// The pairs of quotes of one price.
const PAIRS: &str =
    "create p WHERE <Quotes><Quote><Symbol>$a</><Price>$p</></><Quote><Symbol>$b</><Price>$p</></><\
     /> IN \"quotes\" CONSTRUCT <pair a=$a b=$b/> DO print\n.\n";

const PAIR_A_A: &str = "gain 1\n(pair\nAa A\nAb A\n)pair\n";

const OTHER_PAIRS: &str =
    "gain 1\n(pair\nAa A\nAb B\n)pair\ngain 1\n(pair\nAa B\nAb A\n)pair\ngain 1\n(pair\nAa B\n\
     Ab B\n)pair\n";

/// A variable in two patterns has one value in both.
const JOINS: &[Parts<'_>] = &[
    (
        &[SOURCE, COMPANIES, JOIN, PUT_INTC, PUT_COMPANY],
        &["1 ok\n2 ok\n3 ok\n4 ok\n5 ok\nnotice j 0\ngain ", HIT],
    ),
    // It goes with either side.
    (
        &[
            SOURCE,
            COMPANIES,
            PUT_COMPANY,
            PUT_INTC,
            JOIN,
            "delta quotes\n!INTC\n.\n",
            "delta companies\n!INTC\n.\n",
        ],
        &[
            "1 ok\n2 ok\n3 ok\n4 ok\n5 ok\nnotice j 0\ngain ",
            HIT,
            "6 ok\nnotice j 0\nlose ",
            HIT,
            "7 ok\n",
        ],
    ),
    (
        &[
            SOURCE,
            COMPANIES,
            JOIN,
            PUT_COMPANY,
            PUT_INTC,
            "delta companies\n!INTC\n.\n",
        ],
        &[
            "1 ok\n2 ok\n3 ok\n4 ok\n5 ok\nnotice j 0\ngain ",
            HIT,
            "6 ok\nnotice j 0\nlose ",
            HIT,
        ],
    ),
    // Two patterns may meet one element, and they meet each pair in both orders.
    (
        &[SOURCE, PAIRS, PUT_A_5, PUT_B_5],
        &[
            "1 ok\n2 ok\n3 ok\nnotice p 0\n",
            PAIR_A_A,
            "end\n4 ok\nnotice p 0\n",
            OTHER_PAIRS,
            "end\n",
        ],
    ),
    (
        &[SOURCE, PUT_A_5, PUT_B_5, PAIRS],
        &[
            "1 ok\n2 ok\n3 ok\n4 ok\nnotice p 0\n",
            PAIR_A_A,
            OTHER_PAIRS,
            "end\n",
        ],
    ),
];

#[test]
fn a_variable_has_one_value(rt: HostRuntime) -> Result<(), Fail> {
    expect_parts(&rt, &rt, JOINS)
}
