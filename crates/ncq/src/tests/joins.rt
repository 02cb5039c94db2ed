//! Eight joins over one source: each is told what it makes of a change, though few are looked at.

use super::{Parts, expect_parts};
use std::test::Fail;

/// The quotes of the companies of an area, for six areas; the pairs of quotes at one price; and
/// each quote for each company of the area A5, which compares nothing.
const JOINS: &str = "source quotes root Quotes key Symbol\n\
    source companies root Companies key Symbol\n\
    create a0 WHERE <Quotes><Quote><Symbol>$s</><Price>$p</></></> IN \"quotes\", \
    <Companies><Company><Symbol>$s</><Area>A0</></></> IN \"companies\" CONSTRUCT <hit s=$s p=$p/> \
DO print\n.\n\
    create a1 WHERE <Quotes><Quote><Symbol>$s</><Price>$p</></></> IN \"quotes\", \
    <Companies><Company><Symbol>$s</><Area>A1</></></> IN \"companies\" CONSTRUCT <hit s=$s p=$p/> \
DO print\n.\n\
    create a2 WHERE <Quotes><Quote><Symbol>$s</><Price>$p</></></> IN \"quotes\", \
    <Companies><Company><Symbol>$s</><Area>A2</></></> IN \"companies\" CONSTRUCT <hit s=$s p=$p/> \
DO print\n.\n\
    create a3 WHERE <Quotes><Quote><Symbol>$s</><Price>$p</></></> IN \"quotes\", \
    <Companies><Company><Symbol>$s</><Area>A3</></></> IN \"companies\" CONSTRUCT <hit s=$s p=$p/> \
DO print\n.\n\
    create a4 WHERE <Quotes><Quote><Symbol>$s</><Price>$p</></></> IN \"quotes\", \
    <Companies><Company><Symbol>$s</><Area>A4</></></> IN \"companies\" CONSTRUCT <hit s=$s p=$p/> \
DO print\n.\n\
    create a5 WHERE <Quotes><Quote><Symbol>$s</><Price>$p</></></> IN \"quotes\", \
    <Companies><Company><Symbol>$s</><Area>A5</></></> IN \"companies\" CONSTRUCT <hit s=$s p=$p/> \
DO print\n.\n\
    create twins WHERE <Quotes><Quote><Symbol>$a</><Price>$p</></><Quote><Symbol>$b</><Price>$p</><\
/></> \
    IN \"quotes\" CONSTRUCT <pair a=$a b=$b/> DO print\n.\n\
    create all WHERE <Quotes><Quote><Symbol>$s</><Price>$p</></></> IN \"quotes\", \
    <Companies><Company><Area>A5</></></> IN \"companies\" CONSTRUCT <all s=$s/> DO print\n.\n";

/// The sources and the creates are accepted, and nothing is told yet.
const ACCEPTED: &str = "1 ok\n2 ok\n3 ok\n4 ok\n5 ok\n6 ok\n7 ok\n8 ok\n9 ok\n10 ok\n";

/// Changes of both sources, one after the other, beside what is told of them.
const CHANGES: &[Parts<'_>] = &[(
    &[
        JOINS,
        // A company, whose quote comes behind it.
        "delta companies\n(Company\n(Symbol\n-X\n)Symbol\n(Area\n-A2\n)Area\n)Company\n.\n",
        "delta quotes\n(Quote\n(Symbol\n-X\n)Symbol\n(Price\n-7\n)Price\n)Quote\n.\n",
        // The company moves to another area, and one comes that has no quote yet.
        "delta companies\n(Company\n(Symbol\n-X\n)Symbol\n(Area\n-A4\n)Area\n)Company\n\
         (Company\n(Symbol\n-Y\n)Symbol\n(Area\n-A5\n)Area\n)Company\n.\n",
        // Two quotes come, one at a price that is there.
        "delta quotes\n(Quote\n(Symbol\n-Y\n)Symbol\n(Price\n-7\n)Price\n)Quote\n\
         (Quote\n(Symbol\n-Z\n)Symbol\n(Price\n-8\n)Price\n)Quote\n.\n",
        // A quote goes.
        "delta quotes\n!X\n.\n",
        // A join goes, and a quote comes that has no company.
        "delete a3\n",
        "delta quotes\n(Quote\n(Symbol\n-W\n)Symbol\n(Price\n-1\n)Price\n)Quote\n.\n",
    ],
    &[
        ACCEPTED,
        "11 ok\n",
        "12 ok\nnotice a2 0\ngain 1\n(hit\nAp 7\nAs X\n)hit\nend\n",
        "notice twins 0\ngain 1\n(pair\nAa X\nAb X\n)pair\nend\n",
        "13 ok\nnotice a2 0\nlose 1\n(hit\nAp 7\nAs X\n)hit\nend\n",
        "notice a4 0\ngain 1\n(hit\nAp 7\nAs X\n)hit\nend\n",
        "notice all 0\ngain 1\n(all\nAs X\n)all\nend\n",
        "14 ok\nnotice a5 0\ngain 1\n(hit\nAp 7\nAs Y\n)hit\nend\n",
        "notice twins 0\ngain 1\n(pair\nAa X\nAb Y\n)pair\ngain 1\n(pair\nAa Y\nAb X\n)pair\n",
        "gain 1\n(pair\nAa Y\nAb Y\n)pair\ngain 1\n(pair\nAa Z\nAb Z\n)pair\nend\n",
        "notice all 0\ngain 1\n(all\nAs Y\n)all\ngain 1\n(all\nAs Z\n)all\nend\n",
        "15 ok\nnotice a4 0\nlose 1\n(hit\nAp 7\nAs X\n)hit\nend\n",
        "notice twins 0\nlose 1\n(pair\nAa X\nAb X\n)pair\nlose 1\n(pair\nAa X\nAb Y\n)pair\n",
        "lose 1\n(pair\nAa Y\nAb X\n)pair\nend\n",
        "notice all 0\nlose 1\n(all\nAs X\n)all\nend\n",
        "16 ok\n17 ok\n",
        "notice twins 0\ngain 1\n(pair\nAa W\nAb W\n)pair\nend\n",
        "notice all 0\ngain 1\n(all\nAs W\n)all\nend\n",
    ],
)];

#[test]
fn each_join_is_told_what_it_makes_of_a_change(rt: HostRuntime) -> Result<(), Fail> {
    expect_parts(&rt, &rt, CHANGES)
}
