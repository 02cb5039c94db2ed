//! What a report tells: how much there is, and the groups of the live queries' expressions.

use super::{SOURCE, WATCH, expect_parts};
use std::test::Fail;

/// Queries beside `w`: of another symbol, and of the same one with another answer.
const OTHERS: &str =
    "create b WHERE <Quotes><Quote><Symbol>MSFT</></> ELEMENT_AS $g</> IN \"quotes\" CONSTRUCT $g \
     DO print\n.\n";

const SAME_PLAN: &str =
    "create c WHERE <Quotes><Quote><Symbol>INTC</></> ELEMENT_AS $g</> IN \"quotes\" CONSTRUCT \
     <hit>$g</> DO print\n.\n";

const NOTHING: &str = "files 0\ngroups 0\nend\n";

const ONE_SCAN: &str = "group 0 scan(quotes,Quote(Symbol=)!e)\nend\n";

const TWO_CONSTANTS: &str = "files 3\ngroups 2\ngroup 2 eq(scan(quotes,Quote(Symbol=)!e),0)\n";

const ONE_CONSTANT: &str = "files 2\ngroups 2\ngroup 1 eq(scan(quotes,Quote(Symbol=)!e),0)\n";

#[test]
fn a_report_tells_what_is_shared(rt: HostRuntime) -> Result<(), Fail> {
    expect_parts(
        &rt,
        &rt,
        &[
            (
                &["report\n"],
                &["1 ok\nqueries 0\nsources 0\nchanges 0\n", NOTHING],
            ),
            (
                &[
                    SOURCE,
                    WATCH,
                    OTHERS,
                    "report\n",
                    SAME_PLAN,
                    "report\ndelete w\ndelete c\nreport\ndelete b\nreport\n",
                ],
                &[
                    "1 ok\n2 ok\n3 ok\n4 ok\nqueries 2\nsources 1\nchanges 0\n",
                    TWO_CONSTANTS,
                    ONE_SCAN,
                    "5 ok\n6 ok\nqueries 3\nsources 1\nchanges 0\n",
                    TWO_CONSTANTS,
                    ONE_SCAN,
                    "7 ok\n8 ok\n9 ok\nqueries 1\nsources 1\nchanges 0\n",
                    ONE_CONSTANT,
                    ONE_SCAN,
                    "10 ok\n11 ok\nqueries 0\nsources 1\nchanges 0\n",
                    NOTHING,
                ],
            ),
            // Accepted deltas are counted, an empty one too, and refused ones are not.
            (
                &[SOURCE, "delta quotes\n.\ndelta quotes\n!INTC\n.\nreport\n"],
                &[
                    "1 ok\n2 ok\n3 refused 7 no-key 1\n4 ok\nqueries 0\nsources 1\nchanges 1\n",
                    NOTHING,
                ],
            ),
        ],
    )
}
