// What is said in words of a problem's file. The words were written by hand.
use super::{TWO_DAYS, line_ends};
use std::test::Fail;

pub const COMMA: &str = "2\n1\n1,\n1 0\nD 360 480 1 1\n1 1\n1 1\n0 0\n";

const COMMA_WORDS: &str =
    "line 3: 1,, but the number of shifts was awaited\nwords stand apart by blanks, not by commas\n";

// Two rows of weeks, and both work from Monday to Friday, but at most four days in a row.
pub const CLINIC: &str = "7\n2\n1\n2 2 2 2 2 0 0\nD 420 480 2 5\n2 3\n2 4\n0 0\n";

const CLINIC_WORDS: &str =
    "2 weeks of 7 days, 1 shift: D\n40.0 hours a week\n1: at most 5 days of D in a row\n2: at least 2 days of D in a row\n3: at most 3 days off in a row\n4: at least 2 days off in a row\n5: at most 4 days of work in a row\n6: at least 2 days of work in a row\n7: day 1: D 2, off 0\n8: day 2: D 2, off 0\n9: day 3: D 2, off 0\n10: day 4: D 2, off 0\n11: day 5: D 2, off 0\n12: day 6: D 0, off 2\n13: day 7: D 0, off 2\n4 days off make 2 blocks of 2 to 3 days, 10 days of work make 3 to 5 blocks of 2 to 4 days, and 14 days make 2 to 3 blocks of each; but round the cycle there are as many blocks of one as of the other\n";

const TWO_DAYS_WORDS: &str =
    "1 week of 2 days, 1 shift: D\n8.0 hours a week\n1: at most 1 day of D in a row\n2: at least 1 day of D in a row\n3: at most 1 day off in a row\n4: at least 1 day off in a row\n5: at most 1 day of work in a row\n6: at least 1 day of work in a row\n7: day 1: D 1, off 0\n8: day 2: D 0, off 1\n";

const CASES: [(&str, u8, &str); 3] = [
    (COMMA, 3, COMMA_WORDS),
    (TWO_DAYS, 0, TWO_DAYS_WORDS),
    (CLINIC, 0, CLINIC_WORDS),
];

#[test]
fn explanations(rt: HostRuntime) -> Result<(), Fail> {
    for (problem, status, text) in &CASES {
        assert!(rt;
            line_ends(
                &rt,
                rt.alloc(),
                "explain F",
                &[("F", *problem)],
                *status,
                text
            )?,
            "{text}"
        );
    }
    Ok(())
}
