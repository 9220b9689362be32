// The least crew, and the texts that say so, to the byte. The cases are worked by hand.
use super::ends;
use super::plans::printed;
use std::test::Fail;

// One day a week: two of four, three of six and three of five weeks on the day shift.
pub const TWO_OF_FOUR: &str = "1\n4\n1\n2\nD 360 480 1 1\n2 2\n1 4\n0 0\n";

const THREE_OF_SIX: &str = "1\n6\n1\n3\nD 360 480 2 2\n2 2\n2 2\n0 0\n";

const THREE_OF_FIVE: &str = "1\n5\n1\n3\nD 360 480 2 2\n1 2\n2 2\n0 0\n";

pub const NONE_TO_THREE: &str =
    "weeks 2 none\nrwsp-log 1\nrules 7\nday 1 - over\nweeks 3 none\nrwsp-log 1\nrules 1 7\nbound 1 1 1 rules 1 weights 1 D 1\nnone to 3\n";

const A_SIZE_LEFT_OUT: &str =
    "weeks 2 none\nrwsp-log 1\nrules 7\nday 1 - over\nweeks 4 none\nrwsp-log 1\nrules 1 7\nbound 1 1 1 rules 1 weights 1 D 1\nnone to 4\n";

const A_FALSE_LINE: &str =
    "weeks 2 none\nrwsp-log 1\nrules 7\nday 1 D over\nweeks 3 none\nrwsp-log 1\nrules 1 7\nbound 1 1 1 rules 1 weights 1 D 1\nnone to 3\n";

const NO_END: &str =
    "weeks 2 none\nrwsp-log 1\nrules 7\nday 1 - over\nweeks 3 none\nrwsp-log 1\nrules 1 7\nbound 1 1 1 rules 1 weights 1 D 1\n";

const A_LINE_BEHIND_THE_END: &str =
    "weeks 2 none\nrwsp-log 1\nrules 7\nday 1 - over\nnone to 2\n\n";

#[test]
fn what_a_staff_text_decides(rt: HostRuntime) -> Result<(), Fail> {
    let cases = [
        (NONE_TO_THREE, 0, "accepted: none 2 to 3\n"),
        (A_SIZE_LEFT_OUT, 5, "staff refused: form line 5\n"),
        (
            A_FALSE_LINE,
            5,
            "staff refused: weeks 2 log refused: fails line 3\n",
        ),
        (NO_END, 5, "staff refused: ends\n"),
        ("", 5, "staff refused: ends\n"),
        (A_LINE_BEHIND_THE_END, 5, "staff refused: form line 6\n"),
        ("none to 3\n", 5, "staff refused: form line 1\n"),
        ("weeks 02 none\n", 5, "staff refused: form line 1\n"),
        (
            "weeks 2 undecided\nrwsp-log 1\n",
            5,
            "staff refused: form line 1\n",
        ),
        (
            "weeks 6 roster\nD\nD\n-\n-\nD\n",
            5,
            "staff refused: weeks 6 roster refused: weeks 5\n",
        ),
        (
            "weeks 6 roster\nD\n-\n-\nD\n-\n-\n",
            5,
            "staff refused: weeks 6 breaks rule 2 min shift D week 3 day 1 length 3\n",
        ),
    ];
    for (text, status, printed) in cases {
        let files = [("F", THREE_OF_SIX), ("T", text)];
        let words = ["check-staff", "F", "T"];
        assert!(rt;
            ends(&rt, rt.alloc(), &words, &files, status, printed)?,
            "{text}"
        );
    }
    Ok(())
}

// The only roster of six weeks, as it may be turned.
const SIX_WEEKS: [&str; 3] = [
    "weeks 6 roster\nD\n-\n-\nD\n-\n-\n",
    "weeks 6 roster\n-\nD\n-\n-\nD\n-\n",
    "weeks 6 roster\n-\n-\nD\n-\n-\nD\n",
];

#[test]
fn what_a_search_writes_is_accepted(rt: HostRuntime) -> Result<(), Fail> {
    let least = printed(&rt, rt.alloc(), &["staff", "F", "1", "8"], TWO_OF_FOUR, 0)?;
    assert!(rt; least.contains("weeks 5 none\n"));
    assert!(rt; SIX_WEEKS.iter().any(|end| least.ends_with(end)), "{least}");
    let files = [("F", TWO_OF_FOUR), ("T", least.as_str())];
    let words = ["check-staff", "F", "T"];
    assert!(rt;
        ends(
            &rt,
            rt.alloc(),
            &words,
            &files,
            0,
            "accepted: least 6 from 1\n"
        )?
    );
    let none = printed(&rt, rt.alloc(), &["staff", "F", "2", "3"], THREE_OF_SIX, 1)?;
    let files = [("F", THREE_OF_SIX), ("T", none.as_str())];
    assert!(rt;
        ends(
            &rt,
            rt.alloc(),
            &words,
            &files,
            0,
            "accepted: none 2 to 3\n"
        )?
    );
    Ok(())
}

#[test]
fn searches_that_decide_nothing(rt: HostRuntime) -> Result<(), Fail> {
    let words = ["staff", "F", "5", "5", "--budget", "1"];
    let open = printed(&rt, rt.alloc(), &words, THREE_OF_FIVE, 4)?;
    assert!(rt; open.starts_with("weeks 5 undecided\nrwsp-log 2\nrules 7\nturn D 1\nsplit "));
    assert!(rt;
        open.ends_with("\nopen\nopen\n") && open.lines().count() == 7,
        "{open}"
    );
    let days =
        "28\n1\n1\n0 0 0 0 0 0 0 0 0 0 0 0 0 0 0 0 0 0 0 0 0 0 0 0 0 0 0 0\nD 360 480 1 7\n1 7\n1 7\n0 0\n";
    let files = [("F", days)];
    let words = ["staff", "F", "100", "151"];
    assert!(rt;
        ends(
            &rt,
            rt.alloc(),
            &words,
            &files,
            3,
            "staff range: weeks 151\n"
        )?
    );
    Ok(())
}
