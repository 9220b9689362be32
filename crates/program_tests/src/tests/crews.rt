// Calendars of a roster, to the byte. The dates are those of GNU coreutils' `date`.
use super::{NINE_WEEKS, NINE_WEEKS_ROSTER, USAGE, ends, line_ends};
use std::test::Fail;

// The same roster with another first symbol, which breaks a rule.
const BREAKS: &str =
    "- D A A N N -\n- - D D A A N\nN - - - D D A\nA N N - - - D\nD A A N N - -\n- D D A A N N\n- - - D D A A\nN N - - - D D\nA A N N - - -\n";

const TABLE: &str =
    "2024-02-28 D - N A D - - N A\n2024-02-29 D - - N A D - N A\n2024-03-01 A D - N A D - - N\n";

const DUTIES: &str =
    "2025-01-06 14:00 to 2025-01-06 22:00 A\n2025-01-07 14:00 to 2025-01-07 22:00 A\n2025-01-08 22:00 to 2025-01-09 06:00 N\n2025-01-09 22:00 to 2025-01-10 06:00 N\n";

const CSV: &str =
    "date,weekday,1,2,3,4,5,6,7,8,9\r\n2024-02-28,Wednesday,D,-,N,A,D,-,-,N,A\r\n2024-02-29,Thursday,D,-,-,N,A,D,-,N,A\r\n2024-03-01,Friday,A,D,-,N,A,D,-,-,N\r\n";

// A shift whose name has a comma and quotes.
const QUOTES: &str = "2\n1\n1\n0 1\na,\"b\" 360 480 1 1\n1 1\n1 1\n0 0\n";

const QUOTES_CSV: &str =
    "date,weekday,1\r\n2024-12-30,Monday,-\r\n2024-12-31,Tuesday,\"a,\"\"b\"\"\"\r\n";

#[test]
fn calendars_for_spreadsheets(rt: HostRuntime) -> Result<(), Fail> {
    let nine = [("F", NINE_WEEKS), ("R", NINE_WEEKS_ROSTER)];
    let quotes = [("F", QUOTES), ("R", "- a,\"b\"\n")];
    let far = "horizon refused\n";
    for (line, files, status, text) in [
        ("crew F R 2024-02-28 3 --csv", &nine, 0, CSV),
        ("crew F R 2024-12-30 2 --csv", &quotes, 0, QUOTES_CSV),
        ("crew F R 9999-12-31 1 --csv", &nine, 3, far),
        ("crew F R 2024-02-28 3 9 --csv", &nine, 2, USAGE),
        ("crew F R 2024-02-28 3 --csv 9", &nine, 2, USAGE),
        ("crew F R 2024-02-28 3 --csv --csv", &nine, 2, USAGE),
    ] {
        assert!(rt;
            line_ends(&rt, rt.alloc(), line, files, status, text)?,
            "{line}"
        );
    }
    Ok(())
}

#[test]
fn calendars_of_a_roster(rt: HostRuntime) -> Result<(), Fail> {
    let right = [("F", NINE_WEEKS), ("R", NINE_WEEKS_ROSTER)];
    let cases: [(&[&str], u8, &str); 4] = [
        (&["crew", "F", "R", "2024-02-28", "3"], 0, TABLE),
        (&["crew", "F", "R", "2025-01-06", "4", "9"], 0, DUTIES),
        (
            &["crew", "F", "R", "2025-01-06", "4", "10"],
            3,
            "no employee 10\n",
        ),
        (
            &["crew", "F", "R", "9999-12-31", "1"],
            3,
            "horizon refused\n",
        ),
    ];
    for (words, status, text) in cases {
        assert!(rt;
            ends(&rt, rt.alloc(), words, &right, status, text)?,
            "{text}"
        );
    }
    let broken = [("F", NINE_WEEKS), ("R", BREAKS)];
    let text = "breaks rule 2 min shift D week 1 day 1 length 3\n";
    let words = ["crew", "F", "R", "2025-01-06", "1"];
    assert!(rt; ends(&rt, rt.alloc(), &words, &broken, 5, text)?);
    Ok(())
}

#[test]
fn nothing_is_read_beyond_the_horizon(rt: HostRuntime) -> Result<(), Fail> {
    let words = ["crew", "F", "R", "9999-12-31", "1"];
    assert!(rt; ends(&rt, rt.alloc(), &words, &[], 3, "horizon refused\n")?);
    let words = ["crew", "F", "R", "9999-12-17", "1"];
    assert!(rt; ends(&rt, rt.alloc(), &words, &[], 6, "")?);
    Ok(())
}
