// Who works on a date, and an employee's duties as an iCalendar, to the byte.
use super::{NINE_WEEKS, NINE_WEEKS_ROSTER, TWO_DAYS, line_ends};
use std::test::Fail;

const WEDNESDAY: &str = "2024-02-28 Wednesday\nD 1 5\nA 4 9\nN 3 8\n- 2 6 7\n";

const FRIDAY: &str = "2024-03-01 Friday\nD 2 6\nA 1 5\nN 4 9\n- 3 7 8\n";

const EVENT: &str =
    "BEGIN:VCALENDAR\r\nVERSION:2.0\r\nPRODID:-//rwsp//crew calendar//EN\r\nBEGIN:VEVENT\r\nUID:1-20240228@rwsp\r\nDTSTAMP:20240228T000000Z\r\nDTSTART:20240228T060000\r\nDTEND:20240228T140000\r\nSUMMARY:D\r\nEND:VEVENT\r\nEND:VCALENDAR\r\n";

// A shift of no minutes on the second day, whose name has each byte that is escaped, and bytes that are shown by their
// number.
const ODD: &str = "2\n1\n1\n0 1\na,b;c\\d\u{7f}\u{e9} 1500 0 1 1\n1 1\n1 1\n0 0\n";

const ODD_ROSTER: &str = "- a,b;c\\d\u{7f}\u{e9}\n";

const ODD_EVENT: &str =
    "BEGIN:VCALENDAR\r\nVERSION:2.0\r\nPRODID:-//rwsp//crew calendar//EN\r\nBEGIN:VEVENT\r\nUID:1-20241231@rwsp\r\nDTSTAMP:20241230T000000Z\r\nDTSTART:20250101T010000\r\nSUMMARY:a\\,b\\;c\\\\d\\\\x7F\u{e9}\r\nEND:VEVENT\r\nEND:VCALENDAR\r\n";

const CASES: [(&str, &str, &str, u8, &str); 10] = [
    (
        "on F R 2024-02-28 2024-02-28",
        NINE_WEEKS,
        NINE_WEEKS_ROSTER,
        0,
        WEDNESDAY,
    ),
    (
        "on F R 2024-02-28 2024-03-01",
        NINE_WEEKS,
        NINE_WEEKS_ROSTER,
        0,
        FRIDAY,
    ),
    // the nine weeks have gone by once
    (
        "on F R 2023-12-29 2024-03-01",
        NINE_WEEKS,
        NINE_WEEKS_ROSTER,
        0,
        "2024-03-01 Friday\nD 1 5\nA 4 9\nN 3 8\n- 2 6 7\n",
    ),
    (
        "on F R 2024-02-28 2024-02-27",
        NINE_WEEKS,
        NINE_WEEKS_ROSTER,
        3,
        "horizon refused\n",
    ),
    (
        "on F R 2024-02-28 2024-02-28",
        NINE_WEEKS,
        "D D\n",
        3,
        "roster refused: width line 1\n",
    ),
    ("ics F R 2024-02-28 2 1", TWO_DAYS, "D -\n", 0, EVENT),
    (
        "ics F R 2024-02-28 2 2",
        TWO_DAYS,
        "D -\n",
        3,
        "no employee 2\n",
    ),
    ("ics F R 2024-12-30 2 1", ODD, ODD_ROSTER, 0, ODD_EVENT),
    ("ics F R 2024-12-30 1 1", ODD, ODD_ROSTER, 3, "no duty\n"),
    (
        "ics F R 9999-12-31 1 1",
        TWO_DAYS,
        "D -\n",
        3,
        "horizon refused\n",
    ),
];

#[test]
fn dates_and_events(rt: HostRuntime) -> Result<(), Fail> {
    for (line, problem, roster, status, text) in &CASES {
        let files = [("F", *problem), ("R", *roster)];
        assert!(rt;
            line_ends(&rt, rt.alloc(), line, &files, *status, text)?,
            "{line}"
        );
    }
    Ok(())
}
