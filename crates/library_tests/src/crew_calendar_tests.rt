// Dates by the command `date -u -d "DATE 00:00 UTC +N minutes"` of GNU coreutils, and places counted by hand.
ghost use Rattle.std.specs.Prelude.{◌≤◌};
ghost use Rattle.rwsp_terms.specs.declared.limits.TheConstants.{LONGEST_CALENDAR};
ghost use Rattle.rwsp_terms.specs.Roster.{IsRoster};
ghost use Rattle.crew_calendar.specs.Crew.{IsEmployee};

use crew_calendar::{crew_table, date_of, duties, fits, place};
use rwsp_model::{Problem, Roster};
use std::alloc::Global;
use std::test::Fail;
use test_helpers::{problem_of, roster_of};

// One week of one day, with a shift of these minutes.
fn one_day(alloc: Global, minutes: &str) -> Result<Problem, Fail> {
    let text = format!(in alloc; "1\n1\n1\n0..1\nD {minutes} 1 9\n1 9\n1 9\n0 0\n")?;
    problem_of(alloc, text.as_bytes())
}

#[test]
fn words_name_dates(rt: HostRuntime) -> Result<(), Fail> {
    let good = [
        ("2024-02-29", (2024i16, 2u8, 29u8)),
        ("0000-01-01", (0i16, 1u8, 1u8)),
        ("0000-02-29", (0i16, 2u8, 29u8)),
        ("9999-12-31", (9999i16, 12u8, 31u8)),
    ];
    for (word, date) in good.iter() {
        let found = date_of(word).ok_or("a date")?;
        assert_eq!(rt; (found.year, found.month, found.day), *date);
    }
    Ok(())
}

#[test]
fn other_words_name_none(rt: HostRuntime) -> Result<(), Fail> {
    let bad = [
        "2025-02-29",
        "1900-02-29",
        "2024-2-29",
        "2024-02-9",
        "20240229",
        "2024-13-01",
        "2024-00-01",
        "2024-01-32",
        "2024-01-00",
        "-000001-01-01",
        "+002024-01-01",
        "10000-01-01",
        "2024-02-29 ",
        " 2024-02-29",
        "2024/02/29",
        "2024-W09-4",
        "2024-02-29T00:00",
        "",
    ];
    for word in bad.iter() {
        assert!(rt; date_of(word).is_none());
    }
    Ok(())
}

#[test]
fn horizons_end_in_9999(rt: HostRuntime) -> Result<(), Fail> {
    let rows = [
        ("9999-12-31", 1u32, false),
        ("9999-12-18", 1, false),
        ("9999-12-17", 1, true),
        ("9998-11-13", 400, true),
        ("9998-11-14", 400, false),
        ("0000-01-01", 400, true),
    ];
    for (word, days, wanted) in rows.iter() {
        let date = date_of(word).ok_or("a date")?;
        assert!(rt; *days <= 400);
        assert_eq!(rt; fits(date, *days), *wanted);
    }
    Ok(())
}

// The table from the date of the word on.
fn table_of(
    alloc: Global,
    problem: &Problem,
    roster: &Roster,
    word: &str,
    days: u32,
) -> Result<Vec<u8>, Fail>
    requires roster { IsRoster problem.now roster.now.cells }
    requires days { days ≤ LONGEST_CALENDAR }
{
    let date = date_of(word).ok_or("a date")?;
    if !fits(date, days) {
        return Err(Fail::from("days behind 9999"));
    }
    Ok(crew_table(alloc, problem, roster, date, days)?)
}

// The employee's duties from the date of the word on.
fn duties_of(
    alloc: Global,
    problem: &Problem,
    roster: &Roster,
    word: &str,
    days: u32,
    employee: u32,
) -> Result<Vec<u8>, Fail>
    requires roster { IsRoster problem.now roster.now.cells }
    requires employee { IsEmployee problem.now employee }
    requires days { days ≤ LONGEST_CALENDAR }
{
    let date = date_of(word).ok_or("a date")?;
    if !fits(date, days) {
        return Err(Fail::from("days behind 9999"));
    }
    Ok(duties(alloc, problem, roster, date, days, employee)?)
}

// The table of three days from the date of the word on, in one week of one day.
fn three_days(alloc: Global, word: &str) -> Result<Vec<u8>, Fail> {
    let problem = one_day(alloc, "360 480")?;
    let roster = roster_of(alloc, &problem, b"D\n")?;
    table_of(alloc, &problem, &roster, word, 3)
}

const TABLES: [(&str, &str); 9] = [
    ("2024-02-28", "2024-02-28 D\n2024-02-29 D\n2024-03-01 D\n"),
    ("2023-02-28", "2023-02-28 D\n2023-03-01 D\n2023-03-02 D\n"),
    ("1900-02-28", "1900-02-28 D\n1900-03-01 D\n1900-03-02 D\n"),
    ("2000-02-28", "2000-02-28 D\n2000-02-29 D\n2000-03-01 D\n"),
    ("0000-02-28", "0000-02-28 D\n0000-02-29 D\n0000-03-01 D\n"),
    ("0000-01-01", "0000-01-01 D\n0000-01-02 D\n0000-01-03 D\n"),
    ("2025-04-29", "2025-04-29 D\n2025-04-30 D\n2025-05-01 D\n"),
    ("2025-12-30", "2025-12-30 D\n2025-12-31 D\n2026-01-01 D\n"),
    ("9999-12-15", "9999-12-15 D\n9999-12-16 D\n9999-12-17 D\n"),
];

#[test]
fn tables_go_over_ends_of_months(rt: HostRuntime) -> Result<(), Fail> {
    for (word, wanted) in TABLES.iter() {
        let text = three_days(rt.alloc(), word)?;
        assert_eq!(rt; text.as_slice(), wanted.as_bytes());
    }
    Ok(())
}

// The duty on the date of the word, in one week of one day with a shift of these minutes.
fn duty_of(alloc: Global, word: &str, minutes: &str) -> Result<Vec<u8>, Fail> {
    let problem = one_day(alloc, minutes)?;
    if problem.weeks() != 1 {
        return Err(Fail::from("more weeks than one"));
    }
    let roster = roster_of(alloc, &problem, b"D\n")?;
    duties_of(alloc, &problem, &roster, word, 1, 1)
}

const DUTIES: [(&str, &str, &str); 8] = [
    (
        "2025-12-31",
        "1320 480",
        "2025-12-31 22:00 to 2026-01-01 06:00 D\n",
    ),
    (
        "2024-02-28",
        "1320 1440",
        "2024-02-28 22:00 to 2024-02-29 22:00 D\n",
    ),
    (
        "1900-02-28",
        "360 1440",
        "1900-02-28 06:00 to 1900-03-01 06:00 D\n",
    ),
    (
        "2024-12-31",
        "1439 1",
        "2024-12-31 23:59 to 2025-01-01 00:00 D\n",
    ),
    (
        "2025-04-30",
        "0 0",
        "2025-04-30 00:00 to 2025-04-30 00:00 D\n",
    ),
    (
        "9999-12-17",
        "10000 10000",
        "9999-12-23 22:40 to 9999-12-30 21:20 D\n",
    ),
    (
        "0000-02-28",
        "10000 10000",
        "0000-03-05 22:40 to 0000-03-12 21:20 D\n",
    ),
    (
        "2000-02-21",
        "0 10000",
        "2000-02-21 00:00 to 2000-02-27 22:40 D\n",
    ),
];

#[test]
fn duties_end_days_later(rt: HostRuntime) -> Result<(), Fail> {
    for (word, minutes, wanted) in DUTIES.iter() {
        let text = duty_of(rt.alloc(), word, minutes)?;
        assert_eq!(rt; text.as_slice(), wanted.as_bytes());
    }
    Ok(())
}

// Three weeks of two days: `D -`, `- D` and `D D`. The third employee starts in week 3, continues with week 1, and is
// off on the second day of that week alone.
const THREE_WEEKS: &[u8] = b"2\n3\n1\n0..3 0..3\nD 360 480 1 9\n1 9\n1 9\n0 0\n";

#[test]
fn employees_start_in_their_weeks(rt: HostRuntime) -> Result<(), Fail> {
    let problem = problem_of(rt.alloc(), THREE_WEEKS)?;
    assert!(rt; problem.weeks() == 3);
    let positions = [
        (1u32, 0u32, 0u32),
        (2, 0, 2),
        (3, 0, 4),
        (3, 1, 5),
        (3, 2, 0),
        (2, 7, 3),
    ];
    for (employee, t, wanted) in positions.iter() {
        assert!(rt; 1 <= *employee && *employee <= 3 && *t < 400);
        assert_eq!(rt; place(&problem, *employee, *t), *wanted);
    }
    Ok(())
}

// The table of four days, and the third employee's duties on them.
fn four_days(alloc: Global, word: &str) -> Result<(Vec<u8>, Vec<u8>), Fail> {
    let problem = problem_of(alloc, THREE_WEEKS)?;
    if problem.weeks() != 3 {
        return Err(Fail::from("not three weeks"));
    }
    let roster = roster_of(alloc, &problem, b"D -\n- D\nD D\n")?;
    let table = table_of(alloc, &problem, &roster, word, 4)?;
    let text = duties_of(alloc, &problem, &roster, word, 4, 3)?;
    Ok((table, text))
}

#[test]
fn duties_are_those_of_the_table(rt: HostRuntime) -> Result<(), Fail> {
    let (table, text) = four_days(rt.alloc(), "2025-01-06")?;
    let lines = b"2025-01-06 D - D\n2025-01-07 - D D\n2025-01-08 - D D\n2025-01-09 D D -\n";
    assert_eq!(rt; table.as_slice(), lines.as_slice());
    let lines =
        b"2025-01-06 06:00 to 2025-01-06 14:00 D\n2025-01-07 06:00 to 2025-01-07 14:00 D\n2025-01-08 06:00 to 2025-01-08 14:00 D\n";
    assert_eq!(rt; text.as_slice(), lines.as_slice());
    Ok(())
}
