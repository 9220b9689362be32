// Large crews: each search over problems of up to 600 weeks, which have 4,200 cells. The answers are worked by hand;
// where there are many rosters, the one that is found is verified.
use super::plans::printed;
use super::{line_ends, ran, verifies};
use std::alloc::{AllocError, Global};
use std::test::Fail;

// A third of the weeks works the day shift on each day, a third the night shift.
const THIRDS: &str =
    "7\n600\n2\n200 200 200 200 200 200 200\n200 200 200 200 200 200 200\nD 360 480 1 6\nN 1320 480 1 6\n1 4\n1 6\n1 0\nN D\n";

// Each week works from Monday to Friday, so all weekends are free.
fn office(alloc: Global, weeks: u32) -> Result<String, AllocError> {
    format!(in alloc;
        "7\n{weeks}\n1\n{weeks} {weeks} {weeks} {weeks} {weeks} 0 0\nD 420 480 2 5\n2 3\n2 5\n0 0\n"
    )
}

// The text so often.
fn repeated(alloc: Global, text: &str, times: u32) -> Result<String, AllocError> {
    let mut all = String::new(alloc);
    for _ in 0..times {
        all.push_str(text)?;
    }
    Ok(all)
}

// The only roster of the office.
fn office_roster(alloc: Global, weeks: u32) -> Result<String, AllocError> {
    repeated(alloc, "D D D D D - -\n", weeks)
}

#[test]
fn a_plan_of_600_weeks(rt: HostRuntime) -> Result<(), Fail> {
    let alloc = rt.alloc();
    let roster = printed(&rt, alloc, &["plan", "F"], THIRDS, 0)?;
    assert!(rt; verifies(&rt, alloc, THIRDS, roster.as_str(), 0, "meets\n")?);
    Ok(())
}

// Also where a cell of each week is given.
#[test]
fn a_fill_of_600_weeks(rt: HostRuntime) -> Result<(), Fail> {
    let alloc = rt.alloc();
    let problem = office(alloc, 600)?;
    let cells = repeated(alloc, "? ? ? ? D ? ?\n", 600)?;
    let roster = office_roster(alloc, 600)?;
    let files = [("F", problem.as_str()), ("G", cells.as_str())];
    assert!(rt; line_ends(&rt, alloc, "fill F G", &files, 0, roster.as_str())?);
    Ok(())
}

// A week less is too few for each day.
#[test]
fn the_least_crew_of_600_weeks(rt: HostRuntime) -> Result<(), Fail> {
    let alloc = rt.alloc();
    let problem = office(alloc, 600)?;
    let words = ["staff", "F", "599", "600"];
    let found = printed(&rt, alloc, &words, problem.as_str(), 0)?;
    let files = [("F", problem.as_str()), ("T", found.as_str())];
    let verdict = "accepted: least 600 from 599\n";
    assert!(rt; line_ends(&rt, alloc, "check-staff F T", &files, 0, verdict)?);
    Ok(())
}

#[test]
fn no_change_is_needed_for_240_weeks(rt: HostRuntime) -> Result<(), Fail> {
    let alloc = rt.alloc();
    let problem = office(alloc, 240)?;
    let roster = office_roster(alloc, 240)?;
    let answer = format!(in alloc; "no change is needed\n{roster}")?;
    let files = [("F", problem.as_str())];
    assert!(rt; line_ends(&rt, alloc, "mend F", &files, 0, answer.as_str())?);
    Ok(())
}

// Which log says that no roster has one free weekend more isn't asked; it is accepted.
#[test]
fn all_weekends_of_240_weeks(rt: HostRuntime) -> Result<(), Fail> {
    let alloc = rt.alloc();
    let problem = office(alloc, 240)?;
    let roster = office_roster(alloc, 240)?;
    let front = format!(in alloc; "free 240\n{roster}")?;
    let found = printed(&rt, alloc, &["best", "F"], problem.as_str(), 0)?;
    let log = found
        .as_str()
        .strip_prefix(front.as_str())
        .ok_or("all weekends")?;
    let files = [("F", problem.as_str()), ("G", log)];
    assert!(rt; ran(&rt, alloc, "check-free F G", &files, 0, 0)?.status == 0);
    Ok(())
}
