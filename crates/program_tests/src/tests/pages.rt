// Pages of rosters: the lines that matter, and the refusals.
use super::{NINE_WEEKS, NINE_WEEKS_ROSTER, line_ends, ran};
use std::test::Fail;

// The name has a character of two bytes, one that the markup has, one that a reader doesn't see, and a lone byte of UTF-8.
const ODD: &str =
    "2\n1\n1\n1 0\n\u{e4}<\u{1} 1320 480 1 1\n1 1\n1 1\n1 0\n\u{e4}<\u{1} \u{e4}<\u{1}\n";

const ODD_LINES: [&str; 6] = [
    "<!DOCTYPE html>\n<html lang=\"en\">\n",
    "<h1>Roster for 1 week</h1>\n",
    "<tr><th scope=\"row\">1</th><td class=\"c1\">\u{e4}&#60;\\x01</td><td class=\"c0\">-</td><td>8:00</td></tr>\n",
    "<li>Hours a week, on average: 8:00</li>\n<li>Least rest between two shifts in a row, in hours: 40:00</li>\n</ul>\n",
    "\u{e4}&#60;\\x01</th><td>22:00</td><td>06:00 (+1)</td><td>8:00</td></tr>\n",
    "<li>Never \u{e4}&#60;\\x01 and then \u{e4}&#60;\\x01.</li>\n</ul>\n</main>\n</body>\n</html>\n",
];

#[test]
fn a_page_of_odd_names(rt: HostRuntime) -> Result<(), Fail> {
    let files = [("F", ODD), ("R", "\u{e4}<\u{1} -\n")];
    let ending = ran(&rt, rt.alloc(), "page F R", &files, 0, 0)?;
    assert_eq!(rt; ending.status, 0);
    for line in &ODD_LINES {
        assert!(rt; ending.text.contains(*line), "{line}");
    }
    Ok(())
}

const NINE_LINES: [&str; 5] = [
    "<table>\n<caption id=\"roster\"><span>The shift of each day, week by week</span></caption>\n<thead>\n",
    "<tr><th scope=\"row\">2</th><td class=\"c0\">-</td><td class=\"c0\">-</td><td class=\"c1\">D</td><td class=\"c1\">D</td><td class=\"c2\">A</td><td class=\"c2\">A</td><td class=\"c3\">N</td><td>40:00</td><td></td></tr>\n",
    "<li>Hours a week, on average: 37:20</li>\n<li>Least rest between two shifts in a row, in hours: 16:00</li>\n<li>Free weekends (days 6 and 7 both off): 2 of 9</li>\n",
    "<tr><th scope=\"row\" class=\"c3\">N</th><td>2 (2)</td><td>2 (2)</td>",
    "<li>Days in a row of N: 2 to 5.</li>\n<li>Days off in a row: 2 to 4.</li>\n<li>Days of work in a row: 4 to 7.</li>\n<li>Never N and then D.</li>\n",
];

#[test]
fn a_page_of_nine_weeks(rt: HostRuntime) -> Result<(), Fail> {
    let files = [("F", NINE_WEEKS), ("R", NINE_WEEKS_ROSTER)];
    let ending = ran(&rt, rt.alloc(), "page F R", &files, 0, 0)?;
    assert_eq!(rt; ending.status, 0);
    for line in &NINE_LINES {
        assert!(rt; ending.text.contains(*line), "{line}");
    }
    Ok(())
}

#[test]
fn rosters_without_a_page(rt: HostRuntime) -> Result<(), Fail> {
    let broken = [("F", ODD), ("R", "- -\n")];
    let text = "breaks rule 3 max off week 1 day 1 length 2\n";
    assert!(rt; line_ends(&rt, rt.alloc(), "page F R", &broken, 5, text)?);
    let unknown = [("F", ODD), ("R", "Q -\n")];
    let text = "roster refused: unknown line 1\n";
    assert!(rt; line_ends(&rt, rt.alloc(), "page F R", &unknown, 3, text)?);
    Ok(())
}
