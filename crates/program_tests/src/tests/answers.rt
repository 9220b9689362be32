// The roster that stands in an answer.
use super::{NINE_WEEKS, NINE_WEEKS_ROSTER, TWO_DAYS, line_ends};
use std::test::Fail;

const OF_BEST: &str =
    "free 2\nD D A A N N -\n- - D D A A N\nN - - - D D A\nA N N - - - D\nD A A N N - -\n- D D A A N N\n- - - D D A A\nN N - - - D D\nA A N N - - -\nrwsp-free 1\nrules 1\ngoal 3\nfew\n";

const OF_STAFF: &str =
    "weeks 8 none\nrwsp-log 1\nrules 1\nopen\nweeks 9 roster\nD D A A N N -\n- - D D A A N\nN - - - D D A\nA N N - - - D\nD A A N N - -\n- D D A A N N\n- - - D D A A\nN N - - - D D\nA A N N - - -\n";

// The same problem as that of nine weeks, with five.
const FIVE_WEEKS: &str =
    "7\n5\n3\n2 2 2 2 2 2 2\n2 2 2 2 2 2 2\n2 2 2 2 2 2 2\nD 360 480 2 7\nA 840 480 2 6\nN 1320 480 2 5\n2 4\n4 7\n3 0\nN D\nN A\nA D\n";

const BREAKS: &str =
    "- D A A N N -\n- - D D A A N\nN - - - D D A\nA N N - - - D\nD A A N N - -\n- D D A A N N\n- - - D D A A\nN N - - - D D\nA A N N - - -\n";

const NONE: &str = "no roster in the answer\n";

// A right roster with a wrong number of free weekends in front, and behind it what begins as a free log does.
const RUBBISH_OF_BEST: &str =
    "free 999\nD D A A N N -\n- - D D A A N\nN - - - D D A\nA N N - - - D\nD A A N N - -\n- D D A A N N\n- - - D D A A\nN N - - - D D\nA A N N - - -\nrwsp-free rubbish\n";

// The same with the right number of free weekends.
const RUBBISH_BEHIND: &str =
    "free 2\nD D A A N N -\n- - D D A A N\nN - - - D D A\nA N N - - - D\nD A A N N - -\n- D D A A N N\n- - - D D A A\nN N - - - D D\nA A N N - - -\nrwsp-free rubbish\n";

// Another goal than one more than there are free weekends.
const OTHER_GOAL: &str =
    "free 2\nD D A A N N -\n- - D D A A N\nN - - - D D A\nA N N - - - D\nD A A N N - -\n- D D A A N N\n- - - D D A A\nN N - - - D D\nA A N N - - -\nrwsp-free 1\nrules 1\ngoal 2\nfew\n";

// The heading of a roster behind what is none of `staff`.
const RUBBISH_OF_STAFF: &str =
    "rubbish\nweeks 9 roster\nD D A A N N -\n- - D D A A N\nN - - - D D A\nA N N - - - D\nD A A N N - -\n- D D A A N N\n- - - D D A A\nN N - - - D D\nA A N N - - -\n";

// The sizes don't rise by one.
const JUMP_OF_STAFF: &str =
    "weeks 7 none\nrwsp-log 1\nrules 1\nopen\nweeks 9 roster\nD D A A N N -\n- - D D A A N\nN - - - D D A\nA N N - - - D\nD A A N N - -\n- D D A A N N\n- - - D D A A\nN N - - - D D\nA A N N - - -\n";

// A shift with the name that begins a free log.
const LOG_AS_NAME: &str = "7\n2\n1\n1 1 1 1 1 1 1\nrwsp-free 0 480 1 7\n1 7\n1 7\n0 0\n";

const LOG_AS_NAME_ROSTER: &str =
    "- - - - - - -\nrwsp-free rwsp-free rwsp-free rwsp-free rwsp-free rwsp-free rwsp-free\n";

const LOG_AS_NAME_BEST: &str =
    "free 1\n- - - - - - -\nrwsp-free rwsp-free rwsp-free rwsp-free rwsp-free rwsp-free rwsp-free\nrwsp-free 1\nrules\ngoal 2\nopen\n";

const CASES: [(&str, &str, u8, &str); 15] = [
    (NINE_WEEKS, NINE_WEEKS_ROSTER, 0, NINE_WEEKS_ROSTER),
    (NINE_WEEKS, OF_BEST, 0, NINE_WEEKS_ROSTER),
    (NINE_WEEKS, OF_STAFF, 0, NINE_WEEKS_ROSTER),
    (FIVE_WEEKS, OF_STAFF, 0, NINE_WEEKS_ROSTER),
    (FIVE_WEEKS, OF_BEST, 5, NONE),
    (NINE_WEEKS, RUBBISH_OF_BEST, 5, NONE),
    (NINE_WEEKS, RUBBISH_BEHIND, 5, NONE),
    (NINE_WEEKS, OTHER_GOAL, 5, NONE),
    (NINE_WEEKS, RUBBISH_OF_STAFF, 5, NONE),
    (NINE_WEEKS, JUMP_OF_STAFF, 5, NONE),
    (LOG_AS_NAME, LOG_AS_NAME_BEST, 0, LOG_AS_NAME_ROSTER),
    (
        NINE_WEEKS,
        BREAKS,
        5,
        "breaks rule 2 min shift D week 1 day 1 length 3\n",
    ),
    (TWO_DAYS, "weeks 2 undecided\nrwsp-log 2\n", 5, NONE),
    (TWO_DAYS, "weeks 0 roster\n", 5, NONE),
    (TWO_DAYS, "", 5, NONE),
];

#[test]
fn rosters_of_answers(rt: HostRuntime) -> Result<(), Fail> {
    for (problem, answer, status, text) in &CASES {
        let files = [("F", *problem), ("A", *answer)];
        assert!(rt;
            line_ends(&rt, rt.alloc(), "roster F A", &files, *status, text)?,
            "{answer}"
        );
    }
    Ok(())
}
