// Problems with a least rest between shifts, to the byte. A day shift ends at 14:00 and a night shift at 06:00, so in
// minutes the rests are: 960 from day to day, 1,920 from day to night, 0 from night to day, 960 from night to night, and
// 1,440 more with a day off between them.
use super::{USAGE, line_ends};
use std::test::Fail;

const TWO_SHIFTS: &str = "2\n2\n2\n1 1\n1 1\nD 360 480 1 7\nN 1320 480 1 7\n1 7\n1 7\n1 0\nN D\n";

const OF_960: &str = "2\n2\n2\n1 1\n1 1\nD 360 480 1 7\nN 1320 480 1 7\n1 7\n1 7\n1 0\nN D\n";

const OF_961: &str =
    "2\n2\n2\n1 1\n1 1\nD 360 480 1 7\nN 1320 480 1 7\n1 7\n1 7\n3 0\nN D\nD D\nN N\n";

const OF_1441: &str =
    "2\n2\n2\n1 1\n1 1\nD 360 480 1 7\nN 1320 480 1 7\n1 7\n1 7\n3 1\nN D\nD D\nN N\nN - D\n";

const OF_2880: &str =
    "2\n2\n2\n1 1\n1 1\nD 360 480 1 7\nN 1320 480 1 7\n1 7\n1 7\n4 3\nN D\nD D\nD N\nN N\nD - D\nN - D\nN - N\n";

// Eight shifts of three days: each two are too close, also with a day off between them. A pair or a triple of the file
// is one too many.
const LONG_SHIFTS_PAIR: &str =
    "1\n1\n8\n0\n0\n0\n0\n0\n0\n0\n0\nA 0 4320 1 7\nB 0 4320 1 7\nC 0 4320 1 7\nE 0 4320 1 7\nF 0 4320 1 7\nG 0 4320 1 7\nH 0 4320 1 7\nI 0 4320 1 7\n1 7\n1 7\n1 0\nA -\n";

const LONG_SHIFTS_TRIPLE: &str =
    "1\n1\n8\n0\n0\n0\n0\n0\n0\n0\n0\nA 0 4320 1 7\nB 0 4320 1 7\nC 0 4320 1 7\nE 0 4320 1 7\nF 0 4320 1 7\nG 0 4320 1 7\nH 0 4320 1 7\nI 0 4320 1 7\n1 7\n1 7\n0 1\nA A A\n";

const CASES: [(&str, &str, u8, &str); 8] = [
    ("rest F 0", TWO_SHIFTS, 0, TWO_SHIFTS),
    ("rest F 960", TWO_SHIFTS, 0, OF_960),
    ("rest F 961", TWO_SHIFTS, 0, OF_961),
    ("rest F 1441", TWO_SHIFTS, 0, OF_1441),
    ("rest F 2880", TWO_SHIFTS, 0, OF_2880),
    ("rest F 2881", TWO_SHIFTS, 2, USAGE),
    ("rest F 0", LONG_SHIFTS_PAIR, 3, "rest refused: pairs 65\n"),
    (
        "rest F 0",
        LONG_SHIFTS_TRIPLE,
        3,
        "rest refused: triples 65\n",
    ),
];

#[test]
fn problems_with_a_least_rest(rt: HostRuntime) -> Result<(), Fail> {
    for (line, problem, status, text) in &CASES {
        assert!(rt;
            line_ends(&rt, rt.alloc(), line, &[("F", *problem)], *status, text)?,
            "{line}"
        );
    }
    Ok(())
}
