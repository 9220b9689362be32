// Problems in words, as they were written by hand.
use plain_words::problem_words;
use rwsp_file::LongNumber;
use std::alloc::Global;
use std::test::Fail;
use test_helpers::{D_ON_EITHER_DAY, SEQUENCES, TWOS_IN_SIX, problem_of};

// A least above a greatest, blocks longer than work, a pair twice, more demanded than there are weeks.
const SLIPS: &[u8] =
    b"2\n2\n2\n2..1 1\n1 3\noff 360 480 3 2\nN 1320 500 3 1 1\n1 1\n1 2\n2 0\nN off\nN off\n";

// No number of blocks of days off is that of blocks of work.
const UNLIKE: &[u8] = b"7\n4\n1\n3 3 3 3 3 3 2\nD 360 480 1 4\n2 3\n4 4\n0 0\n";

const TWOS_WORDS: &[u8] =
    b"6 weeks of 1 day, 1 shift: D\n4.0 hours a week\n1: at most 2 days of D in a row\n2: at least 2 days of D in a row\n3: at most 2 days off in a row\n4: at least 2 days off in a row\n5: at most 2 days of work in a row\n6: at least 2 days of work in a row\n7: day 1: D 3, off 3\n3 days of D cannot be made of blocks of 2 days: 1 block has at most 2 days, and 2 at least 4\nk blocks of days off and of work take 4k days, and there are 6\n";

const EITHER_WORDS: &[u8] =
    b"1 week of 2 days, 1 shift: D\nfrom 0.0 to 16.0 hours a week\n1: at most 1 day of D in a row\n2: at least 1 day of D in a row\n3: at most 1 day off in a row\n4: at least 1 day off in a row\n5: at most 1 day of work in a row\n6: at least 1 day of work in a row\n7: day 1: D 0 to 1, off 0 to 1\n8: day 2: D 0 to 1, off 0 to 1\n";

const SEQUENCES_WORDS: &[u8] =
    b"1 week of 2 days, 1 shift: D\n16.0 hours a week\n1: at most 1 day of D in a row\n2: at least 1 day of D in a row\n3: at most 1 day off in a row\n4: at least 1 day off in a row\n5: at most 1 day of work in a row\n6: at least 1 day of work in a row\n7: never D, then D\n8: never D, then a day off, then D\n9: day 1: D 1, off 0\n10: day 2: D 1, off 0\n0 days off make 0 blocks of 1 day, 2 days of work make 2 blocks of 1 day, and 2 days make 1 block of each; but round the cycle there are as many blocks of one as of the other\n";

const SLIPS_WORDS: &[u8] =
    b"2 weeks of 2 days, 2 shifts: \"off\", N\nfrom 28.7 to 24.7 hours a week\n1: at most 2 days of \"off\" in a row\n2: at least 3 days of \"off\" in a row\n3: at most 1 day of N in a row\n4: at least 1 day of N in a row\n5: at most 1 day off in a row\n6: at least 1 day off in a row\n7: at most 2 days of work in a row\n8: at least 1 day of work in a row\n9: never N, then \"off\"\n10: never N, then \"off\"\n11: day 1: \"off\" 2..1: the least is above the greatest\n12: day 2: \"off\" 1, N 3, which needs 4 of 2 weeks\nrules 1 and 2: at least 3 days of \"off\" in a row, but at most 2\nrules 2 and 7: at least 3 days of \"off\" in a row, but at most 2 days of work in a row\nrules 9 and 10: never N, then \"off\": this stands twice\nrule 11: day 1: \"off\" 2..1: the least is above the greatest\nrule 11: day 1: 3 in all, more than 2 weeks\nrule 12: day 2: N 3, more than 2 weeks\nrule 12: day 2: 4 in all, more than 2 weeks\nline 7: 3 is taken for the long name of N, and 1 and 1 for its least and greatest block\nat least 3 and at most 2 days of \"off\" cannot be made of blocks of at least 3 and at most 2 days: 0 blocks have at most 0 days, and 1 at least 3\nat least 4 and at most 3 days of N cannot be made of blocks of 1 day: 3 blocks have at most 3 days, and 4 at least 4\nthe demand needs 7 days of work, and there are 4\n";

const UNLIKE_WORDS: &[u8] =
    b"4 weeks of 7 days, 1 shift: D\n40.0 hours a week\n1: at most 4 days of D in a row\n2: at least 1 day of D in a row\n3: at most 3 days off in a row\n4: at least 2 days off in a row\n5: at most 4 days of work in a row\n6: at least 4 days of work in a row\n7: day 1: D 3, off 1\n8: day 2: D 3, off 1\n9: day 3: D 3, off 1\n10: day 4: D 3, off 1\n11: day 5: D 3, off 1\n12: day 6: D 3, off 1\n13: day 7: D 2, off 2\n8 days off make 3 to 4 blocks of 2 to 3 days, 20 days of work make 5 blocks of 4 days, and 28 days make 4 blocks of each; but round the cycle there are as many blocks of one as of the other\n";

fn words(alloc: Global, text: &[u8], names: &[LongNumber]) -> Result<Vec<u8>, Fail> {
    let problem = problem_of(alloc, text)?;
    Ok(problem_words(alloc, &problem, names)?)
}

#[test]
fn problems_in_words(rt: HostRuntime) -> Result<(), Fail> {
    let cases: [(&[u8], &[u8]); 4] = [
        (TWOS_IN_SIX, TWOS_WORDS),
        (D_ON_EITHER_DAY, EITHER_WORDS),
        (SEQUENCES, SEQUENCES_WORDS),
        (UNLIKE, UNLIKE_WORDS),
    ];
    for (text, expected) in cases {
        let told = words(rt.alloc(), text, &[])?;
        assert_eq!(rt; told.as_slice(), expected);
    }
    Ok(())
}

#[test]
fn slips_in_words(rt: HostRuntime) -> Result<(), Fail> {
    let long = LongNumber {
        line: 7,
        shift: 2,
        long_name: 3,
        least: 1,
        greatest: 1,
    };
    let told = words(rt.alloc(), SLIPS, &[long])?;
    assert_eq!(rt; told.as_slice(), SLIPS_WORDS);
    Ok(())
}
