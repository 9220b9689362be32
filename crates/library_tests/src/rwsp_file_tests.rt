// Texts of problems, each with the refusal that it has or with its canonical text.
use rwsp_file::{
    FileRefusal, LongNumber, explain_refusal, numeric_long_names, print_problem, read_problem,
};
use rwsp_model::Fail as Failure;
use std::alloc::{AllocError, Global};
use std::test::Fail;
use test_helpers::{SEQUENCES, THREE_SHIFTS, problem_of};

// Why the text spells no problem, if it doesn't.
fn refusal(alloc: Global, text: &[u8]) -> Result<Option<FileRefusal>, AllocError> {
    if text.len() > 1_048_576 {
        return Err(AllocError);
    }
    match read_problem(alloc, text) {
        Ok(_) => Ok(None),
        Err(Failure::Refused(why)) => Ok(Some(why)),
        Err(Failure::Memory) => Err(AllocError),
    }
}

const FAULTS: [(&[u8], FileRefusal); 9] = [
    (b"", FileRefusal::Ends(1)),
    (b"2\n1\n1\n1\n", FileRefusal::Ends(5)),
    (
        b"2x\n1\n1\n1 0\nD 360 480 1 1\n1 1\n1 1\n0 0\n",
        FileRefusal::Number(1),
    ),
    (
        b"2\n1\n1\n1.. 0\nD 360 480 1 1\n1 1\n1 1\n0 0\n",
        FileRefusal::Number(4),
    ),
    (
        b"2\n1\n1\n1 0\nD 360 480 1\n1 1\n1 1\n0 0\n",
        FileRefusal::Row(5),
    ),
    (
        b"2\n1\n1\n1 0\n- 360 480 a b 1 1\n1 1\n1 1\n0 0\n",
        FileRefusal::Row(5),
    ),
    (
        b"2\n1\n1\n1 0\n- 360 480 1 1\n1 1\n1 1\n0 0\n",
        FileRefusal::Name(5),
    ),
    (
        b"2\n1\n1\n1 0\nD 360 480 1 1\n1 1\n1 1\n1 0\nQ D\n",
        FileRefusal::Unknown(9),
    ),
    (
        b"2\n1\n1\n1 0\nD 360 480 1 1\n1 1\n1 1\n0 0\nD\n",
        FileRefusal::Extra(9),
    ),
];

const LIMITS: [(&[u8], FileRefusal); 13] = [
    (
        b"29\n1\n1\n1 0\nD 360 480 1 1\n1 1\n1 1\n0 0\n",
        FileRefusal::Range(1, 1),
    ),
    (
        b"0\n1\n1\n1 0\nD 360 480 1 1\n1 1\n1 1\n0 0\n",
        FileRefusal::Range(1, 1),
    ),
    (b"28\n601\n1", FileRefusal::Range(2, 2)),
    (b"28\n151\n1", FileRefusal::Range(2, 3)),
    (b"2\n1\n9\n1 0\n", FileRefusal::Range(3, 4)),
    (b"2\n1\n1\n601 0\n", FileRefusal::Range(4, 5)),
    (b"2\n1\n1\n0..601 0\n", FileRefusal::Range(4, 5)),
    (b"2\n1\n1\n1 0\nD 10001 480 1 1\n", FileRefusal::Range(5, 6)),
    (
        b"2\n1\n1\n1 0\nD 360 480 1 1\n1 10001\n1 1\n0 0\n",
        FileRefusal::Range(6, 7),
    ),
    (
        b"2\n1\n1\n1 0\nD 360 480 1 1\n1 1\n1 1\n65 0\n",
        FileRefusal::Range(8, 8),
    ),
    (
        b"2\n1\n1\n1 0\nD 360 480 1 1\n1 1\n1 1\n0 65\n",
        FileRefusal::Range(8, 9),
    ),
    (
        b"2\n1\n2\n1 0\n0 0\nabcdefghijklmnopqrstuvwxyz012345 1 1 1 1\nabcdefghijklmnopqrstuvwxyz0123456 1 1 1 1\n",
        FileRefusal::Name(7),
    ),
    (
        b"2\n1\n2\n1 0\n0 0\nD 360 480 1 1\nD 360 480 1 1\n",
        FileRefusal::Name(7),
    ),
];

#[test]
fn texts_are_refused(rt: HostRuntime) -> Result<(), Fail> {
    for (text, why) in FAULTS {
        assert_eq!(rt; refusal(rt.alloc(), text)?, Some(why));
    }
    for (text, why) in LIMITS {
        assert_eq!(rt; refusal(rt.alloc(), text)?, Some(why));
    }
    Ok(())
}

fn put_comment(text: &mut Vec<u8>, len: usize) -> Result<(), AllocError> {
    for _ in 0..len {
        text.push(b'#')?;
    }
    Ok(())
}

// A text with as many sequences as there may be, and with a comment that makes it as long as it may be.
fn longest_text(alloc: Global) -> Result<Vec<u8>, AllocError> {
    let mut text = Vec::from_slice(alloc, b"2\n1\n1\n1 0\nD 360 480 1 1\n1 1\n1 1\n64 0\n")?;
    for _ in 0..64 {
        text.extend_from_slice(b"D D\n")?;
    }
    let rest = 1_048_576usize.saturating_sub(text.len());
    put_comment(&mut text, rest)?;
    Ok(text)
}

#[test]
fn long_texts_are_read(rt: HostRuntime) -> Result<(), Fail> {
    let text = longest_text(rt.alloc())?;
    assert_eq!(rt; text.len(), 1_048_576);
    assert_eq!(rt; refusal(rt.alloc(), &text)?, None);
    Ok(())
}

#[test]
fn canonical_texts_are_printed(rt: HostRuntime) -> Result<(), Fail> {
    let cases: [(&[u8], &[u8]); 6] = [
        (
            b"## Length of the schedule\r\n2\r\n## Employees\r\n1\r\n1\r\n1\t0\r\nD 360 480 Day 1 1\r\n1 1\r\n1 1\r\n0 0\r\n",
            b"2\n1\n1\n1 0\nD 360 480 1 1\n1 1\n1 1\n0 0\n",
        ),
        (
            b"2 1 1 0..1 2..2\nD 360 480 - 1 1\n1 1 1 1 0 0",
            b"2\n1\n1\n0..1 2\nD 360 480 1 1\n1 1\n1 1\n0 0\n",
        ),
        (
            b"002 1 1 3..001 000000000\nD 0360 480 1 1\n1 1 1 1 1 1 D - - D\n  D",
            b"2\n1\n1\n3..1 0\nD 360 480 1 1\n1 1\n1 1\n1 1\nD -\n- D D\n",
        ),
        (
            b"7\n600\n1\n0 0 0 0 0 0 0\nD 360 480 1 7\n1 7\n1 7\n0 0\n",
            b"7\n600\n1\n0 0 0 0 0 0 0\nD 360 480 1 7\n1 7\n1 7\n0 0\n",
        ),
        (SEQUENCES, SEQUENCES),
        (THREE_SHIFTS, THREE_SHIFTS),
    ];
    for (text, canonical) in cases {
        let problem = problem_of(rt.alloc(), text)?;
        let printed = print_problem(rt.alloc(), &problem)?;
        assert_eq!(rt; printed.as_slice(), canonical);
    }
    Ok(())
}

// A file, line by line.
const WARD: [&[u8]; 19] = [
    b"# Ward, 12 nurses",
    b"7",
    b"12",
    b"3",
    b"# Early, Late, Night, Mo-Su",
    b"4..5 4..5 4..5 4..5 4..5 2..3 2..3",
    b"3..4 3..4 3..4 3..4 3..4 2 2",
    b"2 2 2 2 2 2 2",
    b"Early 360 480 2 5",
    b"Late 840 480 2 5",
    b"Night 1320 480 3 4",
    b"# off, work",
    b"2 4",
    b"3 6",
    b"# forbidden",
    b"3 0",
    b"Late Early",
    b"Night Early",
    b"Night Late",
];

// The file with a text in place of the lines from the first to the last one.
fn ward_with(alloc: Global, first: usize, last: usize, text: &[u8]) -> Result<Vec<u8>, AllocError> {
    let mut file = Vec::new(alloc);
    for i in 0..19 {
        if i + 1 == first {
            file.extend_from_slice(text)?;
        }
        if i + 1 < first || last < i + 1 {
            file.extend_from_slice(WARD[i])?;
            file.push(b'\n')?;
        }
    }
    Ok(file)
}

// The words for the text, where it is refused, and none otherwise.
fn explained(alloc: Global, text: &[u8]) -> Result<Vec<u8>, AllocError> {
    if text.len() > 1_048_576 {
        return Err(AllocError);
    }
    match explain_refusal(alloc, text)? {
        Some(words) => Ok(words),
        None => Ok(Vec::new(alloc)),
    }
}

// Mistakes of a planner: the lines that are replaced, what stands in their place, and what is said of it.
const MISTAKES: [(usize, usize, &[u8], &[u8]); 37] = [
    (
        7,
        7,
        b"",
        b"line 8: Early, but the demand of shift 3 on day 1 was awaited\ndemands are there for 2 of 3 shifts\n",
    ),
    (
        6,
        6,
        b"4..5 4..5 4..5 4..5 4..5 2..3\n",
        b"line 9: Early, but the demand of shift 3 on day 7 was awaited\nline 6 has 6 words, and there are 7 days\n",
    ),
    (
        6,
        6,
        b"4..5 4..5 4..5 4..5 4..5 2..3 2..3 2\n",
        b"line 8: 2, but the line of shift 1 has five or six words, not 1\nline 6 has 8 words, and there are 7 days\n",
    ),
    (
        6,
        6,
        b"4..5,4..5 4..5 4..5 4..5 2..3 2..3\n",
        b"line 6: 4..5,4..5, but the demand of shift 1 on day 1 was awaited\nwords stand apart by blanks, not by commas\n",
    ),
    (
        6,
        6,
        b"4..5 4..5\xC2\xA04..5 4..5 4..5 2..3 2..3\n",
        b"line 6: 4..5\\xC2\\xA04..5, but the demand of shift 1 on day 2 was awaited\na no-break space is no blank\n",
    ),
    (6, 6, b"4..5\t4..5\t4..5 4..5 4..5 2..3 2..3\r\n", b""),
    (
        1,
        1,
        b"\xEF\xBB\xBF# Ward, 12 nurses\n",
        b"line 1: \\xEF\\xBB\\xBF#, but the number of days was awaited\nthe text begins with a byte order mark: save it as UTF-8 without one\n",
    ),
    (
        1,
        19,
        b"\xFF\xFE7\x00\n\x001\x002\x00\n\x00",
        b"line 1: \\xFF\\xFE7\\x00, but the number of days was awaited\nthe text is in UTF-16: save it as UTF-8\n",
    ),
    (
        1,
        19,
        b"PK\x03\x04\x14\x00\n",
        b"line 1: PK\\x03\\x04\\x14\\x00, but the number of days was awaited\nthis is no plain text: save it as text, in UTF-8\n",
    ),
    (
        10,
        10,
        b"abcdefghijklmnopqrstuvwxyz0123456 840 480 2 5\n",
        b"line 10: abcdefghijklmnopqrstuvwxyz0123456, but the name of shift 2 was awaited, and this is longer than 32 bytes\n",
    ),
    (
        10,
        10,
        b"Early 840 480 2 5\n",
        b"line 10: Early, but the name of shift 2 was awaited, and this is the name of shift 1 already\n",
    ),
    (
        10,
        10,
        b"- 840 480 2 5\n",
        b"line 10: -, but the name of shift 2 was awaited, and - is the day off\n",
    ),
    (10, 10, b"Late 840 480 5 2\n", b""),
    (6, 6, b"5..4 4..5 4..5 4..5 4..5 2..3 2..3\n", b""),
    (8, 8, b"2 2 2 2 2 20 2\n", b""),
    (
        9,
        9,
        b"Early 06:00 480 2 5\n",
        b"line 9: 06:00, but the start of shift 1 was awaited\ntimes are minutes from midnight: 06:00 is 360\n",
    ),
    (
        10,
        10,
        b"Late 14:05 480 2 5\n",
        b"line 10: 14:05, but the start of shift 2 was awaited\ntimes are minutes from midnight: 14:05 is 845\n",
    ),
    (
        10,
        10,
        b"Late 840 8:xx 2 5\n",
        b"line 10: 8:xx, but the length of shift 2 was awaited\ntimes are minutes from midnight: 06:00 is 360\n",
    ),
    (
        9,
        9,
        b"Early shift 360 480 2 5\n",
        b"line 9: shift, but the start of shift 1 was awaited\na shift's name is one word; a long name may stand behind the length\n",
    ),
    (
        6,
        6,
        b"4-5 4..5 4..5 4..5 4..5 2..3 2..3\n",
        b"line 6: 4-5, but the demand of shift 1 on day 1 was awaited\na range is written 4..5, with two dots and no blanks\n",
    ),
    (
        6,
        6,
        b"4 .. 5 4..5 4..5 4..5 4..5 2..3 2..3\n",
        b"line 6: .., but the demand of shift 1 on day 2 was awaited\na range is written 4..5, with two dots and no blanks\n",
    ),
    (
        3,
        3,
        b"12.5\n",
        b"line 3: 12.5, but the number of weeks was awaited\nnumbers are whole, with no decimal point\n",
    ),
    (
        4,
        4,
        b"3 shifts\n",
        b"line 4: shifts, but the demand of shift 1 on day 1 was awaited\nwords that explain a number stand behind a #\n",
    ),
    (
        19,
        19,
        b"Night late\n",
        b"line 19: late, but symbol 2 of forbidden pair 3 was awaited, and this is no shift's name\n",
    ),
    (
        18,
        18,
        b"Night -> Early\n",
        b"line 18: ->, but symbol 2 of forbidden pair 2 was awaited, and this is no shift's name\n",
    ),
    (
        18,
        18,
        b"Night,Early\n",
        b"line 18: Night,Early, but symbol 1 of forbidden pair 2 was awaited, and this is no shift's name\nwords stand apart by blanks, not by commas\n",
    ),
    (
        16,
        16,
        b"3\n",
        b"line 17: Late, but the number of forbidden triples was awaited\nsix numbers stand behind the shifts: 2 for days off, 2 for work, and how many pairs and triples\n",
    ),
    (
        16,
        16,
        b"2 0\n",
        b"line 19: Night, but the end of the text was awaited\nline 16 announces 2 forbidden pairs and 0 forbidden triples\n",
    ),
    (
        16,
        16,
        b"4 0\n",
        b"line 20: the text ends, but symbol 1 of forbidden pair 4 was awaited\nline 16 announces 4 forbidden pairs and 0 forbidden triples\n",
    ),
    (
        16,
        16,
        b"2 1\n",
        b"line 20: the text ends, but symbol 3 of forbidden triple 1 was awaited\nline 16 announces 2 forbidden pairs and 1 forbidden triples\n",
    ),
    (
        13,
        13,
        b"",
        b"line 16: Late, but the number of forbidden pairs was awaited\nsix numbers stand behind the shifts: 2 for days off, 2 for work, and how many pairs and triples\n",
    ),
    (
        4,
        4,
        b"",
        b"line 5: 4..5, but the number of shifts was awaited\nthe text begins with the numbers of days, weeks and shifts\n",
    ),
    (
        2,
        2,
        b"",
        b"line 5: 4..5, but the number of shifts was awaited\nthe text begins with the numbers of days, weeks and shifts\n",
    ),
    (
        2,
        3,
        b"12\n7\n",
        b"line 9: Early, but the demand of shift 2 on day 10 was awaited\nline 6 has 7 words, and there are 12 days\n",
    ),
    (
        1,
        19,
        b"",
        b"line 1: the text ends, but the number of days was awaited\nthe text has no words\n",
    ),
    (
        6,
        6,
        b"4..5 700 4..5 4..5 4..5 2..3 2..3\n",
        b"line 6: 700, but the demand of shift 1 on day 2 is at most 600\n",
    ),
    (
        2,
        3,
        b"28\n151\n",
        b"line 3: 151, but 151 weeks of 28 days have more than 4200 days\n",
    ),
];

#[test]
fn mistakes_are_explained(rt: HostRuntime) -> Result<(), Fail> {
    for (first, last, text, words) in MISTAKES {
        let file = ward_with(rt.alloc(), first, last, text)?;
        let said = explained(rt.alloc(), &file)?;
        assert_eq!(rt; said.as_slice(), words);
    }
    Ok(())
}

#[test]
fn numeric_long_names_are_found(rt: HostRuntime) -> Result<(), Fail> {
    let text =
        b"2\n1\n3\n1 0\n1 0\n1 0\nD 360 480 1 5\nL 840 480 2 5 6\nN 1320 480 Night 1 1\n1 1\n1 1\n0 0\n";
    let found = numeric_long_names(rt.alloc(), text)?;
    let expected = [LongNumber {
        line: 8,
        shift: 2,
        long_name: 2,
        least: 5,
        greatest: 6,
    }];
    assert_eq!(rt; found.as_slice(), expected.as_slice());
    Ok(())
}
