use rwsp_text::{Fields, LineReader, number, put_number, put_signed, tokens};
use std::test::Fail;

#[test]
fn words_stand_on_their_lines(rt: HostRuntime) -> Result<(), Fail> {
    let text = b"# none\n2\tab#c \r\n\n#D E\n x # y\nlast";
    let found = tokens(rt.alloc(), text)?;
    assert_eq!(rt; found.len(), 4);
    let wanted = [(7usize, 8usize, 2u32), (9, 13, 2), (23, 24, 5), (29, 33, 6)];
    for (token, want) in found.iter().zip(wanted.iter()) {
        assert_eq!(rt; (token.start, token.end, token.line), *want);
    }
    Ok(())
}

#[test]
fn numbers_are_read(rt: HostRuntime) -> Result<(), Fail> {
    let cases: [(&[u8], Option<u32>); 6] = [
        (b"007", Some(7)),
        (b"999999999", Some(999_999_999)),
        (b"", None),
        (b"0000000001", None),
        (b"2x", None),
        (b"-1", None),
    ];
    for (word, value) in cases {
        assert_eq!(rt; number(word), value);
    }
    Ok(())
}

#[test]
fn numbers_are_printed(rt: HostRuntime) -> Result<(), Fail> {
    let mut out = Vec::new(rt.alloc());
    put_number(&mut out, 0)?;
    put_number(&mut out, 18_446_744_073_709_551_615)?;
    put_signed(&mut out, -2_147_483_648)?;
    put_signed(&mut out, 7)?;
    let printed = b"018446744073709551615-21474836487";
    assert_eq!(rt; out.as_slice(), printed.as_slice());
    Ok(())
}

#[test]
fn lines_and_fields_are_read_one_by_one(rt: HostRuntime) -> Result<(), Fail> {
    let mut lines = LineReader::new(b"a\r\n\nb");
    for line in [b"a\r\n".as_slice(), b"\n".as_slice(), b"b".as_slice()] {
        assert_eq!(rt; lines.next(), Some(line));
    }
    assert_eq!(rt; [lines.next(), lines.next()], [None, None]);
    let mut fields = Fields::of(b"split 2 7 D -12 over 05");
    assert!(rt; fields.word(b"split").is_some());
    assert_eq!(rt; fields.place(4, 7), Some(13));
    assert_eq!(rt; fields.name(), Some(b"D".as_slice()));
    assert_eq!(rt; fields.value(1_000), Some(-12));
    assert_eq!(rt; fields.choice(b"over", b"short"), Some(true));
    assert_eq!(rt; fields.number(1, 9), None);
    assert!(rt; !fields.is_done());
    Ok(())
}
