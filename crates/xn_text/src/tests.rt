// Words, numbers and texts with what they are.
use super::WordNumber::{Is, Large, Not};
use super::*;
use std::test::Fail;

#[test]
fn only_one_spelling_is_a_number(rt: HostRuntime) {
    let rows = [
        ("0", Is(0), Is(0)),
        ("7", Is(7), Is(7)),
        ("10", Is(10), Is(10)),
        ("00", Not, Not),
        ("01", Not, Not),
        ("", Not, Not),
        (" 1", Not, Not),
        ("1 ", Not, Not),
        ("+1", Not, Not),
        ("-1", Not, Not),
        ("1a", Not, Not),
        ("4294967295", Is(4294967295), Is(4294967295)),
        ("4294967296", Is(4294967296), Large),
        ("18446744073709551615", Is(18446744073709551615), Large),
        ("18446744073709551616", Large, Large),
        ("99999999999999999999999999999999999999999", Large, Large),
        ("99999999999999999999999999999999999999999a", Not, Not),
    ];
    for (word, wide, narrow) in rows {
        assert_eq!(rt; word_u64(word.as_bytes()), wide, "{word}");
        assert_eq!(rt; word_u32(word.as_bytes()), narrow, "{word}");
    }
}

#[test]
fn a_number_is_appended(rt: HostRuntime) -> Result<(), Fail> {
    for (n, want) in [
        (0, "n=0"),
        (907, "n=907"),
        (18446744073709551615, "n=18446744073709551615"),
    ] {
        let mut text = b"n=".to_vec(rt.alloc())?;
        put_u64(&mut text, n)?;
        assert_eq!(rt; text.as_slice(), want.as_bytes());
    }
    Ok(())
}

#[test]
fn a_whole_number_is_appended(rt: HostRuntime) -> Result<(), Fail> {
    let rows = [
        (0, "n=0"),
        (-13, "n=-13"),
        (-322818021289917153210, "n=-322818021289917153210"),
        (i128::MIN, "n=-170141183460469231731687303715884105728"),
        (i128::MAX, "n=170141183460469231731687303715884105727"),
    ];
    for (n, want) in rows {
        let mut text = b"n=".to_vec(rt.alloc())?;
        put_i128(&mut text, n)?;
        assert_eq!(rt; text.as_slice(), want.as_bytes());
    }
    Ok(())
}

#[test]
fn a_text_is_cut_into_lines(rt: HostRuntime) -> Result<(), Fail> {
    let rows: [(&str, &[(u64, &str, bool)]); 6] = [
        ("", &[]),
        ("\n", &[(1, "", true)]),
        ("a", &[(1, "a", false)]),
        ("a\r\n", &[(1, "a\r", true)]),
        ("a\n\nb", &[(1, "a", true), (2, "", true), (3, "b", false)]),
        ("a\n\n", &[(1, "a", true), (2, "", true)]),
    ];
    for (text, wanted) in rows {
        let mut lines = Lines::new(text.as_bytes());
        for (number, bytes, ended) in wanted {
            let line = lines.next().ok_or("a line is missing")?;
            assert_eq!(rt; line.number, *number);
            assert_eq!(rt; line.bytes, bytes.as_bytes());
            assert_eq!(rt; line.ended, *ended);
        }
        assert!(rt; lines.next().is_none());
    }
    Ok(())
}

#[test]
fn a_line_is_cut_at_each_space(rt: HostRuntime) -> Result<(), Fail> {
    let rows: [(&str, &[&str]); 5] = [
        ("", &[""]),
        ("edge", &["edge"]),
        ("edge 0 1", &["edge", "0", "1"]),
        ("edge  0", &["edge", "", "0"]),
        (" 0 ", &["", "0", ""]),
    ];
    for (line, wanted) in rows {
        let mut words = Words::new(line.as_bytes());
        for word in wanted {
            assert_eq!(rt; words.next().ok_or("a word is missing")?, word.as_bytes());
        }
        assert!(rt; words.next().is_none());
    }
    Ok(())
}
