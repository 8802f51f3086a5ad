use super::*;
use std::alloc::Global;
use std::process::Abort;
use std::test::*;

const COORDINATES: [(&str, Result<i32, NumFault>); 60] = [
    ("0", Ok(0)),
    ("-0", Ok(0)),
    ("+0", Ok(0)),
    ("007", Ok(7)),
    ("+4", Ok(4)),
    ("-4", Ok(-4)),
    ("4.", Ok(4)),
    ("-4.0", Ok(-4)),
    ("0.", Ok(0)),
    (".0", Ok(0)),
    (".5e1", Ok(5)),
    ("0e5", Ok(0)),
    ("0e999", Ok(0)),
    ("0e999999999999999999", Ok(0)),
    ("-0e-99999", Ok(0)),
    ("1e+06", Ok(1000000)),
    ("1E3", Ok(1000)),
    ("1e0", Ok(1)),
    ("1e-0", Ok(1)),
    ("250e-1", Ok(25)),
    ("12.50e1", Ok(125)),
    ("000000000000000000000000000000000000.5e1", Ok(5)),
    ("1000000000000000000000000000000000e-30", Ok(1000)),
    ("1073741824", Ok(1073741824)),
    ("-1073741824", Ok(-1073741824)),
    ("1.073741824e9", Ok(1073741824)),
    ("10737418240e-1", Ok(1073741824)),
    ("0000000000000000000000000000001073741824", Ok(1073741824)),
    ("1073741825", Err(NumFault::Range)),
    ("-1073741825", Err(NumFault::Range)),
    ("1e999", Err(NumFault::Range)),
    (
        "1e99999999999999999999999999999999999999",
        Err(NumFault::Range),
    ),
    (
        "9999999999999999999999999999999999999999",
        Err(NumFault::Range),
    ),
    ("0.5", Err(NumFault::NotWhole)),
    (".5", Err(NumFault::NotWhole)),
    ("5e-1", Err(NumFault::NotWhole)),
    ("25e-1", Err(NumFault::NotWhole)),
    ("4.5", Err(NumFault::NotWhole)),
    ("1e-999", Err(NumFault::NotWhole)),
    (
        "1e-9999999999999999999999999999999999999",
        Err(NumFault::NotWhole),
    ),
    ("99999999999999999999.5", Err(NumFault::NotWhole)),
    ("1073741825.5", Err(NumFault::NotWhole)),
    (
        "00000000000000000000000000000001073741824",
        Err(NumFault::Bad),
    ),
    ("", Err(NumFault::Bad)),
    ("-", Err(NumFault::Bad)),
    ("+", Err(NumFault::Bad)),
    (".", Err(NumFault::Bad)),
    ("-.", Err(NumFault::Bad)),
    ("e5", Err(NumFault::Bad)),
    (".e5", Err(NumFault::Bad)),
    ("1e", Err(NumFault::Bad)),
    ("1e+", Err(NumFault::Bad)),
    ("1e1.0", Err(NumFault::Bad)),
    ("1e5e5", Err(NumFault::Bad)),
    ("1.2.3", Err(NumFault::Bad)),
    ("--1", Err(NumFault::Bad)),
    ("1-", Err(NumFault::Bad)),
    ("nan", Err(NumFault::Bad)),
    ("inf", Err(NumFault::Bad)),
    ("0x10", Err(NumFault::Bad)),
];

#[test]
fn coordinates(rt: HostRuntime) {
    for (text, want) in COORDINATES {
        assert_eq!(rt; whole(text.as_bytes()), want, "{text}");
    }
}

#[test]
fn counts_and_signed_numbers(rt: HostRuntime) {
    let counts: [(&str, u64, Result<u64, CountFault>); 12] = [
        ("0", 0, Ok(0)),
        ("00012", 12, Ok(12)),
        ("13", 12, Err(CountFault::Over)),
        ("18446744073709551615", u64::MAX, Ok(u64::MAX)),
        ("18446744073709551616", u64::MAX, Err(CountFault::Over)),
        ("0000000000000000000000000000000000000007", 9, Ok(7)),
        (
            "9999999999999999999999999999999999999999",
            u64::MAX,
            Err(CountFault::Over),
        ),
        (
            "00000000000000000000000000000000000000007",
            9,
            Err(CountFault::Bad),
        ),
        ("", 9, Err(CountFault::Bad)),
        ("+1", 9, Err(CountFault::Bad)),
        ("-1", 9, Err(CountFault::Bad)),
        ("4.0", 9, Err(CountFault::Bad)),
    ];
    for (text, most, want) in counts {
        assert_eq!(rt; count(text.as_bytes(), most), want, "{text}");
    }
    let signs: [(&str, i64, i64, Result<i64, CountFault>); 16] = [
        ("-0", 0, 0, Ok(0)),
        ("+007", 0, 9, Ok(7)),
        ("-1024", -1024, 1024, Ok(-1024)),
        ("-1025", -1024, 1024, Err(CountFault::Over)),
        ("1025", -1024, 1024, Err(CountFault::Over)),
        ("9223372036854775807", i64::MIN, i64::MAX, Ok(i64::MAX)),
        (
            "9223372036854775808",
            i64::MIN,
            i64::MAX,
            Err(CountFault::Over),
        ),
        ("-9223372036854775808", i64::MIN, i64::MAX, Ok(i64::MIN)),
        (
            "-9223372036854775809",
            i64::MIN,
            i64::MAX,
            Err(CountFault::Over),
        ),
        ("-000000000000000000000000000000000000001", -1, 0, Ok(-1)),
        (
            "-0000000000000000000000000000000000000001",
            -1,
            0,
            Err(CountFault::Bad),
        ),
        ("", 0, 9, Err(CountFault::Bad)),
        ("-", 0, 9, Err(CountFault::Bad)),
        ("+-1", 0, 9, Err(CountFault::Bad)),
        ("4.0", 0, 9, Err(CountFault::Bad)),
        ("5", 9, 0, Err(CountFault::Over)),
    ];
    for (text, least, most, want) in signs {
        assert_eq!(rt; signed(text.as_bytes(), least, most), want, "{text}");
    }
}

#[test]
fn printed_numbers(rt: HostRuntime) -> Result<(), Fail> {
    let alloc = rt.alloc();
    let mut out = Vec::new(alloc);
    for value in [0, 7, -1, 10, 4294967296, i64::MAX, i64::MIN] {
        put_number(alloc, &mut out, value)?;
        put_text(alloc, &mut out, b"|")?;
    }
    put_list(alloc, &mut out, &[])?;
    put_text(alloc, &mut out, b"|")?;
    put_list(alloc, &mut out, &[7])?;
    put_text(alloc, &mut out, b"|")?;
    put_list(alloc, &mut out, &[0, 20, u32::MAX])?;
    assert_eq!(rt;
        out.as_slice(),
        b"0|7|-1|10|4294967296|9223372036854775807|-9223372036854775808||7|0 20 4294967295".as_slice()
    );
    Ok(())
}

/// Writes the next tokens, as `place=text;`, and `end place.` at the end.
fn write_tokens(alloc: Global, tokens: &mut Tokens, out: &mut Vec<u8>) -> Result<(), NoMemory> {
    for _i in 0..u64::MAX {
        match tokens.next() {
            Taken::Token { place, text } => {
                put_number(alloc, out, place.min(99) as i64)?;
                put_text(alloc, out, b"=")?;
                put_text(alloc, out, text)?;
                put_text(alloc, out, b";")?;
            }
            Taken::More => return Ok(()),
            Taken::End { place } => {
                put_text(alloc, out, b"end ")?;
                return put_number(alloc, out, place.min(99) as i64);
            }
        }
    }
    Ok(())
}

/// Writes what each next line is, up to the end.
fn write_skips(alloc: Global, tokens: &mut Tokens, out: &mut Vec<u8>) -> Result<(), NoMemory> {
    for _i in 0..u64::MAX {
        match tokens.skip_line() {
            Skipped::Blank => put_text(alloc, out, b"b")?,
            Skipped::Text => put_text(alloc, out, b"t")?,
            Skipped::More => return Ok(()),
            Skipped::End => return put_text(alloc, out, b"."),
        }
    }
    Ok(())
}

fn feed(rt: &impl Abort, alloc: Global, tokens: &mut Tokens, piece: &[u8]) -> Result<(), NoMemory> {
    assert!(rt; !tokens.is_finished() && tokens.end() < 100000 && piece.len() < 100000);
    tokens.feed(alloc, piece)
}

#[test]
fn tokens_of_each_cut(rt: HostRuntime) -> Result<(), Fail> {
    let text = b" \tab\x0bc\x0c\r\nd\n\n  efg\r\n \x00\x7f\xff-1.5e3\tlast";
    let want = b"2=ab;5=c;9=d;14=efg;20=\x00\x7f\xff-1.5e3;30=last;end 34";
    let alloc = rt.alloc();
    for cut in 0..text.len() + 1 {
        let mut tokens = Tokens::new(alloc);
        let mut out = Vec::new(alloc);
        feed(&rt, alloc, &mut tokens, &text[..cut])?;
        write_tokens(alloc, &mut tokens, &mut out)?;
        feed(&rt, alloc, &mut tokens, &text[cut..])?;
        write_tokens(alloc, &mut tokens, &mut out)?;
        tokens.finish();
        write_tokens(alloc, &mut tokens, &mut out)?;
        assert_eq!(rt; out.as_slice(), want.as_slice(), "cut at {cut}");
    }
    let mut tokens = Tokens::new(alloc);
    let mut out = Vec::new(alloc);
    for piece in text.chunks(1) {
        feed(&rt, alloc, &mut tokens, piece)?;
        write_tokens(alloc, &mut tokens, &mut out)?;
    }
    tokens.finish();
    write_tokens(alloc, &mut tokens, &mut out)?;
    assert_eq!(rt; out.as_slice(), want.as_slice(), "byte by byte");
    Ok(())
}

#[test]
fn skipped_lines_of_each_cut(rt: HostRuntime) -> Result<(), Fail> {
    let text = b"a\n\n \t\x0b\x0c\r\n b\r\n\n\r";
    let alloc = rt.alloc();
    for cut in 0..text.len() + 1 {
        let mut tokens = Tokens::new(alloc);
        let mut out = Vec::new(alloc);
        feed(&rt, alloc, &mut tokens, &text[..cut])?;
        write_skips(alloc, &mut tokens, &mut out)?;
        feed(&rt, alloc, &mut tokens, &text[cut..])?;
        write_skips(alloc, &mut tokens, &mut out)?;
        tokens.finish();
        write_skips(alloc, &mut tokens, &mut out)?;
        assert_eq!(rt; out.as_slice(), b"tbbtbb.".as_slice(), "cut at {cut}");
    }
    Ok(())
}

/// The line of at most 256 bytes that is found at the front, as its length, 999 where it is long, 888 where more bytes
/// decide, 777 at the end.
fn line_length(tokens: &mut Tokens) -> usize {
    match tokens.line(256) {
        LineTaken::Line { place: _, text } => text.len(),
        LineTaken::Long { place: _ } => 999,
        LineTaken::More => 888,
        LineTaken::End { place: _ } => 777,
    }
}

/// The length of the first line of a text that is cut there.
fn first_line(rt: &impl Abort, alloc: Global, text: &[u8], cut: usize) -> Result<usize, NoMemory> {
    let mut tokens = Tokens::new(alloc);
    let (front, back) = text.split_at(cut.min(text.len()));
    feed(rt, alloc, &mut tokens, front)?;
    let early = line_length(&mut tokens);
    if early != 888 {
        return Ok(early);
    }
    feed(rt, alloc, &mut tokens, back)?;
    tokens.finish();
    Ok(line_length(&mut tokens))
}

#[test]
fn long_and_short_lines(rt: HostRuntime) -> Result<(), Fail> {
    let alloc = rt.alloc();
    let table: [(usize, &str, usize); 11] = [
        (255, "\ny", 255),
        (255, "\r\ny", 255),
        (256, "\ny", 256),
        (256, "\r\ny", 256),
        (255, "\r\r\n", 256),
        (257, "\ny", 999),
        (257, "\r\ny", 999),
        (258, "\ny", 999),
        (0, "\r\n", 0),
        (257, "", 777),
        (258, "", 999),
    ];
    for (count, end, want) in table {
        let mut text = Vec::new(alloc);
        for _i in 0..count {
            put_text(alloc, &mut text, b"x")?;
        }
        put_text(alloc, &mut text, end.as_bytes())?;
        for cut in 0..262 {
            let found = first_line(&rt, alloc, &text, cut)?;
            assert_eq!(rt; found, want, "{count} bytes, cut at {cut}");
        }
    }
    let mut tokens = Tokens::new(alloc);
    feed(&rt, alloc, &mut tokens, b"one\ntwo\n")?;
    assert_eq!(rt;
        tokens.line(usize::MAX),
        LineTaken::Line {
            place: 0,
            text: b"one"
        }
    );
    assert_eq!(rt;
        tokens.line(3),
        LineTaken::Line {
            place: 4,
            text: b"two"
        }
    );
    assert_eq!(rt; tokens.line(usize::MAX), LineTaken::More);
    Ok(())
}

/// Further numbers, each spelled plainly.
const FURTHER: &[u8] =
    b"2 3 4 5 6 7 8 9 2 3 4 5 6 7 8 9 2 3 4 5 6 7 8 9 2 3 4 5 6 7 8 9 2 3 4 5 6 7 8 9 ";

/// A spelling, and the count and the coordinate that it is ahead of further numbers, where it is plain.
const SPELLINGS: [(&[u8], Option<u64>, Option<i32>); 31] = [
    (b"7 ", Some(7), Some(7)),
    (b"7\r\n", Some(7), Some(7)),
    (b"7\t", Some(7), Some(7)),
    (b"7\x0b", Some(7), Some(7)),
    (b"7\x0c", Some(7), Some(7)),
    (b"\r\n\t7 ", Some(7), Some(7)),
    (b" \x0b\x0c7    ", Some(7), None),
    (b"    7 ", None, None),
    (b"007 ", Some(7), Some(7)),
    (b"123456789 ", Some(123456789), Some(123456789)),
    (b"000000007 ", Some(7), Some(7)),
    (b"0000000007 ", None, Some(7)),
    (b"00000000007 ", None, Some(7)),
    (b"1073741824 ", None, Some(1073741824)),
    (b"1073741825 ", None, None),
    (b"+4 ", None, Some(4)),
    (b"-4 ", None, Some(-4)),
    (b"-0 ", None, Some(0)),
    (b"4. ", None, Some(4)),
    (b".0 ", None, Some(0)),
    (b".5 ", None, None),
    (b".5e1 ", None, Some(5)),
    (b"1e+06 ", None, Some(1000000)),
    (b"1e ", None, None),
    (b"7x ", None, None),
    (b"7,", None, None),
    (b"7\x00 ", None, None),
    (b"x7 ", None, None),
    (b"1.2.3 ", None, None),
    (b"0000000000000000000000000000000000000007 ", None, Some(7)),
    (b"00000000000000000000000000000000000000007 ", None, None),
];

/// The tokens of these bytes, where more may come.
fn begun(rt: &impl Abort, alloc: Global, bytes: &[u8]) -> Result<Tokens, NoMemory> {
    let mut tokens = Tokens::new(alloc);
    feed(rt, alloc, &mut tokens, bytes)?;
    Ok(tokens)
}

/// The count that the next token spells.
fn next_count(tokens: &mut Tokens) -> Option<u64> {
    match tokens.next() {
        Taken::Token { place: _, text } => count(text, u64::MAX).ok(),
        _ => None,
    }
}

/// The coordinate that the next token spells.
fn next_coordinate(tokens: &mut Tokens) -> Option<i32> {
    match tokens.next() {
        Taken::Token { place: _, text } => whole(text).ok(),
        _ => None,
    }
}

/// Whether the count ahead is this one, or none is seen where one may be missing, and taking the token gives the same.
fn has_count(mut tokens: Tokens, want: Option<u64>, may_miss: bool) -> bool {
    match tokens.count_ahead() {
        Some(front) => {
            let behind = tokens.place().saturating_add(front.len as u64);
            Some(front.value) == want && next_count(&mut tokens) == want && tokens.place() == behind
        }
        None => may_miss || want.is_none(),
    }
}

/// Whether the point ahead has this x, y 2 and z 3, or none is seen where one may be missing, and taking the tokens
/// gives the same.
fn has_point(mut tokens: Tokens, x: Option<i32>, may_miss: bool) -> bool {
    match tokens.point_ahead() {
        Some(point) => {
            let behind = tokens.place().saturating_add(point.len as u64);
            Some(point.x) == x
                && (point.y, point.z) == (2, 3)
                && next_coordinate(&mut tokens) == x
                && next_coordinate(&mut tokens) == Some(2)
                && next_coordinate(&mut tokens) == Some(3)
                && tokens.place() == behind
        }
        None => may_miss || x.is_none(),
    }
}

#[test]
fn numbers_ahead_at_each_cut(rt: HostRuntime) -> Result<(), Fail> {
    let alloc = rt.alloc();
    for (spelling, value, x) in SPELLINGS {
        let mut text = spelling.to_vec(alloc)?;
        text.extend_from_slice(FURTHER)?;
        for cut in 0..text.len() + 1 {
            let cut_off = cut < text.len();
            let counted = has_count(begun(&rt, alloc, &text[..cut])?, value, cut_off);
            let placed = has_point(begun(&rt, alloc, &text[..cut])?, x, cut_off);
            assert!(rt; counted && placed, "{text:?} cut at {cut}");
        }
    }
    let four = begun(&rt, alloc, b" 4 10\t11\r\n12 13 14 15 16 17 18")?;
    let row = four.row_ahead(4);
    assert!(rt; matches!(&row, Some(row) if row.values == [10, 11, 12, 13] && row.len == 15));
    assert!(rt; four.row_ahead(3).is_none());
    Ok(())
}
