//! Fields and numbers at their edges.
use crate::*;

#[test]
fn numbers_have_one_spelling(rt: HostRuntime) {
    assert_eq!(rt; number(b"0", Digits::Six), Some(0));
    assert_eq!(rt; number(b"-5", Digits::Six), Some(-5));
    assert_eq!(rt; number(b"-0", Digits::Six), None);
    assert_eq!(rt; number(b"+5", Digits::Six), None);
    assert_eq!(rt; number(b"007", Digits::Six), None);
    assert_eq!(rt; number(b"-", Digits::Six), None);
    assert_eq!(rt; number(b"", Digits::Six), None);
}

#[test]
fn numbers_end_at_six_or_eight_digits(rt: HostRuntime) {
    assert_eq!(rt; number(b"999999", Digits::Six), Some(999999));
    assert_eq!(rt; number(b"-1000000", Digits::Six), None);
    assert_eq!(rt; number(b"1000000", Digits::Eight), Some(1000000));
    assert_eq!(rt; number(b"-99999999", Digits::Eight), Some(-99999999));
    assert_eq!(rt; number(b"100000000", Digits::Eight), None);
}

#[test]
fn fields_stand_between_tabs(rt: HostRuntime) {
    let line = b"set\t\t-12\tx";
    assert_eq!(rt; field_count(line), 4);
    assert!(rt; field(line, 0) == Some(b"set"));
    assert!(rt; field(line, 1) == Some(b""));
    assert!(rt; field(line, 3) == Some(b"x"));
    assert!(rt; field(line, 4) == None);
    assert_eq!(rt; field_count(b""), 1);
}

#[test]
fn tokens_hold_their_fields(rt: HostRuntime) {
    let line = b"set\t\t-12";
    assert!(rt;
        match token_at(line, 0, Digits::Six) {
            Some(Token::Word(text)) => text == b"set".as_slice(),
            _ => false,
        }
    );
    assert!(rt;
        match token_at(line, 1, Digits::Six) {
            Some(Token::Blank(text)) => text.is_empty(),
            _ => false,
        }
    );
    assert!(rt;
        match token_at(line, 2, Digits::Six) {
            Some(Token::Number { text, value }) => text == b"-12".as_slice() && value == -12,
            _ => false,
        }
    );
    assert!(rt; token_at(line, 3, Digits::Six).is_none());
}

#[test]
fn numbers_are_written_where_they_fit(rt: HostRuntime) {
    let mut out = *b"......";
    assert_eq!(rt; put_number(&mut out, 3, -120), None);
    assert_eq!(rt; put_number(&mut out, usize::MAX, 0), None);
    assert!(rt; out == *b"......");
    assert_eq!(rt; put_number(&mut out, 2, -120), Some(6));
    assert_eq!(rt; put_number(&mut out, 0, 7), Some(1));
    assert!(rt; out == *b"7.-120");
}

#[test]
fn the_smallest_number_is_written(rt: HostRuntime) {
    let mut out = [b'.'; 20];
    assert_eq!(rt; put_number(&mut out, 0, i64::MIN), Some(20));
    assert!(rt; out == *b"-9223372036854775808");
}
