//! The rules at work, on numbers that are worked out by hand.
use crate::{Line, PricedLine, Side, Slope, gcd, reduced};
use shots::{Entry, Shot};
use std::test::Fail;

/// The three numbers of a line.
fn numbers(line: Option<Line>) -> Option<(i32, i32, i32)> {
    line.map(|line| (line.a, line.b, line.c))
}

/// The two terms of a slope.
fn terms(slope: Option<Slope>) -> Option<(i32, i32)> {
    slope.map(|slope| (slope.rise, slope.run))
}

/// A shot that counts twice.
fn shot(speed: i32, lead: i32) -> Result<Shot, Fail> {
    Ok(Shot::try_from(Entry::new(speed, lead, 2, 0))?)
}

/// The line of three numbers.
fn line(a: i32, b: i32, c: i32) -> Result<Line, Fail> {
    Line::new(a, b, c).ok_or_else(|| Fail::new("no line"))
}

/// The slope of two terms.
fn slope(rise: i32, run: i32) -> Result<Slope, Fail> {
    reduced(rise, run).ok_or_else(|| Fail::new("no slope"))
}

#[test]
fn divisors(rt: HostRuntime) {
    assert_eq!(rt; gcd(12, 18), 6);
    assert_eq!(rt; gcd(0, 7), 7);
    assert_eq!(rt; gcd(0, 0), 0);
    assert_eq!(rt; terms(reduced(-4, 6)), Some((-2, 3)));
    assert_eq!(rt; terms(reduced(i32::MIN, 2)), Some((-1_073_741_824, 1)));
    assert_eq!(rt; terms(reduced(3, 0)), None);
    assert_eq!(rt; terms(reduced(3, i32::MIN)), None);
}

#[test]
fn lines_through_two_shots(rt: HostRuntime) -> Result<(), Fail> {
    let p = shot(500, 20)?;
    let q = shot(1000, 0)?;
    let r = shot(3000, 0)?;
    let s = shot(1000, 7)?;
    assert_eq!(rt; numbers(Line::through(p, q)), Some((25, -1, 1000)));
    assert_eq!(rt; numbers(Line::through(q, p)), Some((25, -1, 1000)));
    assert_eq!(rt; numbers(Line::through(q, r)), Some((1, 0, 0)));
    assert_eq!(rt; numbers(Line::through(q, s)), None);
    assert_eq!(rt; numbers(Line::through(q, q)), None);
    Ok(())
}

#[test]
fn numbers_that_make_a_line(rt: HostRuntime) {
    assert_eq!(rt; numbers(Line::new(1, 0, 0)), Some((1, 0, 0)));
    let low = Some((1, -16_000, -96_000_000));
    assert_eq!(rt; numbers(Line::new(1, -16_000, -96_000_000)), low);
    let high = Some((3999, 16_000, 96_000_000));
    assert_eq!(rt; numbers(Line::new(3999, 16_000, 96_000_000)), high);
}

#[test]
fn numbers_that_make_none(rt: HostRuntime) {
    assert_eq!(rt; numbers(Line::new(0, 1, 0)), None);
    assert_eq!(rt; numbers(Line::new(4000, 1, 0)), None);
    assert_eq!(rt; numbers(Line::new(1, -16_001, 0)), None);
    assert_eq!(rt; numbers(Line::new(1, 16_001, 0)), None);
    assert_eq!(rt; numbers(Line::new(1, 0, -96_000_001)), None);
    assert_eq!(rt; numbers(Line::new(1, 0, 96_000_001)), None);
    assert_eq!(rt; numbers(Line::new(2, 4, 0)), None);
    assert_eq!(rt; numbers(Line::new(2, 0, 5)), None);
    assert_eq!(rt; numbers(Line::new(i32::MIN, 1, 0)), None);
    assert_eq!(rt; numbers(Line::new(1, i32::MIN, 0)), None);
    assert_eq!(rt; numbers(Line::new(1, 0, i32::MIN)), None);
}

#[test]
fn misses_and_shares(rt: HostRuntime) -> Result<(), Fail> {
    let line = line(25, -1, 1000)?;
    let on = shot(1000, 0)?;
    let late = shot(1000, 4)?;
    let early = shot(500, 10)?;
    assert_eq!(rt; line.miss(on), 0);
    assert_eq!(rt; line.miss(late), 100);
    assert_eq!(rt; line.miss(early), -250);
    assert_eq!(rt; line.side(on), Side::On);
    assert_eq!(rt; line.side(late), Side::Late);
    assert_eq!(rt; line.side(early), Side::Early);
    assert_eq!(rt; line.share(on, (3, 1)), 0);
    assert_eq!(rt; line.share(late, (3, 1)), 600);
    assert_eq!(rt; line.share(early, (3, 1)), 500);
    Ok(())
}

#[test]
fn the_greatest_miss(rt: HostRuntime) -> Result<(), Fail> {
    let line = line(3999, -16_000, -96_000_000)?;
    let far = Shot {
        speed: 4000,
        lead: 8000,
        weight: 100,
        stuff: 0,
    };
    assert_eq!(rt; line.miss(far), 191_992_000);
    assert_eq!(rt; line.share(far, (20, 1)), 383_984_000_000);
    Ok(())
}

#[test]
fn cheaper_lines(rt: HostRuntime) -> Result<(), Fail> {
    let flat = line(1, 0, 0)?;
    let steep = line(25, -1, 1000)?;
    let total = i64::MAX;
    let one = PricedLine { line: flat, total };
    let other = PricedLine { line: steep, total };
    assert!(rt; other.is_cheaper_than(one));
    assert!(rt; !one.is_cheaper_than(other));
    assert!(rt; !one.is_cheaper_than(one));
    let total = i64::MIN;
    let least = PricedLine { line: flat, total };
    let less = PricedLine { line: steep, total };
    assert!(rt; least.is_cheaper_than(less));
    assert!(rt; !less.is_cheaper_than(least));
    Ok(())
}

#[test]
fn slopes_of_two_shots(rt: HostRuntime) -> Result<(), Fail> {
    let p = shot(500, 20)?;
    let q = shot(1000, 0)?;
    assert_eq!(rt; terms(Slope::between(p, q)), Some((-1, 25)));
    assert_eq!(rt; terms(Slope::between(q, p)), None);
    assert_eq!(rt; terms(Slope::between(p, p)), None);
    Ok(())
}

#[test]
fn slopes_in_order(rt: HostRuntime) -> Result<(), Fail> {
    let half = slope(1, 2)?;
    let third = slope(1, 3)?;
    let fall = slope(-7, 1)?;
    assert!(rt; third < half);
    assert!(rt; fall < third);
    assert!(rt; half <= slope(5, 10)?);
    assert!(rt; slope(i32::MIN, i32::MAX)? < slope(i32::MAX, i32::MAX)?);
    Ok(())
}

#[test]
fn shots_on_a_line(rt: HostRuntime) -> Result<(), Fail> {
    let line = line(25, -1, 1000)?;
    assert!(rt; line.passes_through(shot(1000, 0)?));
    assert!(rt; !line.passes_through(shot(1000, 4)?));
    assert!(rt; !line.passes_through(shot(500, 10)?));
    Ok(())
}
