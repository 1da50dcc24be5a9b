//! Text lines at their edges, a rack that is full, and lives of few shots.
use crate::*;
use law::{Call, Moment, Reply};
use lines::{Line, Side};
use racks::{Rack, RecordRack};
use shots::{Refusal, Shot};
use slips::Row;
use std::test::Fail;

// The line of three numbers.
fn line(a: i32, b: i32, c: i32) -> Result<Line, Fail> {
    Line::new(a, b, c).ok_or_else(|| Fail::new("no line"))
}

#[test]
fn cards_are_lines(rt: HostRuntime) {
    assert_eq!(rt; read_card(b"25\t-1\t1000"), Line::new(25, -1, 1000));
    assert!(rt; read_card(b"1\t0\t-96000000").is_some());
    assert!(rt; read_card(b"1\t0\t96000001").is_none());
    assert!(rt; read_card(b"2\t4\t0").is_none());
    assert!(rt; read_card(b"1\t0").is_none());
    assert!(rt; read_card(b"1\t0\t0\t0").is_none());
    assert!(rt; read_card(b"").is_none());
}

#[test]
fn verdicts_name_a_cheaper_line(rt: HostRuntime) -> Result<(), Fail> {
    let level = line(1, 0, 0)?;
    let best = line(75, -1, 2000)?;
    let mut records = [Shot::try_from(Entry::new(1, 0, 1, 0))?; 5];
    let mut rack = RecordRack::open(&mut records);
    rack.add(Entry::new(500, 20, 1, 0))?;
    rack.add(Entry::new(1000, 0, 1, 0))?;
    assert_eq!(rt; verdict(&rack, level), Answer::Untested);
    rack.add(Entry::new(2000, 0, 1, 0))?;
    rack.add(Entry::new(3000, 0, 1, 0))?;
    rack.add(Entry::new(3500, -20, 1, 0))?;
    assert_eq!(rt;
        verdict(&rack, level),
        Answer::NotCheapest {
            at: Row {
                place: 2,
                rise: 5000,
                fall: -1000,
            },
            by: CheaperLine {
                a: 75,
                b: -1,
                c: 2000,
                total: 2000,
            },
        }
    );
    assert_eq!(rt; verdict(&rack, best), Answer::Cheapest);
    Ok(())
}

#[test]
fn a_life_finds_the_best_line(rt: HostRuntime) -> Result<(), Fail> {
    let mut records = [Shot::try_from(Entry::new(1, 0, 1, 0))?; 5];
    let mut rack = RecordRack::open(&mut records);
    rack.add(Entry::new(500, 20, 1, 0))?;
    rack.add(Entry::new(1000, 0, 1, 0))?;
    rack.add(Entry::new(2000, 0, 1, 0))?;
    rack.add(Entry::new(3000, 0, 1, 0))?;
    rack.add(Entry::new(3500, -20, 1, 0))?;
    let mut others = [Shot::try_from(Entry::new(1, 0, 1, 0))?; 5];
    let mut fresh = RecordRack::open(&mut others);
    let mut calls = [Call::Issue; 11];
    let mut moments = [Moment {
        call: Call::Issue,
        reply: Reply::Done,
        pass: None,
    }; 11];
    assert!(rt;
        find_best(&rack, &mut fresh, &mut calls, &mut moments[..10])
            .found
            .is_none()
    );
    let Some(found) = find_best(&rack, &mut fresh, &mut calls, &mut moments).found else {
        return Err(Fail::new("there is room for 11 moments"));
    };
    assert_eq!(rt; found.count, 11);
    assert_eq!(rt;
        found.best,
        BestLine(Some(CheaperLine {
            a: 75,
            b: -1,
            c: 2000,
            total: 2000,
        }))
    );
    Ok(())
}

#[test]
fn one_speed_has_no_line(rt: HostRuntime) -> Result<(), Fail> {
    let mut records = [Shot::try_from(Entry::new(1, 0, 1, 0))?; 2];
    let mut rack = RecordRack::open(&mut records);
    rack.add(Entry::new(500, 20, 1, 0))?;
    rack.add(Entry::new(500, 10, 1, 0))?;
    let mut others = [Shot::try_from(Entry::new(1, 0, 1, 0))?; 2];
    let mut fresh = RecordRack::open(&mut others);
    let mut calls = [Call::Issue; 5];
    let mut moments = [Moment {
        call: Call::Issue,
        reply: Reply::Done,
        pass: None,
    }; 5];
    let Some(found) = find_best(&rack, &mut fresh, &mut calls, &mut moments).found else {
        return Err(Fail::new("there is room for 5 moments"));
    };
    assert_eq!(rt; found.best, BestLine(None));
    assert_eq!(rt; moments[2].reply, Reply::Refused(Refusal::OneSpeed));
    Ok(())
}

#[test]
fn text_lines_end_at_feeds(rt: HostRuntime) {
    assert!(rt; text_line(b"").is_none());
    assert!(rt; text_line(b"a\n\nb") == Some((b"a", b"\nb")));
    assert!(rt; text_line(b"\nb") == Some((b"", b"b")));
    assert!(rt; text_line(b"b") == Some((b"b", b"")));
}

#[test]
fn a_full_rack_refuses_by_5(rt: HostRuntime) -> Result<(), Fail> {
    let line = line(25, -1, 1000)?;
    let mut records = [Shot::try_from(Entry::new(1, 0, 1, 0))?; 1];
    let mut rack = RecordRack::open(&mut records);
    assert_eq!(rt;
        judge(&mut rack, line, b"2000\t0\t3\t0", 2),
        Answer::Judged {
            place: 0,
            side: Side::Late,
            miss: 1000,
        }
    );
    assert_eq!(rt;
        judge(&mut rack, line, b"500\t20\t1\t0", 3),
        Answer::Refused {
            refusal: Refusal::Full,
            line: 3,
        }
    );
    assert_eq!(rt;
        close(&rack, line),
        Answer::Total {
            total: 3000,
            a: 25,
            thousandths: 120000,
        }
    );
    Ok(())
}
