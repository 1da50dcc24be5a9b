//! The worked examples on real racks: records, packed bytes and a mirror, at even and at set prices.
use crate::sample_life;
use law::{Call, Moment, Pivoted, Reply, Word};
use lines::{Line, PricedLine};
use racks::{Mirror, PackedRack, Rack, RecordRack};
use sheet::{Sheet, live};
use shots::{Entry, EvenPrices, PriceRule, Refusal, Shot, StuffPrices};
use slips::Row;
use std::process::Abort;
use std::test::Fail;

fn line(a: i32, b: i32, c: i32) -> Result<Line, Fail> {
    Line::new(a, b, c).ok_or_else(|| Fail::new("these three numbers make a line"))
}

// What a pivot should answer.
fn answer(word: Word, line: Line, total: i64) -> Result<Pivoted, Refusal> {
    Ok(Pivoted {
        word,
        priced: PricedLine { line, total },
    })
}

// The line for which issue answers a pass now.
fn in_force<R: Rack, P: PriceRule>(sheet: &Sheet<R, P>) -> Option<Line> {
    Some(sheet.issue().ok()?.give_up())
}

// The five shots, and three pivots that bring their line into force.
fn three_pivots<R: Rack, P: PriceRule>(
    rt: &impl Abort,
    sheet: &mut Sheet<R, P>,
) -> Result<(), Fail> {
    sheet.add(Entry::new(500, 20, 1, 0))?;
    sheet.add(Entry::new(1000, 0, 1, 0))?;
    sheet.add(Entry::new(2000, 0, 1, 0))?;
    sheet.add(Entry::new(3000, 0, 1, 0))?;
    sheet.add(Entry::new(3500, -20, 1, 0))?;
    let steep = line(25, -1, 1000)?;
    let gentle = line(75, -1, 2000)?;
    assert_eq!(rt; sheet.pivot(), answer(Word::Laid, steep, 5000));
    assert_eq!(rt; sheet.pivot(), answer(Word::Moved, gentle, 2000));
    assert_eq!(rt; in_force(sheet), None);
    assert_eq!(rt; sheet.pivot(), answer(Word::Proved, gentle, 2000));
    assert_eq!(rt; sheet.pivot(), answer(Word::Stands, gentle, 2000));
    assert_eq!(rt; in_force(sheet), Some(gentle));
    Ok(())
}

// Refused changes leave the line in force, one strike keeps it, and the next leaves no two speeds on it.
fn strikes<R: Rack, P: PriceRule>(rt: &impl Abort, sheet: &mut Sheet<R, P>) -> Result<(), Fail> {
    let gentle = line(75, -1, 2000)?;
    assert_eq!(rt; sheet.add(Entry::new(600, 600, 1, 0)), Err(Refusal::Full));
    assert_eq!(rt; sheet.add(Entry::new(0, 600, 1, 0)), Err(Refusal::Speed));
    assert_eq!(rt; sheet.strike(5), Err(Refusal::Place));
    assert_eq!(rt; in_force(sheet), Some(gentle));
    sheet.strike(2)?;
    assert_eq!(rt; in_force(sheet), Some(gentle));
    sheet.strike(0)?;
    assert_eq!(rt; in_force(sheet), None);
    assert_eq!(rt; sheet.pivot(), answer(Word::Laid, line(1, 0, 0)?, 20));
    Ok(())
}

#[test]
fn pivots_on_records(rt: HostRuntime) -> Result<(), Fail> {
    let mut records = [Shot::try_from(Entry::new(1, 0, 1, 0))?; 5];
    let mut rack = RecordRack::open(&mut records);
    let mut sheet = Sheet::begin(&mut rack, EvenPrices);
    three_pivots(&rt, &mut sheet)?;
    strikes(&rt, &mut sheet)
}

#[test]
fn pivots_on_packed_bytes(rt: HostRuntime) -> Result<(), Fail> {
    let mut bytes = [7; 35];
    let mut rack = PackedRack::open(&mut bytes);
    let mut sheet = Sheet::begin(&mut rack, StuffPrices::new());
    three_pivots(&rt, &mut sheet)?;
    strikes(&rt, &mut sheet)
}

#[test]
fn pivots_under_a_mirror(rt: HostRuntime) -> Result<(), Fail> {
    let mut bytes = [7; 30];
    let mut rack = PackedRack::open(&mut bytes);
    let mut sheet = Sheet::begin(Mirror::over(&mut rack), EvenPrices);
    three_pivots(&rt, &mut sheet)?;
    strikes(&rt, &mut sheet)
}

#[test]
fn a_strike_can_leave_a_cheaper_line(rt: HostRuntime) -> Result<(), Fail> {
    let mut records = [Shot::try_from(Entry::new(1, 0, 1, 0))?; 5];
    let mut rack = RecordRack::open(&mut records);
    let mut sheet = Sheet::begin(&mut rack, EvenPrices);
    three_pivots(&rt, &mut sheet)?;
    sheet.strike(0)?;
    assert_eq!(rt; in_force(&sheet), None);
    assert_eq!(rt; sheet.pivot(), answer(Word::Moved, line(1, 0, 0)?, 20));
    Ok(())
}

#[test]
fn one_speed_is_refused_by_7(rt: HostRuntime) -> Result<(), Fail> {
    let mut records = [Shot::try_from(Entry::new(1, 0, 1, 0))?; 9];
    let mut rack = RecordRack::open(&mut records);
    rack.add(Entry::new(1000, 0, 1, 0))?;
    // a shot already in the rack counts as held
    let mut sheet = Sheet::begin(&mut rack, EvenPrices);
    assert_eq!(rt; sheet.pivot(), Err(Refusal::OneSpeed));
    sheet.add(Entry::new(1000, 10, 1, 0))?;
    assert_eq!(rt; sheet.pivot(), Err(Refusal::OneSpeed));
    sheet.add(Entry::new(2000, 0, 1, 0))?;
    let level = line(1, 0, 0)?;
    assert_eq!(rt; sheet.pivot(), answer(Word::Laid, level, 10));
    assert_eq!(rt; sheet.pivot(), answer(Word::Proved, level, 10));
    let (rack, _) = sheet.end();
    assert_eq!(rt; rack.count(), 3);
    Ok(())
}

#[test]
fn mounts_take_the_balance_point(rt: HostRuntime) -> Result<(), Fail> {
    let mut records = [Shot::try_from(Entry::new(1, 0, 1, 0))?; 2];
    let mut rack = RecordRack::open(&mut records);
    let mut sheet = Sheet::begin(&mut rack, EvenPrices);
    assert_eq!(rt; sheet.mount(4001, 0), Err(Refusal::Slope));
    assert_eq!(rt; sheet.mount(1, -16001), Err(Refusal::Slope));
    assert_eq!(rt; sheet.mount(1, 0), Err(Refusal::Empty));
    sheet.add(Entry::new(1000, 0, 1, 0))?;
    sheet.add(Entry::new(1000, 10, 1, 0))?;
    assert_eq!(rt; sheet.mount(1, 0), Ok(0));
    assert_eq!(rt; sheet.mount(4000, 16000), Ok(-16000000));
    let (rack, _) = sheet.end();
    let mut prices = StuffPrices::new();
    prices.set(0, 3, 1)?;
    let sheet = Sheet::begin(rack, prices);
    assert_eq!(rt; sheet.mount(1, 0), Ok(10));
    Ok(())
}

#[test]
fn slips_have_one_row_for_each_shot_on_the_line(rt: HostRuntime) -> Result<(), Fail> {
    let mut records = [Shot::try_from(Entry::new(1, 0, 1, 0))?; 5];
    let mut rack = RecordRack::open(&mut records);
    let mut sheet = Sheet::begin(&mut rack, EvenPrices);
    let blank = Row {
        place: 9,
        rise: 9,
        fall: 9,
    };
    let mut table = [blank; 4];
    assert_eq!(rt; sheet.slip(&mut table), Err(Refusal::Idle));
    three_pivots(&rt, &mut sheet)?;
    assert_eq!(rt; sheet.slip(&mut table[..2]), Err(Refusal::SlipShort));
    assert_eq!(rt; table, [blank; 4]);
    assert_eq!(rt; sheet.slip(&mut table), Ok(3));
    assert_eq!(rt; table[0], row(0, 2500, 6500));
    assert_eq!(rt; table[1], row(2, 1000, 5000));
    assert_eq!(rt; table[2], row(4, 2500, 6500));
    assert_eq!(rt; table[3], blank);
    Ok(())
}

fn row(place: usize, rise: i64, fall: i64) -> Row {
    Row { place, rise, fall }
}

#[test]
fn a_pass_writes_one_card(rt: HostRuntime) -> Result<(), Fail> {
    let mut records = [Shot::try_from(Entry::new(1, 0, 1, 0))?; 5];
    let mut rack = RecordRack::open(&mut records);
    let mut sheet = Sheet::begin(&mut rack, EvenPrices);
    three_pivots(&rt, &mut sheet)?;
    let mut card = line(1, 0, 0)?;
    sheet.issue()?.spend(&mut card);
    assert_eq!(rt; card, line(75, -1, 2000)?);
    Ok(())
}

#[test]
fn no_life_on_a_rack_with_shots_or_in_too_little_room(rt: HostRuntime) -> Result<(), Fail> {
    let mut records = [Shot::try_from(Entry::new(1, 0, 1, 0))?; 2];
    let mut rack = RecordRack::open(&mut records);
    let blank = Moment {
        call: Call::Issue,
        reply: Reply::Done,
        pass: None,
    };
    let mut moments = [blank; 2];
    let calls = [Call::Pivot; 3];
    assert_eq!(rt;
        live(&mut rack, EvenPrices, &calls, &mut moments).count,
        None
    );
    assert_eq!(rt; moments, [blank; 2]);
    assert_eq!(rt;
        live(&mut rack, EvenPrices, &calls[..1], &mut moments).count,
        Some(1)
    );
    assert_eq!(rt; moments[0].reply, Reply::Refused(Refusal::OneSpeed));
    assert_eq!(rt; moments[1], blank);
    rack.add(Entry::new(1, 0, 1, 0))?;
    assert_eq!(rt;
        live(&mut rack, EvenPrices, &calls[..2], &mut moments).count,
        None
    );
    assert_eq!(rt; moments[1], blank);
    Ok(())
}

#[test]
fn the_sample_life_runs(rt: HostRuntime) -> Result<(), Fail> {
    let moments = sample_life();
    let gentle = line(75, -1, 2000)?;
    assert_eq!(rt; moments[4].reply, Reply::Done);
    assert_eq!(rt; moments[8].reply, Reply::Issued(gentle));
    assert_eq!(rt; moments[8].pass, Some(gentle));
    assert_eq!(rt; moments[9].pass, Some(gentle));
    assert_eq!(rt; moments[10].pass, None);
    Ok(())
}
