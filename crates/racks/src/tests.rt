//! Capacities at their ends, memory byte by byte, refusals in order, going over the shots, and mirrors
//! over mirrors.
ghost use Rattle.std.specs.Prelude.{◌≡◌, ◌≤◌, [], ◌∷◌, ◌++◌, length, drop};

use crate::{Mirror, PackedRack, Rack, RecordRack};
use shots::{Entry, Refusal, Shot};
use std::process::Abort;
use std::test::Fail;

// What a lender learns of its bytes, for certain: these two need no proof of their own.
fn first_image(bytes: &mut [u8])
    requires { 6 ≤ length bytes.old }
    ensures { bytes.new ≡ (0 ∷ 1 ∷ 0 ∷ 2 ∷ 3 ∷ 4 ∷ []) ++ drop 6 bytes.old }
{
    let mut rack = PackedRack::open(bytes);
    let _ = rack.add(Entry::new(1, 2, 3, 4));
}

fn no_strike(bytes: &mut [u8])
    ensures { bytes.new ≡ bytes.old }
{
    let mut rack = PackedRack::open(bytes);
    let _ = rack.strike(0);
}

#[test]
fn lenders_know_their_bytes(rt: HostRuntime) {
    let mut bytes = [7; 8];
    no_strike(&mut bytes);
    assert_eq!(rt; bytes, [7; 8]);
    first_image(&mut bytes);
    assert_eq!(rt; bytes, [0, 1, 0, 2, 3, 4, 7, 7]);
}

// How many shots these bytes take, of up to 600.
fn taken(bytes: &mut [u8]) -> usize {
    let mut rack = PackedRack::open(bytes);
    for _ in 0..600 {
        if rack.add(Entry::new(1, 0, 1, 0)).is_err() {
            return rack.count();
        }
    }
    rack.count()
}

#[test]
fn capacities_are_whole_shots(rt: HostRuntime) {
    assert_eq!(rt; taken(&mut []), 0);
    let mut five = [7; 5];
    assert_eq!(rt; taken(&mut five), 0);
    assert_eq!(rt; five, [7; 5]);
    assert_eq!(rt; taken(&mut [7; 11]), 1);
}

#[test]
fn capacities_are_at_most_512(rt: HostRuntime) {
    assert_eq!(rt; taken(&mut [7; 3071]), 511);
    assert_eq!(rt; taken(&mut [7; 3072]), 512);
    assert_eq!(rt; taken(&mut [7; 3084]), 512);
}

fn add_three<R: Rack>(rack: &mut R) -> Result<(), Refusal> {
    rack.add(Entry::new(258, -2, 10, 3))?;
    rack.add(Entry::new(1, 0, 1, 0))?;
    rack.add(Entry::new(4000, 8000, 100, 15))
}

// What three shots in twenty bytes leave there after a strike.
fn bytes_after_strike(place: i32) -> Result<[u8; 20], Refusal> {
    let mut bytes = [7; 20];
    let mut rack = PackedRack::open(&mut bytes);
    add_three(&mut rack)?;
    rack.strike(place)?;
    Ok(bytes)
}

#[test]
fn strikes_move_later_images_down(rt: HostRuntime) -> Result<(), Fail> {
    assert_eq!(rt;
        bytes_after_strike(0)?,
        [
            0, 1, 0, 0, 1, 0, 15, 160, 31, 64, 100, 15, 15, 160, 31, 64, 100, 15, 7, 7,
        ]
    );
    assert_eq!(rt;
        bytes_after_strike(1)?,
        [
            1, 2, 255, 254, 10, 3, 15, 160, 31, 64, 100, 15, 15, 160, 31, 64, 100, 15, 7, 7,
        ]
    );
    assert_eq!(rt;
        bytes_after_strike(2)?,
        [
            1, 2, 255, 254, 10, 3, 0, 1, 0, 0, 1, 0, 15, 160, 31, 64, 100, 15, 7, 7,
        ]
    );
    Ok(())
}

// A rack with room for three shots or more, and none held.
fn refuses_in_order<R: Rack>(rt: &impl Abort, rack: &mut R) -> Result<(), Fail> {
    assert_eq!(rt; rack.read(0), Err(Refusal::Place));
    add_three(rack)?;
    assert_eq!(rt; rack.read(-1), Err(Refusal::Place));
    assert_eq!(rt; rack.read(3), Err(Refusal::Place));
    assert_eq!(rt; rack.read(i32::MIN), Err(Refusal::Place));
    assert_eq!(rt; rack.strike(-1), Err(Refusal::Place));
    assert_eq!(rt; rack.strike(3), Err(Refusal::Place));
    assert_eq!(rt; rack.strike(i32::MIN), Err(Refusal::Place));
    assert_eq!(rt; rack.count(), 3);
    Ok(())
}

fn refuses_when_full<R: Rack>(rt: &impl Abort, rack: &mut R) {
    assert_eq!(rt; rack.add(Entry::new(1, 0, 1, 0)), Err(Refusal::Full));
    assert_eq!(rt; rack.add(Entry::new(0, 0, 1, 0)), Err(Refusal::Speed));
    assert_eq!(rt; rack.add(Entry::new(1, 8001, 0, 0)), Err(Refusal::Lead));
    assert_eq!(rt; rack.add(Entry::new(1, 0, 0, 16)), Err(Refusal::Weight));
    assert_eq!(rt; rack.add(Entry::new(1, 0, 1, 16)), Err(Refusal::Stuff));
}

fn mirrors<R: Rack>(rt: &impl Abort, rack: &mut R) -> Result<(), Fail> {
    let mut mirror = Mirror::over(rack);
    assert_eq!(rt;
        mirror.add(Entry::new(1, i32::MIN, 1, 0)),
        Err(Refusal::Lead)
    );
    assert_eq!(rt;
        mirror.add(Entry::new(0, i32::MIN, 1, 0)),
        Err(Refusal::Speed)
    );
    mirror.add(Entry::new(1, 8000, 1, 0))?;
    let mut twice = Mirror::over(mirror);
    assert_eq!(rt; twice.read(0), Shot::try_from(Entry::new(1, -8000, 1, 0)));
    twice.add(Entry::new(2, -8000, 1, 0))?;
    let mirror = twice.into_inner();
    assert_eq!(rt; mirror.read(1), Shot::try_from(Entry::new(2, 8000, 1, 0)));
    let rack = mirror.into_inner();
    assert_eq!(rt; rack.read(1), Shot::try_from(Entry::new(2, -8000, 1, 0)));
    Ok(())
}

#[test]
fn packed_racks_refuse_in_order(rt: HostRuntime) -> Result<(), Fail> {
    let mut bytes = [7; 18];
    let mut rack = PackedRack::open(&mut bytes);
    refuses_in_order(&rt, &mut rack)?;
    refuses_when_full(&rt, &mut rack);
    Ok(())
}

#[test]
fn record_racks_refuse_in_order(rt: HostRuntime) -> Result<(), Fail> {
    let mut records = [Shot::try_from(Entry::new(9, 9, 9, 9))?; 3];
    let mut rack = RecordRack::open(&mut records);
    refuses_in_order(&rt, &mut rack)?;
    refuses_when_full(&rt, &mut rack);
    Ok(())
}

#[test]
fn mirrors_over_each_rack(rt: HostRuntime) -> Result<(), Fail> {
    let mut bytes = [7; 18];
    mirrors(&rt, &mut PackedRack::open(&mut bytes))?;
    let mut records = [Shot::try_from(Entry::new(9, 9, 9, 9))?; 3];
    mirrors(&rt, &mut RecordRack::open(&mut records))
}

// A rack with room for three shots or more, and none held.
fn goes_over<R: Rack>(rt: &impl Abort, rack: &mut R) -> Result<(), Fail> {
    assert_eq!(rt; rack.iter().next(), None);
    add_three(rack)?;
    let mut shots = rack.iter();
    assert_eq!(rt;
        shots.next(),
        Some(Shot::try_from(Entry::new(258, -2, 10, 3))?)
    );
    assert_eq!(rt; shots.next(), Some(Shot::try_from(Entry::new(1, 0, 1, 0))?));
    assert_eq!(rt;
        shots.next(),
        Some(Shot::try_from(Entry::new(4000, 8000, 100, 15))?)
    );
    assert_eq!(rt; shots.next(), None);
    assert_eq!(rt; shots.next(), None);
    assert_eq!(rt; rack.iter().count(), 3);
    Ok(())
}

#[test]
fn each_rack_is_gone_over(rt: HostRuntime) -> Result<(), Fail> {
    goes_over(&rt, &mut PackedRack::open(&mut [7; 18]))?;
    goes_over(&rt, &mut Mirror::over(PackedRack::open(&mut [7; 18])))?;
    let mut records = [Shot::try_from(Entry::new(9, 9, 9, 9))?; 3];
    goes_over(&rt, &mut RecordRack::open(&mut records))?;
    goes_over(&rt, &mut Mirror::over(RecordRack::open(&mut records)))?;
    let mut rack = RecordRack::open(&mut records);
    goes_over(&rt, &mut &mut rack)
}

#[test]
fn a_full_rack_is_gone_over(rt: HostRuntime) {
    let mut bytes = [7; 3084];
    let mut rack = PackedRack::open(&mut bytes);
    for _ in 0..600 {
        let _ = rack.add(Entry::new(1, 0, 1, 0));
    }
    assert_eq!(rt; rack.iter().count(), 512);
}
