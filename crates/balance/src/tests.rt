//! The rule at work, on pulls that are worked out by hand.
use crate::{Pull, balance_point, whole_balance_point};
use lines::{Slope, reduced};
use std::test::Fail;

fn pull(key: i32, under: u32, over: u32) -> Pull<i32> {
    Pull { key, under, over }
}

/// The lowest key at which the pulls balance.
fn lowest(pulls: &[Pull<i32>]) -> Option<i32> {
    whole_balance_point(pulls).map(|balance| balance.lowest)
}

/// The two terms of the lowest slope at which the pulls balance.
fn lowest_slope(pulls: &[Pull<Slope>]) -> Option<(i32, i32)> {
    balance_point(pulls).map(|balance| (balance.lowest.rise, balance.lowest.run))
}

/// A slope that pulls evenly.
fn pull_to(rise: i32, run: i32) -> Result<Pull<Slope>, Fail> {
    let key = reduced(rise, run).ok_or_else(|| Fail::new("no slope"))?;
    Ok(Pull {
        key,
        under: 1,
        over: 1,
    })
}

#[test]
fn one_key(rt: HostRuntime) {
    assert_eq!(rt; lowest(&[pull(-7, 8_000_000, 1)]), Some(-7));
    assert_eq!(rt;
        lowest(&[pull(5, 1, 9), pull(5, 9, 1), pull(5, 2, 2)]),
        Some(5)
    );
}

#[test]
fn the_dearer_side_decides(rt: HostRuntime) {
    assert_eq!(rt; lowest(&[pull(10, 1, 1), pull(0, 1, 1)]), Some(0));
    assert_eq!(rt; lowest(&[pull(0, 3, 1), pull(10, 3, 1)]), Some(10));
    assert_eq!(rt; lowest(&[pull(0, 1, 3), pull(10, 1, 3)]), Some(0));
    assert_eq!(rt;
        lowest(&[pull(8, 1, 1), pull(-3, 1, 1), pull(4, 1, 1)]),
        Some(4)
    );
    assert_eq!(rt;
        lowest(&[pull(8, 1, 1), pull(-3, 3, 3), pull(4, 1, 1)]),
        Some(-3)
    );
}

#[test]
fn prices_out_of_range(rt: HostRuntime) {
    assert_eq!(rt; lowest(&[pull(1, 8_000_000, 8_000_000)]), Some(1));
    assert_eq!(rt; lowest(&[pull(1, 0, 1)]), None);
    assert_eq!(rt; lowest(&[pull(1, 1, 0)]), None);
    assert_eq!(rt; lowest(&[pull(1, 1, 1), pull(2, 8_000_001, 1)]), None);
    assert_eq!(rt; lowest(&[pull(1, 1, 1), pull(2, 1, 8_000_001)]), None);
}

#[test]
fn too_few_and_too_many(rt: HostRuntime) {
    assert_eq!(rt; lowest(&[]), None);
    assert_eq!(rt; lowest(&[pull(3, 1, 1); 512]), Some(3));
    assert_eq!(rt; lowest(&[pull(3, 1, 1); 513]), None);
}

#[test]
fn slopes_by_value(rt: HostRuntime) -> Result<(), Fail> {
    let third = pull_to(1, 3)?;
    let half = pull_to(-1, 2)?;
    let same = pull_to(2, 6)?;
    assert_eq!(rt; lowest_slope(&[third, half]), Some((-1, 2)));
    assert_eq!(rt; lowest_slope(&[third, half, same]), Some((1, 3)));
    Ok(())
}
