//! Step maps.
use crate::box_maps::Outcome;
use coats::{CoatMap, MapFault};
use nets::Place;
use std::test::Fail;
use steps::{Step, Steps};

fn step(value: i16, bound: u32) -> Step {
    Step { value, bound }
}

// What becomes of a map of one term, of weight 7 on the places with y = 0, when its steps are to be
// replaced: the answer, and then the weight and the coat at a place.
fn outcome(x: &[Step], y: &[Step], place: Place) -> Result<Outcome, MapFault> {
    let mut map = Steps::new();
    map.replace(&[step(7, 65536)], &[step(-1, 1)])?;
    let answer = map.replace(x, y);
    Ok((answer, map.weight(), map.coat(place)))
}

#[test]
fn pairings(rt: HostRuntime) -> Result<(), Fail> {
    let empty = Steps::new();
    assert_eq!(rt; (empty.weight(), empty.coat((0, 0))), (0, 0));
    let x = [step(2, 10), step(-5, 65536)];
    let y = [step(3, 1), step(4, 20), step(-1, 65536)];
    for (place, coat) in [
        ((0, 0), -3 * 6),
        ((9, 0), -3 * 6),
        ((10, 0), -5 * 6),
        ((9, 1), -3 * 3),
        ((9, 19), -3 * 3),
        ((9, 20), 3),
        ((10, 20), 5),
        ((65535, 65535), 5),
    ] {
        // (2 + 5) * (3 + 4 + 1)
        assert_eq!(rt; outcome(&x, &y, place)?, (Ok(()), 56, coat));
    }
    Ok(())
}

// With no steps along one side there are no terms, however large the other's values; with steps of 0
// they weigh nothing.
#[test]
fn one_side_empty(rt: HostRuntime) -> Result<(), Fail> {
    let low = [step(-32768, 65536); 16];
    let zero = [step(0, 7)];
    for (x, y) in [
        (&low[..], &[][..]),
        (&[][..], &low[..]),
        (&zero[..], &low[..]),
        (&[][..], &[][..]),
    ] {
        assert_eq!(rt; outcome(x, y, (0, 0))?, (Ok(()), 0, 0));
    }
    Ok(())
}

// Bounds at their edges, with the steps for y numbered after those for x.
#[test]
fn step_bounds(rt: HostRuntime) -> Result<(), Fail> {
    let good = [step(7, 65536), step(1, 1), step(-2, 65535)];
    for end in [0, 65537, 4294967295] {
        let bad = [step(1, end); 2];
        let last = [step(7, 65536), step(1, 1), step(1, end)];
        for (x, y, row) in [
            (&bad[..], &good[..], 0),
            (&good[..], &bad[..], 3),
            (&last[..], &bad[..], 2),
            (&good[0..2], &last[..], 4),
            (&[][..], &bad[..], 0),
        ] {
            assert_eq!(rt; outcome(x, y, (9, 0))?, (Err(MapFault::Row(row)), 7, -7));
        }
    }
    Ok(())
}

// The counts are told before a row, and a row before the weight, which is tested at its edge.
#[test]
fn refused_steps(rt: HostRuntime) -> Result<(), Fail> {
    let light = [step(1, 10); 17];
    let heavy = [step(-32768, 5); 16];
    let bad = [step(-32768, 0); 17];
    let below = [step(-128, 65536)];
    let above = [step(128, 65536)];
    let more = [step(-16384, 65536), step(1, 1)];
    for (x, y, expected) in [
        (&light[..], &bad[..], (Err(MapFault::Count), 7, -7)),
        (&bad[0..16], &light[..], (Err(MapFault::Count), 7, -7)),
        (&[][..], &light[..], (Err(MapFault::Count), 7, -7)),
        (&heavy[..], &bad[0..1], (Err(MapFault::Row(16)), 7, -7)),
        (&heavy[..], &heavy[..], (Err(MapFault::Weight), 7, -7)),
        (&more[..], &light[0..1], (Err(MapFault::Weight), 7, -7)),
        (&below[..], &above[..], (Ok(()), 16384, -16384)),
        (&light[0..16], &light[0..16], (Ok(()), 256, 256)),
    ] {
        assert_eq!(rt; outcome(x, y, (9, 0))?, expected);
    }
    Ok(())
}
