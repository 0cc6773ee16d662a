//! Box maps.
ghost use Rattle.std.specs.Prelude.{◌<◌, ◌≤◌};

use boxes::{BoxRow, Boxes};
use coats::{CoatMap, MapFault};
use nets::Place;
use std::process::Abort;
use std::test::Fail;

// What a call answered, and then a weight and a coat.
pub(crate) type Outcome = (Result<(), MapFault>, u32, i32);

const fn row(x0: u32, x1: u32, y0: u32, y1: u32, w: i16) -> BoxRow {
    BoxRow { x0, x1, y0, y1, w }
}

// What becomes of a map of one box, which weighs 28 and has the coat 7 at one place only, when its rows
// are to be replaced: the answer, and then the weight and the coat at a place. Steps have their own,
// since each kind of map is made in its own way.
fn outcome(rows: &[BoxRow], place: Place) -> Result<Outcome, MapFault> {
    let mut map = Boxes::new();
    map.replace(&[row(9, 10, 9, 10, 7)])?;
    let answer = map.replace(rows);
    Ok((answer, map.weight(), map.coat(place)))
}

#[test]
fn boxes(rt: HostRuntime) -> Result<(), Fail> {
    let empty = Boxes::new();
    assert_eq!(rt; (empty.weight(), empty.coat((0, 0))), (0, 0));
    let quarter = [row(0, 32768, 0, 32768, 3)];
    let strip = [row(16384, 49152, 0, 65536, 5)];
    // All four corners inside, over a coat below zero.
    let inner = [row(0, 65536, 0, 65536, -9), row(10, 20, 30, 40, 4)];
    for (rows, place, weight, coat) in [
        (&quarter[..], (32767, 32767), 3, 3),
        (&quarter[..], (0, 32767), 3, 3),
        (&quarter[..], (0, 32768), 3, 0),
        (&strip[..], (16383, 65535), 10, 0),
        (&strip[..], (16384, 65535), 10, 5),
        (&inner[..], (10, 30), 25, -5),
        (&inner[..], (19, 39), 25, -5),
        (&inner[..], (9, 30), 25, -9),
        (&inner[..], (20, 30), 25, -9),
        (&inner[..], (10, 29), 25, -9),
        (&inner[..], (10, 40), 25, -9),
        (&inner[..], (65535, 65535), 25, -9),
        (&[], (9, 9), 0, 0),
    ] {
        assert_eq!(rt; outcome(rows, place)?, (Ok(()), weight, coat));
    }
    Ok(())
}

// Bounds at their edges. A refused row leaves the map as it is.
#[test]
fn box_bounds(rt: HostRuntime) -> Result<(), Fail> {
    let good = row(65535, 65536, 65535, 65536, 8);
    assert_eq!(rt; outcome(&[good], (65535, 65535))?, (Ok(()), 32, 8));
    for bad in [
        row(5, 5, 0, 1, 1),
        row(6, 5, 0, 1, 1),
        row(0, 65537, 0, 1, 1),
        row(0, 1, 5, 5, 1),
        row(0, 1, 6, 5, 1),
        row(0, 1, 0, 65537, 1),
        row(0, 1, 0, 4294967295, 1),
        row(65536, 65536, 0, 1, 1),
    ] {
        assert_eq!(rt; outcome(&[bad], (9, 9))?, (Err(MapFault::Row(0)), 28, 7));
        assert_eq!(rt;
            outcome(&[good, good, bad, bad], (9, 9))?,
            (Err(MapFault::Row(2)), 28, 7)
        );
    }
    Ok(())
}

// The count is told before a row, and a row before the weight.
#[test]
fn refused_boxes(rt: HostRuntime) -> Result<(), Fail> {
    let light = [row(0, 10, 0, 10, 1); 33];
    let mut heavy = light;
    heavy[0] = row(0, 1, 0, 1, -32768);
    let mut bad = heavy;
    bad[31] = row(0, 0, 0, 1, 32767);
    let inner = [row(1, 2, 1, 2, -32768); 32];
    for (rows, expected) in [
        (&light[..], (Err(MapFault::Count), 28, 7)),
        (&bad[..], (Err(MapFault::Count), 28, 7)),
        (&bad[0..32], (Err(MapFault::Row(31)), 28, 7)),
        (&heavy[0..32], (Err(MapFault::Weight), 28, 7)),
        (&inner[..], (Err(MapFault::Weight), 28, 7)),
        (&light[0..32], (Ok(()), 32, 32)),
    ] {
        assert_eq!(rt; outcome(rows, (9, 9))?, expected);
    }
    Ok(())
}

// The weight at its edge, by one corner and by four.
#[test]
fn heaviest_boxes(rt: HostRuntime) -> Result<(), Fail> {
    let whole = row(0, 65536, 0, 65536, -16384);
    let inner = row(9, 10, 9, 10, 4096);
    let more = row(0, 65536, 0, 65536, 1);
    for (rows, expected) in [
        ([whole, row(0, 1, 0, 1, 0)], (Ok(()), 16384, -16384)),
        ([whole, more], (Err(MapFault::Weight), 28, 7)),
        ([inner, row(0, 1, 0, 1, 0)], (Ok(()), 16384, 4096)),
        ([more, inner], (Err(MapFault::Weight), 28, 7)),
    ] {
        assert_eq!(rt; outcome(&rows, (9, 9))?, expected);
    }
    Ok(())
}

// What a corner (u, v) adds to the coat of the place (x, y).
fn corner(w: i64, u: u32, v: u32, x: u16, y: u16) -> i64 {
    if u32::from(x) < u && u32::from(y) < v {
        w
    } else {
        0
    }
}

// The coat by inclusion and exclusion, corner by corner.
fn slow_coat(rows: &[BoxRow], x: u16, y: u16) -> i64 {
    let mut sum: i64 = 0;
    for row in rows {
        let w = i64::from(row.w);
        for (sign, u, v) in [
            (1i64, row.x1, row.y1),
            (-1, row.x0, row.y1),
            (-1, row.x1, row.y0),
            (1, row.x0, row.y0),
        ] {
            sum = sum.saturating_add(corner(sign.saturating_mul(w), u, v, x, y));
        }
    }
    sum
}

// Numbers that look random.
#[derive(Drop)]
struct Dice {
    state: u64,
}

impl Dice {
    fn below(&mut self, n: u32) -> u32
        requires { 1 ≤ n }
        ensures { result < n }
    {
        self.state = self
            .state
            .wrapping_mul(6364136223846793005)
            .wrapping_add(1442695040888963407);
        ((self.state >> 33) % u64::from(n)) as u32
    }

    // Two bounds, the lower first.
    fn span(&mut self) -> (u32, u32) {
        let a = self.below(65537);
        let b = self.below(65537);
        if a < b {
            (a, b)
        } else if b < a {
            (b, a)
        } else {
            (0, 65536)
        }
    }

    fn row(&mut self) -> BoxRow {
        let (x0, x1) = self.span();
        let (y0, y1) = self.span();
        let w = self.below(1001) as i16 - 500;
        BoxRow { x0, x1, y0, y1, w }
    }
}

fn clipped(n: u32) -> u16 {
    u16::try_from(n).unwrap_or(u16::MAX)
}

fn near(n: u32) -> [u16; 3] {
    [
        clipped(n.saturating_sub(1)),
        clipped(n),
        clipped(n.saturating_add(1)),
    ]
}

// The coat on the corner (u, v) and round it.
fn compare_near(rt: &impl Abort, map: &Boxes, rows: &[BoxRow], u: u32, v: u32) {
    for x in near(u) {
        for y in near(v) {
            assert_eq!(rt; i64::from(map.coat((x, y))), slow_coat(rows, x, y));
        }
    }
}

// The coat on the crossings of the sides of all boxes.
fn compare(rt: &impl Abort, map: &Boxes, rows: &[BoxRow]) {
    for a in rows {
        for b in rows {
            compare_near(rt, map, rows, a.x0, b.y0);
            compare_near(rt, map, rows, a.x0, b.y1);
            compare_near(rt, map, rows, a.x1, b.y0);
            compare_near(rt, map, rows, a.x1, b.y1);
        }
    }
}

#[test]
fn random_boxes(rt: HostRuntime) -> Result<(), Fail> {
    let mut dice = Dice { state: 2026 };
    let mut map = Boxes::new();
    for _ in 0..16 {
        let rows = [
            dice.row(),
            dice.row(),
            dice.row(),
            dice.row(),
            dice.row(),
            dice.row(),
        ];
        map.replace(&rows)?;
        compare(&rt, &map, &rows);
    }
    Ok(())
}
