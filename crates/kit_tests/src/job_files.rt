//! Job files: faults by their types, the recipe that a refused job leaves, and the place for a text.
use audit::NotNet;
use coats::{CoatMap, MapFault};
use jobs::{
    DirectoryFault, JobFault, LayerSectionFault, MapSectionFault, PlanSectionFault, PointsAt,
    Recipe, RowsAt,
};
use layers::LayerNumbers;
use maps::MapKind;
use nets::Net;
use plans::PlanKind;
use reports::{TextFault, write_report};
use std::test::Fail;

// Hammersley at level 2 with layers that keep each place, and the box 0, 32768, 0, 32768 with w 3.
const EXAMPLE: [u8; 55] = [
    12, 0, 2, 0, 14, 0, 21, 0, 35, 0, 20, 0, 0, 2, 0, 0, 0, 0, 0, 0, 0, 0, 0, 0, 0, 0, 0, 0, 0, 0,
    0, 0, 0, 0, 0, 0, 1, 0, 0, 0, 0, 0, 128, 0, 0, 0, 0, 0, 0, 0, 128, 0, 0, 3, 0,
];

// Sobol at level 3, the shift 1, 65535 and the swap, and the same box with w 5.
const HELD: [u8; 55] = [
    12, 0, 2, 0, 14, 0, 21, 0, 35, 0, 20, 0, 1, 3, 1, 1, 0, 255, 255, 0, 0, 0, 0, 0, 0, 0, 0, 0, 0,
    0, 0, 0, 0, 0, 0, 0, 1, 0, 0, 0, 0, 0, 128, 0, 0, 0, 0, 0, 0, 0, 128, 0, 0, 5, 0,
];

// The example with the places (0, 0), (0, 32768), (32768, 0) and (32768, 32768).
const SQUARE: [u8; 71] = [
    12, 0, 18, 0, 30, 0, 21, 0, 51, 0, 20, 0, 2, 2, 0, 0, 0, 0, 0, 0, 0, 128, 0, 128, 0, 0, 0, 128,
    0, 128, 0, 0, 0, 0, 0, 0, 0, 0, 0, 0, 0, 0, 0, 0, 0, 0, 0, 0, 0, 0, 0, 0, 1, 0, 0, 0, 0, 0,
    128, 0, 0, 0, 0, 0, 0, 0, 128, 0, 0, 3, 0,
];

// The example with one byte changed, cut short, and with a list that is no net: each is refused, and the
// recipe held before stays, all parts of it.
#[test]
fn refused_jobs(rt: HostRuntime) -> Result<(), Fail> {
    let heap = rt.alloc();
    let mut recipe = Recipe::new();
    assert_eq!(rt; recipe.plan.kind(), PlanKind::Hammersley);
    assert_eq!(rt; recipe.plan.level().get(), 0);
    assert_eq!(rt; recipe.map.kind(), MapKind::Boxes);
    assert_eq!(rt; recipe.map.weight(), 0);
    assert_eq!(rt; recipe.read(heap, &HELD), Ok(()));
    let layers = LayerNumbers {
        s: 1,
        t: 65535,
        x_word: 0,
        y_word: 0,
        swap: true,
    };
    for (at, byte, fault) in [
        (0, 11, JobFault::Directory(DirectoryFault::Pair(0))),
        (4, 13, JobFault::Directory(DirectoryFault::Pair(1))),
        (10, 21, JobFault::Directory(DirectoryFault::Pair(2))),
        (12, 3, JobFault::Plan(PlanSectionFault::Kind(12))),
        (13, 13, JobFault::Plan(PlanSectionFault::Level(12))),
        (12, 2, JobFault::Plan(PlanSectionFault::Length(12))),
        (14, 2, JobFault::Layers(LayerSectionFault(14))),
        (35, 3, JobFault::Map(MapSectionFault::Layout(35))),
        (36, 33, JobFault::Map(MapSectionFault::Layout(35))),
        (
            39,
            1,
            JobFault::Map(MapSectionFault::Rows(RowsAt {
                start: 35,
                kind: MapKind::Boxes,
                fault: MapFault::Row(0),
            })),
        ),
        (
            54,
            65,
            JobFault::Map(MapSectionFault::Rows(RowsAt {
                start: 35,
                kind: MapKind::Boxes,
                fault: MapFault::Weight,
            })),
        ),
    ] {
        let mut job = EXAMPLE;
        match job.get_mut(at) {
            Some(changed) => *changed = byte,
            None => assert!(rt; false),
        }
        assert_eq!(rt; recipe.read(heap, &job), Err(fault));
        assert_eq!(rt; recipe.plan.kind(), PlanKind::Sobol);
        assert_eq!(rt; recipe.plan.place(5), Ok((40960, 8192)));
        assert_eq!(rt; recipe.layers, layers);
        assert_eq!(rt; recipe.map.coat((32767, 0)), 5);
    }
    assert_eq!(rt;
        recipe.read(heap, &EXAMPLE[..11]),
        Err(JobFault::Directory(DirectoryFault::Size))
    );
    let points = PointsAt {
        start: 12,
        fault: NotNet {
            depth: 0,
            interval: 1,
        },
    };
    let fault = JobFault::Plan(PlanSectionFault::Points(points));
    assert_eq!(rt; recipe.read(heap, &SQUARE), Err(fault));
    let text = "refused 13 section 1 place 14 depth 0 interval 1";
    assert_eq!(rt; fault.to_string(heap)?.as_str(), text);
    assert_eq!(rt; recipe.plan.place(5), Ok((40960, 8192)));
    Ok(())
}

// A text, and the bytes past it.
#[test]
fn places_for_texts(rt: HostRuntime) -> Result<(), Fail> {
    let heap = rt.alloc();
    let mut short = [9; 95];
    assert_eq!(rt;
        write_report(heap, &EXAMPLE, &mut short),
        Err(TextFault::Short(95))
    );
    assert_eq!(rt;
        write_report(heap, &[], &mut short),
        Err(TextFault::Short(95))
    );
    assert!(rt; short.iter().all(|byte| *byte == 9));
    let mut place = [9; 96];
    assert_eq!(rt; write_report(heap, &EXAMPLE, &mut place), Ok(49));
    let text = b"level 2\npoints 4\ntaken 4\nsum 3\nradius 9\naudit 12\n";
    assert!(rt; place.starts_with(text));
    assert!(rt; place.iter().skip(49).all(|byte| *byte == 9));
    let mut place = [9; 200];
    assert_eq!(rt; write_report(heap, &SQUARE, &mut place), Ok(49));
    assert!(rt; place.starts_with(b"refused 13 section 1 place 14 depth 0 interval 1\n"));
    assert!(rt; place.iter().skip(49).all(|byte| *byte == 9));
    Ok(())
}
