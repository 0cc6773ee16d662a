//! The texts of faults, and the first byte of a row, worked by hand.
use audit::{AuditFault, LoadFault};
use coats::MapFault;
use jobs::RowsAt;
use maps::MapKind;
use nets::{LevelFault, PlaceFault};
use reports::TextFault;
use std::test::Fail;
use survey::{CommitFault, LimitFault, TakeFault};

#[test]
fn texts_of_faults(rt: HostRuntime) -> Result<(), Fail> {
    let heap = rt.alloc();
    assert_eq!(rt;
        PlaceFault::NoPlace(4).to_string(heap)?.as_str(),
        "refused 11 place 4"
    );
    assert_eq!(rt;
        LevelFault::TooHigh(13).to_string(heap)?.as_str(),
        "refused 4 level 13"
    );
    let length = LoadFault::Audit(AuditFault::Length(7));
    assert_eq!(rt; length.to_string(heap)?.as_str(), "refused 12 place 7");
    assert_eq!(rt;
        LoadFault::Memory.to_string(heap)?.as_str(),
        "out of memory"
    );
    assert_eq!(rt;
        MapFault::Row(31).to_string(heap)?.as_str(),
        "refused 8 row 31"
    );
    assert_eq!(rt;
        TakeFault::TooMany(3).to_string(heap)?.as_str(),
        "refused 22 place 3"
    );
    assert_eq!(rt;
        LimitFault(9).to_string(heap)?.as_str(),
        "refused 23 place 9"
    );
    assert_eq!(rt;
        CommitFault(12).to_string(heap)?.as_str(),
        "refused 24 place 12"
    );
    assert_eq!(rt;
        TextFault::Short(95).to_string(heap)?.as_str(),
        "refused 31 place 95"
    );
    let rows = RowsAt {
        start: 35,
        kind: MapKind::Boxes,
        fault: MapFault::Row(1),
    };
    assert_eq!(rt;
        rows.to_string(heap)?.as_str(),
        "refused 8 section 3 place 55"
    );
    Ok(())
}
