//! The audit of lists and of plans, and loading.
use audit::{AuditFault, NetBytes, NotNet, PlaceBytes, PointList, audit, audit_plan};
use layers::{Scramble, Swap};
use nets::{Level, Net, PlaceFault};
use sequences::{Hammersley, Sobol};
use std::test::Fail;

fn not_net(depth: u32, interval: u32) -> AuditFault {
    AuditFault::Empty(NotNet { depth, interval })
}

#[test]
fn small_lists(rt: HostRuntime) {
    let net = [(0, 0), (16384, 32768), (32768, 16384), (49152, 49152)];
    assert_eq!(rt; audit(&net), Ok(12));
    assert_eq!(rt; audit(&[(7, 9)]), Ok(1));
    // The last place moved: within its intervals, down to y = 0, and left to x = 32768.
    let near = [(0, 0), (16384, 32768), (32768, 16384), (65535, 65535)];
    assert_eq!(rt; audit(&near), Ok(12));
    let low = [(0, 0), (16384, 32768), (32768, 16384), (49152, 0)];
    assert_eq!(rt; audit(&low), Err(not_net(0, 3)));
    let left = [(0, 0), (16384, 32768), (32768, 16384), (32768, 49152)];
    assert_eq!(rt; audit(&left), Err(not_net(2, 3)));
}

// Lists of equal places, of every length to past the highest level's.
#[test]
fn lengths(rt: HostRuntime) -> Result<(), Fail> {
    let zeros = vec![in rt.alloc(); (0u16, 0u16); 4100]?;
    assert_eq!(rt; audit(&zeros[0..1]), Ok(1));
    for n in 0..4100usize {
        // All lie in interval 0 of depth 0.
        let expected = if n.is_power_of_two() {
            not_net(0, 1)
        } else {
            AuditFault::Length(n)
        };
        if n != 1 && n <= zeros.len() {
            assert_eq!(rt; audit(&zeros[0..n]), Err(expected));
        }
    }
    assert_eq!(rt; audit(&zeros), Err(AuditFault::Length(4100)));
    Ok(())
}

#[test]
fn loading(rt: HostRuntime) -> Result<(), Fail> {
    let mut list = PointList::new(rt.alloc())?;
    assert_eq!(rt; list.level().get(), 0);
    assert_eq!(rt; list.place(0), Ok((0, 0)));
    assert_eq!(rt; list.place(1), Err(PlaceFault::NoPlace(1)));
    // (1, 2) and (32768, 32771), lowest byte first.
    let two = [1, 0, 2, 0, 0, 128, 3, 128];
    assert_eq!(rt; list.load(rt.alloc(), &two), Ok(4));
    // Refused lists leave it as it is.
    for n in [0usize, 1, 2, 3, 5, 6, 7] {
        assert_eq!(rt;
            list.load(rt.alloc(), &two[0..n]),
            Err(AuditFault::Length(n).into())
        );
    }
    let twice = [1, 0, 2, 0, 1, 0, 2, 0];
    assert_eq!(rt; list.load(rt.alloc(), &twice), Err(not_net(0, 1).into()));
    assert_eq!(rt; list.level().get(), 1);
    assert_eq!(rt; list.place(0), Ok((1, 2)));
    assert_eq!(rt; list.place(1), Ok((32768, 32771)));
    Ok(())
}

// A list of bytes that were audited, and bytes that are not as many as a level's places have.
#[test]
fn audited_bytes(rt: HostRuntime) -> Result<(), Fail> {
    let two = [1, 0, 2, 0, 0, 128, 3, 128];
    let net = NetBytes::audit(&two)?;
    assert_eq!(rt; net.level().get(), 1);
    assert_eq!(rt; net.intervals(), 4);
    let list = PointList::of(rt.alloc(), net)?;
    assert_eq!(rt; list.place(1), Ok((32768, 32771)));
    assert!(rt; PlaceBytes::of_level(Level::try_from(0)?, &two).is_none());
    assert!(rt; PlaceBytes::new(&two[0..7]).is_none());
    Ok(())
}

// Plans of the lowest level, of a middle one under layers, and of the highest.
#[test]
fn whole_plans(rt: HostRuntime) -> Result<(), Fail> {
    assert_eq!(rt; audit_plan(&Hammersley::new(0)?), Ok(1));
    let scrambled = Scramble::new(Sobol::new(3)?, 0x0123_4567_89AB_CDEF, 0xFEDC_BA98_7654_3210);
    assert_eq!(rt; audit_plan(&Swap::new(scrambled)), Ok(4 * 8));
    assert_eq!(rt; audit_plan(&Sobol::new(12)?), Ok(13 * 4096));
    Ok(())
}

// The longest list.
#[test]
fn highest_level(rt: HostRuntime) -> Result<(), Fail> {
    let plan = Hammersley::new(12)?;
    let mut bytes = Vec::new(rt.alloc());
    // A plan is reached by index.
    for i in 0..4096 {
        let (x, y) = plan.place(i)?;
        bytes.extend_from_slice(&x.to_le_bytes())?;
        bytes.extend_from_slice(&y.to_le_bytes())?;
    }
    let mut list = PointList::new(rt.alloc())?;
    assert_eq!(rt; list.load(rt.alloc(), &bytes), Ok(13 * 4096));
    assert_eq!(rt; list.level().get(), 12);
    assert_eq!(rt; list.place(4095), Ok((65520, 65520)));
    Ok(())
}
