//! The ends of the two sequences, and the rounds of Sobol's places, worked by hand.
use layers::{LayerNumbers, Swap};
use nets::{Net, PlaceFault, Rounds};
use plans::Plan;
use sequences::{Hammersley, LevelFault, Sobol};
use std::process::Abort;
use std::test::Fail;

fn ends_at<P: Net>(rt: &impl Abort, plan: &P, last: u32, x: u16, y: u16) {
    assert_eq!(rt; plan.place(0), Ok((0, 0)));
    assert_eq!(rt; plan.place(last), Ok((x, y)));
    for past in [last.wrapping_add(1), u32::MAX] {
        assert_eq!(rt; plan.place(past), Err(PlaceFault::NoPlace(past)));
    }
}

#[test]
fn hammersley_ends(rt: HostRuntime) -> Result<(), Fail> {
    ends_at(&rt, &Hammersley::new(0)?, 0, 0, 0);
    ends_at(&rt, &Hammersley::new(1)?, 1, 32768, 32768);
    ends_at(&rt, &Hammersley::new(12)?, 4095, 65520, 65520);
    Ok(())
}

#[test]
fn sobol_ends(rt: HostRuntime) -> Result<(), Fail> {
    ends_at(&rt, &Sobol::new(0)?, 0, 0, 0);
    ends_at(&rt, &Sobol::new(1)?, 1, 32768, 32768);
    // Bit k of the last y is C(12, k + 1) modulo 2, which is 1 for k = 3, 7 and 11.
    ends_at(&rt, &Sobol::new(12)?, 4095, 65520, 4096 + 256 + 16);
    Ok(())
}

// At the ends of few digits and of many: 2^11 - 1 has eleven, and 2^11 and 2^12 - 1 have twelve.
#[test]
fn rounds(rt: HostRuntime) -> Result<(), Fail> {
    let plan = Sobol::new(12)?;
    for (i, rounds) in [
        (0, 0),
        (1, 1),
        (2, 2),
        (3, 2),
        (4, 3),
        (5, 3),
        (2047, 11),
        (2048, 12),
        (4095, 12),
    ] {
        assert_eq!(rt; plan.place_in_rounds(i), Ok((plan.place(i)?, rounds)));
    }
    assert_eq!(rt; plan.place_in_rounds(2048), Ok(((16, 61680), 12)));
    assert_eq!(rt; plan.place_in_rounds(4095), Ok(((65520, 4368), 12)));
    assert_eq!(rt; Sobol::new(3)?.place_in_rounds(5), Ok(((40960, 8192), 3)));
    assert_eq!(rt; Sobol::new(0)?.place_in_rounds(0), Ok(((0, 0), 0)));
    assert_eq!(rt;
        Sobol::new(0)?.place_in_rounds(1),
        Err(PlaceFault::NoPlace(1))
    );
    for past in [4096, u32::MAX] {
        assert_eq!(rt; plan.place_in_rounds(past), Err(PlaceFault::NoPlace(past)));
        assert_eq!(rt; plan.place_and_rounds(past), Err(PlaceFault::NoPlace(past)));
    }
    Ok(())
}

// Layers move the place and keep the rounds, also over a plan whose kind is chosen at run time.
#[test]
fn rounds_through_layers(rt: HostRuntime) -> Result<(), Fail> {
    let swapped = Swap::new(Sobol::new(3)?);
    assert!(rt; swapped.counts_rounds());
    assert_eq!(rt; swapped.place_and_rounds(5), Ok(((8192, 40960), Some(3))));
    let layers = LayerNumbers {
        s: 1,
        t: 2,
        x_word: 0,
        y_word: 0,
        swap: true,
    };
    let sobol = layers.on(layers.on(Plan::Sobol(Sobol::new(3)?)));
    assert!(rt; sobol.counts_rounds());
    assert_eq!(rt; sobol.place_and_rounds(5), Ok(((40963, 8195), Some(3))));
    assert_eq!(rt; sobol.place_and_rounds(8), Err(PlaceFault::NoPlace(8)));
    let hammersley = layers.on(Plan::Hammersley(Hammersley::new(2)?));
    assert!(rt; !hammersley.counts_rounds());
    assert_eq!(rt; hammersley.place_and_rounds(1), Ok(((32770, 16385), None)));
    Ok(())
}

#[test]
fn levels(rt: HostRuntime) -> Result<(), Fail> {
    assert_eq!(rt; Hammersley::new(12)?.level().get(), 12);
    assert_eq!(rt; Sobol::new(0)?.level().get(), 0);
    for level in [13, 16, 32, u32::MAX] {
        let fault = Some(LevelFault::TooHigh(level));
        assert_eq!(rt; Hammersley::new(level).err(), fault);
        assert_eq!(rt; Sobol::new(level).err(), fault);
    }
    Ok(())
}
