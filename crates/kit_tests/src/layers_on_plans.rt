//! Layers on plans.
use audit::audit;
use layers::{MaybeSwap, Scramble, Shift, Swap};
use nets::Net;
use plans::Plan;
use sequences::{Hammersley, Sobol};
use std::test::Fail;

#[test]
fn single_layers(rt: HostRuntime) -> Result<(), Fail> {
    let shifted = Shift::new(Hammersley::new(1)?, 65535, 3);
    assert_eq!(rt; shifted.place(0), Ok((65535, 3)));
    assert_eq!(rt; shifted.place(1), Ok((32767, 32771)));
    // The last and the first node of the sixth bit, whose weight is 1024.
    let scrambled = Scramble::new(Hammersley::new(5)?, 1 << 63, 1 << 32);
    assert_eq!(rt; scrambled.place(0), Ok((0, 1024)));
    assert_eq!(rt; scrambled.place(31), Ok((64512, 63488)));
    // The word's lowest bit is no node.
    assert_eq!(rt;
        Scramble::new(Hammersley::new(0)?, 1, 2).place(0),
        Ok((0, 32768))
    );
    assert_eq!(rt; Swap::new(Hammersley::new(2)?).place(1), Ok((32768, 16384)));
    assert_eq!(rt;
        MaybeSwap::new(Hammersley::new(2)?, true).place(1),
        Ok((32768, 16384))
    );
    assert_eq!(rt;
        MaybeSwap::new(Hammersley::new(2)?, false).place(1),
        Ok((16384, 32768))
    );
    assert_eq!(rt; Swap::new(Hammersley::new(7)?).level().get(), 7);
    Ok(())
}

// Shift, then scramble, then swap, over a plan whose kind is chosen at run time.
#[test]
fn stacked_layers(rt: HostRuntime) -> Result<(), Fail> {
    let shifted = Shift::new(Plan::Sobol(Sobol::new(5)?), 0xABCD, 0x1234);
    let scrambled = Scramble::new(shifted, 0x0123_4567_89AB_CDEF, 0xFEDC_BA98_7654_3210);
    let plan = MaybeSwap::new(scrambled, true);
    let mut places = Vec::new(rt.alloc());
    // A plan is reached by index.
    for i in 0..32 {
        places.push(plan.place(i)?)?;
    }
    assert_eq!(rt; audit(&places), Ok(6 * 32));
    Ok(())
}
