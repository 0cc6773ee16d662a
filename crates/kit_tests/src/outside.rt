//! The Sobol points against numbers from elsewhere.
use nets::Net;
use sequences::Sobol;
use std::test::Fail;

// The first 64 points of the two-dimensional Sobol sequence in 64ths, as SciPy 1.10.1
// (scipy.stats.qmc.Sobol, scramble=False) and GSL 2.7.1 (gsl_qrng_sobol, which leaves out the first)
// give them: in the Gray-code order of Antonov and Saleev, so that point i has the natural index i XOR i / 2.
const GRAY_ORDER: [(u16, u16); 64] = [
    (0, 0),
    (32, 32),
    (48, 16),
    (16, 48),
    (24, 24),
    (56, 56),
    (40, 8),
    (8, 40),
    (12, 20),
    (44, 52),
    (60, 4),
    (28, 36),
    (20, 12),
    (52, 44),
    (36, 28),
    (4, 60),
    (6, 30),
    (38, 62),
    (54, 14),
    (22, 46),
    (30, 6),
    (62, 38),
    (46, 22),
    (14, 54),
    (10, 10),
    (42, 42),
    (58, 26),
    (26, 58),
    (18, 18),
    (50, 50),
    (34, 2),
    (2, 34),
    (3, 17),
    (35, 49),
    (51, 1),
    (19, 33),
    (27, 9),
    (59, 41),
    (43, 25),
    (11, 57),
    (15, 5),
    (47, 37),
    (63, 21),
    (31, 53),
    (23, 29),
    (55, 61),
    (39, 13),
    (7, 45),
    (5, 15),
    (37, 47),
    (53, 31),
    (21, 63),
    (29, 23),
    (61, 55),
    (45, 7),
    (13, 39),
    (9, 27),
    (41, 59),
    (57, 11),
    (25, 43),
    (17, 3),
    (49, 35),
    (33, 19),
    (1, 51),
];

#[test]
fn first_sobol_points(rt: HostRuntime) -> Result<(), Fail> {
    let plan = Sobol::new(6)?;
    for (i, (x, y)) in (0..64).zip(&GRAY_ORDER) {
        let (place_x, place_y) = plan.place(i ^ i / 2)?;
        assert_eq!(rt; u32::from(place_x), u32::from(*x) * 1024);
        assert_eq!(rt; u32::from(place_y), u32::from(*y) * 1024);
    }
    Ok(())
}
