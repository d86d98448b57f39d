use crate::bridges::numbers;
use bearing::{Bearing, Group};
use either::Either;
use kinds::{LeadRubber, Pendulum};
use std::process::Abort;
use std::test::Fail;

// Five fields, then the number of the refusal (0 for none) and the field it names.
const LEAD_RUBBER: [[u32; 7]; 14] = [
    [100, 114, 500, 62, 150, 0, 0],
    [166, 114, 500, 62, 150, 0, 0],
    [9, 114, 500, 62, 150, 1, 1],
    [401, 114, 500, 62, 150, 1, 1],
    [100, 49, 500, 62, 150, 1, 2],
    [100, 201, 500, 62, 150, 1, 2],
    [100, 114, 99, 62, 150, 1, 3],
    [100, 114, 1_501, 62, 150, 1, 3],
    [100, 114, 500, 39, 150, 1, 4],
    [100, 114, 500, 201, 150, 1, 4],
    [100, 114, 500, 62, 19, 1, 5],
    [100, 114, 500, 62, 1_001, 1, 5],
    [167, 114, 500, 62, 150, 2, 0],
    [100, 114, 1_500, 200, 20, 3, 0],
];

// Three fields, then as above.
const PENDULUM: [[u32; 5]; 9] = [
    [1_000, 60, 1_000, 0, 0],
    [20_000, 200, 300, 0, 0],
    [9, 60, 1_000, 1, 1],
    [20_001, 60, 1_000, 1, 1],
    [1_000, 9, 1_000, 1, 2],
    [1_000, 201, 1_000, 1, 2],
    [1_000, 60, 199, 1, 3],
    [1_000, 60, 20_001, 1, 3],
    [20_000, 200, 200, 3, 0],
];

// A count of bearings of 20,000 kN, then as above.
const GROUP: [[u32; 3]; 4] = [[0, 1, 1], [1, 0, 0], [2, 3, 0], [21, 1, 1]];

// Whether a making told what is wanted: the refusal's number and field, by this layer and off a sheet.
fn agrees(rt: &impl Abort, told: (u8, u8, u16, u8), layer: u8, wanted: (u32, u32)) {
    let (number, by, line, field) = told;
    assert_eq!(rt; (number as u32, field as u32), wanted);
    assert_eq!(rt; (by, line), (if number == 0 { 0 } else { layer }, 0));
}

#[test]
fn lead_rubber_is_made(rt: HostRuntime) {
    for p in &LEAD_RUBBER {
        let told = numbers(LeadRubber::new(p[0], p[1], p[2], p[3], p[4]));
        agrees(&rt, told, 1, (p[5], p[6]));
    }
}

#[test]
fn pendulum_is_made(rt: HostRuntime) {
    for p in &PENDULUM {
        agrees(
            &rt,
            numbers(Pendulum::new(p[0], p[1], p[2])),
            1,
            (p[3], p[4]),
        );
    }
}

#[test]
fn group_is_made(rt: HostRuntime) -> Result<(), Fail> {
    let member = Pendulum::new(20_000, 200, 300)?;
    for p in &GROUP {
        agrees(&rt, numbers(Group::new(p[0], member)), 2, (p[1], p[2]));
    }
    Ok(())
}

#[test]
fn figures_hold(rt: HostRuntime) -> Result<(), Fail> {
    let lead = LeadRubber::new(100, 114, 500, 62, 150)?;
    assert_eq!(rt; lead.answer(100, 100, 50), (42_656, 0));
    assert_eq!(rt; lead.answer(100, 100, 105), (89_579, 0));
    assert_eq!(rt; lead.answer(100, 100, 1_000), (166_281, 72_119_995));
    let pendulum = Pendulum::new(1_000, 60, 1_000)?;
    assert_eq!(rt; pendulum.answer(100, 100, 1_000), (160_000, 60_000_000));
    assert_eq!(rt; pendulum.answer(120, 100, 0), (0, 0));
    let group = Group::new(2, Either::<Pendulum, LeadRubber>::Right(lead))?;
    assert_eq!(rt; group.answer(100, 100, 1_000), (332_562, 144_239_990));
    Ok(())
}
