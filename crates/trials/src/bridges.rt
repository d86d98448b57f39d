use bearing::{Fault, Group};
use bridge::{Draft, DraftCall, Question, Response, replay};
use damping::{EurocodeRule, TableRule};
use either::Either;
use kinds::{LeadRubber, Pendulum};
use listing::Listing;
use loading::{Case, CaseNumbers, Site, Weight};
use sheet::SheetRule;
use std::test::Fail;

// Number, layer, line and field of a fault; zeros where there is none.
pub(crate) fn numbers<T: Drop>(r: Result<T, Fault>) -> (u8, u8, u16, u8) {
    match r {
        Ok(_) => (0, 0, 0, 0),
        Err(e) => (e.refusal.number(), e.layer.number(), e.line, e.field),
    }
}

#[test]
fn weights(rt: HostRuntime) {
    for (kn, field) in [(0, 1), (1, 0), (1_000_000, 0), (1_000_001, 1)] {
        let layer = if field == 0 { 0 } else { 2 };
        assert_eq!(rt; numbers(Weight::new(kn)), (field, layer, 0, field));
    }
}

// accel, slo, shi, klo, khi, then the refusal's number and field.
const CASES: [[u32; 7]; 15] = [
    [1, 50, 300, 50, 300, 0, 0],
    [100, 100, 100, 100, 100, 0, 0],
    [0, 100, 100, 100, 100, 1, 1],
    [101, 100, 100, 100, 100, 1, 1],
    [30, 49, 100, 100, 100, 1, 3],
    [30, 301, 100, 100, 100, 1, 3],
    [30, 100, 49, 100, 100, 1, 4],
    [30, 100, 301, 100, 100, 1, 4],
    [30, 100, 100, 49, 100, 1, 5],
    [30, 100, 100, 301, 100, 1, 5],
    [30, 100, 100, 100, 49, 1, 6],
    [30, 100, 100, 100, 301, 1, 6],
    [30, 101, 100, 100, 100, 7, 0],
    [30, 100, 100, 101, 100, 7, 0],
    [30, 101, 100, 100, 301, 1, 6],
];

fn case(accel: u32, slo: u32, shi: u32, klo: u32, khi: u32) -> CaseNumbers<TableRule> {
    CaseNumbers {
        accel,
        site: Site::II,
        slo,
        shi,
        klo,
        khi,
        rule: TableRule,
    }
}

#[test]
fn cases(rt: HostRuntime) {
    for p in &CASES {
        let (number, layer, line, field) = numbers(Case::new(case(p[0], p[1], p[2], p[3], p[4])));
        assert_eq!(rt; (number as u32, field as u32), (p[5], p[6]));
        assert_eq!(rt; (layer == 2, line), (p[5] > 0, 0));
    }
}

#[test]
fn lists(rt: HostRuntime) {
    let mut places = [0u8; 3];
    let mut list: Listing<u8, 2> = Listing::new(&mut places);
    assert_eq!(rt; numbers(list.take_off()), (5, 2, 0, 0));
    assert_eq!(rt; numbers(list.push(7)), (0, 0, 0, 0));
    assert_eq!(rt; numbers(list.push(8)), (0, 0, 0, 0));
    assert_eq!(rt; numbers(list.push(9)), (4, 2, 0, 0));
    assert!(rt; list.as_slice() == [7, 8].as_slice());
    assert_eq!(rt; numbers(list.take_off()), (0, 0, 0, 0));
    assert!(rt; list.as_slice() == [7].as_slice());
}

// The worked bridge: 4000 kN on four pendulums; without a row, answered, and beyond range.
#[test]
fn queries(rt: HostRuntime) -> Result<(), Fail> {
    let weight = Weight::new(4_000)?;
    let pendulum = Pendulum::new(1_000, 60, 1_000)?;
    let row = Group::new(4, pendulum)?;
    let mild = Case::new(case(30, 100, 120, 100, 100))?;
    let hard = Case::new(CaseNumbers {
        site: Site::IV,
        ..case(100, 100, 100, 100, 100)
    })?;
    let mut none: [Group<Pendulum>; 0] = [];
    let mut empty = Draft::begin(weight, &mut none);
    assert_eq!(rt; numbers(empty.hang(row)), (4, 2, 0, 0));
    assert_eq!(rt; numbers(empty.close().query(&mild)), (6, 2, 0, 0));
    let mut places = [row; 1];
    let mut draft = Draft::begin(weight, &mut places);
    assert_eq!(rt; numbers(draft.hang(row)), (0, 0, 0, 0));
    let bridge = draft.close();
    assert_eq!(rt; numbers(bridge.query(&hard)), (8, 2, 0, 0));
    let a = bridge.query(&mild)?;
    assert_eq!(rt;
        (a.dlow, a.dhigh, a.force, a.clear, a.restores),
        (1_214, 1_091, 773_600, 1_214, true)
    );
    Ok(())
}

// A response as seven numbers: 0 and dlow, dhigh, force, clear, restores and a row's force; or the refusal's number.
fn figures(r: &Response) -> [u64; 7] {
    match r {
        Response::Query(Ok(a)) => [
            0,
            a.dlow as u64,
            a.dhigh as u64,
            a.force,
            a.clear as u64,
            a.restores as u64,
            0,
        ],
        Response::RowQuery(Ok(force)) => [0, 0, 0, 0, 0, 0, *force],
        Response::Query(Err(e)) => [e.refusal.number() as u64, 0, 0, 0, 0, 0, 0],
        Response::RowQuery(Err(e)) => [e.refusal.number() as u64, 0, 0, 0, 0, 0, 0],
    }
}

type Kind = Either<LeadRubber, Pendulum>;

fn mixed_case(accel: u32, site: Site, rule: SheetRule) -> Result<Case<SheetRule>, Fault> {
    Case::new(CaseNumbers {
        accel,
        site,
        slo: 80,
        shi: 130,
        klo: 90,
        khi: 120,
        rule,
    })
}

// What a run answers, with figures worked out by plain scans in exact fractions: two rows of mixed kinds remain of four
// hangings and two takings-off, on two places.
#[test]
fn mixed_run(rt: HostRuntime) -> Result<(), Fail> {
    let weight = Weight::new(3_000)?;
    let lead = LeadRubber::new(100, 114, 500, 62, 150)?;
    let pendulum = Pendulum::new(1_000, 60, 1_000)?;
    let first: Group<Kind> = Group::new(4, Either::Left(lead))?;
    let second: Group<Kind> = Group::new(2, Either::Right(pendulum))?;
    let calls = [
        DraftCall::TakeOff,
        DraftCall::Hang(first),
        DraftCall::Hang(first),
        DraftCall::Hang(second),
        DraftCall::TakeOff,
        DraftCall::Hang(second),
    ];
    let table = mixed_case(30, Site::II, Either::Left(TableRule))?;
    let eurocode = mixed_case(30, Site::II, Either::Right(EurocodeRule))?;
    let hard = mixed_case(100, Site::IV, Either::Left(TableRule))?;
    let row_case = mixed_case(30, Site::II, Either::Left(TableRule))?;
    let no_row = mixed_case(30, Site::II, Either::Left(TableRule))?;
    let questions = [
        Question::Query(table),
        Question::Query(eurocode),
        Question::Query(hard),
        Question::RowQuery(row_case, 2),
        Question::RowQuery(no_row, 3),
    ];
    let mut places = [first; 2];
    let mut replies = [Ok(()); 6];
    let mut responses = [Response::RowQuery(Ok(0)); 5];
    assert!(rt;
        replay(
            weight,
            &mut places,
            &calls,
            Some(&questions),
            &mut replies,
            &mut responses,
        )
    );
    for (reply, number) in replies.iter().zip([5, 0, 0, 4, 0, 0]) {
        assert_eq!(rt; numbers(*reply).0, number);
    }
    assert_eq!(rt; figures(&responses[0]), [0, 761, 528, 1_040_264, 761, 1, 0]);
    assert_eq!(rt; figures(&responses[1]), [0, 667, 519, 982_796, 667, 1, 0]);
    assert_eq!(rt; figures(&responses[2]), [8, 0, 0, 0, 0, 0, 0]);
    assert_eq!(rt; figures(&responses[3]), [0, 0, 0, 0, 0, 0, 308_200]);
    assert_eq!(rt; figures(&responses[4]), [9, 0, 0, 0, 0, 0, 0]);
    Ok(())
}

// The worked bridge by a run, one that stops before closing, one without rows, and one whose replies do not fit.
#[test]
fn worked_run(rt: HostRuntime) -> Result<(), Fail> {
    let weight = Weight::new(4_000)?;
    let pendulum = Pendulum::new(1_000, 60, 1_000)?;
    let row = Group::new(4, pendulum)?;
    let mild = Case::new(case(30, 100, 120, 100, 100))?;
    let questions = [Question::Query(mild)];
    let mut places = [row; 1];
    let mut replies = [Ok(()); 1];
    let mut responses = [Response::RowQuery(Ok(0)); 1];
    assert!(rt;
        replay(
            weight,
            &mut places,
            &[DraftCall::Hang(row)],
            Some(&questions),
            &mut replies,
            &mut responses,
        )
    );
    assert_eq!(rt;
        figures(&responses[0]),
        [0, 1_214, 1_091, 773_600, 1_214, 1, 0]
    );
    assert!(rt;
        replay(
            weight,
            &mut places,
            &[DraftCall::TakeOff],
            Some(&questions),
            &mut replies,
            &mut responses,
        )
    );
    assert_eq!(rt; figures(&responses[0]), [6, 0, 0, 0, 0, 0, 0]);
    assert_eq!(rt; numbers(replies[0]), (5, 2, 0, 0));
    let none: Option<&[Question<TableRule>]> = None;
    assert!(rt;
        replay(
            weight,
            &mut places,
            &[DraftCall::Hang(row)],
            none,
            &mut replies,
            &mut [],
        )
    );
    assert!(rt;
        !replay(
            weight,
            &mut places,
            &[DraftCall::Hang(row)],
            none,
            &mut replies,
            &mut responses,
        )
    );
    Ok(())
}
