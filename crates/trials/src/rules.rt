use damping::{DampingRule, EurocodeRule, TableRule};
use either::Either;
use std::process::Abort;

// Each row: E, and the greatest demand that is still met at P = 4520.
fn edges<R: DampingRule>(rt: &impl Abort, rule: &R, rows: &[(u64, u64)]) {
    for (e, r) in rows {
        assert!(rt; rule.meets(*e, 4520, *r));
        assert!(rt; !rule.meets(*e, 4520, (*r).saturating_add(1)));
    }
}

#[test]
fn greatest_demands(rt: HostRuntime) {
    let table: Either<TableRule, EurocodeRule> = Either::Left(TableRule);
    let eurocode: Either<TableRule, EurocodeRule> = Either::Right(EurocodeRule);
    edges(&rt, &table, &[(355, 4520), (710, 6508), (4520, 18080)]);
    edges(&rt, &eurocode, &[(0, 2260), (4520, 14942)]);
}

#[test]
fn outside_the_ranges(rt: HostRuntime) {
    let rows = [
        (5, 4, 1),
        (0, 64_000_000_000_001, 1),
        (0, 4520, 0),
        (0, 64_000_000_000_000, 20_000_000_000_001),
        (0, 0, 1),
    ];
    for (e, p, r) in rows {
        assert!(rt; !TableRule.meets(e, p, r));
        assert!(rt; !EurocodeRule.meets(e, p, r));
    }
    assert!(rt; TableRule::scaled_factor(5, 4).is_none());
}
