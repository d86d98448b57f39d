use deck::{Job, answer_sheet};
use std::test::Fail;

const SHEET: &[u8] =
    b"weight\n4000\nkind,count,p1,p2,p3,p4,p5\nP,4,1000,60,1000,0,0\ncase,accel,site,slo,shi,klo,khi,rule\n1,30,II,100,120,100,100,T\n2,30,II,100,120,100,100,E\n3,100,IV,100,100,100,100,T\n";

const PAGE: &[u8] =
    b"case,answer,dlow,dhigh,force,clear,restores\n1,0,1214,1091,773600,1214,Y\n2,0,1092,941,724800,1092,Y\n3,8,-,-,-,-,-\nend,3\n";
// A pendulum has three numbers, and its fourth field is not 0.
const REFUSED: &[u8] = b"weight\n4000\nkind,count,p1,p2,p3,p4,p5\nP,1,20000,200,200,5,0\n";

// The bytes written, the summary's rows, cases and answered cases, and the number of the refusal.
fn in_numbers(job: &Job) -> (usize, usize, usize, usize, u8) {
    match job.result {
        Ok(s) => (job.written, s.rows, s.cases, s.answered, 0),
        Err(fault) => (job.written, 0, 0, 0, fault.refusal.number()),
    }
}

#[test]
fn worked_sheet(rt: HostRuntime) {
    let mut page = [b'x'; 200];
    let job = answer_sheet(SHEET, &mut page);
    assert_eq!(rt; in_numbers(&job), (119, 1, 3, 2, 0));
    assert!(rt; page.starts_with(PAGE));
    assert_eq!(rt; page[119], b'x');
}

// Too few bytes for a page, for the first line, and one too few for the last line: 113 before the end line and 7.
#[test]
fn full_pages(rt: HostRuntime) -> Result<(), Fail> {
    for (size, len) in [(0, 0), (50, 0), (51, 49), (119, 104)] {
        let mut page = [b'x'; 200];
        let part = page.get_mut(..size).ok_or("size")?;
        assert_eq!(rt; in_numbers(&answer_sheet(SHEET, part)), (len, 0, 0, 0, 10));
        assert_eq!(rt; page.get(len), Some(&b'x'));
    }
    Ok(())
}

#[test]
fn refused_sheet(rt: HostRuntime) {
    let mut large = [b'x'; 35];
    assert_eq!(rt;
        in_numbers(&answer_sheet(REFUSED, &mut large)),
        (33, 0, 0, 0, 1)
    );
    assert_eq!(rt; large, *b"refused,layer,line,field\n1,1,4,6\nxx");
    let mut small = [b'x'; 10];
    assert_eq!(rt;
        in_numbers(&answer_sheet(REFUSED, &mut small)),
        (0, 0, 0, 0, 10)
    );
    assert_eq!(rt; small, [b'x'; 10]);
}

// The refused example, examples/refused.sheet: a load of 25,000 kN on a pendulum.
#[test]
fn refused_example(rt: HostRuntime) {
    let sheet =
        b"weight\n4000\nkind,count,p1,p2,p3,p4,p5\nP,4,25000,60,1000,0,0\ncase,accel,site,slo,shi,klo,khi,rule\n1,30,II,100,120,100,100,T\n";
    let mut page = [b'x'; 34];
    assert_eq!(rt;
        in_numbers(&answer_sheet(sheet, &mut page)),
        (33, 0, 0, 0, 1)
    );
    assert_eq!(rt; page, *b"refused,layer,line,field\n1,1,4,3\nx");
}
