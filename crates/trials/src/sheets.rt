use damping::TableRule;
use either::Either;
use listing::Listing;
use loading::{CaseNumbers, Site};
use sheet::{Numbers, number, read, spare_row};
use std::process::Abort;
use std::test::Fail;

#[test]
fn numbers(rt: HostRuntime) {
    assert_eq!(rt; number(b"0"), Some(0));
    assert_eq!(rt; number(b"4000"), Some(4_000));
    assert_eq!(rt; number(b"9999999"), Some(9_999_999));
    for text in ["", "00", "01", "10000000", "-1", "1 ", "1a"] {
        assert_eq!(rt; number(text.as_bytes()), None);
    }
}

const NAMES: &str = "weight\n4000\nkind,count,p1,p2,p3,p4,p5\n";

const ROW: &str = "P,4,1000,60,1000,0,0\n";

const CASES: &str = "case,accel,site,slo,shi,klo,khi,rule\n";

const CASE: &str = "1,30,II,100,120,100,100,T\n";

// Reads a sheet with so many places for rows and cases: number, layer, line and field of the refusal, or zeros and
// the lengths of the two lists.
fn outcome(
    rt: &impl Abort,
    sheet: &[u8],
    row_places: usize,
    case_places: usize,
) -> Result<[usize; 4], Fail> {
    let numbers: Numbers = CaseNumbers {
        accel: 1,
        site: Site::I,
        slo: 100,
        shi: 100,
        klo: 100,
        khi: 100,
        rule: Either::Left(TableRule),
    };
    let mut rows = [spare_row(); 65];
    let mut cases = [numbers; 17];
    let mut rows = Listing::new(rows.get_mut(..row_places).ok_or("places")?);
    let mut cases = Listing::new(cases.get_mut(..case_places).ok_or("places")?);
    match read(sheet, &mut rows, &mut cases) {
        Ok(_) => Ok([0, 0, rows.len(), cases.len()]),
        Err(e) => {
            assert_eq!(rt; (rows.len(), cases.len()), (0, 0));
            Ok([
                e.refusal.number() as usize,
                e.layer.number() as usize,
                e.line as usize,
                e.field as usize,
            ])
        }
    }
}

// Row lines with the number, layer and field that line 4 of a sheet with them gives.
const ROWS: [(&str, [usize; 4]); 24] = [
    ("P,4,1000,60,1000,0,0\n", [0, 0, 1, 1]),
    ("L,1,100,114,500,62,150\n", [0, 0, 1, 1]),
    ("L,1,166,114,500,62,150\n", [0, 0, 1, 1]),
    ("\n", [13, 3, 4, 0]),
    ("P\n", [13, 3, 4, 0]),
    ("Q,4,1000,60,1000,0,0\n", [13, 3, 4, 0]),
    ("P;4,1000,60,1000,0,0\n", [13, 3, 4, 0]),
    ("P,4,1000,60,1000,0\n", [13, 3, 4, 0]),
    ("P,4,1000,60,1000,0,0,0\n", [13, 3, 4, 0]),
    ("P,0,1000,60,1000,0,x\n", [13, 3, 4, 0]),
    ("P,0,1000,60,1000,0,0\n", [1, 2, 4, 2]),
    ("P,21,9,60,1000,0,0\n", [1, 2, 4, 2]),
    ("P,1,9,60,1000,0,0\n", [1, 1, 4, 3]),
    ("P,1,9,60,1000,5,0\n", [1, 1, 4, 3]),
    ("L,1,401,114,500,62,150\n", [1, 1, 4, 3]),
    ("L,1,400,200,1199,200,20\n", [2, 1, 4, 0]),
    ("P,1,20000,200,200,5,0\n", [1, 1, 4, 6]),
    ("P,1,1000,60,1000,0,5\n", [1, 1, 4, 7]),
    ("L,1,100,114,500,62,19\n", [1, 1, 4, 7]),
    ("L,1,167,114,500,62,150\n", [2, 1, 4, 0]),
    ("P,20,20000,200,200,0,0\n", [3, 1, 4, 0]),
    ("P,2,20000,200,300,0,0\n", [3, 2, 4, 0]),
    ("cases\n", [12, 3, 4, 0]),
    ("case,accel,site,slo,shi,klo,khi,rule\n", [12, 3, 4, 0]),
];

// Case lines with what line 6 of a sheet with them gives.
const CASE_LINES: [(&str, [usize; 4]); 16] = [
    ("1,30,IV,100,120,100,100,E\n", [0, 0, 1, 1]),
    ("\n", [13, 3, 6, 0]),
    ("case\n", [13, 3, 6, 0]),
    ("1,30,V,100,120,100,100,T\n", [13, 3, 6, 0]),
    ("1,30,II,100,120,100,100,t\n", [13, 3, 6, 0]),
    ("1,30,II,100,120,100,100\n", [13, 3, 6, 0]),
    ("1,30,II,100,120,100,100,T,\n", [13, 3, 6, 0]),
    ("2,0,II,100,120,100,100,T\n", [1, 3, 6, 1]),
    ("1,0,II,301,120,100,100,T\n", [1, 2, 6, 2]),
    ("1,30,II,49,120,100,100,T\n", [1, 2, 6, 4]),
    ("1,30,II,100,301,100,100,T\n", [1, 2, 6, 5]),
    ("1,30,II,100,120,49,100,T\n", [1, 2, 6, 6]),
    ("1,30,II,121,120,100,301,T\n", [1, 2, 6, 7]),
    ("1,30,II,121,120,100,100,T\n", [7, 2, 6, 0]),
    ("1,30,II,100,120,101,100,T\n", [7, 2, 6, 0]),
    ("1,30,II,100,120,100,100,T", [13, 3, 6, 0]),
];

// Whole sheets with what they give.
const SHEETS: [(&str, [usize; 4]); 14] = [
    ("", [12, 3, 1, 0]),
    ("\n", [12, 3, 1, 0]),
    ("weight", [13, 3, 1, 0]),
    ("Weight\n", [12, 3, 1, 0]),
    ("weight\n", [12, 3, 2, 0]),
    ("weight\n\n", [13, 3, 2, 0]),
    ("weight\n04000\n", [13, 3, 2, 0]),
    ("weight\n0\n", [1, 2, 2, 1]),
    ("weight\n1000001\nkind\n", [1, 2, 2, 1]),
    ("weight\n4000\n", [12, 3, 3, 0]),
    ("weight\n4000\nkind,count\n", [12, 3, 3, 0]),
    ("weight\n4000\nkind,count,p1,p2,p3,p4,p5\n", [12, 3, 4, 0]),
    (
        "weight\n4000\nkind,count,p1,p2,p3,p4,p5\nP,4,1000,60,1000,0,0\n",
        [12, 3, 5, 0],
    ),
    (
        "weight\n4000\nkind,count,p1,p2,p3,p4,p5\nP,4,1000,60,1000,0,0\ncase,accel,site,slo,shi,klo,khi,rule\n",
        [12, 3, 6, 0],
    ),
];

// A sheet of these texts one after another.
fn joined(rt: &HostRuntime, texts: &[&str]) -> Result<String, Fail> {
    let mut sheet = String::new(rt.alloc());
    for text in texts {
        sheet.push_str(text)?;
    }
    Ok(sheet)
}

#[test]
fn lines(rt: HostRuntime) -> Result<(), Fail> {
    for (row, told) in ROWS {
        assert_eq!(rt;
            outcome(
                &rt,
                joined(&rt, &[NAMES, row, CASES, CASE])?.as_bytes(),
                64,
                16
            )?,
            told,
            "{}",
            row
        );
    }
    for (case, told) in CASE_LINES {
        assert_eq!(rt;
            outcome(
                &rt,
                joined(&rt, &[NAMES, ROW, CASES, case])?.as_bytes(),
                64,
                16
            )?,
            told,
            "{}",
            case
        );
    }
    for (sheet, told) in SHEETS {
        assert_eq!(rt; outcome(&rt, sheet.as_bytes(), 64, 16)?, told, "{}", sheet);
    }
    Ok(())
}

// As many rows and cases as there are places, and one more; a bad 17th case; a sheet too long.
#[test]
fn places(rt: HostRuntime) -> Result<(), Fail> {
    let one = joined(&rt, &[NAMES, ROW, CASES, CASE])?;
    assert_eq!(rt; outcome(&rt, one.as_bytes(), 0, 16)?, [4, 2, 4, 0]);
    assert_eq!(rt; outcome(&rt, one.as_bytes(), 1, 0)?, [4, 2, 6, 0]);
    let strong = joined(&rt, &[NAMES, "P,2,20000,200,300,0,0\n"])?;
    assert_eq!(rt; outcome(&rt, strong.as_bytes(), 0, 16)?, [3, 2, 4, 0]);
    let reversed = joined(&rt, &[NAMES, ROW, CASES, "1,30,II,121,120,100,100,T\n"])?;
    assert_eq!(rt; outcome(&rt, reversed.as_bytes(), 1, 0)?, [7, 2, 6, 0]);
    let mut sheet = joined(&rt, &[NAMES])?;
    for _ in 0..64 {
        sheet.push_str(ROW)?;
    }
    sheet.push_str(CASES)?;
    for n in 1..17u8 {
        sheet.push_str(format!(in rt.alloc(); "{n},30,II,100,120,100,100,T\n")?.as_str())?;
    }
    assert_eq!(rt; outcome(&rt, sheet.as_bytes(), 65, 17)?, [0, 0, 64, 16]);
    sheet.push_str("17,30,II,100,301,100,100,T\n")?;
    assert_eq!(rt; outcome(&rt, sheet.as_bytes(), 65, 17)?, [1, 2, 85, 5]);
    let long = [b'x'; 16_385];
    assert_eq!(rt; outcome(&rt, &long, 64, 16)?, [14, 3, 0, 0]);
    assert_eq!(rt; outcome(&rt, &long[..16_384], 64, 16)?, [13, 3, 1, 0]);
    Ok(())
}
