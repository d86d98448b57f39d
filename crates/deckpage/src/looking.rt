ghost use Rattle.std.specs.Prelude.{◌≡◌};
ghost use Rattle.deckpage.specs.Looking.{part_at, kind_at, spot_of};

use crate::fields::{LineKind, SheetField, field_of};
use bearing::Fault;
use sheet::number;

// A number that was found in a field.
#[derive(Clone, Copy)]
pub struct Found {
    pub field: SheetField,
    pub number: u32,
}

// What a fault names of a sheet: nothing, a line, or a field of a line with the number found there.
#[derive(Clone, Copy)]
pub enum Spot {
    Whole,
    Line(u16),
    Number(u16, u8, Found),
}

// The n-th part of a text between marks, counted from 1; nothing where there are fewer.
fn part_at(text: &[u8], mark: u8, n: usize) -> &[u8]
    ensures { result.now ≡ part_at mark n text.now }
{
    text.split(|b| *b == mark)
        .nth(n.saturating_sub(1))
        .unwrap_or(&[])
}

// What a line with a number outside its range holds: the second has the weight, a row begins with its letter, and
// any other is a case.
fn kind_at(line: u16, text: &[u8]) -> LineKind
    ensures { result ≡ kind_at line text.now }
{
    match (line, text) {
        (2, _) => LineKind::Weight,
        (_, [b'L', ..]) => LineKind::Lead,
        (_, [b'P', ..]) => LineKind::Pendulum,
        _ => LineKind::Case,
    }
}

// What a fault names of this sheet.
pub fn spot_of(sheet: &[u8], fault: &Fault) -> Spot
    ensures { result ≡ spot_of sheet.now fault.now }
{
    let Fault { line, field, .. } = *fault;
    if line == 0 {
        return Spot::Whole;
    }
    if field == 0 {
        return Spot::Line(line);
    }
    let text = part_at(sheet, b'\n', usize::from(line));
    match number(part_at(text, b',', usize::from(field))) {
        Some(number) => {
            let found = Found {
                field: field_of(kind_at(line, text), field),
                number,
            };
            Spot::Number(line, field, found)
        }
        None => Spot::Line(line),
    }
}
