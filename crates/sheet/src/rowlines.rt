ghost use Rattle.std.specs.Prelude.{◌≡◌};
ghost use Rattle.std.specs.Option.{ok_or};
ghost use Rattle.sheet.specs.RowLines.{row_form, unused_zero, bearing_of, kind_row, lead_row, pendulum_row};

use crate::numbers::{number_field, numbers};
use bearing::{Fault, Group, Layer, Refusal, SheetKind, at_field, check_count};
use either::Either;
use kinds::{LeadRubber, Pendulum};

// A row of a sheet: a group of equal lead-rubber or pendulum bearings.
pub type Row = Group<Either<LeadRubber, Pendulum>>;

// The count and the five numbers after it.
fn row_form(text: &[u8]) -> Option<(u32, [u32; 5])>
    ensures { result ≡ row_form text.now }
{
    let (count, more) = number_field(text)?;
    let p = numbers::<5>(more)?;
    Some((count, p))
}

// Each number past a kind's own fields is 0.
fn check_unused(p: &[u32; 5], own: usize) -> Result<(), Fault>
    ensures { result ≡ unused_zero own 0 p.now }
{
    for (j, x) in p.iter().enumerate() {
        if j >= own && *x > 0 {
            return Err(Fault::new(Refusal::OutOfRange, Layer::Bearing, j as u8 + 1));
        }
    }
    Ok(())
}

// A bearing of a kind: ranges, then zeros past its own fields, then the rest of its making.
fn bearing_of<K: SheetKind>(p: &[u32; 5]) -> Result<K, Fault>
    ensures { result ≡ bearing_of K.SheetKind.FIELDS K.SheetKind.ranged K.SheetKind.made p.now }
{
    K::check_ranges(p)?;
    check_unused(p, K::FIELDS)?;
    K::make(p)
}

// The count and the bearing of a kind's row, by what follows the letter and its comma.
fn kind_row<K: SheetKind>(text: &[u8]) -> Result<(u32, K), Fault>
    ensures { result ≡ kind_row K.SheetKind.FIELDS K.SheetKind.ranged K.SheetKind.made text.now }
{
    let (count, p) = row_form(text).ok_or(Layer::Sheet.refuses(Refusal::ValueLine))?;
    at_field(check_count(count), 1)?;
    let member = at_field(bearing_of::<K>(&p), 2)?;
    Ok((count, member))
}

pub(crate) fn lead_row(text: &[u8]) -> Result<Row, Fault>
    ensures { result ≡ lead_row text.now }
{
    let (count, lead) = kind_row::<LeadRubber>(text)?;
    Group::new(count, Either::Left(lead))
}

pub(crate) fn pendulum_row(text: &[u8]) -> Result<Row, Fault>
    ensures { result ≡ pendulum_row text.now }
{
    let (count, pendulum) = kind_row::<Pendulum>(text)?;
    Group::new(count, Either::Right(pendulum))
}
