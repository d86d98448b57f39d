ghost use Rattle.std.specs.Prelude.{◌≡◌, ◌≤◌, length};
ghost use Rattle.bearing.specs.Refusals.{with_ok};
ghost use Rattle.listing.specs.Lists.{listed, with_items};
ghost use Rattle.sheet.specs.Parts.{parts};
ghost use Rattle.sheet.specs.Reading.{begun_with, read_parts, read_sheet, rows_read, cases_read, AllMade};
ghost use Rattle.sheet.specs.Text.{TextLaw};

use crate::caselines::Numbers;
use crate::machine::Reader;
use crate::parts::split_first;
use crate::rowlines::Row;
use bearing::{Fault, Layer, Refusal, on_line};
use listing::Listing;
use loading::Weight;

// Takes a sheet line by line into two lists.
fn read_lines(
    sheet: &[u8],
    rows: &mut Listing<'_, Row, 64>,
    cases: &mut Listing<'_, Numbers, 16>,
) -> Result<Weight, Fault>
    requires { length sheet.now ≤ 16384 }
    ensures content { with_ok result (λ w. record { weight = w.kn; rows = (listed rows.new).items; cases = (listed cases.new).items }) ≡ read_parts (listed rows.old).capacity (listed cases.old).capacity 1 (begun_with (listed rows.old).items (listed cases.old).items) (parts 10 sheet.now) }
    ensures rowplaces { (listed rows.new).capacity ≡ (listed rows.old).capacity }
    ensures caseplaces { (listed cases.new).capacity ≡ (listed cases.old).capacity }
{
    let mut reader = Reader::WeightNames;
    let mut left = sheet;
    // so many bytes have at most one line end each
    for k in 1..=16_385u16 {
        let (line, next) = split_first(left, b'\n');
        let Some(more) = next else {
            return on_line(reader.end(line, cases.len()), k);
        };
        on_line(reader.take(line, rows, cases), k)?;
        left = more;
    }
    unreachable!()
}

// Reads a sheet: the deck's weight, and its rows and load cases into two lists, which are emptied first and stay
// empty where the sheet is refused.
pub fn read(
    sheet: &[u8],
    rows: &mut Listing<'_, Row, 64>,
    cases: &mut Listing<'_, Numbers, 16>,
) -> Result<Weight, Fault>
    ensures weight { with_ok result (λ w. w.kn) ≡ with_ok (read_sheet (listed rows.old).capacity (listed cases.old).capacity sheet.now) (λ c. c.weight) }
    ensures rows { listed rows.new ≡ with_items (listed rows.old) (rows_read (read_sheet (listed rows.old).capacity (listed cases.old).capacity sheet.now)) }
    ensures cases { listed cases.new ≡ with_items (listed cases.old) (cases_read (read_sheet (listed rows.old).capacity (listed cases.old).capacity sheet.now)) }
    ensures made { AllMade (listed cases.new).items }
    ensures text { TextLaw (listed rows.old).capacity (listed cases.old).capacity sheet.now }
{
    rows.clear();
    cases.clear();
    if sheet.len() > 16_384 {
        return Err(Layer::Sheet.refuses(Refusal::SheetTooLong));
    }
    let weight = read_lines(sheet, rows, cases);
    if weight.is_err() {
        rows.clear();
        cases.clear();
    }
    weight
}
