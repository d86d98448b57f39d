ghost use Rattle.std.specs.Prelude.{◌≡◌, min, [], length};
ghost use Rattle.either.specs.declared.Either.TheVariants.{Right};
ghost use Rattle.bearing.specs.Compound.{group_of};
ghost use Rattle.kinds.specs.Pendulums.{pendulum_of};
ghost use Rattle.listing.specs.Lists.{listed, with_items};
ghost use Rattle.bearing.specs.Refusals.{with_ok};
ghost use Rattle.sheet.specs.Reading.{read_sheet, rows_read, cases_read, AllMade};
ghost use Rattle.sheet.specs.Hanging.{hung, weight_read};

use crate::caselines::Numbers;
use crate::reading::read;
use crate::rowlines::Row;
use bearing::{Fault, Group};
use bridge::Draft;
use either::Either;
use kinds::Pendulum;
use listing::Listing;
use loading::Weight;

// A sheet that was read as a draft: how many rows hang, or why the sheet is refused. Where it is refused, no row
// hangs on the draft and its weight is the least.
#[derive(Drop)]
pub struct SheetDraft<'a> {
    pub draft: Draft<'a, Row>,
    pub result: Result<usize, Fault>,
}

// What a place for a row holds before one is hung there: the least pendulum.
pub fn spare_row() -> Row
    ensures { result ≡ group_of 1 (Right (pendulum_of 10 10 200)) }
{
    let pendulum = Pendulum::new(10, 10, 200).unwrap();
    Group::new(1, Either::Right(pendulum)).unwrap()
}

// The least weight of a deck, 1 kN.
fn least_weight() -> Weight
    ensures { result.kn ≡ 1 }
{
    Weight::new(1).unwrap()
}

// Hangs rows in their order.
fn hang_rows(draft: &mut Draft<'_, Row>, rows: &[Row])
    ensures rows { listed draft.new.rows ≡ with_items (listed draft.old.rows) (hung (listed draft.old.rows).capacity (listed draft.old.rows).items rows.now) }
    ensures weight { draft.new.weight ≡ draft.old.weight }
{
    for row in rows {
        let _ = draft.hang(*row);
    }
}

// Reads a sheet as a draft: the deck's weight, with the sheet's rows hung in their order in the places lent, and the
// load cases in a list, which is emptied first.
pub fn read_draft<'a>(
    sheet: &[u8],
    places: &'a mut [Row],
    cases: &mut Listing<'_, Numbers, 16>,
) -> SheetDraft<'a>
    ensures result { result.result ≡ with_ok (read_sheet (min 64 (length places.old)) (listed cases.old).capacity sheet.now) (λ c. length c.rows) }
    ensures weight { result.draft.weight.kn ≡ weight_read (read_sheet (min 64 (length places.old)) (listed cases.old).capacity sheet.now) }
    ensures hung { (listed result.draft.rows).items ≡ hung (min 64 (length places.old)) [] (rows_read (read_sheet (min 64 (length places.old)) (listed cases.old).capacity sheet.now)) }
    ensures rows { (listed result.draft.rows).items ≡ rows_read (read_sheet (min 64 (length places.old)) (listed cases.old).capacity sheet.now) }
    ensures rowplaces { (listed result.draft.rows).capacity ≡ min 64 (length places.old) }
    ensures cases { listed cases.new ≡ with_items (listed cases.old) (cases_read (read_sheet (min 64 (length places.old)) (listed cases.old).capacity sheet.now)) }
    ensures made { AllMade (listed cases.new).items }
{
    let mut scratch = [spare_row(); 64];
    let most = places.len().min(64);
    let mut rows = Listing::new(&mut scratch[..most]);
    match read(sheet, &mut rows, cases) {
        Ok(weight) => {
            let mut draft = Draft::begin(weight, places);
            hang_rows(&mut draft, rows.as_slice());
            SheetDraft {
                draft,
                result: Ok(rows.len()),
            }
        }
        Err(fault) => SheetDraft {
            draft: Draft::begin(least_weight(), places),
            result: Err(fault),
        },
    }
}
