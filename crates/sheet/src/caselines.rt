ghost use Rattle.std.specs.Prelude.{◌≡◌};
ghost use Rattle.std.specs.Option.{option_map};
ghost use Rattle.loading.specs.Making.{case_made};
ghost use Rattle.sheet.specs.CaseLines.{site_named, rule_named, site_field, case_form, case_line};

use crate::numbers::{number_field, parsed_field};
use bearing::{Fault, Layer, Refusal, at_field};
use damping::{EurocodeRule, TableRule};
use either::Either;
use loading::{Case, CaseNumbers, Site};

// The rule of a sheet: T by the table, E by the Eurocode.
pub type SheetRule = Either<TableRule, EurocodeRule>;

// A load case of a sheet as its plain numbers.
pub type Numbers = CaseNumbers<SheetRule>;

fn site_named(text: &[u8]) -> Option<Site>
    ensures { result ≡ site_named text.now }
{
    match text {
        b"I" => Some(Site::I),
        b"II" => Some(Site::II),
        b"III" => Some(Site::III),
        b"IV" => Some(Site::IV),
        _ => None,
    }
}

fn rule_named(text: &[u8]) -> Option<SheetRule>
    ensures { result ≡ rule_named text.now }
{
    match text {
        b"T" => Some(Either::Left(TableRule)),
        b"E" => Some(Either::Right(EurocodeRule)),
        _ => None,
    }
}

// A site, a comma, and the rest of the line.
fn site_field(text: &[u8]) -> Option<(Site, &[u8])>
    ensures { option_map (λ p. (p.0, p.1.now)) result ≡ site_field text.now }
{
    parsed_field(text, site_named)
}

// A case line by its form alone: its number, and the numbers of the case.
fn case_form(text: &[u8]) -> Option<(u32, Numbers)>
    ensures { result ≡ case_form text.now }
{
    let (number, after_number) = number_field(text)?;
    let (accel, after_accel) = number_field(after_number)?;
    let (site, after_site) = site_field(after_accel)?;
    let (slo, after_slo) = number_field(after_site)?;
    let (shi, after_shi) = number_field(after_slo)?;
    let (klo, after_klo) = number_field(after_shi)?;
    let (khi, after_khi) = number_field(after_klo)?;
    let rule = rule_named(after_khi)?;
    Some((
        number,
        CaseNumbers {
            accel,
            site,
            slo,
            shi,
            klo,
            khi,
            rule,
        },
    ))
}

// The same numbers, where they make a case.
fn making_a_case(numbers: Numbers) -> Result<Numbers, Fault>
    ensures { result ≡ case_made numbers }
{
    let _case = Case::new(numbers)?;
    Ok(numbers)
}

// The numbers of the case that is numbered `n`; they make a case.
pub(crate) fn case_line(text: &[u8], n: usize) -> Result<Numbers, Fault>
    ensures { result ≡ case_line n text.now }
{
    let (number, numbers) = case_form(text).ok_or(Layer::Sheet.refuses(Refusal::ValueLine))?;
    if number as usize != n {
        return Err(Fault::new(Refusal::OutOfRange, Layer::Sheet, 1));
    }
    at_field(making_a_case(numbers), 1)
}
