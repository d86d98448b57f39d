ghost use Rattle.std.specs.Prelude.{Some};
ghost use Rattle.bearing.specs.Words.{words_of};

use crate::fault::Refusal;
use std::fmt;

// A refusal in plain words.
impl fmt::Display for Refusal {
    ghost output = { λ r. Some (words_of r) };

    fn fmt<W: fmt::Write>(&self, f: &mut fmt::Formatter<W>) -> fmt::Result {
        f.write_str(match self {
            Refusal::OutOfRange => "a number outside its range",
            Refusal::LeadTooWide => "the lead is wider than a third of the bonded diameter",
            Refusal::TooStrong =>
                "the force at factors of 300 percent and 1000.0 mm is above 100,000,000 N",
            Refusal::NoPlace => "more than 64 rows or more than 16 cases",
            Refusal::NothingHung => "no row is there to take off",
            Refusal::NoRows => "the bridge has no rows",
            Refusal::BoundsReversed => "a lower bound is above its upper bound",
            Refusal::BeyondRange => "no displacement up to 1000.0 mm meets the demand",
            Refusal::NoSuchRow => "no row has this number",
            Refusal::PageFull => "the page lacks space",
            Refusal::TooManyLines => "the page has 99 case lines",
            Refusal::NamesLine => "a names line differs, or the sheet ends where a line is due",
            Refusal::ValueLine => "the line is not of its form, or has no line end",
            Refusal::SheetTooLong => "the sheet has more than 16,384 bytes",
        })
    }
}
