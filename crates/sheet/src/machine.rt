ghost use Rattle.std.specs.Prelude.{◌≡◌};
ghost use Rattle.bearing.specs.Refusals.{with_ok};
ghost use Rattle.listing.specs.Lists.{listed, with_items};
ghost use Rattle.sheet.specs.Reading.{weight_at_end, ended_with};
ghost use Rattle.sheet.specs.Machine.{standing, state_of, named_as, weighed, kept, step, after, answer};

use crate::caselines::{Numbers, case_line};
use crate::numbers::number;
use crate::rowlines::{Row, lead_row, pendulum_row};
use bearing::{Fault, Layer, Refusal};
use listing::Listing;
use loading::Weight;

// A machine that takes a sheet line by line: which line may come next, and the weight once it is read.
#[derive(Clone, Copy)]
pub enum Reader {
    WeightNames,
    WeightValue,
    RowNames(Weight),
    Rows(Weight),
    Cases(Weight),
}

// One element more in a list, where it is accepted and a place is free.
fn keep<T: Copy, const MAX: usize>(
    list: &mut Listing<'_, T, MAX>,
    x: Result<T, Fault>,
) -> Result<(), Fault>
    ensures result { result ≡ answer (kept (listed list.old).capacity (listed list.old).items x) }
    ensures list { listed list.new ≡ with_items (listed list.old) (after (kept (listed list.old).capacity (listed list.old).items x) (listed list.old).items) }
{
    list.push(x?)
}

impl Reader {
    fn weigh(&mut self, line: &[u8]) -> Result<(), Fault>
        ensures result { result ≡ answer (weighed (standing self.old) line.now) }
        ensures at { standing self.new ≡ after (weighed (standing self.old) line.now) (standing self.old) }
    {
        let kn = number(line).ok_or(Layer::Sheet.refuses(Refusal::ValueLine))?;
        *self = Reader::RowNames(Weight::new(kn)?);
        Ok(())
    }

    // A names line is the text itself, and then the reader goes on.
    fn name(&mut self, line: &[u8], text: &[u8], next: Reader) -> Result<(), Fault>
        ensures result { result ≡ answer (named_as text.now (standing next) line.now) }
        ensures at { standing self.new ≡ after (named_as text.now (standing next) line.now) (standing self.old) }
    {
        if line != text {
            return Err(Layer::Sheet.refuses(Refusal::NamesLine));
        }
        *self = next;
        Ok(())
    }

    // Takes the next line. What it may be depends on where the reader stands.
    pub(crate) fn take(
        &mut self,
        line: &[u8],
        rows: &mut Listing<'_, Row, 64>,
        cases: &mut Listing<'_, Numbers, 16>,
    ) -> Result<(), Fault>
        ensures result { result ≡ answer (step (listed rows.old).capacity (listed cases.old).capacity (state_of self.old (listed rows.old).items (listed cases.old).items) line.now) }
        ensures state { state_of self.new (listed rows.new).items (listed cases.new).items ≡ after (step (listed rows.old).capacity (listed cases.old).capacity (state_of self.old (listed rows.old).items (listed cases.old).items) line.now) (state_of self.old (listed rows.old).items (listed cases.old).items) }
        ensures rowplaces { (listed rows.new).capacity ≡ (listed rows.old).capacity }
        ensures caseplaces { (listed cases.new).capacity ≡ (listed cases.old).capacity }
    {
        match (*self, line) {
            (Reader::WeightNames, _) => self.name(line, b"weight", Reader::WeightValue),
            (Reader::WeightValue, _) => self.weigh(line),
            (Reader::RowNames(weight), _) => {
                self.name(line, b"kind,count,p1,p2,p3,p4,p5", Reader::Rows(weight))
            }
            // the third names line may stand only after a row
            (Reader::Rows(weight), [b'c', b'a', b's', b'e', ..]) if rows.len() > 0 => {
                let text = b"case,accel,site,slo,shi,klo,khi,rule";
                self.name(line, text, Reader::Cases(weight))
            }
            (Reader::Rows(_), [b'c', b'a', b's', b'e', ..]) => {
                Err(Layer::Sheet.refuses(Refusal::NamesLine))
            }
            (Reader::Rows(_), [kind, b',', rest @ ..]) => match *kind as char {
                'L' => keep(rows, lead_row(rest)),
                'P' => keep(rows, pendulum_row(rest)),
                _ => Err(Layer::Sheet.refuses(Refusal::ValueLine)),
            },
            (Reader::Rows(_), _) => Err(Layer::Sheet.refuses(Refusal::ValueLine)),
            (Reader::Cases(_), _) => {
                let n = cases.len() + 1;
                keep(cases, case_line(line, n))
            }
        }
    }

    // The weight, where the sheet may end here: after a case line.
    fn weight_at_end(&self, cases: usize) -> Result<Weight, Fault>
        ensures { with_ok result (λ w. w.kn) ≡ weight_at_end (standing self.now).stage (standing self.now).weight cases }
    {
        match *self {
            Reader::Cases(weight) if cases > 0 => Ok(weight),
            _ => Err(Layer::Sheet.refuses(Refusal::NamesLine)),
        }
    }

    // The weight of a sheet by what stands after its last line end: it would be a line without an end.
    pub(crate) fn end(&self, part: &[u8], cases: usize) -> Result<Weight, Fault>
        ensures { with_ok result (λ w. w.kn) ≡ ended_with part.now (standing self.now) cases }
    {
        if !part.is_empty() {
            return Err(Layer::Sheet.refuses(Refusal::ValueLine));
        }
        self.weight_at_end(cases)
    }
}
