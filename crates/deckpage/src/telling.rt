ghost use Rattle.std.specs.Prelude.{Some};
ghost use Rattle.deckpage.specs.Telling.{answered_text, found_text, refused_text};

use crate::fields::NotAllowed;
use crate::looking::{Found, Spot};
use crate::words::plural;
use bearing::Fault;
use deck::Summary;
use std::fmt;

// What is told of an accepted sheet: how many rows and load cases it has, and how many of these are answered.
#[derive(Clone, Copy)]
pub struct Answered(pub Summary);

impl fmt::Display for Answered {
    ghost output = { λ a. Some (answered_text a.0) };

    fn fmt<W: fmt::Write>(&self, f: &mut fmt::Formatter<W>) -> fmt::Result {
        let Summary {
            rows,
            cases,
            answered,
        } = self.0;
        let row_end = plural(rows);
        let case_end = plural(cases);
        let beyond = cases.saturating_sub(answered);
        write!(
            f,
            "{rows} row{row_end}, {cases} case{case_end}: {answered} answered, {beyond} beyond range"
        )
    }
}

// The name of the field, the number found there, and what it is not.
impl fmt::Display for Found {
    ghost output = { λ e. Some (found_text e) };

    fn fmt<W: fmt::Write>(&self, f: &mut fmt::Formatter<W>) -> fmt::Result {
        let Found { field, number } = *self;
        let allowed = NotAllowed(field);
        write!(f, "({field}): {number} {allowed}")
    }
}

// What is told of a refused sheet: where and why.
#[derive(Clone, Copy)]
pub struct Refused {
    pub spot: Spot,
    pub fault: Fault,
}

impl fmt::Display for Refused {
    ghost output = { λ e. Some (refused_text e.spot e.fault) };

    fn fmt<W: fmt::Write>(&self, f: &mut fmt::Formatter<W>) -> fmt::Result {
        let number = self.fault.refusal.number();
        let layer = self.fault.layer.number();
        let why = self.fault.refusal;
        match self.spot {
            Spot::Whole => write!(f, "sheet refused: {why} (refusal {number}, layer {layer})"),
            Spot::Line(line) => write!(
                f,
                "sheet refused at line {line}: {why} (refusal {number}, layer {layer})"
            ),
            Spot::Number(line, field, found) => {
                write!(
                    f,
                    "sheet refused at line {line}, field {field} {found} (refusal {number}, layer {layer})"
                )
            }
        }
    }
}
