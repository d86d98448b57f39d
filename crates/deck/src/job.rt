ghost use Rattle.std.specs.Prelude.{◌≡◌, ◌+◌, length, Ok};
ghost use Rattle.listing.specs.Lists.{listed};
ghost use Rattle.bearing.specs.Refusals.{and_then, with_ok};
ghost use Rattle.loading.specs.Making.{case_made};
ghost use Rattle.bridge.specs.Answers.{queried};
ghost use Rattle.bridge.specs.Outcomes.{reported};
ghost use Rattle.sheet.specs.Reading.{AllMade};
ghost use Rattle.page.specs.Text.{case_line};
ghost use Rattle.page.specs.Pages.{begun_len, line_answer, lined, lined_len, lined_count};
ghost use Rattle.page.specs.Runs.{page_run};
ghost use Rattle.deck.specs.Lawful.{PageLaw};
ghost use Rattle.deck.specs.Whole.{row_force, row_energy, rule_says, case_outcome, outcomes, one_if_answered, answered, lines_answer, page_done, refusal_done, job};

use crate::spare::spare_case;
use bearing::Fault;
use bridge::{Answer, Bridge};
use listing::Listing;
use loading::Case;
use page::{Page, write_refusal};
use sheet::{Numbers, Row, SheetDraft, read_draft, spare_row};

// More bytes than any page takes: its names line, 16 case lines of at most 40 bytes, and its last line.
pub const PAGE_SPACE: usize = 1_024;

// What an accepted sheet holds: how many rows and load cases, and how many of the cases are answered.
#[derive(Clone, Copy, PartialEq, Eq, Debug)]
pub struct Summary {
    pub rows: usize,
    pub cases: usize,
    pub answered: usize,
}

// A job done: how many bytes of the page are written, and what the sheet holds or why it is refused.
#[derive(Clone, Copy)]
pub struct Job {
    pub written: usize,
    pub result: Result<Summary, Fault>,
}

// The load case of these numbers, asked of the bridge.
fn ask(bridge: &Bridge<'_, Row>, numbers: Numbers) -> Result<Answer, Fault>
    ensures { reported result ≡ and_then (case_made numbers) (queried row_force row_energy rule_says (listed bridge.now.rows).items bridge.now.weight.kn) }
{
    let case = Case::new(numbers)?;
    bridge.query(&case)
}

// Writes the line of the next load case; answers how many cases it answers: 1, or 0 where the case is refused.
fn write_case(
    bridge: &Bridge<'_, Row>,
    numbers: Numbers,
    page: &mut Page<'_>,
) -> Result<usize, Fault>
    requires { case_made numbers ≡ Ok numbers }
    ensures same { page.new.buffer.ghost_name ≡ page.old.buffer.ghost_name }
    ensures result { result ≡ with_ok (line_answer (length page.old.buffer.now) page.old.len page.old.cases (case_line (page.old.cases + 1) (case_outcome (listed bridge.now.rows).items bridge.now.weight.kn numbers))) (λ _. one_if_answered (case_outcome (listed bridge.now.rows).items bridge.now.weight.kn numbers)) }
    ensures bytes { page.new.buffer.now ≡ lined (with_ok result (λ _. tt)) page.old.buffer.now page.old.len (case_line (page.old.cases + 1) (case_outcome (listed bridge.now.rows).items bridge.now.weight.kn numbers)) }
    ensures len { page.new.len ≡ lined_len (with_ok result (λ _. tt)) page.old.len (case_line (page.old.cases + 1) (case_outcome (listed bridge.now.rows).items bridge.now.weight.kn numbers)) }
    ensures cases { page.new.cases ≡ lined_count (with_ok result (λ _. tt)) page.old.cases }
{
    let answer = ask(bridge, numbers);
    page.line(&answer)?;
    Ok(answer.is_ok() as usize)
}

// A page with a line for each load case, voided at the first line that is refused; answers how many bytes are
// written, and how many cases are answered.
fn write_cases(
    bridge: &Bridge<'_, Row>,
    cases: &[Numbers],
    buffer: &mut [u8],
) -> (usize, Result<usize, Fault>)
    requires { AllMade cases.now }
    ensures bytes { buffer.new ≡ (page_run buffer.old (outcomes (listed bridge.now.rows).items bridge.now.weight.kn cases.now)).0 }
    ensures written { result.0 ≡ (page_run buffer.old (outcomes (listed bridge.now.rows).items bridge.now.weight.kn cases.now)).1 }
    ensures result { result.1 ≡ with_ok (lines_answer (length buffer.old) (begun_len (length buffer.old)) 0 (outcomes (listed bridge.now.rows).items bridge.now.weight.kn cases.now)) (λ _. answered (outcomes (listed bridge.now.rows).items bridge.now.weight.kn cases.now)) }
{
    let mut page = Page::begin(buffer);
    let mut answered: usize = 0;
    for numbers in cases {
        match write_case(bridge, *numbers, &mut page) {
            Ok(one) => answered += one,
            Err(fault) => return (page.void(), Err(fault)),
        }
    }
    (page.end(), Ok(answered))
}

// A refusal page, or nothing where it does not fit.
fn refuse(fault: &Fault, buffer: &mut [u8]) -> Job
    ensures bytes { buffer.new ≡ (refusal_done buffer.old fault.now).bytes }
    ensures written { result.written ≡ (refusal_done buffer.old fault.now).written }
    ensures result { result.result ≡ (refusal_done buffer.old fault.now).result }
{
    match write_refusal(fault, buffer) {
        Ok(written) => Job {
            written,
            result: Err(*fault),
        },
        Err(full) => Job {
            written: 0,
            result: Err(full),
        },
    }
}

// Asks a bridge its load cases, and writes the page.
fn write_page(bridge: &Bridge<'_, Row>, cases: &[Numbers], page: &mut [u8]) -> Job
    requires { AllMade cases.now }
    ensures bytes { page.new ≡ (page_done page.old (listed bridge.now.rows).items (outcomes (listed bridge.now.rows).items bridge.now.weight.kn cases.now)).bytes }
    ensures written { result.written ≡ (page_done page.old (listed bridge.now.rows).items (outcomes (listed bridge.now.rows).items bridge.now.weight.kn cases.now)).written }
    ensures result { result.result ≡ (page_done page.old (listed bridge.now.rows).items (outcomes (listed bridge.now.rows).items bridge.now.weight.kn cases.now)).result }
{
    let (written, lines) = write_cases(bridge, cases, page);
    let (rows, cases) = (bridge.row_count(), cases.len());
    let result = lines.map(|answered| Summary {
        rows,
        cases,
        answered,
    });
    Job { written, result }
}

// Answers a sheet: reads it as a draft, closes the bridge, asks its load cases, and writes the page.
pub fn answer_sheet(sheet: &[u8], page: &mut [u8]) -> Job
    ensures bytes { page.new ≡ (job sheet.now page.old).bytes }
    ensures written { result.written ≡ (job sheet.now page.old).written }
    ensures result { result.result ≡ (job sheet.now page.old).result }
    ensures law { PageLaw sheet.now }
{
    let mut row_places = [spare_row(); 64];
    let mut case_places = [spare_case(); 16];
    let mut cases = Listing::new(&mut case_places);
    let SheetDraft { draft, result } = read_draft(sheet, &mut row_places, &mut cases);
    match result {
        Ok(_) => write_page(&draft.close(), cases.as_slice(), page),
        Err(fault) => refuse(&fault, page),
    }
}
