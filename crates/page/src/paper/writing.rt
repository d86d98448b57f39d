ghost use Rattle.std.specs.Prelude.{◌≡◌, ◌+◌, ◌-◌, ◌≤◌, length};
ghost use Rattle.bridge.specs.Outcomes.{outcome};
ghost use Rattle.page.specs.Text.{written, case_line, end_line, void_line};
ghost use Rattle.page.specs.Pages.{begun, begun_len, line_answer, lined, lined_len, lined_count, closed, closed_len, lacks_space, line_space};
ghost use Rattle.page.specs.Telling.{PageTells};

use super::Page;
use crate::lines::{case_line, end_line};
use crate::texts::put;
use bearing::{Fault, Layer, Refusal};
use bridge::Answer;

// The least page: its names line, and `LAST_LINE` bytes.
const LEAST: usize = 51;
// What stays free for the last line, at most `end,99` and its line end.
const LAST_LINE: usize = 7;

const MOST_CASES: usize = 99;

// Writes the last line of a page, unless its buffer is too small for one; answers the whole length written.
fn put_last(buffer: &mut [u8], len: usize, line: &str) -> usize
    requires short { length line.now ≤ 7 }
    requires space { len ≤ line_space (length buffer.old) }
    ensures bytes { buffer.new ≡ closed buffer.old len line.now }
    ensures value { result ≡ closed_len (length buffer.old) len line.now }
{
    if buffer.len() < LEAST {
        return 0;
    }
    put(buffer, len, line)
}

impl<'a> Page<'a> {
    // A page that holds its names line; on a buffer too small for a page nothing is ever written.
    #[tactic(auto, unfolding(crate::specs::Text::names_line))]
    pub fn begin(buffer: &'a mut [u8]) -> Page<'a>
        ensures same { result.buffer.ghost_name ≡ buffer.entry.ghost_name }
        ensures bytes { result.buffer.now ≡ begun buffer.old }
        ensures len { result.len ≡ begun_len (length buffer.old) }
        ensures cases { result.cases ≡ 0 }
    {
        let len = if buffer.len() < LEAST {
            0
        } else {
            put(buffer, 0, "case,answer,dlow,dhigh,force,clear,restores\n")
        };
        Page {
            buffer,
            len,
            cases: 0,
        }
    }

    // Writes the line of the next case: what it was answered, or why it was refused.
    #[tactic(auto, unfolding(crate::specs::Pages::line_answer))]
    pub fn line(&mut self, answer: &Result<Answer, Fault>) -> Result<(), Fault>
        ensures same { self.new.buffer.ghost_name ≡ self.old.buffer.ghost_name }
        ensures result { result ≡ line_answer (length self.old.buffer.now) self.old.len self.old.cases (case_line (self.old.cases + 1) (outcome answer.now)) }
        ensures bytes { self.new.buffer.now ≡ lined result self.old.buffer.now self.old.len (case_line (self.old.cases + 1) (outcome answer.now)) }
        ensures len { self.new.len ≡ lined_len result self.old.len (case_line (self.old.cases + 1) (outcome answer.now)) }
        ensures cases { self.new.cases ≡ lined_count result self.old.cases }
    {
        if self.cases >= MOST_CASES {
            return Err(Layer::Sheet.refuses(Refusal::TooManyLines));
        }
        let line = case_line(self.cases as u64 + 1, answer);
        if self.lacks_space(&line) {
            return Err(Layer::Sheet.refuses(Refusal::PageFull));
        }
        self.len = put(self.buffer, self.len, &line);
        self.cases += 1;
        Ok(())
    }

    // Whether a line has no place before the last line.
    fn lacks_space(&self, line: &str) -> bool
        ensures { result ≡ lacks_space (length self.now.buffer.now) self.now.len (length line.now) }
    {
        self.buffer.len() < LEAST || self.buffer.len() - self.len < line.len() + LAST_LINE
    }

    // Ends the page with a line that counts its case lines, and answers the whole length written.
    // What is written of an ended page tells every outcome on it.
    #[tactic(auto, using(crate::proofs::Sizes::end_fits, crate::proofs::Tells::page_tells))]
    pub fn end(self) -> usize
        ensures bytes { self.exit.0.now ≡ closed self.entry.buffer.now self.entry.len (end_line self.entry.cases) }
        ensures value { result ≡ closed_len (length self.entry.buffer.now) self.entry.len (end_line self.entry.cases) }
        ensures tells { PageTells }
    {
        let Page { buffer, len, cases } = self;
        put_last(buffer, len, &end_line(cases as u64))
    }

    // Ends the page with the line `void`, and answers the whole length written.
    pub fn void(self) -> usize
        ensures bytes { self.exit.0.now ≡ closed self.entry.buffer.now self.entry.len void_line }
        ensures value { result ≡ closed_len (length self.entry.buffer.now) self.entry.len void_line }
    {
        let Page {
            buffer,
            len,
            cases: _,
        } = self;
        put_last(buffer, len, "void\n")
    }
}
