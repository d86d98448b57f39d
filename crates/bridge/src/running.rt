ghost use Rattle.std.specs.Prelude.{◌≡◌, min, true, false, ◌&&◌, map, length, ◌==◌};
ghost use Rattle.listing.specs.Lists.{listed, with_items};
ghost use Rattle.bridge.specs.Calls.{called, call_reply, hung_rows, call_replies};
ghost use Rattle.bridge.specs.Replay.{response_values, asked, Law, Each, Run, questions_of};

use crate::calls::{DraftCall, Question, Response};
use crate::drafting::{Bridge, Draft};
use bearing::{Bearing, Fault};
use damping::DampingRule;
use loading::Weight;

impl<'a, B: Copy> Draft<'a, B> {
    fn enter(&mut self, call: &DraftCall<B>) -> Result<(), Fault>
        ensures answer { result ≡ call_reply (listed self.old.rows).capacity (listed self.old.rows).items call.now }
        ensures rows { listed self.new.rows ≡ with_items (listed self.old.rows) (called (listed self.old.rows).capacity (listed self.old.rows).items call.now) }
        ensures weight { self.new.weight ≡ self.old.weight }
    {
        match call {
            DraftCall::Hang(row) => self.hang(*row),
            DraftCall::TakeOff => self.take_off(),
        }
    }
}

impl<'a, B: Bearing + Copy> Bridge<'a, B> {
    fn put<R: DampingRule>(&self, question: &Question<R>) -> Response
        ensures values { response_values result ≡ asked B.force B.energy R.says (listed self.now.rows).items self.now.weight.kn question.now }
        ensures law { Law B.force B.energy R.says (listed self.now.rows).items self.now.weight.kn question.now result }
    {
        match question {
            Question::Query(case) => Response::Query(self.query(case)),
            Question::RowQuery(case, n) => Response::RowQuery(self.row_query(case, *n)),
        }
    }
}

// Makes each call on the draft, and keeps its reply beside it.
fn enter_all<B: Copy>(
    draft: &mut Draft<'_, B>,
    calls: &[DraftCall<B>],
    replies: &mut [Result<(), Fault>],
)
    requires { length replies.old ≡ length calls.now }
    ensures rows { listed draft.new.rows ≡ with_items (listed draft.old.rows) (hung_rows (listed draft.old.rows).capacity (listed draft.old.rows).items calls.now) }
    ensures weight { draft.new.weight ≡ draft.old.weight }
    ensures answers { replies.new ≡ call_replies (listed draft.old.rows).capacity (listed draft.old.rows).items calls.now }
{
    for (i, call) in calls.iter().enumerate() {
        replies[i] = draft.enter(call);
    }
}

// Asks each question, and keeps its response beside it.
fn put_all<B: Bearing + Copy, R: DampingRule>(
    bridge: &Bridge<'_, B>,
    questions: &[Question<R>],
    responses: &mut [Response],
)
    requires { length responses.old ≡ length questions.now }
    ensures values { map response_values responses.new ≡ map (asked B.force B.energy R.says (listed bridge.now.rows).items bridge.now.weight.kn) questions.now }
    ensures law { Each (Law B.force B.energy R.says (listed bridge.now.rows).items bridge.now.weight.kn) questions.now responses.new }
{
    for (i, question) in questions.iter().enumerate() {
        responses[i] = bridge.put(question);
    }
}

fn how_many<R>(questions: Option<&[Question<R>]>) -> usize
    ensures { result ≡ length (questions_of questions.entry) }
{
    questions.map_or(0, |all| all.len())
}

// Begins a draft with a weight on the places, makes the calls on it, closes it if questions follow (none: the run stops
// before closing), and asks them, by the very calls of the library. Every reply goes into a place that the caller lends;
// where these are not just as many, it says false and nothing is done.
pub fn replay<B: Bearing + Copy, R: DampingRule>(
    weight: Weight,
    places: &mut [B],
    calls: &[DraftCall<B>],
    questions: Option<&[Question<R>]>,
    replies: &mut [Result<(), Fault>],
    responses: &mut [Response],
) -> bool
    ensures fits { result ≡ (length replies.old == length calls.now && length responses.old == length (questions_of questions.entry)) }
    ensures run { result ≡ true → Run B.force B.energy R.says (min 64 (length places.old)) weight.kn calls.now (questions_of questions.entry) replies.new responses.new }
    ensures kept { result ≡ false → (places.new ≡ places.old) × (replies.new ≡ replies.old) × (responses.new ≡ responses.old) }
{
    if replies.len() != calls.len() || responses.len() != how_many(questions) {
        return false;
    }
    let mut draft = Draft::begin(weight, places);
    enter_all(&mut draft, calls, replies);
    if let Some(all) = questions {
        put_all(&draft.close(), all, responses);
    }
    true
}
