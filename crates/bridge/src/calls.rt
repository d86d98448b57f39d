use crate::replies::Answer;
use bearing::Fault;
use loading::Case;

// A call on a draft.
#[derive(Clone, Copy)]
pub enum DraftCall<B> {
    Hang(B),
    TakeOff,
}

// A question to a closed bridge: a query of a load case, or a row query of a load case and a row number.
#[derive(Drop)]
pub enum Question<R> {
    Query(Case<R>),
    RowQuery(Case<R>, usize),
}

// What a question is answered.
#[derive(Clone, Copy)]
pub enum Response {
    Query(Result<Answer, Fault>),
    RowQuery(Result<u64, Fault>),
}
