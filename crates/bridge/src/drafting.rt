ghost use Rattle.std.specs.Prelude.{◌≡◌, ◌≤◌, min, [], length};
ghost use Rattle.listing.specs.Lists.{listed, with_items, pushed, push_answer, popped, pop_answer};

use bearing::Fault;
use listing::Listing;
use loading::Weight;

// A bridge that is being put together: a deck's weight, and the rows hung so far in places that the caller lends,
// at most 64.
#[derive(Drop)]
pub struct Draft<'a, B: Copy> {
    weight: Weight,
    rows: Listing<'a, B, 64>,
}

// A closed bridge, which only answers.
#[derive(Drop)]
pub struct Bridge<'a, B: Copy> {
    weight: Weight,
    rows: Listing<'a, B, 64>,
}

impl<'a, B: Copy> Draft<'a, B> {
    // A draft without rows.
    pub fn begin(weight: Weight, places: &'a mut [B]) -> Self
        ensures weight { result.weight ≡ weight }
        ensures rows { listed result.rows ≡ record { items = []; capacity = min 64 (length places.old) } }
    {
        Draft {
            weight,
            rows: Listing::new(places),
        }
    }

    // Hangs a row at the end.
    pub fn hang(&mut self, row: B) -> Result<(), Fault>
        ensures answer { result ≡ push_answer (listed self.old.rows).capacity (listed self.old.rows).items }
        ensures rows { listed self.new.rows ≡ with_items (listed self.old.rows) (pushed (listed self.old.rows).capacity (listed self.old.rows).items row) }
        ensures weight { self.new.weight ≡ self.old.weight }
    {
        self.rows.push(row)
    }

    // Takes the last row off; its place serves again.
    pub fn take_off(&mut self) -> Result<(), Fault>
        ensures answer { result ≡ pop_answer (listed self.old.rows).items }
        ensures rows { listed self.new.rows ≡ with_items (listed self.old.rows) (popped (listed self.old.rows).items) }
        ensures weight { self.new.weight ≡ self.old.weight }
    {
        self.rows.take_off()
    }

    // Uses the draft up and gives the closed bridge.
    pub fn close(self) -> Bridge<'a, B>
        ensures weight { result.weight ≡ self.entry.weight }
        ensures rows { result.rows ≡ self.entry.rows }
    {
        let Draft { weight, rows } = self;
        Bridge { weight, rows }
    }
}

impl<'a, B: Copy> Bridge<'a, B> {
    // How many rows hang.
    pub fn row_count(&self) -> usize
        ensures { result ≡ length (listed self.now.rows).items }
    {
        self.rows.len()
    }

    pub(crate) fn weight(&self) -> Weight
        ensures { result ≡ self.now.weight }
    {
        self.weight
    }

    pub(crate) fn rows(&self) -> &[B]
        ensures items { result.now ≡ (listed self.now.rows).items }
        ensures few { length result.now ≤ 64 }
    {
        self.rows.as_slice()
    }
}
