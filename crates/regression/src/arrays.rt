// Rows at the front of an array.
ghost use Rattle.std.specs.Prelude.{◌≡◌, ◌+◌, ◌<◌, ◌≤◌, [], ◌∷◌, ◌++◌, length};
ghost use Rattle.meaning.specs.Rows.{guarded, least_rows, limited};
ghost use Rattle.procedure.specs.Acts.{row_of};

use fluents::faults::{Fault, Refusal};
use knowledge::states::{PartialState, Row};
use least::keep_least;
use std::marker::Model;

// The most rows of a node.
const MOST_ROWS: usize = 16;

// The rows of a node.
pub(crate) type Listed = RowVec<MOST_ROWS>;

// The candidates for the rows of a node: at most 16, 16, and 16 times 16.
pub(crate) type Gathered = RowVec<288>;

// What fills an array behind its rows.
const BLANK: Row = Row {
    trues: 0,
    falses: 0,
};

// At most N rows, seen as their list. `ArrayVec::new` needs a default of the elements, and a row has no natural one: that of no
// literals is the one that is always covered.
#[derive(Drop)]
pub(crate) struct RowVec<const N: usize> {
    rows: [Row; N],
    count: usize,
}

impl<const N: usize> Model for RowVec<N> {
    ghost use Rattle.std.specs.Prelude.{◌≡◌, ◌≤◌, List, length, take};
    ghost use Rattle.knowledge.specs.declared.states.Row.{Row};

    ghost Value = { List Row };

    ghost view = { λ v. take v.count v.rows };

    ghost invariant = { λ v. (v.count ≤ N) × (length v.rows ≡ N) };
}

impl<const N: usize> RowVec<N> {
    pub(crate) fn new() -> Self
        ensures { result ≡ [] }
    {
        RowVec {
            rows: [BLANK; N],
            count: 0,
        }
    }

    // These rows; there must be room for them.
    pub(crate) fn of(given: &[Row]) -> Self
        requires { length given.now ≤ N }
        ensures { result ≡ given.now }
    {
        let mut rows = [BLANK; N];
        rows[..given.len()].copy_from_slice(given);
        RowVec {
            rows,
            count: given.len(),
        }
    }

    pub(crate) fn as_slice(&self) -> &[Row]
        ensures value { result.now ≡ self.now }
        ensures fits { length result.now ≤ N }
    {
        &self.rows[..self.count]
    }

    // Adds a row; there must be room.
    pub(crate) fn push(&mut self, row: Row)
        requires { length self.old < N }
        ensures { self.new ≡ self.old ++ row ∷ [] }
    {
        self.rows[self.count] = row;
        self.count += 1;
    }

    // Joins the row with the conditions, and adds it unless a fluent would be both true and false.
    pub(crate) fn add(&mut self, conditions: PartialState, row: Row)
        requires { length self.old < N }
        ensures rows { self.new ≡ self.old ++ guarded (row_of conditions) (row ∷ []) }
        ensures few { length self.new ≤ length self.old + 1 }
    {
        let trues = conditions.trues() | row.trues;
        let falses = conditions.falses() | row.falses;
        if trues & falses == 0 {
            self.push(Row { trues, falses });
        }
    }

    // Drops all but the least rows.
    fn keep_least(&mut self)
        ensures { self.new ≡ least_rows self.old }
    {
        let count = keep_least(&mut self.rows[..self.count]);
        self.count = count;
    }

    // The least of the candidates, or a refusal where they are over 16.
    pub(crate) fn least(&mut self, place: usize) -> Result<Listed, Fault>
        ensures { result ≡ limited place (least_rows self.old) }
    {
        self.keep_least();
        let rows = self.as_slice();
        if rows.len() > MOST_ROWS {
            return Err(Refusal::TooManyRows.at(place));
        }
        Ok(Listed::of(rows))
    }
}

impl Gathered {
    // Leaves no row. It stands here, since the check makes no proof of it in generic code.
    pub(crate) fn clear(&mut self)
        ensures { self.new ≡ [] }
    {
        self.count = 0;
    }
}
