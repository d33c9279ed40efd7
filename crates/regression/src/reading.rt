// The candidates for the rows of a reading node.
ghost use Rattle.std.specs.Prelude.{◌≡◌, ◌+◌, ◌*◌, ◌≤◌, true, false, ◌++◌, map, length};
ghost use Rattle.meaning.specs.Rows.{keep, allows, plus, less, joined, pairs, guarded, asked, least_rows, limited};
ghost use Rattle.procedure.specs.Acts.{row_of};

use crate::arrays::{Gathered, Listed};
use fluents::faults::Fault;
use fluents::literals::Literal;
use fluents::sets::{has, minus};
use knowledge::actions::ReadingAction;
use knowledge::states::{PartialState, Row};

// Whether the row does not have the fluent the other way.
fn agrees(row: Row, literal: Literal) -> bool
    ensures { result ≡ allows literal.fluent.index literal.value row }
{
    let other_way = if literal.value { row.falses } else { row.trues };
    !has(other_way, literal.fluent.index())
}

// The literals of both rows.
fn join(a: Row, b: Row) -> Row
    ensures { result ≡ joined a b }
{
    Row {
        trues: a.trues | b.trues,
        falses: a.falses | b.falses,
    }
}

// The row with this literal alone.
fn alone(literal: Literal) -> Row
    ensures { result ≡ plus literal.fluent.index literal.value (record { trues = 0; falses = 0 }) }
{
    let fluent = literal.fluent.alone();
    if literal.value {
        Row {
            trues: fluent,
            falses: 0,
        }
    } else {
        Row {
            trues: 0,
            falses: fluent,
        }
    }
}

// The row without the literal.
fn without(row: Row, literal: Literal) -> Row
    ensures { result ≡ less literal.fluent.index literal.value row }
{
    let Row { trues, falses } = alone(literal);
    Row {
        trues: minus(row.trues, trues),
        falses: minus(row.falses, falses),
    }
}

// The rows that do not have the fluent the other way, each without the literal.
fn agreeing(given: &Listed, literal: Literal) -> Listed
    ensures { result ≡ map (less literal.fluent.index literal.value) (keep (allows literal.fluent.index literal.value) given.now) }
{
    let mut rows = Listed::new();
    for row in given.as_slice() {
        if agrees(*row, literal) {
            rows.push(without(*row, literal));
        }
    }
    rows
}

// Adds the row joined with each of the others.
fn add_joined(gathered: &mut Gathered, conditions: PartialState, row: Row, others: &[Row])
    requires { length gathered.old + length others.now ≤ 288 }
    ensures rows { gathered.new ≡ gathered.old ++ guarded (row_of conditions) (map (joined row) others.now) }
    ensures few { length gathered.new ≤ length gathered.old + length others.now }
{
    for other in others {
        gathered.add(conditions, join(row, *other));
    }
}

// Adds each row for true joined with each for false, for where the value of the fluent is not known.
fn add_pairs(gathered: &mut Gathered, conditions: PartialState, trues: &Listed, falses: &Listed)
    requires { length gathered.old + 16 * length trues.now ≤ 288 }
    ensures { gathered.new ≡ gathered.old ++ guarded (row_of conditions) (pairs trues.now falses.now) }
{
    let falses = falses.as_slice();
    for row in trues.as_slice() {
        add_joined(gathered, conditions, *row, falses);
    }
}

// Gathers, in place of what was there, the candidates from the rows for true and those for false, with the conditions
// of the action: where the value is known true, where it is known false, and where it is not known. The rows have lost the
// literal, and joined with it alone they have it again.
fn ask(gathered: &mut Gathered, trues: &Listed, falses: &Listed, action: ReadingAction)
    ensures { gathered.new ≡ guarded (row_of action.conditions) (asked action.fluent.index trues.now falses.now) }
{
    let ReadingAction { conditions, fluent } = action;
    let is_true = Literal {
        fluent,
        value: true,
    };
    let is_false = Literal {
        fluent,
        value: false,
    };
    let trues = agreeing(trues, is_true);
    let falses = agreeing(falses, is_false);
    gathered.clear();
    add_joined(gathered, conditions, alone(is_true), trues.as_slice());
    add_joined(gathered, conditions, alone(is_false), falses.as_slice());
    add_pairs(gathered, conditions, &trues, &falses);
}

// The rows of a node that reads by the action, from those for true and those for false; or a refusal where they are
// over 16.
pub(crate) fn reading_rows(
    gathered: &mut Gathered,
    trues: &Listed,
    falses: &Listed,
    action: ReadingAction,
    place: usize,
) -> Result<Listed, Fault>
    ensures { result ≡ limited place (least_rows (guarded (row_of action.conditions) (asked action.fluent.index trues.now falses.now))) }
{
    ask(gathered, trues, falses, action);
    gathered.least(place)
}
