// The candidates for the rows of a doing node.
ghost use Rattle.std.specs.Prelude.{◌≡◌};
ghost use Rattle.meaning.specs.Rows.{survives, before, guarded, regressed, least_rows, limited};
ghost use Rattle.procedure.specs.Acts.{row_of};

use crate::arrays::{Gathered, Listed};
use fluents::faults::Fault;
use fluents::sets::minus;
use knowledge::actions::DoingAction;
use knowledge::states::Row;

// Whether the action takes none of the row's literals away.
fn outlives(row: Row, action: DoingAction) -> bool
    ensures { result ≡ survives action.add action.del row }
{
    row.falses & action.add() == 0 && row.trues & action.del() == 0
}

// What is left to know of the row before the action.
fn earlier(row: Row, action: DoingAction) -> Row
    ensures { result ≡ before action.add action.del row }
{
    Row {
        trues: minus(row.trues, action.add()),
        falses: minus(row.falses, action.del()),
    }
}

// Gathers, in place of what was there, each row of what follows the node as it stands before the action, with the
// conditions of the action.
fn regress(gathered: &mut Gathered, listed: &Listed, action: DoingAction)
    ensures { gathered.new ≡ guarded (row_of action.conditions) (regressed action.add action.del listed.now) }
{
    gathered.clear();
    for row in listed.as_slice() {
        if outlives(*row, action) {
            gathered.add(action.conditions(), earlier(*row, action));
        }
    }
}

// The rows of a node that does the action, from those of what follows it; or a refusal where they are over 16.
pub(crate) fn doing_rows(
    gathered: &mut Gathered,
    listed: &Listed,
    action: DoingAction,
    place: usize,
) -> Result<Listed, Fault>
    ensures { result ≡ limited place (least_rows (guarded (row_of action.conditions) (regressed action.add action.del listed.now))) }
{
    regress(gathered, listed, action);
    gathered.least(place)
}
