// The rows of a loaded procedure.
ghost use Rattle.std.specs.Prelude.{◌≡◌, ℕ, ◌≤◌, Bool, true, take, drop, IfOk, Ok, Err, MatchResult};
ghost use Rattle.meaning.specs.Laws.{RowList, Safe, Exact, Only};
ghost use Rattle.meaning.specs.Rows.{rows_of};
ghost use Rattle.meaning.specs.Steps.{tree_of};
ghost use Rattle.regression.specs.Roots.{Stands, RowsAt};
ghost use Rattle.procedure.specs.Asked.{IfLoads, IfNode};

use crate::arrays::{Gathered, Listed};
use crate::doing::doing_rows;
use crate::reading::reading_rows;
use fluents::faults::Fault;
use knowledge::states::Row;
use meaning::nodes::{Node, node_at};
use procedure::loaded::Loaded;

// The rows of a subplan, and the place just past it.
#[derive(Drop)]
struct Rooted {
    listed: Listed,
    end: usize,
}

// The rows of the subplan that begins at this place. What follows a node is worked before the node, true before false,
// so that the first node over the limit is the one that is refused. The calls nest at most half as deep as the plan has
// bytes; the lent candidates are worked over by each node in turn.
fn rows_at(loaded: &Loaded, place: usize, gathered: &mut Gathered) -> Result<Rooted, Fault>
    requires { Stands loaded.now.file.now place }
    ensures { IfLoads loaded.now (λ p. IfNode p place (λ q. RowsAt p place q result)) }
{
    match node_at(loaded, place) {
        Node::End => Ok(Rooted {
            listed: Listed::of(&[loaded.goal().into()]),
            end: place + 1,
        }),
        Node::Gap => Ok(Rooted {
            listed: Listed::new(),
            end: place + 1,
        }),
        Node::Doing { number: _, action } => {
            let rest = rows_at(loaded, place + 2, gathered)?;
            let listed = doing_rows(gathered, &rest.listed, action, place)?;
            Ok(Rooted {
                listed,
                end: rest.end,
            })
        }
        Node::Reading { number: _, action } => {
            let on = rows_at(loaded, place + 2, gathered)?;
            let off = rows_at(loaded, on.end, gathered)?;
            let listed = reading_rows(gathered, &on.listed, &off.listed, action, place)?;
            Ok(Rooted {
                listed,
                end: off.end,
            })
        }
    }
}

// Lists the rows of the procedure: answers how many there are, and writes them, in ascending order, to the front of
// `out`. The rest of `out` keeps its contents, and after a refusal all of it does. The rows are partial states, ascending,
// none implied by another (`list`). From any set of worlds that one of them covers no walk fails, and a walk along values that
// agree with the set ends well (`safe`). A partial state is covered by one of them exactly when the walk from it along every
// agreeing list ends well (`exact`), and of no other list of rows can that be said (`only`).
pub fn rows(loaded: &Loaded, out: &mut [Row; 16]) -> Result<usize, Fault>
    ensures value { IfLoads loaded.now (λ p. MatchResult result (λ m. (rows_of p.goal (tree_of p) ≡ Ok (take m out.new)) × (m ≤ 16) × (drop m out.new ≡ drop m out.old)) (λ e. (rows_of p.goal (tree_of p) ≡ Err e) × (out.new ≡ out.old))) }
    ensures list { IfLoads loaded.now (λ p. IfOk result (λ m. RowList (take m out.new))) }
    ensures safe { IfLoads loaded.now (λ p. IfOk result (λ m. (K : ℕ → Bool) → Safe p.goal (tree_of p) (take m out.new) (λ w. K w ≡ true))) }
    ensures exact { IfLoads loaded.now (λ p. IfOk result (λ m. Exact p.goal (tree_of p) (take m out.new))) }
    ensures only { IfLoads loaded.now (λ p. IfOk result (λ m. Only p.goal (tree_of p) (take m out.new))) }
{
    let mut gathered = Gathered::new();
    let rooted = rows_at(loaded, loaded.plan().place, &mut gathered)?;
    let rows = rooted.listed.as_slice();
    out[..rows.len()].copy_from_slice(rows);
    Ok(rows.len())
}
