// What was found about a loaded procedure.
ghost use Rattle.std.specs.Prelude.{◌≡◌, ◌≤◌, length};

use knowledge::states::Row;
use meaning::answers::Verdict;

pub mod makers;

// The verdict at the start, and at most 16 rows, at the front of an array: the type is `Copy`, and an `ArrayVec` is not.
#[derive(Clone, Copy)]
pub struct Findings {
    verdict: Verdict,
    rows: [Row; 16],
    count: usize,
    ghost few: { count ≤ 16 },
    ghost long: { length rows ≡ 16 },
}
