// How findings are made and read.
ghost use Rattle.std.specs.Prelude.{◌≡◌, ◌≤◌, length, take};
ghost use Rattle.verdicts.specs.Reports.{rows_in};

use super::Findings;
use knowledge::states::Row;
use meaning::answers::Verdict;

impl Findings {
    // The verdict with the first rows of the array.
    pub(crate) fn new(verdict: Verdict, rows: [Row; 16], count: usize) -> Findings
        requires few { count ≤ 16 }
        requires long { length rows ≡ 16 }
        ensures { (result.verdict ≡ verdict) × (rows_in result ≡ take count rows) }
    {
        Findings {
            verdict,
            rows,
            count,
        }
    }

    pub fn verdict(&self) -> Verdict
        ensures { result ≡ self.now.verdict }
    {
        self.verdict
    }

    // The rows, in ascending order.
    pub fn rows(&self) -> &[Row]
        ensures { result.now ≡ rows_in self.now }
    {
        &self.rows[0..self.count]
    }
}
