// The halves that wait while following a plan.
ghost use Rattle.std.specs.Prelude.{◌≡◌, ◌<◌, [], ◌∷◌, length, MatchOption};

use crate::run::Run;
use knowledge::kinds::Knowledge;
use std::marker::Model;

// At most eight runs wait, one for each reading on a path; they are seen as their list, newest first. Eight named fields,
// since a rule of the project keeps knowledge out of arrays.
#[derive(Drop)]
pub(crate) struct Waiting<K> {
    first: Run<K>,
    second: Run<K>,
    third: Run<K>,
    fourth: Run<K>,
    fifth: Run<K>,
    sixth: Run<K>,
    seventh: Run<K>,
    eighth: Run<K>,
    count: usize,
}

impl<K> Model for Waiting<K> {
    ghost use Rattle.std.specs.Prelude.{◌≤◌, List, [], ◌∷◌, take};
    ghost use Rattle.runs.specs.declared.run.Run.{Run};

    ghost Value = { List (Run K) };

    ghost view = { λ w. take w.count (w.first ∷ w.second ∷ w.third ∷ w.fourth ∷ w.fifth ∷ w.sixth ∷ w.seventh ∷ w.eighth ∷ []) };

    ghost invariant = { λ w. w.count ≤ 8 };
}

impl<K: Knowledge> Waiting<K> {
    // No run waits; some run has to fill the slots.
    pub(crate) fn none(filler: Run<K>) -> Waiting<K>
        ensures { result ≡ [] }
    {
        Waiting {
            first: filler,
            second: filler,
            third: filler,
            fourth: filler,
            fifth: filler,
            sixth: filler,
            seventh: filler,
            eighth: filler,
            count: 0,
        }
    }

    // Adds a run; there must be room.
    pub(crate) fn push(&mut self, run: Run<K>)
        requires { length self.old < 8 }
        ensures { self.new ≡ run ∷ self.old }
    {
        *self = Waiting {
            first: run,
            second: self.first,
            third: self.second,
            fourth: self.third,
            fifth: self.fourth,
            sixth: self.fifth,
            seventh: self.sixth,
            eighth: self.seventh,
            count: self.count + 1,
        };
    }

    // Takes out the newest run, if one waits.
    pub(crate) fn pop(&mut self) -> Option<Run<K>>
        ensures { MatchOption result ((self.old ≡ []) × (self.new ≡ [])) (λ run. self.old ≡ run ∷ self.new) }
    {
        if self.count == 0 {
            return None;
        }
        let run = self.first;
        *self = Waiting {
            first: self.second,
            second: self.third,
            third: self.fourth,
            fourth: self.fifth,
            fifth: self.sixth,
            sixth: self.seventh,
            seventh: self.eighth,
            eighth: self.eighth,
            count: self.count - 1,
        };
        Some(run)
    }
}
