// Load, and what may be asked of a loaded file.
ghost use Rattle.std.specs.Prelude.{◌≡◌, ℕ, ◌<◌, ◌≤◌, List, ◌++◌, length, drop, Ok, Err, MatchOption, MatchResult, slice_index_or};
ghost use Rattle.plans.specs.Trees.{Plan, encode, NodeAt};
ghost use Rattle.procedure.specs.Acts.{row_of, act_seen};
ghost use Rattle.procedure.specs.Procedures.{Act, procedure_of};
ghost use Rattle.procedure.specs.Starts.{OpensAs};
ghost use Rattle.procedure.specs.Asked.{IfLoads};

use super::Loaded;
use crate::acts::{action_frame, action_of};
use crate::contents::contents_of;
use crate::starts::Start;
use fluents::faults::Fault;
use frames::frame::Payload;
use frames::selected::Selected;
use knowledge::actions::Action;
use knowledge::states::PartialState;
use knowledge::worlds::WorldList;

// What Load gives: the procedure, and what is known at its start.
#[derive(Drop)]
pub struct Opened<'a> {
    pub loaded: Loaded<'a>,
    pub start: Start,
}

// What a refused Load gives back: the selected file, and why it was refused.
#[derive(Drop)]
pub struct Unloaded<'a> {
    pub selected: Selected<'a>,
    pub fault: Fault,
}

impl<'a> Loaded<'a> {
    // Checks the fields and the plan of a selected file, frame by frame. A start that is a list of worlds goes into
    // the lent list, which otherwise stays as it was.
    pub fn load(selected: Selected<'a>, list: &mut WorldList) -> Result<Opened<'a>, Unloaded<'a>>
        ensures { MatchResult result (λ o. (o.loaded.file ≡ selected.entry.file) × OpensAs selected.entry.file.now o.start list.old list.new) (λ u. (procedure_of selected.entry.file.now ≡ Err u.fault) × (u.selected ≡ selected.entry) × (list.new ≡ list.old)) }
    {
        match contents_of(&selected, list) {
            Ok(found) => {
                let loaded = Loaded {
                    file: selected.file(),
                    n: found.header.n,
                    goal: found.header.goal,
                    actions: selected.actions(),
                    plan: selected.plan() + 4,
                    len: found.len,
                };
                Ok(Opened {
                    loaded,
                    start: found.start,
                })
            }
            Err(fault) => Err(Unloaded { selected, fault }),
        }
    }

    // The number of fluents.
    pub fn n(&self) -> u8
        ensures { IfLoads self.now (λ p. result ≡ p.n) }
    {
        self.n
    }

    pub fn goal(&self) -> PartialState
        ensures { IfLoads self.now (λ p. row_of result ≡ p.goal) }
    {
        self.goal
    }

    // The number of actions.
    pub fn actions(&self) -> usize
        ensures { IfLoads self.now (λ p. result ≡ length p.actions) }
    {
        self.actions
    }

    // The bytes of the plan as a part of the file, and the place of the first. Every node of the plan stands in the
    // file at its place.
    pub fn plan(&self) -> Payload<'a>
        ensures nodes { IfLoads self.now (λ p. (j : ℕ) (q : Plan) → NodeAt p.place p.plan j q → (rest : List ℕ) × (drop j self.now.file.now ≡ encode q ++ rest)) }
        ensures value { IfLoads self.now (λ p. (result.bytes.now ≡ encode p.plan) × (result.place ≡ p.place)) }
    {
        Payload {
            bytes: &self.file[self.plan..self.plan + self.len],
            place: self.plan,
        }
    }

    // The action of this number, or none exactly where the procedure has no such action.
    pub fn action(&self, number: usize) -> Option<Action>
        ensures { IfLoads self.now (λ p. MatchOption result (length p.actions ≤ number) (λ a. (number < length p.actions) × ((d : Act) → slice_index_or p.actions number d ≡ act_seen a))) }
    {
        if number >= self.actions {
            return None;
        }
        let frame = action_frame(self.file, number)?;
        action_of(frame, self.n)
    }
}

// Select and Load in one: the procedure of a file, and its start. A refused file leaves the lent list as it was.
pub fn open<'a>(file: &'a [u8], list: &mut WorldList) -> Result<Opened<'a>, Fault>
    ensures { MatchResult result (λ o. (o.loaded.file ≡ file.entry) × OpensAs file.now o.start list.old list.new) (λ e. (procedure_of file.now ≡ Err e) × (list.new ≡ list.old)) }
{
    let selected = Selected::select(file)?;
    Loaded::load(selected, list).map_err(|unloaded| unloaded.fault)
}
