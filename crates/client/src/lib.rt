// A client of the panel: it goes through the public calls of a run alone, and ends each run that it begins.
#![tactic(auto)]

ghost use Rattle.std.specs.Prelude.{◌≡◌, Ok};
ghost use Rattle.panel.specs.Arming.{AsBefore};
ghost use Rattle.panel.specs.Confirming.{GivenBack, Keeps};
ghost use Rattle.panel.specs.declared.permitted.Permitted.{Permitted};
ghost use Rattle.client.specs.First.{first_number, FirstAction};
ghost use Rattle.procedure.specs.Asked.{IfLoads, IfNode};

use panel::answers::{Confirmed, Over};
use panel::armed::Armed;
use panel::armed::keys::Unarmed;
use panel::known::Known;
use panel::reading::Reading;
use procedure::loaded::Loaded;

// Ends a run after Confirm: one that goes on is given up, and a reading that waits is withdrawn. What the run had is given back.
fn end<'f, 'w>(confirmed: Confirmed<'f, 'w>) -> Over<'f, 'w>
    ensures { (h : Permitted) → Keeps h confirmed.entry → GivenBack h result }
{
    match confirmed {
        Confirmed::Did { number: _, armed } => armed.give_up(),
        Confirmed::Reads(reading) => reading.withdraw(),
        Confirmed::Ended(over) => over,
    }
}

// What a refused Arm gives back.
fn given_back<'f, 'w>(unarmed: Unarmed<'f, 'w>) -> Over<'f, 'w>
    ensures { result ≡ unarmed.entry.over }
{
    unarmed.over
}

// Settles a reading with true and, unless no world has that value, confirms once more; the run is ended.
fn settle<'f, 'w>(reading: Reading<'f, 'w>) -> Over<'f, 'w>
    ensures { GivenBack reading.entry.permitted result }
{
    match reading.settle(true) {
        Ok(armed) => end(armed.confirm()),
        Err(denied) => denied.over,
    }
}

// Arms a procedure, confirms once and ends the run.
pub fn arm_and_confirm<'f, 'w>(loaded: Loaded<'f>, start: Known, word: &'w mut u32) -> Over<'f, 'w>
    ensures { AsBefore loaded.entry word.entry result }
{
    match Armed::arm(loaded, start, word) {
        Ok(armed) => end(armed.confirm()),
        Err(unarmed) => given_back(unarmed),
    }
}

// Arms a procedure and confirms once; a reading that waits is settled with true. The run is ended.
pub fn settle_and_confirm<'f, 'w>(
    loaded: Loaded<'f>,
    start: Known,
    word: &'w mut u32,
) -> Over<'f, 'w>
    ensures { AsBefore loaded.entry word.entry result }
{
    match Armed::arm(loaded, start, word) {
        Ok(armed) => match armed.confirm() {
            Confirmed::Reads(reading) => settle(reading),
            confirmed => end(confirmed),
        },
        Err(unarmed) => given_back(unarmed),
    }
}

// The word of a run that has ended; the procedure is let go.
fn word_of<'w>(over: Over<'_, 'w>) -> &'w mut u32
    ensures { (result.ghost_name ≡ over.entry.word.ghost_name) × (result.now ≡ over.entry.word.now) }
{
    let Over { loaded: _, word } = over;
    word
}

// The number of the action at the node of the run, where it has one; the run is ended.
fn number_here<'f, 'w>(armed: Armed<'f, 'w>) -> (Option<u8>, Over<'f, 'w>)
    ensures number { IfLoads armed.entry.permitted.loaded.value (λ p. IfNode p armed.entry.run.place (λ q. result.0 ≡ first_number q)) }
    ensures back { GivenBack armed.entry.permitted result.1 }
{
    match armed.confirm() {
        Confirmed::Did { number, armed } => (Some(number), armed.give_up()),
        Confirmed::Reads(reading) => (Some(reading.number()), reading.withdraw()),
        Confirmed::Ended(over) => (None, over),
    }
}

// The number of the action at the first node, where the plan holds and has one; the procedure is let go. The word is read
// where it comes back, so that the contract can say what it is then.
pub fn first_action(loaded: Loaded, start: Known, word: &mut u32) -> Option<u8>
    ensures first { IfLoads loaded.entry (λ p. FirstAction p start result) }
    ensures word { word.new ≡ word.old }
{
    let (number, over) = match Armed::arm(loaded, start, word) {
        Ok(armed) => number_here(armed),
        Err(unarmed) => (None, given_back(unarmed)),
    };
    let _back = *word_of(over);
    number
}
