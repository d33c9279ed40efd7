// A whole visit to the panel: Select, Load, Arm, and Confirm until the run has ended.
ghost use Rattle.panel.specs.Confirming.{GivenBack};
ghost use Rattle.rehearsal.specs.Permits.{SameWord, TurnedAs};

use crate::lines::{Line, Record};
use crate::settlements::Settlement;
use frames::selected::Selected;
use knowledge::worlds::WorldList;
use panel::answers::{Confirmed, Denied, Over};
use panel::armed::Armed;
use panel::known::Known;
use panel::reading::Reading;
use procedure::loaded::Loaded;
use procedure::loaded::reader::Opened;
use procedure::starts::Start;
use runs::follow::follow;
use std::alloc::{AllocError, Global};

// Settles the reading with the value: the run goes on, or the value is refused and has ended it.
fn settle<'f, 'w>(
    reading: Reading<'f, 'w>,
    value: bool,
    record: &mut Record,
) -> Result<Armed<'f, 'w>, Over<'f, 'w>>
    ensures { TurnedAs reading.entry result }
{
    match reading.settle(value) {
        Ok(armed) => {
            record.say(Line::Settled(value));
            Ok(armed)
        }
        Err(Denied { over, fault }) => {
            record.say(Line::Refused(fault));
            Err(over)
        }
    }
}

// Answers the reading as the visitor does; without a settlement it is withdrawn. The run goes on, or it has ended.
fn answer<'f, 'w>(
    reading: Reading<'f, 'w>,
    settlement: Option<&Settlement>,
    record: &mut Record,
) -> Result<Armed<'f, 'w>, Over<'f, 'w>>
    ensures { TurnedAs reading.entry result }
{
    match settlement {
        Some(Settlement::Value(value)) => settle(reading, *value, record),
        Some(Settlement::Withdraw) => {
            record.say(Line::Withdrawn);
            Err(reading.withdraw())
        }
        None => {
            record.say(Line::NoneLeft);
            Err(reading.withdraw())
        }
    }
}

// Confirms node after node, until the plan has ended or a reading has ended the run.
fn confirm_all<'f, 'w>(
    armed: Armed<'f, 'w>,
    settlements: &[Settlement],
    record: &mut Record,
) -> Over<'f, 'w>
    ensures { GivenBack armed.entry.permitted result }
{
    let mut armed = armed;
    let mut settlements = settlements.iter();
    loop {
        let place = armed.place();
        match armed.confirm() {
            Confirmed::Did {
                number,
                armed: next,
            } => {
                record.say(Line::Did { place, number });
                armed = next;
            }
            Confirmed::Reads(reading) => {
                let number = reading.number();
                let fluent = reading.fluent().index();
                record.say(Line::Reads {
                    place,
                    number,
                    fluent,
                });
                match answer(reading, settlements.next(), record) {
                    Ok(next) => armed = next,
                    Err(over) => return over,
                }
            }
            Confirmed::Ended(over) => {
                record.say(Line::EndedWell);
                return over;
            }
        }
    }
}

// Arms the run under the word and confirms it, or is refused; the word is given back as it was.
fn arm_and_confirm<'w>(
    loaded: Loaded,
    start: Known,
    settlements: &[Settlement],
    word: &'w mut u32,
    record: &mut Record,
) -> &'w mut u32
    ensures { SameWord word.entry result }
{
    record.say(Line::Permit(*word));
    match Armed::arm(loaded, start, word) {
        Ok(armed) => {
            record.say(Line::Armed(armed.word()));
            let Over { loaded: _, word } = confirm_all(armed, settlements, record);
            record.say(Line::Permit(*word));
            word
        }
        Err(unarmed) => {
            record.say(Line::Unarmed(unarmed.why));
            let Over { loaded: _, word } = unarmed.over;
            word
        }
    }
}

// Selects and loads the file, and takes the run to its end; the word is given back as it was.
fn attend<'w>(
    file: &[u8],
    settlements: &[Settlement],
    word: &'w mut u32,
    record: &mut Record,
) -> &'w mut u32
    ensures { SameWord word.entry result }
{
    let selected = match Selected::select(file) {
        Ok(selected) => selected,
        Err(fault) => {
            record.say(Line::Refused(fault));
            return word;
        }
    };
    record.say(Line::Selected);
    let mut list = WorldList::single(0);
    match Loaded::load(selected, &mut list) {
        Ok(opened) => {
            let Opened { loaded, start } = opened;
            let known = match start {
                Start::Partial(state) => Known::Partial(state),
                Start::Worlds => Known::Worlds(list),
            };
            record.say(Line::Loaded {
                fluents: loaded.n(),
                actions: loaded.actions(),
            });
            record.say(Line::Judged(follow(&loaded, known)));
            arm_and_confirm(loaded, known, settlements, word, record)
        }
        Err(unloaded) => {
            record.say(Line::Refused(unloaded.fault));
            word
        }
    }
}

// The record of a visit with this file, in which the readings are settled as given, one after the other. The permit
// word begins at 0.
pub fn visit(heap: Global, file: &[u8], settlements: &[Settlement]) -> Result<String, AllocError> {
    let mut record = Record::new(heap);
    let mut word = 0;
    let _ = attend(file, settlements, &mut word, &mut record);
    record.text()
}

#[cfg(test)]
mod tests {
    use super::*;
    use std::test::Fail;

    #[test]
    fn an_empty_file_is_refused(rt: HostRuntime) -> Result<(), Fail> {
        let record = visit(rt.alloc(), &[], &[])?;
        assert_eq!(rt; record.as_str(), "refused 1 0\n");
        Ok(())
    }
}
