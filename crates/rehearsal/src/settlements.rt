// How the readings of a visit are to be settled, as the arguments say it.
ghost use Rattle.std.specs.Prelude.{◌≡◌, IfErr, IfOk, MatchResult, ◌≢◌, drop, map, string_bytes};
ghost use Rattle.std.specs.Vec.Iter.{into_iter_items};
ghost use Rattle.rehearsal.specs.Words.{word_of, IsMemory, Unnamed};
ghost use Rattle.rehearsal.specs.declared.settlements.Settlement.{Settlement};

use std::alloc::{AllocError, AllocFailed, Global};
use std::env::Args;
use std::str::FromStr;

// What is done at a reading: a value is settled, or the reading is withdrawn.
#[derive(Clone, Copy, PartialEq, Eq, Debug)]
pub enum Settlement {
    Value(bool),
    Withdraw,
}

// A word that names no settlement.
#[derive(Clone, Copy, PartialEq, Eq, Debug)]
pub struct UnknownWord;

// The settlement that the word names; an error exactly where it names none.
impl FromStr for Settlement {
    type Err = UnknownWord;

    ghost from_str_gives = { λ word r. MatchResult r (λ s. word ≡ word_of s) (λ _. (s : Settlement) → word ≢ word_of s) };

    fn from_str(word: &str) -> Result<Settlement, UnknownWord> {
        match word {
            "true" => Ok(Settlement::Value(true)),
            "false" => Ok(Settlement::Value(false)),
            "withdraw" => Ok(Settlement::Withdraw),
            _ => Err(UnknownWord),
        }
    }
}

// Why the arguments are not taken: the first word that is not allowed, or memory ran out.
#[derive(Drop)]
pub enum ParseError {
    Word(String),
    Memory(AllocError),
}

impl<T: Drop> From<AllocFailed<T>> for ParseError {
    ghost from_gives = { λ _ r. IsMemory r };

    fn from(e: AllocFailed<T>) -> ParseError {
        ParseError::Memory(e.into())
    }
}

// The settlements that the words name, or the first word that names none.
fn settlements_of(heap: Global, words: Args) -> Result<Vec<Settlement>, ParseError>
    ensures named { IfOk result (λ v. map word_of v.items ≡ map string_bytes (into_iter_items words)) }
    ensures unnamed { IfErr result (Unnamed (map string_bytes (into_iter_items words))) }
{
    let mut settlements = Vec::new(heap);
    for word in words {
        let Ok(settlement) = word.as_str().parse() else {
            return Err(ParseError::Word(word));
        };
        settlements.push(settlement)?;
    }
    Ok(settlements)
}

// The settlements that the arguments name; the first argument, the program's own name, is passed over.
pub fn parse(heap: Global, args: Args) -> Result<Vec<Settlement>, ParseError>
    ensures named { IfOk result (λ v. map word_of v.items ≡ map string_bytes (drop 1 (into_iter_items args))) }
    ensures unnamed { IfErr result (Unnamed (map string_bytes (drop 1 (into_iter_items args)))) }
{
    let mut args = args;
    let _ = args.next();
    settlements_of(heap, args)
}

#[cfg(test)]
mod tests {
    use super::*;

    #[test]
    fn only_three_words_are_settlements(rt: HostRuntime) {
        assert_eq!(rt; "true".parse::<Settlement>(), Ok(Settlement::Value(true)));
        assert_eq!(rt; "false".parse::<Settlement>(), Ok(Settlement::Value(false)));
        assert_eq!(rt; "withdraw".parse::<Settlement>(), Ok(Settlement::Withdraw));
        assert_eq!(rt; "True".parse::<Settlement>(), Err(UnknownWord));
        assert_eq!(rt; "".parse::<Settlement>(), Err(UnknownWord));
    }
}
