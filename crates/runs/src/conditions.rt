// Whether all literals of a partial state are known.
ghost use Rattle.std.specs.Prelude.{◌≡◌, true, false, MatchBool, MatchOption, ◌↔◌, IsTrue};
ghost use Rattle.fluents.specs.Sets.{bit};
ghost use Rattle.procedure.specs.Acts.{row_of};
ghost use Rattle.meaning.specs.Sets.{Covers};
ghost use Rattle.runs.specs.Knowing.{CoversAt};

use fluents::literals::Literal;
use fluents::sets::has;
use knowledge::kinds::Knowledge;
use knowledge::states::PartialState;

// The literal that the state has of the fluent with this index, if any.
fn literal_of(state: PartialState, index: u8) -> Option<Literal>
    ensures { MatchOption result ((bit state.trues index ≡ false) × (bit state.falses index ≡ false)) (λ l. (l.fluent.index ≡ index) × MatchBool l.value (bit state.trues index ≡ true) (bit state.falses index ≡ true)) }
{
    let value = has(state.trues(), index);
    if value || has(state.falses(), index) {
        Literal::new(index, value).ok()
    } else {
        None
    }
}

// Whether that literal, if there is one, is known.
fn knows_at<K: Knowledge>(known: &K, state: PartialState, index: u8) -> bool
    ensures { IsTrue result ↔ CoversAt (row_of state) index (K.worlds known.now) }
{
    literal_of(state, index).is_none_or(|literal| known.knows(literal))
}

// Whether all literals of the state are known.
pub fn knows_all<K: Knowledge>(known: &K, state: PartialState) -> bool
    ensures { IsTrue result ↔ Covers (row_of state) (K.worlds known.now) }
{
    (0..64).all(|index| knows_at(known, state, index))
}
