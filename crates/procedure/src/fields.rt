// The fields of payloads, read and checked.
ghost use Rattle.std.specs.Prelude.{◌≡◌, ◌+◌, ◌≤◌, true, false, length, MatchOption, slice_index};
ghost use Rattle.procedure.specs.Fields.{set_at, row_at, is_inside, is_state, is_header, is_doing, is_reading};

use fluents::sets::Set;
use knowledge::actions::{DoingAction, ReadingAction};
use knowledge::states::PartialState;

// The set in eight bytes, lowest byte first.
pub(crate) fn set_at(bytes: &[u8], at: usize) -> Set
    requires { at + 8 ≤ length bytes.now }
    ensures { result ≡ set_at bytes.now at }
{
    // `requires` says that eight bytes are there.
    u64::from_le_bytes(*bytes[at..].first_chunk().unwrap())
}

// Whether the set has only members below n.
pub(crate) fn is_inside(set: Set, n: u8) -> bool
    ensures { result ≡ is_inside n set }
{
    n >= 64 || set >> n == 0
}

// The partial state in sixteen bytes, where it is one over the fluents below n.
pub(crate) fn state_at(bytes: &[u8], at: usize, n: u8) -> Option<PartialState>
    requires { at + 16 ≤ length bytes.now }
    ensures { MatchOption result (is_state n (row_at bytes.now at) ≡ false) (λ s. (is_state n (row_at bytes.now at) ≡ true) × (s.trues ≡ set_at bytes.now at) × (s.falses ≡ set_at bytes.now (at + 8))) }
{
    let trues = set_at(bytes, at);
    let falses = set_at(bytes, at + 8);
    if is_inside(trues, n) & is_inside(falses, n) {
        PartialState::new(trues, falses).ok()
    } else {
        None
    }
}

// What the header says: the number of fluents, and the goal.
#[derive(Clone, Copy)]
pub(crate) struct Header {
    pub n: u8,
    pub goal: PartialState,
}

// The header of a payload of 17 bytes, where its fields are good.
pub(crate) fn header_fields(bytes: &[u8]) -> Option<Header>
    requires { length bytes.now ≡ 17 }
    ensures { MatchOption result (is_header bytes.now ≡ false) (λ h. (is_header bytes.now ≡ true) × (h.n ≡ slice_index bytes.now 0) × (h.goal.trues ≡ set_at bytes.now 1) × (h.goal.falses ≡ set_at bytes.now 9)) }
{
    let n = bytes[0];
    if !(1..=64).contains(&n) {
        return None;
    }
    let goal = state_at(bytes, 1, n)?;
    Some(Header { n, goal })
}

// The doing action of a payload of 32 bytes, where its fields are good.
pub(crate) fn doing_action(bytes: &[u8], n: u8) -> Option<DoingAction>
    requires { length bytes.now ≡ 32 }
    ensures { MatchOption result (is_doing n bytes.now ≡ false) (λ a. (is_doing n bytes.now ≡ true) × (a.conditions.trues ≡ set_at bytes.now 0) × (a.conditions.falses ≡ set_at bytes.now 8) × (a.add ≡ set_at bytes.now 16) × (a.del ≡ set_at bytes.now 24)) }
{
    let conditions = state_at(bytes, 0, n)?;
    let add = set_at(bytes, 16);
    let del = set_at(bytes, 24);
    if is_inside(add, n) & is_inside(del, n) {
        DoingAction::new(conditions, add, del).ok()
    } else {
        None
    }
}

// The reading action of a payload of 17 bytes, where its fields are good; n is at most 64.
pub(crate) fn reading_action(bytes: &[u8], n: u8) -> Option<ReadingAction>
    requires { (length bytes.now ≡ 17) × (n ≤ 64) }
    ensures { MatchOption result (is_reading n bytes.now ≡ false) (λ a. (is_reading n bytes.now ≡ true) × (a.conditions.trues ≡ set_at bytes.now 0) × (a.conditions.falses ≡ set_at bytes.now 8) × (a.fluent.index ≡ slice_index bytes.now 16)) }
{
    let conditions = state_at(bytes, 0, n)?;
    let fluent = bytes[16];
    if fluent < n {
        ReadingAction::new(conditions, fluent).ok()
    } else {
        None
    }
}
