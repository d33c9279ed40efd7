// Sets of fluents as 64-bit numbers: bit i is fluent i.
ghost use Rattle.std.specs.Prelude.{◌≡◌};
ghost use Rattle.fluents.specs.Sets.{bit, minus};

// A set of the fluents 0 to 63; a world is the set of the fluents that are true in it.
pub type Set = u64;

// Whether the set has this member; no set has a member above 63.
pub fn has(set: Set, member: u8) -> bool
    ensures { result ≡ bit set member }
{
    member < 64 && (set >> member) & 1 == 1
}

// The members of `set` that `other` has not.
pub fn minus(set: Set, other: Set) -> Set
    ensures { result ≡ minus set other }
{
    set ^ (set & other)
}
