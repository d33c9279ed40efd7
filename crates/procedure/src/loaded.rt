// A file that was loaded.
ghost use Rattle.std.specs.Prelude.{◌≡◌, true};
ghost use Rattle.procedure.specs.Held.{is_held};
ghost use Rattle.procedure.specs.Procedures.{procedure_of};

use knowledge::states::PartialState;

pub mod reader;

// The lent bytes of a file that has a procedure, with some of its numbers; what else it has is read from the file. The plan is a
// place and a length, since a rule of the project has the file and numbers kept here, and no more.
#[derive(Drop)]
pub struct Loaded<'a> {
    file: &'a [u8],
    n: u8,
    goal: PartialState,
    actions: usize,
    // the place of the plan's first byte
    plan: usize,
    // how many bytes the plan has
    len: usize,
    ghost held: { is_held (procedure_of file.now) n goal.trues goal.falses actions plan len ≡ true },
}
