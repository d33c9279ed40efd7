// A file that was selected.
ghost use Rattle.std.specs.Prelude.{◌≡◌, true};
ghost use Rattle.frames.specs.Files.{frames_of, outline_of, is_laid};

pub mod reader;

// The lent bytes of a file whose frames are all right, and where they lie: how many actions there are, and the
// first bytes of the plan frame and of the start frame. The file and numbers, as a rule of the project has it.
#[derive(Drop)]
pub struct Selected<'a> {
    file: &'a [u8],
    actions: usize,
    plan: usize,
    start: usize,
    ghost laid: { is_laid (outline_of (frames_of file.now)) actions plan start ≡ true },
}
