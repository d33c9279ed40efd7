// What the keys of a run give.
use crate::armed::Armed;
use crate::reading::Reading;
use fluents::faults::Fault;
use kept::Kept;
use meaning::answers::Cause;
use procedure::loaded::Loaded;

// A run that has ended, or was not begun: the procedure, and the word, whose bit 0 has its earlier value. The procedure lies
// in `Kept`: bare beside the `&mut` it was tried, and the check makes no proof of a `Result` of such structs.
#[derive(Drop)]
pub struct Over<'f, 'w> {
    pub loaded: Kept<Loaded<'f>>,
    pub word: &'w mut u32,
}

// A run that a refused value has ended.
#[derive(Drop)]
pub struct Denied<'f, 'w> {
    pub over: Over<'f, 'w>,
    pub fault: Fault,
}

// Why Arm was refused: the fault at the failing node, and why the plan fails there.
#[derive(Clone, Copy, PartialEq, Eq, Debug)]
pub struct Rejection {
    pub fault: Fault,
    pub cause: Cause,
}

// What Confirm gives: an action was done, and the run goes on; a reading waits; or the plan has ended.
pub enum Confirmed<'f, 'w> {
    Did { number: u8, armed: Armed<'f, 'w> },
    Reads(Reading<'f, 'w>),
    Ended(Over<'f, 'w>),
}
