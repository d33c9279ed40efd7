// One frame: its parts, and how it is read at a place of the file.
ghost use Rattle.std.specs.Prelude.{◌≡◌, ◌+◌, ◌-◌, ◌%◌, ◌^◌, ◌≤◌, min, true, false, length, take, drop, Some, None, sum, MatchOption, MatchResult};
ghost use Rattle.frames.specs.Frames.{is_whole, length_at, is_due, is_excess, is_fit, is_action, flaw_at, frame_at};
ghost use Rattle.frames.specs.Seen.{Shows, PartsAt, kind_of, payload_of, Fits};

use fluents::faults::{Fault, Refusal};

// What may come next in a file.
#[derive(Clone, Copy, PartialEq, Eq, Debug)]
pub enum Due {
    Header,
    // an action or the plan; so many actions have come
    Body(usize),
    Start,
}

// The part of the file that is a frame's payload, and the place of its first byte.
#[derive(Clone, Copy)]
pub struct Payload<'a> {
    pub bytes: &'a [u8],
    pub place: usize,
}

// A frame of each kind, with its payload.
#[derive(Clone, Copy)]
pub enum Frame<'a> {
    Header(Payload<'a>),
    Doing(Payload<'a>),
    Reading(Payload<'a>),
    Plan(Payload<'a>),
    PartialStart(Payload<'a>),
    WorldStart(Payload<'a>),
}

// The sum of some bytes, modulo 65,536.
fn checksum(bytes: &[u8]) -> u16
    ensures { result ≡ sum bytes.now % 65536 }
{
    bytes
        .iter()
        .fold(0, |total: u16, b| total.wrapping_add(u16::from(*b)))
}

// All bytes of the frame at this place, where the file reaches to the frame's end.
fn whole(file: &[u8], place: usize) -> Option<&[u8]>
    ensures { MatchOption result (is_whole file.now place ≡ false) (λ bytes. (is_whole file.now place ≡ true) × (bytes.now ≡ take (length_at file.now place + 6) (drop place file.now))) }
{
    let rest = file.get(place..)?;
    let len = u16::from_le_bytes(*rest.first_chunk()?);
    rest.get(..usize::from(len) + 6)
}

// The parts of a whole frame: all bytes before its sum, the kind and the payload among them, and the sum.
#[derive(Clone, Copy)]
struct Parts<'a> {
    body: &'a [u8],
    kind: u16,
    payload: Payload<'a>,
    sum: u16,
}

// The parts of the frame at this place, where the file reaches to the frame's end.
fn parts_at(file: &[u8], place: usize) -> Option<Parts<'_>>
    ensures { MatchOption result (is_whole file.now place ≡ false) (λ parts. (is_whole file.now place ≡ true) × PartsAt file.now place parts) }
{
    let bytes = whole(file, place)?;
    let (body, end) = bytes.split_at(bytes.len() - 2);
    Some(Parts {
        body,
        kind: u16::from_le_bytes([body[2], body[3]]),
        payload: Payload {
            bytes: &body[4..],
            place: place + 4,
        },
        sum: u16::from_le_bytes([end[0], end[1]]),
    })
}

impl Due {
    // The frame of this kind number, where such a frame may come now.
    // A kind is a number only up to here, where it becomes a case; an enum between would name each kind twice.
    fn frame<'a>(self, kind: u16, payload: Payload<'a>) -> Option<Frame<'a>>
        ensures { MatchOption result (is_due self kind ≡ false) (λ f. (is_due self kind ≡ true) × (kind_of f ≡ kind) × (payload_of f ≡ payload.entry)) }
    {
        match (self, kind) {
            (Due::Header, 1) => Some(Frame::Header(payload)),
            (Due::Body(_), 2) => Some(Frame::Doing(payload)),
            (Due::Body(_), 3) => Some(Frame::Reading(payload)),
            (Due::Body(_), 4) => Some(Frame::Plan(payload)),
            (Due::Start, 5) => Some(Frame::PartialStart(payload)),
            (Due::Start, 6) => Some(Frame::WorldStart(payload)),
            _ => None,
        }
    }

    // Whether 64 actions have come.
    fn is_full(self) -> bool
        ensures { result ≡ is_excess self 2 }
    {
        matches!(self, Due::Body(actions) if actions >= 64)
    }
}

impl<'a> Frame<'a> {
    // The frame at this place of the file, where `due` is due. A place past the end has no whole frame.
    // The length of its payload is one that its kind may have.
    pub fn read(file: &'a [u8], place: usize, due: Due) -> Result<Frame<'a>, Fault>
        ensures { MatchResult result (λ f. (flaw_at file.now place due ≡ None) × Shows f (frame_at file.now place) × Fits f) (λ e. (flaw_at file.now place due ≡ Some e.refusal) × (e.place ≡ place)) }
    {
        let parts = parts_at(file, place).ok_or(Refusal::Incomplete.at(place))?;
        if checksum(parts.body) != parts.sum {
            return Err(Refusal::WrongSum.at(place));
        }
        let frame = due
            .frame(parts.kind, parts.payload)
            .ok_or(Refusal::UnexpectedKind.at(place))?;
        if due.is_full() & frame.is_action() {
            return Err(Refusal::TooManyActions.at(place));
        }
        if !frame.fits() {
            return Err(Refusal::UnfitLength.at(place));
        }
        Ok(frame)
    }

    // The payload of the frame, whatever its kind.
    pub fn payload(self) -> Payload<'a>
        ensures { result ≡ payload_of self.entry }
    {
        match self {
            Frame::Header(payload)
            | Frame::Doing(payload)
            | Frame::Reading(payload)
            | Frame::Plan(payload)
            | Frame::PartialStart(payload)
            | Frame::WorldStart(payload) => payload,
        }
    }

    // The place just past the frame. A frame that was read from a file never reaches the largest number.
    pub fn end(self) -> usize
        ensures { result ≡ min ((payload_of self.entry).place + length (payload_of self.entry).bytes.now + 2) (2 ^ 64 - 1) }
    {
        let payload = self.payload();
        payload
            .place
            .saturating_add(payload.bytes.len())
            .saturating_add(2)
    }

    pub fn is_action(self) -> bool
        ensures { result ≡ is_action (kind_of self.entry) }
    {
        matches!(self, Frame::Doing(_) | Frame::Reading(_))
    }

    // Whether the payload has a length that its kind may have.
    fn fits(self) -> bool
        ensures { result ≡ is_fit (kind_of self.entry) (length (payload_of self.entry).bytes.now) }
    {
        let len = self.payload().bytes.len();
        match self {
            Frame::Header(_) | Frame::Reading(_) => len == 17,
            Frame::Doing(_) => len == 32,
            Frame::Plan(_) => (1..=1024).contains(&len),
            Frame::PartialStart(_) => len == 16,
            Frame::WorldStart(_) => (8..=512).contains(&len) && len % 8 == 0,
        }
    }
}
