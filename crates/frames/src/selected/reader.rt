// Select: all frames of a file, in file order.
ghost use Rattle.std.specs.Prelude.{◌≡◌, ◌≤◌, length, is_ok, Ok, Err, MatchResult, ◌↔◌, IsTrue};
ghost use Rattle.frames.specs.Files.{frames_of, outline_of, outline_from, outline, rest_from, start_from};
ghost use Rattle.frames.specs.Frames.{frame_at};
ghost use Rattle.frames.specs.Spoiled.{SpoiledRefused};
ghost use Rattle.frames.specs.Strings.{Composed};

use super::Selected;
use crate::frame::{Due, Frame};
use fluents::faults::{Fault, Refusal};

// Where the plan frame lies, and how many actions come before it.
#[derive(Clone, Copy)]
struct Body {
    actions: usize,
    plan: usize,
    // the place just past the plan frame
    end: usize,
}

// Passes the actions from this place on, up to the plan frame.
// A loop that counts: after a `for` there would have to be an answer that is never given.
fn find_plan(file: &[u8], first: usize) -> Result<Body, Fault>
    ensures { MatchResult result (λ b. (outline_from 0 (rest_from 64 file.now first) ≡ outline_from b.actions (start_from file.now (frame_at file.now b.plan) b.end)) × (b.end ≤ length file.now)) (λ e. outline_from 0 (rest_from 64 file.now first) ≡ Err e) }
{
    let mut place = first;
    let mut actions = 0;
    loop {
        let frame = Frame::read(file, place, Due::Body(actions))?;
        let after = frame.end();
        if !frame.is_action() {
            return Ok(Body {
                actions,
                plan: place,
                end: after,
            });
        }
        place = after;
        actions += 1;
    }
}

impl<'a> Selected<'a> {
    // Checks all frames of the file, or says the first refusal on the way through it.
    // It takes just the strings that are composed of frames in their order. One byte of such a file, replaced behind a
    // frame's length, has the file refused for the sum of that frame.
    pub fn select(file: &'a [u8]) -> Result<Selected<'a>, Fault>
        ensures value { MatchResult result (λ s. (s.file ≡ file.entry) × (outline_of (frames_of file.now) ≡ Ok (outline s.actions s.plan s.start))) (λ e. frames_of file.now ≡ Err e) }
        ensures strings { IsTrue (is_ok result) ↔ Composed file.now }
        ensures spoiled { SpoiledRefused file.now }
    {
        let header = Frame::read(file, 0, Due::Header)?;
        let body = find_plan(file, header.end())?;
        let last = Frame::read(file, body.end, Due::Start)?;
        let past = last.end();
        if past < file.len() {
            return Err(Refusal::UnexpectedKind.at(past));
        }
        Ok(Selected {
            file,
            actions: body.actions,
            plan: body.plan,
            start: body.end,
        })
    }

    // The bytes of the whole file.
    pub fn file(&self) -> &'a [u8]
        ensures { result ≡ self.now.file }
    {
        self.file
    }

    // How many actions the file has.
    pub fn actions(&self) -> usize
        ensures { result ≡ self.now.actions }
    {
        self.actions
    }

    // The place of the plan frame's first byte.
    pub fn plan(&self) -> usize
        ensures { result ≡ self.now.plan }
    {
        self.plan
    }

    // The place of the start frame's first byte.
    pub fn start(&self) -> usize
        ensures { result ≡ self.now.start }
    {
        self.start
    }
}
