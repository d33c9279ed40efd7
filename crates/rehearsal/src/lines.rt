// The lines of a record, and the record.
ghost use Rattle.std.specs.Prelude.{◌≡◌, ◌++◌, [], Some, IfOk, IsOkAnd, string_bytes, codes};
ghost use Rattle.rehearsal.specs.Texts.{line_text};

use fluents::faults::Fault;
use meaning::answers::Verdict;
use panel::answers::Rejection;
use std::alloc::{AllocError, Global};
use std::fmt;
use std::fmt::Write;

// One thing that happens at a visit.
#[derive(Clone, Copy)]
pub enum Line {
    Selected,
    Loaded {
        fluents: u8,
        actions: usize,
    },
    Judged(Verdict),
    Permit(u32),
    Armed(u32),
    Did {
        place: usize,
        number: u8,
    },
    Reads {
        place: usize,
        number: u8,
        fluent: u8,
    },
    Settled(bool),
    Withdrawn,
    NoneLeft,
    EndedWell,
    Refused(Fault),
    Unarmed(Rejection),
}

// The line in words, without its break.
impl fmt::Display for Line {
    ghost output = { λ line. Some (line_text line) };

    fn fmt<W: fmt::Write>(&self, f: &mut fmt::Formatter<W>) -> fmt::Result {
        match *self {
            Line::Selected => write!(f, "selected"),
            Line::Loaded { fluents, actions } => {
                write!(f, "loaded {fluents} fluents, {actions} actions")
            }
            Line::Judged(verdict) => write!(f, "verdict {verdict}"),
            Line::Permit(word) => write!(f, "permit {word}"),
            Line::Armed(word) => write!(f, "armed, permit {word}"),
            Line::Did { place, number } => write!(f, "confirm {place}: action {number}"),
            Line::Reads {
                place,
                number,
                fluent,
            } => write!(f, "confirm {place}: reading {number} of fluent {fluent}"),
            Line::Settled(value) => write!(f, "settled {value}"),
            Line::Withdrawn => write!(f, "withdrawn"),
            Line::NoneLeft => write!(f, "no reading left: withdrawn"),
            Line::EndedWell => write!(f, "ended well"),
            Line::Refused(fault) => write!(f, "{fault}"),
            Line::Unarmed(Rejection { fault, cause }) => {
                write!(f, "{fault}, cause {}", cause.number())
            }
        }
    }
}

// The text so far, or that memory ran out and a line was lost.
#[derive(Drop)]
pub struct Record {
    text: Result<String, AllocError>,
}

impl Record {
    pub fn new(heap: Global) -> Record
        ensures { IsOkAnd result.text (λ text. string_bytes text ≡ []) }
    {
        Record {
            text: Ok(String::new(heap)),
        }
    }

    // Adds a line and its break. That one was lost is said at the end, so that a run is never broken off for it.
    pub fn say(&mut self, line: Line)
        ensures { IfOk self.new.text (λ after. IsOkAnd self.old.text (λ before. string_bytes after ≡ string_bytes before ++ (line_text line ++ codes "\n"))) }
    {
        if let Ok(text) = &mut self.text {
            if let Err(e) = write!(text, "{line}\n") {
                self.text = Err(e);
            }
        }
    }

    // The whole text, or that memory ran out.
    pub fn text(self) -> Result<String, AllocError>
        ensures { result ≡ self.text }
    {
        let Record { text } = self;
        text
    }
}
