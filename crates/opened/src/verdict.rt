// How the book that opens after a cut stands to the book before the call and to the one with the call done.
ghost use Rattle.std.specs.Prelude.{◌≡◌, ◌↔◌, IsTrue};
ghost use Rattle.opened.specs.Verdicts.{IsVerdict, Unmarked, lawful};

use super::book::{Opened, same};
use refusal::Refusal;

#[derive(Clone, Copy, PartialEq)]
pub enum Verdict {
    Before,
    Done,
    // the call changes no pair
    Both,
    // no book: refused 5, as a format may leave it
    NoMark,
    Other,
}

// Whether opening is refused for want of the mark.
fn is_unmarked(opened: &Opened) -> bool
    ensures { IsTrue result ↔ Unmarked opened.now }
{
    match opened.fault {
        Some(fault) => fault.refusal == Refusal::WrongMark,
        None => false,
    }
}

pub fn judge(opened: &Opened, before: &Opened, done: &Opened) -> Verdict
    ensures { IsVerdict opened.now before.now done.now result }
{
    let as_before = same(opened, before);
    let as_done = same(opened, done);
    if as_before && as_done {
        Verdict::Both
    } else if as_before {
        Verdict::Before
    } else if as_done {
        Verdict::Done
    } else if is_unmarked(opened) {
        Verdict::NoMark
    } else {
        Verdict::Other
    }
}

// Whether a cut may leave this: put, change and remove are done where their commit word stands new, and else not begun; a format leaves
// what there was, no mark, or an empty book.
pub fn is_lawful(format: bool, commit_new: bool, verdict: Verdict) -> bool
    ensures { result ≡ lawful format commit_new verdict }
{
    match verdict {
        Verdict::Before => format || !commit_new,
        Verdict::Done => format || commit_new,
        Verdict::Both => true,
        Verdict::NoMark => format,
        Verdict::Other => false,
    }
}

impl Verdict {
    pub fn name(self) -> &'static str {
        match self {
            Verdict::Before => "before",
            Verdict::Done => "done",
            Verdict::Both => "both",
            Verdict::NoMark => "no mark",
            Verdict::Other => "other",
        }
    }
}
