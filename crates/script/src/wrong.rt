// Why a line of a script is no call, or not one to be swept.
use std::fmt;

#[derive(Clone, Copy, PartialEq, Eq, Debug)]
pub enum Wrong {
    NotText,
    NoCall,
    // a known first word, and then others than its call has
    MemoryForm,
    SettingForm,
    ProbingForm,
    CallForm,
    KeyForm,
    CutForm,
    NotANumber,
    TooGreat,
    NoMemory,
    NoKind,
    OtherKind,
    FourthLayer,
    TooManyWords,
    // of the last line, where it is to be swept
    NotSwept,
    EndlessSteps,
    NotSettled,
    TooMixed,
}

// A line of a script that is no call, counted from 1.
#[derive(Clone, Copy)]
pub struct Mistake {
    pub line: u64,
    pub wrong: Wrong,
}

impl Wrong {
    fn text(self) -> &'static str {
        match self {
            Wrong::NotText => "not UTF-8 text",
            Wrong::NoCall => "no such call",
            Wrong::MemoryForm => "write memory through WORDS or memory buffered WORDS STEPS",
            Wrong::SettingForm =>
                "write margin LINES, rotation LINES, kind stamp, kind port or make",
            Wrong::ProbingForm => "write steps, poke INDEX WORD or dump",
            Wrong::CallForm => "write format LEAVES, open, pairs, node N or state",
            Wrong::KeyForm =>
                "write a key as YEAR DAY MILLISECOND or IDENTITY PORT, and a reading with put and change",
            Wrong::CutForm =>
                "write cut STEPS firm, cut STEPS live or cut STEPS mix W W .. with one word or more",
            Wrong::NotANumber => "a number is decimal digits and nothing else",
            Wrong::TooGreat => "a number is at most 18446744073709551615",
            Wrong::NoMemory => "no memory is named yet",
            Wrong::NoKind => "no kind of key is named yet",
            Wrong::OtherKind => "this is a key of another kind",
            Wrong::FourthLayer => "there are three layers already",
            Wrong::TooManyWords => "a memory of so many words is not to be had",
            Wrong::NotSwept => "a sweep needs a put, change, remove or format as the last line",
            Wrong::EndlessSteps =>
                "a sweep needs a buffered memory: steps of a through one do not end",
            Wrong::NotSettled => "a sweep needs a memory that is settled before the last line",
            Wrong::TooMixed => "more than eight words are unsettled where the call is cut off",
        }
    }
}

impl fmt::Display for Wrong {
    fn fmt<W: fmt::Write>(&self, f: &mut fmt::Formatter<W>) -> fmt::Result {
        f.write_str(self.text())
    }
}

impl fmt::Display for Mistake {
    fn fmt<W: fmt::Write>(&self, f: &mut fmt::Formatter<W>) -> fmt::Result {
        let Mistake { line, wrong } = *self;
        write!(f, "error line {line}: {wrong}")
    }
}
