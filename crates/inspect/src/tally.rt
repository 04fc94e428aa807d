// How many damages opening answered in which way.
use opened::outcome::Outcome;
use refusal::Refusal;
use std::io::{self, Write};

#[derive(Clone, Copy, Default)]
pub struct Tally {
    same: u64,
    other: u64,
    wrong_length: u64,
    wrong_mark: u64,
    other_kind: u64,
    leaf_count: u64,
    bad_link: u64,
    bad_leaf: u64,
    else_refused: u64,
}

impl Tally {
    // The count of an answer.
    fn count(&mut self, outcome: Outcome) -> &mut u64 {
        match outcome {
            Outcome::SameBook => &mut self.same,
            Outcome::OtherBook(_) => &mut self.other,
            Outcome::Refused(fault) => match fault.refusal {
                Refusal::WrongLength => &mut self.wrong_length,
                Refusal::WrongMark => &mut self.wrong_mark,
                Refusal::OtherKind => &mut self.other_kind,
                Refusal::LeafCount => &mut self.leaf_count,
                Refusal::BadLink => &mut self.bad_link,
                Refusal::BadLeaf => &mut self.bad_leaf,
                _ => &mut self.else_refused,
            },
        }
    }

    pub fn add(&mut self, outcome: Outcome) {
        let count = self.count(outcome);
        *count = count.saturating_add(1);
    }

    pub fn write<W: Write>(&self, out: &mut W) -> io::Result<()> {
        let Tally {
            same,
            other,
            wrong_length,
            wrong_mark,
            other_kind,
            leaf_count,
            bad_link,
            bad_leaf,
            else_refused,
        } = *self;
        writeln!(out, "  summary")?;
        writeln!(out, "  the same book                 {same:>7}")?;
        writeln!(out, "  another book                  {other:>7}")?;
        writeln!(out, "  refused 4, too few words      {wrong_length:>7}")?;
        writeln!(out, "  refused 5, no mark            {wrong_mark:>7}")?;
        writeln!(out, "  refused 6, another kind       {other_kind:>7}")?;
        writeln!(out, "  refused 7, number of leaves   {leaf_count:>7}")?;
        writeln!(out, "  refused 8, a link             {bad_link:>7}")?;
        writeln!(out, "  refused 9, a leaf             {bad_leaf:>7}")?;
        writeln!(out, "  refused otherwise             {else_refused:>7}")
    }
}
