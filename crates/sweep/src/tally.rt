// What the cuts of a sweep come to.
use opened::verdict::Verdict;

#[derive(Clone, Copy, Default)]
pub struct Tally {
    pub cuts: u64,
    pub commit_new: u64,
    pub before: u64,
    pub done: u64,
    pub both: u64,
    pub no_mark: u64,
    pub other: u64,
    pub unlawful: u64,
}

fn plus(one: u64, other: u64) -> u64 {
    one.saturating_add(other)
}

fn one_if(holds: bool) -> u64 {
    if holds { 1 } else { 0 }
}

impl Tally {
    // The tally of one cut.
    pub fn of(verdict: Verdict, commit_new: bool, lawful: bool) -> Tally {
        Tally {
            cuts: 1,
            commit_new: one_if(commit_new),
            before: one_if(verdict == Verdict::Before),
            done: one_if(verdict == Verdict::Done),
            both: one_if(verdict == Verdict::Both),
            no_mark: one_if(verdict == Verdict::NoMark),
            other: one_if(verdict == Verdict::Other),
            unlawful: one_if(!lawful),
        }
    }

    pub fn plus(self, other: Tally) -> Tally {
        Tally {
            cuts: plus(self.cuts, other.cuts),
            commit_new: plus(self.commit_new, other.commit_new),
            before: plus(self.before, other.before),
            done: plus(self.done, other.done),
            both: plus(self.both, other.both),
            no_mark: plus(self.no_mark, other.no_mark),
            other: plus(self.other, other.other),
            unlawful: plus(self.unlawful, other.unlawful),
        }
    }
}
