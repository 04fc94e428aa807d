//! Histories: calls, questions and cuts one after the other, and the plain book that says what they must come to. The law of cuts.
#![tactic(auto)]

ghost use Rattle.keys.specs.InWords.{in_words};
ghost use Rattle.plans.specs.Told.{by_rule};
ghost use Rattle.histories.specs.Example.{Example};
ghost use Rattle.histories.specs.Histories.{EveryList};
ghost use Rattle.histories.specs.Law.{LawByRule, LawFor, LawOfCuts, LawOfLists, LawfulFrom};

use keys::Key;

// After any calls, questions and cuts the book is what the finished calls come to, with the unfinished one where its commit word stands
// new; and each call and question on the way is answered as this plain book has it.
pub fn law_of_cuts()
    ensures from { LawfulFrom }
    ensures law { LawOfCuts }
    ensures rule { LawByRule }
    ensures lists { LawOfLists }
{}

// The same for the kinds of key that code has, by the rule.
pub fn law_of_kind<K: Key>()
    ensures { LawFor by_rule (in_words K.Key.kind) }
{}

// Every list of calls, questions and cuts has a history.
pub fn histories_stand()
    ensures { EveryList }
{}

// A put broken off by a cut that keeps its count.
pub fn example_stands()
    ensures { Example }
{}
