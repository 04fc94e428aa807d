//! A reckoning of its own of what a logbook does, by docs/RULES.md alone, against the logbook and its session: `compare START LISTS`.
#![tactic(auto)]

use check::{Checked, compare_list, reckoning};
use damage::compare_damaged;
use dice::Dice as Numbers;
use lists::any_list;
use makings::compare_keys;
use std::alloc::Global;
use std::{env, io};
use tally::{Tally as Counts, count};

mod answer;
mod book;
mod call;
mod calls;
mod chain;
mod check;
mod damage;
mod dice;
mod difference;
mod direct;
mod kinds;
mod layout;
mod lists;
mod makings;
mod model;
mod moods;
mod opening;
mod piles;
mod plan;
mod session_play;
mod shown;
mod tally;
mod told;
mod words;

// One list and damaged copies of what it leaves, all from one number. Where there is a difference the list is played again and compared
// after each call, so that the first one is told.
fn compare(alloc: Global, start: u64, tally: &mut Counts) -> Checked {
    let mut dice = Numbers::new(start);
    let list = any_list(alloc, &mut dice)?;
    let mut model = reckoning(alloc, &list.setting)?;
    count(&mut tally.lists);
    if compare_list(&list, &mut model, list.stride, tally)?.is_some() {
        let mut again = reckoning(alloc, &list.setting)?;
        return compare_list(&list, &mut again, 1, tally);
    }
    compare_damaged(&mut dice, &list, &model, tally)
}

// The keys, then the lists: whether nothing differs.
fn compare_all(
    rt: &impl Print,
    alloc: Global,
    start: u64,
    lists: u64,
    tally: &mut Counts,
) -> io::Result<bool> {
    let keys = lists.saturating_mul(50);
    if let Some(what) = compare_keys(&mut Numbers::new(start), keys, tally) {
        println!(rt; "DIFFERENCE: {what}")?;
        return Ok(false);
    }
    for i in 0..lists {
        let at = start.wrapping_add(i);
        if let Some(found) = compare(alloc, at, tally)? {
            println!(rt; "DIFFERENCE in list {at}, {found}")?;
            return Ok(false);
        }
    }
    Ok(true)
}

fn run(rt: &impl Print, alloc: Global, start: u64, lists: u64) -> io::Result<()> {
    println!(rt; "The rules beside the logbook: {lists} lists from {start} on")?;
    let mut tally = Counts::new();
    let alike = compare_all(rt, alloc, start, lists, &mut tally)?;
    tally.show(rt)?;
    if alike {
        println!(rt; "no difference")?;
    }
    Ok(())
}

fn main(rt: HostRuntime) -> io::Result<()> {
    let alloc = rt.alloc();
    let mut words = env::args(&rt)?;
    let _program = words.next();
    let (Some(start), Some(lists)) = (words.next(), words.next()) else {
        return run(&rt, alloc, 1, 200);
    };
    match (start.parse::<u64>(), lists.parse::<u64>()) {
        (Ok(start), Ok(lists)) => run(&rt, alloc, start, lists),
        _ => println!(&rt; "compare START LISTS"),
    }
}
