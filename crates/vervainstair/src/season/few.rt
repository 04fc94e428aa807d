// The steps of each call in a logbook of few leaves: appends, a split, a replacement and a merge.
use super::play::{Sort, call};
use fixed_vec::FixedVec;
use index::record::NodeRecord;
use keys::stamp::Stamp;
use makes::buffered::Buffered;
use memory::Memory;
use std::io;
use tree::logbook::Logbook;
use tree::logbook::carry::Halt;

// What calls answered, one after the other.
type Told = FixedVec<Option<Result<usize, Halt>>, 16>;

// A sort of calls, and their first and last day.
type Days = (Sort, u64, u64);

// 16 corrections fill a leaf, and the next one splits it where two leaves are free.
const SPLIT: [Days; 2] = [(Sort::Put, 1, 16), (Sort::Put, 17, 17)];

const CHANGES: [Days; 1] = [(Sort::Change, 1, 5)];

const REMOVES: [Days; 2] = [(Sort::Remove, 9, 16), (Sort::Change, 1, 5)];

const MAKES_ROOM: [Days; 2] = [(Sort::Remove, 1, 1), (Sort::Put, 17, 17)];

pub fn show(rt: &impl Print) -> io::Result<()> {
    println!(rt; "")?;
    println!(rt; "Steps of each call, in days of 2024")?;
    println!(rt; "  call    days      leaves after  steps")?;
    show_book(rt, 3, &CHANGES)?;
    show_book(rt, 3, &REMOVES)?;
    show_book(rt, 2, &MAKES_ROOM)
}

// A logbook of so many leaves, and what is called after the first 17 days.
fn show_book(rt: &impl Print, leaves: usize, calls: &[Days]) -> io::Result<()> {
    let mut live = [0; 224];
    let mut firm = [0; 224];
    let mut book = Logbook::<Stamp, Buffered<'_>>::new(Buffered::new(&mut live, &mut firm, 500));
    println!(rt; "  {leaves} leaves")?;
    let _ = book.format(leaves);
    show_calls(rt, &mut book, &SPLIT)?;
    show_calls(rt, &mut book, calls)
}

fn show_calls<M: Memory>(
    rt: &impl Print,
    book: &mut Logbook<Stamp, M>,
    calls: &[Days],
) -> io::Result<()> {
    for days in calls {
        show_days(rt, book, *days)?;
    }
    Ok(())
}

// The calls of some days: the leaves after them, and the steps that each one told.
fn show_days<M: Memory>(
    rt: &impl Print,
    book: &mut Logbook<Stamp, M>,
    days: Days,
) -> io::Result<()> {
    let (sort, first, last) = days;
    let mut told = Told::new(None);
    for day in first..=last {
        let _ = told.push(Some(call(book, sort, 2024, day)));
    }
    match sort {
        Sort::Put => print!(rt; "    put     ")?,
        Sort::Change => print!(rt; "    change  ")?,
        Sort::Remove => print!(rt; "    remove  ")?,
    }
    print!(rt; "{first:>2} to {last:<2}")?;
    show_leaves(rt, book)?;
    show_told(rt, told.as_slice())
}

// The leaves of the root node, in the order of their keys.
fn show_leaves<M: Memory>(rt: &impl Print, book: &mut Logbook<Stamp, M>) -> io::Result<()> {
    let mut record = NodeRecord::new();
    let _ = book.node(0, &mut record);
    match record.numbers.as_slice() {
        [one] => print!(rt; "  {one:<12}"),
        [one, two] => print!(rt; "  {one} then {two:<5}"),
        _ => print!(rt; "  {0:<12}", "more"),
    }
}

fn show_told(rt: &impl Print, told: &[Option<Result<usize, Halt>>]) -> io::Result<()> {
    for answer in told {
        match answer {
            Some(Ok(steps)) => print!(rt; " {steps}")?,
            Some(Err(halt)) => {
                let refusal = halt.refusal;
                print!(rt; " refused {refusal}")?;
            }
            None => (),
        }
    }
    println!(rt; "")
}
