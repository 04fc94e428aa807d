// The season's calls, on any memory.
use super::tally::Tally;
use keys::Key;
use keys::stamp::Stamp;
use memory::Memory;
use tree::logbook::Logbook;
use tree::logbook::carry::Halt;

// What each sort of calls came to, and how the book stands after them.
#[derive(Clone, Copy)]
pub struct Season {
    pub puts: Tally,
    pub changes: Tally,
    pub removes: Tally,
    pub ending: Ending,
}

// How many pairs there are as told, as met by next and as found by a new logbook; and the last one that next met.
#[derive(Clone, Copy)]
pub struct Ending {
    pub pairs: usize,
    pub walked: usize,
    pub anew: usize,
    pub year: u64,
    pub day: u64,
    pub reading: u64,
}

#[derive(Clone, Copy)]
pub enum Sort {
    Put,
    Change,
    Remove,
}

// One call; a correction of a day reads as the day's number, and a changed one 1000 more.
pub fn call<M: Memory>(
    book: &mut Logbook<Stamp, M>,
    sort: Sort,
    year: u64,
    day: u64,
) -> Result<usize, Halt> {
    let key = Stamp::new(year, day, 0)?;
    match sort {
        Sort::Put => book.put(&key, day),
        Sort::Change => book.change(&key, day.saturating_add(1000)),
        Sort::Remove => Ok(book.remove(&key)?.steps),
    }
}

// The days of a year for a sort of calls; all removed but every sixth of 2024.
fn tell<M: Memory>(
    book: &mut Logbook<Stamp, M>,
    tally: &mut Tally,
    sort: Sort,
    year: u64,
    first: u64,
    last: u64,
) {
    for day in first..=last {
        match sort {
            Sort::Remove if year == 2024 && day % 6 == 0 => (),
            _ => {
                let answer = call(book, sort, year, day);
                tally.count(book, answer);
            }
        }
    }
}

fn puts<M: Memory>(book: &mut Logbook<Stamp, M>) -> Tally {
    let mut tally = Tally::new(book);
    tell(book, &mut tally, Sort::Put, 2023, 300, 365);
    tell(book, &mut tally, Sort::Put, 2024, 1, 366);
    tally
}

fn changes<M: Memory>(book: &mut Logbook<Stamp, M>) -> Tally {
    let mut tally = Tally::new(book);
    tell(book, &mut tally, Sort::Change, 2024, 1, 366);
    tally
}

fn removes<M: Memory>(book: &mut Logbook<Stamp, M>) -> Tally {
    let mut tally = Tally::new(book);
    tell(book, &mut tally, Sort::Remove, 2023, 300, 365);
    tell(book, &mut tally, Sort::Remove, 2024, 1, 366);
    tally
}

// Goes over all pairs from 2000 on.
fn walk<M: Memory>(book: &mut Logbook<Stamp, M>, pairs: usize) -> Ending {
    let mut ending = Ending {
        pairs,
        walked: 0,
        anew: 0,
        year: 0,
        day: 0,
        reading: 0,
    };
    let mut from = Stamp::new(2000, 1, 0);
    for _ in 0..1000 {
        let Ok(key) = from else {
            break;
        };
        let Ok(pair) = book.next(&key) else {
            break;
        };
        from = <Stamp as Key>::unpack(pair.key);
        ending.walked = ending.walked.saturating_add(1);
        ending.reading = pair.reading;
        if let Ok(met) = &from {
            ending.year = met.year();
            ending.day = met.day();
        }
    }
    ending
}

pub fn play<M: Memory>(memory: M) -> (Season, M) {
    let mut book = Logbook::<Stamp, M>::new(memory);
    let _ = book.format(64);
    let puts = puts(&mut book);
    let changes = changes(&mut book);
    let removes = removes(&mut book);
    let pairs = book.pairs().unwrap_or(0);
    let mut ending = walk(&mut book, pairs);
    let mut again = Logbook::<Stamp, M>::new(book.release());
    let _ = again.open();
    ending.anew = again.pairs().unwrap_or(0);
    let season = Season {
        puts,
        changes,
        removes,
        ending,
    };
    (season, again.release())
}
