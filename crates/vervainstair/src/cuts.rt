// The supply lost inside a call: lists of acts, played on one logbook each, and what is told of them.
use keys::stamp::Stamp;
use makes::buffered::Buffered;
use refusal::Refusal;
use session::act::{Act, Told};
use session::play::play;
use std::io;

// A logbook of two leaves has 152 words.
const SIZE: usize = 152;

// The steps of a format.
const FORMAT: u64 = 12;

// The choices of a cut that keeps the live word everywhere, and then those of one that keeps the firm word.
const LIVE: usize = 0;

const FIRM: usize = SIZE;

pub fn show(rt: &impl Print) -> io::Result<()> {
    println!(rt; "")?;
    println!(rt; "The supply lost inside a put")?;
    println!(rt;
        "  put: 2024 day 366 with reading 7, in an empty logbook of 2 leaves; next: after 2024 day 365"
    )?;
    println!(rt; "")?;
    println!(rt; "  steps left  put                    the cut keeps  next")?;
    for left in 0..=8 {
        show_left(rt, left)?;
    }
    println!(rt; "")?;
    println!(rt;
        "A list of calls and cuts, days of 2024, with 13 steps after its format and 18 after its first cut"
    )?;
    show_list(rt)
}

// Each choice once.
fn choices() -> [u64; 2 * SIZE] {
    let mut choices = [0; 2 * SIZE];
    for i in 0..SIZE {
        choices[i] = 1;
    }
    choices
}

// Plays acts on a new logbook, with so many steps after its format.
fn tell(acts: &[Act<Stamp>], left: u64, told: &mut [Told]) {
    let mut live = [0; SIZE];
    let mut firm = [0; SIZE];
    let memory = Buffered::new(&mut live, &mut firm, FORMAT.saturating_add(left));
    let _ = play(memory, 2, acts, &choices(), told);
}

// A put that is cut after so many steps, and the question after it.
fn cut_put(from: usize) -> Result<[Act<Stamp>; 3], Refusal> {
    let key = Stamp::new(2024, 366, 0)?;
    let before = Stamp::new(2024, 365, 0)?;
    Ok([
        Act::Put { key, reading: 7 },
        Act::Cut { from, steps: 100 },
        Act::Next { key: before },
    ])
}

fn told_of_put(from: usize, left: u64) -> [Told; 3] {
    let mut told = [Told::Nothing; 3];
    if let Ok(acts) = cut_put(from) {
        tell(&acts, left, &mut told);
    }
    told
}

fn show_left(rt: &impl Print, left: u64) -> io::Result<()> {
    let [put, _, next] = told_of_put(LIVE, left);
    print!(rt; "  {left:>10}  ")?;
    show_told(rt, &put)?;
    print!(rt; "   live           ")?;
    show_told(rt, &next)?;
    println!(rt; "")?;
    let [_, _, next] = told_of_put(FIRM, left);
    print!(rt; "                                     firm           ")?;
    show_told(rt, &next)?;
    println!(rt; "")
}

// Two puts and the cut of the second, a removal, and a change that is cut in its turn.
fn list() -> Result<[Act<Stamp>; 12], Refusal> {
    let first = Stamp::new(2024, 1, 0)?;
    let last = Stamp::new(2024, 366, 0)?;
    Ok([
        Act::Put {
            key: first,
            reading: 1,
        },
        Act::Put {
            key: first,
            reading: 1,
        },
        Act::Put {
            key: last,
            reading: 366,
        },
        Act::Find { key: last },
        Act::Cut {
            from: LIVE,
            steps: 18,
        },
        Act::Find { key: last },
        Act::Pairs,
        Act::Remove { key: first },
        Act::Change {
            key: last,
            reading: 1366,
        },
        Act::Cut {
            from: FIRM,
            steps: 7,
        },
        Act::Find { key: last },
        Act::Find { key: first },
    ])
}

fn show_list(rt: &impl Print) -> io::Result<()> {
    let mut told = [Told::Nothing; 12];
    if let Ok(acts) = list() {
        tell(&acts, 13, &mut told);
        for (i, act) in acts.iter().enumerate() {
            print!(rt; "  ")?;
            show_act(rt, act)?;
            show_told(rt, &told[i])?;
            println!(rt; "")?;
        }
    }
    Ok(())
}

fn show_act(rt: &impl Print, act: &Act<Stamp>) -> io::Result<()> {
    match act {
        Act::Put { key, reading } => print!(rt; "put     day {0:>3}  {reading:>4}  ", key.day()),
        Act::Change { key, reading } => print!(rt; "change  day {0:>3}  {reading:>4}  ", key.day()),
        Act::Remove { key } => print!(rt; "remove  day {0:>3}        ", key.day()),
        Act::Find { key } => print!(rt; "find    day {0:>3}        ", key.day()),
        Act::Next { key } => print!(rt; "next    day {0:>3}        ", key.day()),
        Act::Pairs => print!(rt; "pairs                  "),
        Act::Node { number } => print!(rt; "node  {number:>3}              "),
        Act::Cut { from, .. } if *from == LIVE => print!(rt; "cut that keeps live    "),
        Act::Cut { .. } => print!(rt; "cut that keeps firm    "),
    }
}

fn show_told(rt: &impl Print, told: &Told) -> io::Result<()> {
    match told {
        Told::Nothing => print!(rt; "not played"),
        Told::Steps { steps } => print!(rt; "granted,   {steps:>2} steps"),
        Told::Removed { reading, steps } => print!(rt; "reading {reading:>4}, {steps:>2} steps"),
        Told::Halted { refusal, steps } => print!(rt; "refused {refusal}, {steps:>2} steps"),
        Told::Reading { reading } => print!(rt; "reading {reading}"),
        Told::Next { pair } => {
            let (first, second) = pair.key;
            let reading = pair.reading;
            print!(rt; "{first} {second}, reading {reading}")
        }
        Told::Number { number } => print!(rt; "{number}"),
        Told::Node { record } => print!(rt; "{0} numbers", record.numbers.len()),
        Told::Refused { refusal } => print!(rt; "refused {refusal}"),
        Told::Opened => print!(rt; "opened"),
        Told::NotOpened { fault } => {
            let refusal = fault.refusal;
            print!(rt; "not opened: refused {refusal}")
        }
    }
}
