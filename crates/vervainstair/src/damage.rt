// A logbook formatted under two layers, its words as they lie in the memory, and what opening answers where they are damaged.
use keys::stamp::Stamp;
use layers::margin::Margin;
use layers::rotation::Rotation;
use leaves::open::Fault;
use makes::buffered::Buffered;
use makes::probe::Probe;
use refusal::Refusal;
use std::io;
use tree::logbook::Logbook;

// 20 lines: one is hidden, and 19 hold a logbook of 2 leaves.
const SIZE: usize = 160;

type Words = [u64; SIZE];

type Pile<'a> = Rotation<Margin<Buffered<'a>>>;

// A word of the logbook made another one.
type Damage = (usize, u64);

// Leaf 1 holds a pair in slot 0, and names itself as the leaf after it.
const LOOP: [Damage; 4] = [(9, 1), (16, 1), (18, 1_036_654), (8, 1)];

fn pile<'a>(live: &'a mut [u64], firm: &'a mut [u64], steps: u64) -> Pile<'a> {
    Rotation::new(Margin::new(Buffered::new(live, firm, steps), 1), 1)
}

// Where a word of the logbook lies at the bottom.
fn place(memory: &Pile<'_>, at: usize) -> Option<usize> {
    let turned = memory.word_below(at)?;
    memory.below().word_below(turned)
}

pub fn show(rt: &impl Print) -> io::Result<()> {
    let mut live = [0; SIZE];
    let mut firm = [0; SIZE];
    show_format(rt, &mut live, &mut firm)?;
    show_opening(rt, &mut live, &mut firm)?;
    show_damages(rt, &live)
}

fn show_format(rt: &impl Print, live: &mut [u64], firm: &mut [u64]) -> io::Result<()> {
    println!(rt; "")?;
    println!(rt; "A logbook of 2 leaves")?;
    println!(rt;
        "  memory: {SIZE} words, buffered, 12 steps; margin of 1 line, rotation by 1 line"
    )?;
    let mut book = Logbook::<Stamp, Pile<'_>>::new(pile(live, firm, 12));
    print!(rt; "  format 2 leaves: ")?;
    let answer = book.format(2);
    show_answer(rt, answer)?;
    let memory = book.release();
    let left = memory.below().below().steps_left();
    println!(rt; "  steps left: {left}")?;
    println!(rt; "")?;
    println!(rt; "  word  what it is        at the bottom   live   firm")?;
    show_word(rt, &memory, 0, "the mark        ")?;
    show_word(rt, &memory, 1, "code of the kind")?;
    show_word(rt, &memory, 2, "first leaf      ")?;
    show_word(rt, &memory, 3, "number of leaves")?;
    show_word(rt, &memory, 8, "leaf 1: next    ")?;
    show_word(rt, &memory, 9, "leaf 1: count   ")?;
    show_word(rt, &memory, 10, "leaf 1: form    ")
}

// One word of the logbook as it lies at the bottom.
fn show_word(rt: &impl Print, memory: &Pile<'_>, at: usize, name: &str) -> io::Result<()> {
    let Some(place) = place(memory, at) else {
        return println!(rt; "  {at:>4}  {name}  nowhere");
    };
    let (live, firm) = memory.below().below().words();
    let live = live.get(place).copied().unwrap_or(0);
    let firm = firm.get(place).copied().unwrap_or(0);
    println!(rt; "  {at:>4}  {name}  {place:>13}  {live:>5}  {firm:>5}")
}

// The same words under a new logbook, which has to find the book again; opening takes no step.
fn show_opening(rt: &impl Print, live: &mut [u64], firm: &mut [u64]) -> io::Result<()> {
    println!(rt; "")?;
    print!(rt; "  a new logbook on these words, no step left; open: ")?;
    let mut book = Logbook::<Stamp, Pile<'_>>::new(pile(live, firm, 0));
    let answer = book.open().map_err(|fault| fault.refusal);
    show_answer(rt, answer)
}

fn show_answer(rt: &impl Print, answer: Result<(), Refusal>) -> io::Result<()> {
    match answer {
        Ok(()) => println!(rt; "granted"),
        Err(refusal) => println!(rt; "refused {refusal}"),
    }
}

// The answer of an opening, with the leaf and the slot that are told.
fn show_fault(rt: &impl Print, answer: Result<(), Fault>) -> io::Result<()> {
    let Err(fault) = answer else {
        return println!(rt; "granted");
    };
    let Fault {
        refusal,
        leaf,
        slot,
    } = fault;
    match refusal {
        Refusal::BadLink => println!(rt; "refused {refusal} {leaf:>5}"),
        Refusal::BadLeaf => println!(rt; "refused {refusal} {leaf:>5} {slot:>9}"),
        _ => println!(rt; "refused {refusal}"),
    }
}

// A damaged copy of the words for each refusal of opening.
fn show_damages(rt: &impl Print, words: &Words) -> io::Result<()> {
    println!(rt; "")?;
    println!(rt; "  damaged copies of these words             open       leaf  slot + 1")?;
    show_damage(rt, words, SIZE, &[], "none")?;
    show_damage(rt, words, SIZE - 8, &[], "the last line is missing")?;
    show_damage(rt, words, SIZE, &[(0, 0)], "word 0 is 0: no mark")?;
    show_damage(rt, words, SIZE, &[(1, 2)], "word 1 is 2: keys of ports")?;
    show_damage(
        rt,
        words,
        SIZE,
        &[(3, 65)],
        "word 3 is 65: more leaves than 64",
    )?;
    show_damage(
        rt,
        words,
        SIZE,
        &[(3, 3)],
        "word 3 is 3: a leaf that has no room",
    )?;
    show_damage(
        rt,
        words,
        SIZE,
        &[(2, 3)],
        "word 2 is 3: no such first leaf",
    )?;
    show_damage(
        rt,
        words,
        SIZE,
        &LOOP,
        "slot 0 holds a pair, and word 8 is 1",
    )?;
    show_damage(
        rt,
        words,
        SIZE,
        &[(9, 17)],
        "word 9 is 17: more slots than 16",
    )?;
    show_damage(
        rt,
        words,
        SIZE,
        &[(9, 1)],
        "word 9 is 1: slot 0 holds nothing",
    )
}

// What opening answers to a copy of the words that ends early or is damaged.
fn show_damage(
    rt: &impl Print,
    words: &Words,
    size: usize,
    damages: &[Damage],
    name: &str,
) -> io::Result<()> {
    let mut live = *words;
    let mut firm = *words;
    let size = size.min(SIZE);
    let mut memory = pile(&mut live[..size], &mut firm[..size], 0);
    for (at, word) in damages {
        if let Some(place) = place(&memory, *at) {
            let _ = memory.below_mut().below_mut().poke(place, *word);
        }
    }
    let mut book = Logbook::<Stamp, Pile<'_>>::new(memory);
    print!(rt; "  {name:<40}  ")?;
    let answer = book.open();
    show_fault(rt, answer)
}
