// One correction of 31 December of a leap year: from its date into two words, into a memory, through a power cut, and back.
use keys::Key;
use keys::stamp::Stamp;
use layers::margin::Margin;
use layers::rotation::Rotation;
use leaves::leaf::Element;
use makes::buffered::Buffered;
use memory::{Memory, cut};
use refusal::Refusal;
use std::io;

const READING: u64 = 250;

// A buffered memory under a margin of one line and a rotation by one line.
fn pile<'a>(
    live: &'a mut [u64],
    firm: &'a mut [u64],
    steps: u64,
) -> Rotation<Margin<Buffered<'a>>> {
    Rotation::new(Margin::new(Buffered::new(live, firm, steps), 1), 1)
}

pub fn show(rt: &impl Print) -> io::Result<()> {
    println!(rt; "")?;
    println!(rt; "One correction, from its date into the memory and back")?;
    match Stamp::new(2024, 366, 0) {
        Ok(stamp) => show_stamp(rt, &stamp),
        Err(refusal) => println!(rt; "  refused {refusal}"),
    }
}

fn show_stamp(rt: &impl Print, stamp: &Stamp) -> io::Result<()> {
    let (first, second) = stamp.pack();
    println!(rt; "  31 December 2024, 00:00:00.000 is day 366, millisecond 0")?;
    println!(rt; "  its key is the words {first} and {second}; the reading is {READING}")?;
    let element = [1, first, second, READING];
    show_writing(rt, &element)?;
    show_cuts(rt, &element)
}

// The element's words stored and their line flushed, with the steps left after each call.
fn show_writing(rt: &impl Print, element: &[u64]) -> io::Result<()> {
    let mut live = [0; 32];
    let mut firm = [0; 32];
    let mut memory = pile(&mut live, &mut firm, 10);
    let size = memory.size();
    println!(rt;
        "  memory: 32 words, buffered; margin of 1 line, rotation by 1 line; {size} words"
    )?;
    show_line(rt, &memory)?;
    println!(rt; "")?;
    println!(rt; "  call                     answer      steps left")?;
    for (at, word) in element.iter().enumerate() {
        let answer = memory.store(at, *word);
        let left = memory.below().below().steps_left();
        print!(rt; "  store word {at} := {word:<7}  ")?;
        show_answer(rt, answer, left)?;
    }
    let answer = memory.flush(0);
    let left = memory.below().below().steps_left();
    print!(rt; "  flush line 0             ")?;
    show_answer(rt, answer, left)
}

// Where line 0 lies below each layer.
fn show_line(rt: &impl Print, memory: &Rotation<Margin<Buffered<'_>>>) -> io::Result<()> {
    let Some(turned) = memory.line_below(0) else {
        return println!(rt; "  the memory has no line 0");
    };
    let Some(bottom) = memory.below().line_below(turned) else {
        return println!(rt; "  line 0 is line {turned} below the rotation");
    };
    println!(rt; "  line 0 is line {turned} below the rotation and line {bottom} below the margin")
}

fn show_answer(rt: &impl Print, answer: Result<(), Refusal>, left: u64) -> io::Result<()> {
    match answer {
        Ok(()) => println!(rt; "granted     {left}"),
        Err(refusal) => println!(rt; "refused {refusal:<3} {left}"),
    }
}

// A power cut before the flush and after it, under several choices of the four words that are kept live.
fn show_cuts(rt: &impl Print, element: &[u64]) -> io::Result<()> {
    println!(rt; "")?;
    println!(rt; "  power cut after 4 stores, before the flush")?;
    println!(rt; "  live words kept     words after          read back")?;
    show_cut(rt, element, 4, "none            ", [0, 0, 0, 0])?;
    show_cut(rt, element, 4, "sign and reading", [1, 0, 0, 1])?;
    show_cut(rt, element, 4, "all but the sign", [0, 1, 1, 1])?;
    show_cut(rt, element, 4, "all             ", [1, 1, 1, 1])?;
    println!(rt; "")?;
    println!(rt; "  power cut after 4 stores and the flush")?;
    println!(rt; "  live words kept     words after          read back")?;
    show_cut(rt, element, 5, "none            ", [0, 0, 0, 0])?;
    show_cut(rt, element, 5, "all             ", [1, 1, 1, 1])
}

// One such cut: as many steps as there are, then the choice, then what is read back.
fn show_cut(
    rt: &impl Print,
    element: &[u64],
    steps: u64,
    kept: &str,
    choice: [u64; 4],
) -> io::Result<()> {
    let mut live = [0; 32];
    let mut firm = [0; 32];
    let mut memory = pile(&mut live, &mut firm, steps);
    for (at, word) in element.iter().enumerate() {
        let _ = memory.store(at, *word);
    }
    let _ = memory.flush(0);
    let chosen = at_the_bottom(&memory, choice);
    let element = cut(&mut memory, &chosen, 0).and_then(|()| read_element(&mut memory));
    show_read_back(rt, kept, element)
}

// The choice for words 0 to 3, as a choice run over the words of the buffered memory.
fn at_the_bottom(memory: &Rotation<Margin<Buffered<'_>>>, choice: [u64; 4]) -> [u64; 32] {
    let mut run = [0; 32];
    for (at, keep) in choice.iter().enumerate() {
        let below = memory.word_below(at);
        let bottom = below.and_then(|turned| memory.below().word_below(turned));
        if let Some(place) = bottom.and_then(|bottom| run.get_mut(bottom)) {
            *place = *keep;
        }
    }
    run
}

fn read_element<M: Memory>(memory: &mut M) -> Result<Element, Refusal> {
    let sign = memory.read(0)?;
    let key = (memory.read(1)?, memory.read(2)?);
    let reading = memory.read(3)?;
    Ok(Element { sign, key, reading })
}

fn show_read_back(
    rt: &impl Print,
    kept: &str,
    element: Result<Element, Refusal>,
) -> io::Result<()> {
    match element {
        Ok(element) => {
            show_words(rt, kept, element)?;
            show_correction(rt, element)
        }
        Err(refusal) => println!(rt; "  {kept}    refused {refusal}"),
    }
}

fn show_words(rt: &impl Print, kept: &str, element: Element) -> io::Result<()> {
    let (sign, reading) = (element.sign, element.reading);
    let (first, second) = element.key;
    print!(rt; "  {kept}    {sign} {first} {second:>7} {reading:>3}      ")
}

fn show_correction(rt: &impl Print, element: Element) -> io::Result<()> {
    if element.sign != 1 {
        return println!(rt; "nothing: no sign");
    }
    match <Stamp as Key>::unpack(element.key) {
        Ok(stamp) => {
            let (year, day, ms) = (stamp.year(), stamp.day(), stamp.millisecond());
            let reading = element.reading;
            println!(rt; "{year} day {day} millisecond {ms}: {reading}")
        }
        Err(refusal) => println!(rt; "refused {refusal}: no key"),
    }
}
