// A season of corrections, one a day, put, changed and removed on three memories; and the steps of each call in a logbook of few leaves.
use layers::margin::Margin;
use layers::rotation::Rotation;
use makes::buffered::Buffered;
use makes::through::Through;
use play::{Ending, Season, play};
use std::io;
use tally::Tally;

mod few;
mod play;
mod tally;

// A logbook of 64 leaves has 4616 words; a margin of one line hides 8 more.
const SIZE: usize = 4624;

const STEPS: u64 = 100_000;

pub fn show(rt: &impl Print) -> io::Result<()> {
    show_season(rt)?;
    few::show(rt)
}

fn show_season(rt: &impl Print) -> io::Result<()> {
    let mut run = [0; SIZE];
    let (through, _) = play(Through::new(&mut run));
    let mut live = [0; SIZE];
    let mut firm = [0; SIZE];
    let (buffered, memory) = play(Buffered::new(&mut live, &mut firm, STEPS));
    let buffered_left = memory.steps_left();
    let mut live = [0; SIZE];
    let mut firm = [0; SIZE];
    let bottom = Buffered::new(&mut live, &mut firm, STEPS);
    let (layered, memory) = play(Rotation::new(Margin::new(bottom, 1), 1));
    let layered_left = memory.below().below().steps_left();
    show_head(rt)?;
    show_calls(rt, "through ", &through)?;
    show_calls(rt, "buffered", &buffered)?;
    show_calls(rt, "layered ", &layered)?;
    println!(rt; "")?;
    println!(rt;
        "  memory    pairs  by next  opened anew  last correction    reading  steps left"
    )?;
    show_ending(rt, "through ", &through.ending)?;
    println!(rt; "     endless")?;
    show_ending(rt, "buffered", &buffered.ending)?;
    println!(rt; "  {buffered_left:>10}")?;
    show_ending(rt, "layered ", &layered.ending)?;
    println!(rt; "  {layered_left:>10}")
}

fn show_head(rt: &impl Print) -> io::Result<()> {
    println!(rt; "")?;
    println!(rt; "A season of corrections")?;
    println!(rt; "  put: one a day from 2023 day 300 to 2024 day 366; change: those of 2024")?;
    println!(rt; "  remove: those of 2023, and of 2024 all but every sixth day")?;
    println!(rt;
        "  memories of {SIZE} words: through, with endless steps; buffered, with {STEPS}; and layered,"
    )?;
    println!(rt;
        "  which is such a buffered one under a margin of 1 line and a rotation by 1 line"
    )?;
    println!(rt; "")?;
    println!(rt;
        "  memory    call    calls  granted  steps  appends  splits  merges  replacements  most steps  leaves after"
    )
}

fn show_calls(rt: &impl Print, name: &str, season: &Season) -> io::Result<()> {
    show_tally(rt, name, "put   ", &season.puts)?;
    show_tally(rt, "        ", "change", &season.changes)?;
    show_tally(rt, "        ", "remove", &season.removes)
}

fn show_tally(rt: &impl Print, name: &str, call: &str, tally: &Tally) -> io::Result<()> {
    let Tally {
        calls,
        granted,
        steps,
        most,
        leaves,
        ..
    } = *tally;
    let (appends, splits, merges, replaced) = (
        tally.appends,
        tally.splits,
        tally.merges,
        tally.replaced,
    );
    print!(rt; "  {name}  {call}  {calls:>5}  {granted:>7}  {steps:>5}  {appends:>7}  ")?;
    println!(rt; "{splits:>6}  {merges:>6}  {replaced:>12}  {most:>10}  {leaves:>12}")
}

fn show_ending(rt: &impl Print, name: &str, ending: &Ending) -> io::Result<()> {
    let Ending {
        pairs,
        walked,
        anew,
        year,
        day,
        reading,
    } = *ending;
    print!(rt; "  {name}  {pairs:>5}  {walked:>7}  {anew:>11}  {year} day {day}       {reading:>7}")
}
