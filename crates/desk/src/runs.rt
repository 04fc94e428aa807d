// The runs of words that a memory is made over.
ghost use Rattle.std.specs.Prelude.{◌≡◌, IfErr, IfOk, replicate};
ghost use Rattle.desk.specs.Making.{IsMade, IsRepeated, chosen_words};
ghost use Rattle.script.specs.declared.wrong.Wrong.TheVariants.{TooManyWords};

use script::line::{Keeps, Make};
use script::wrong::Wrong;
use std::alloc::{AllocError, Global};

// No memory of a script has more words.
const MOST: u64 = 1_048_576;

#[derive(Drop)]
pub enum Runs {
    Through {
        run: Vec<u64>,
    },
    Buffered {
        live: Vec<u64>,
        firm: Vec<u64>,
        steps: u64,
    },
}

// So many words 0.
fn zeros(alloc: Global, words: u64) -> Result<Vec<u64>, Wrong>
    ensures made { IfOk result (λ run. run.items ≡ replicate words 0) }
    ensures refused { IfErr result (λ wrong. wrong ≡ TooManyWords) }
{
    if words > MOST {
        return Err(Wrong::TooManyWords);
    }
    let run: Result<Vec<u64>, AllocError> = vec![in alloc; 0; words as usize];
    run.map_err(|_| Wrong::TooManyWords)
}

// A choice run: these words, repeated to a length.
fn choice_run(alloc: Global, words: &[u64], length: usize) -> Result<Vec<u64>, AllocError>
    ensures { IfOk result (λ run. IsRepeated words.now length run.items) }
{
    let mut run: Vec<u64> = vec![in alloc; 0; length]?;
    let period = words.len().max(1);
    for i in 0..run.len() {
        run[i] = words.get(i % period).copied().unwrap_or(0);
    }
    Ok(run)
}

// The choice run of a cut, by what it keeps: all firm words, all live ones, or a mix.
pub fn kept_run(
    alloc: Global,
    keeps: Keeps,
    mix: &[u64],
    length: usize,
) -> Result<Vec<u64>, AllocError>
    ensures { IfOk result (λ run. IsRepeated (chosen_words keeps mix.now) length run.items) }
{
    match keeps {
        Keeps::Firm => choice_run(alloc, &[0], length),
        Keeps::Live => choice_run(alloc, &[1], length),
        Keeps::Mix => choice_run(alloc, mix, length),
    }
}

// The runs of a new memory; refused where they are not to be had.
pub fn make_runs(alloc: Global, make: Make) -> Result<Runs, Wrong>
    ensures made { IfOk result (IsMade make) }
    ensures refused { IfErr result (λ wrong. wrong ≡ TooManyWords) }
{
    match make {
        Make::Through { words } => Ok(Runs::Through {
            run: zeros(alloc, words)?,
        }),
        Make::Buffered { words, steps } => Ok(Runs::Buffered {
            live: zeros(alloc, words)?,
            firm: zeros(alloc, words)?,
            steps,
        }),
    }
}
