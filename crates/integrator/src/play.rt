// A list of calls and cuts, with a kind of key and over a make of memory that the logbook does not know.
ghost use Rattle.std.specs.Prelude.{◌≡◌, Err, MatchResult};
ghost use Rattle.integrator.specs.Lawful.{PlayedLawfully, format_answer};

use own_key::gps::GpsTime;
use own_memory::shadowed::Shadowed;
use refusal::Refusal;
use session::act::{Act, Told};
use session::play::play;

// A logbook of two leaves has so many words.
pub const WORDS: usize = 152;

// Plays a list on a new memory of so many words, and tells the answers: the law of cuts holds of it. Else the refusal of the format.
pub fn play_gps<const A: usize>(
    steps: u64,
    leaves: usize,
    acts: &[Act<GpsTime>; A],
    choices: &[u64],
) -> Result<[Told; A], Refusal>
    ensures { MatchResult result (λ told. PlayedLawfully steps leaves choices.now acts.now told) (λ refusal. format_answer steps leaves ≡ Err refusal) }
{
    let memory = Shadowed::<WORDS>::new(steps);
    let mut told = [Told::Nothing; A];
    let (_, formatted) = play(memory, leaves, acts, choices, &mut told);
    match formatted {
        Ok(()) => Ok(told),
        Err(refusal) => Err(refusal),
    }
}
