// The mixes that a cut may leave: each unsettled word stands old, which is its firm content, or new, which is its live one.
ghost use Rattle.std.specs.Prelude.{◌≡◌, ◌^◌, cond, nat_lt, Some, None, IfOk, IfSome};
ghost use Rattle.opened.specs.Mixes.{EveryMix, mix_of, next_digit, unsettled, unsettled_at};

use std::alloc::{AllocError, Global};

fn is_unsettled(live: &[u64], firm: &[u64], at: usize) -> bool
    ensures { result ≡ unsettled_at live.now firm.now at }
{
    at < live.len() && at < firm.len() && live[at] != firm[at]
}

// How many words are unsettled.
fn count_unsettled(live: &[u64], firm: &[u64]) -> usize
    ensures { result ≡ unsettled live.now firm.now }
{
    let mut count = 0;
    for i in 0..live.len() {
        if is_unsettled(live, firm, i) {
            count += 1;
        }
    }
    count
}

// How many mixes there are, where no more than one line's words are unsettled.
pub fn mix_count(live: &[u64], firm: &[u64]) -> Option<u64>
    ensures value { result ≡ cond (nat_lt 8 (unsettled live.now firm.now)) None (Some (2 ^ unsettled live.now firm.now)) }
    ensures all { IfSome result (EveryMix live.now firm.now) }
{
    let unsettled = count_unsettled(live, firm);
    if unsettled > 8 {
        return None;
    }
    Some(1 << unsettled)
}

// The choice of a word, and the digits that are left.
fn choice_of(is_unsettled: bool, digits: u64) -> (u64, u64)
    ensures { result ≡ next_digit is_unsettled digits }
{
    if is_unsettled {
        (digits % 2, digits / 2)
    } else {
        (0, digits)
    }
}

// The choice run of a mix: the unsettled words take the digits of its number to base 2, the word of the lowest index the last digit.
pub fn mix_run(alloc: Global, live: &[u64], firm: &[u64], mix: u64) -> Result<Vec<u64>, AllocError>
    ensures { IfOk result (λ run. run.items ≡ mix_of mix live.now firm.now) }
{
    let mut run = Vec::new(alloc);
    let mut digits = mix;
    for i in 0..live.len() {
        let (choice, left) = choice_of(is_unsettled(live, firm, i), digits);
        run.push(choice)?;
        digits = left;
    }
    Ok(run)
}
