//! Worked rows of the rules: proved as one theorem, and tried as short tests of the crates below.
#![tactic(auto)]

ghost use Rattle.rows.specs.Rows.{Rows};

#[cfg(test)]
mod tests;

// The worked rows of the rules on keys, calls, layout and layers.
pub fn rows_stand()
    ensures { Rows }
{}
