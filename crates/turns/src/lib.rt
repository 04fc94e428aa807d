//! Turns: changes of the book in a memory by line writes and one commit word. What a turn does whole, refused, and cut.
#![tactic(auto)]

ghost use Rattle.turns.specs.Turns.{CutStep, GrantedStep, TurnLaw};

// A turn is granted whole or refused for want of power, and after a cut its commit decides which book stands; so a settled memory
// that opens does so after every turn and every cut.
pub fn turns_stand()
    ensures law { TurnLaw }
    ensures granted { GrantedStep }
    ensures cut { CutStep }
{}
