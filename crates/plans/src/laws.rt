// The theorems of plans.
ghost use Rattle.plans.specs.Decisions.{NeverSplit, SplitHalves, SplitOfSeventeen};
ghost use Rattle.plans.specs.Deeds.{CallsChange, NothingChanges};
ghost use Rattle.plans.specs.Example.{Example};
ghost use Rattle.plans.specs.Free.{AllCandidates, AlwaysFree, TakesFree};
ghost use Rattle.plans.specs.Laws.{BoundsRise, CommitsChange, PlansHold, RemovesGo};
ghost use Rattle.plans.specs.Reach.{ReachesFew, ReachesInArea};
ghost use Rattle.plans.specs.Room.{RuleSplits};
ghost use Rattle.plans.specs.Sorts.{AppendsWithRoom, BoundsMove, LastIsGreatest};
ghost use Rattle.plans.specs.Told.{DecisionLawful};

// Whatever lawful choice rewrites leaves, a plan refuses exactly what must be refused; else it turns the book into the one with the call
// done, in words that open to the plan's leaves and bounds, with one leaf free: in 5 steps for each element and 2 where they fit, else in
// at most 87.
pub fn plans_stand()
    ensures hold { PlansHold }
    ensures removes { RemovesGo }
    ensures commits { CommitsChange }
    ensures rise { BoundsRise }
{}

// A plan stores only into the word that links the call's leaf, the count and the free slots of this leaf, and free leaves: so into word 2
// and the leaves alone.
pub fn reach_stands()
    ensures few { ReachesFew }
    ensures area { ReachesInArea }
{}

// A call has something to do just where it changes the book.
pub fn deeds_stand()
    ensures change { CallsChange }
    ensures nothing { NothingChanges }
{}

// What the plans of each sort come to.
pub fn sorts_stand()
    ensures appends { AppendsWithRoom }
    ensures bounds { BoundsMove }
    ensures greatest { LastIsGreatest }
{}

// The rule decides lawfully, and splits more than 8 pairs into halves, where the call may.
pub fn decisions_stand()
    ensures lawful { DecisionLawful }
    ensures halves { SplitHalves }
    ensures seventeen { SplitOfSeventeen }
    ensures never { NeverSplit }
    ensures splits { RuleSplits }
{}

// The leaf that is taken is the next one that is free, and there is one while not all are used.
pub fn free_leaves_stand()
    ensures takes { TakesFree }
    ensures always { AlwaysFree }
    ensures all { AllCandidates }
{}

// The worked rewrites: a split, a replacement, a merge, and a split that lacks room; and on plain numbers the rule and the order of free leaves.
pub fn example_stands()
    ensures { Example }
{}
