// The theorems of the index.
ghost use Rattle.index.specs.Keeping.{SplitAscends, MergeAscends, ReplaceKeeps, ReplaceOneNode, SplitOneNode};
ghost use Rattle.index.specs.Places.{Placed, Numbered, EveryNumber};
ghost use Rattle.index.specs.Search.{FindsFirst, FindsOnly};

// A search comes to the first bound that is not before the key, otherwise to the last, and to no other.
pub fn search_stands()
    ensures first { FindsFirst }
    ensures only { FindsOnly }
{}

// Every leaf has one place and one number.
pub fn places_stand()
    ensures place { Placed }
    ensures number { Numbered }
    ensures every { EveryNumber }
{}

// Bounds that ascend still ascend after a change.
pub fn bounds_stand()
    ensures split { SplitAscends }
    ensures merge { MergeAscends }
    ensures replace { ReplaceKeeps }
{}

// A replacement, and a split in a node of fewer than five leaves, change one node.
pub fn nodes_stand()
    ensures replace { ReplaceOneNode }
    ensures split { SplitOneNode }
{}
