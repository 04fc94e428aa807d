//! The book in a memory's words: what opening asks of them, which words the book rests on, and the bounds between its leaves.
#![tactic(auto)]

ghost use Rattle.books.specs.Bounds.{Locates, OpeningBounds};
ghost use Rattle.books.specs.Footprint.{Depends};
ghost use Rattle.books.specs.Format.{FormatCut, Formats};
ghost use Rattle.books.specs.Opens.{OpeningIs};
ghost use Rattle.books.specs.Questions.{Ascends, Counts, Finds, NewestDecides, Nexts};

// Opening answers a chain of leaves exactly where the words say, plainly, that it is one; opening and the book rest on the
// footprint alone; opening gives bounds that part the keys, and locating by such bounds finds a key's leaf.
pub fn books_stand()
    ensures opening { OpeningIs }
    ensures footprint { Depends }
    ensures bounds { OpeningBounds }
    ensures locates { Locates }
{}

// The leaf where a key belongs tells what the book tells of it; what is next stands there or in a later leaf; the pairs of a book are
// those of its leaves, and ascend; in a leaf the newest counted element of a key decides.
pub fn questions_stand()
    ensures finds { Finds }
    ensures nexts { Nexts }
    ensures counts { Counts }
    ensures ascends { Ascends }
    ensures newest { NewestDecides }
{}

// A granted format makes an empty book; a cut inside it leaves what a cut before it could leave, no mark, or an empty book.
pub fn format_stands()
    ensures makes { Formats }
    ensures cut { FormatCut }
{}
