// A cut of the supply under the logbook that a script calls.
ghost use Rattle.std.specs.Prelude.{◌≡◌};
ghost use Rattle.keys.specs.InWords.{in_words};
ghost use Rattle.memory.specs.Meaning.{after_settle, settle_answer};
ghost use Rattle.tree.specs.Cutting.{cut_answer, cut_shape};
ghost use Rattle.tree.specs.Shape.{shape_of};
ghost use Rattle.tree.specs.Sound.{Sound};
ghost use Rattle.desk.specs.Books.{IsSound, kind_of, pile_of};
ghost use Rattle.desk.specs.Cuts.{BookCuts, BookOpens, BookSettles, cut_told};

use super::answer::{Told, Trouble};
use super::book::Book;
use keys::Key;
use memory::Settle;
use script::wrong::Wrong;
use tree::logbook::Logbook;

// What the opening after the cut answers.
fn cut<K: Key, M: Settle>(
    book: &mut Logbook<K, M>,
    choice: &[u64],
    steps: u64,
) -> Result<Told, Trouble>
    ensures answer { result ≡ cut_told (cut_answer (in_words K.Key.kind) (settle_answer (M.Memory.meaning book.old.memory) choice.now) (after_settle (M.Memory.meaning book.old.memory) choice.now steps).live) }
    ensures words { M.Memory.meaning book.new.memory ≡ after_settle (M.Memory.meaning book.old.memory) choice.now steps }
    ensures state { shape_of book.new.state ≡ cut_shape (in_words K.Key.kind) (settle_answer (M.Memory.meaning book.old.memory) choice.now) (after_settle (M.Memory.meaning book.old.memory) choice.now steps).live (shape_of book.old.state) }
    ensures sound { Sound (in_words K.Key.kind) (M.Memory.meaning book.old.memory).live book.old.state → Sound (in_words K.Key.kind) (M.Memory.meaning book.new.memory).live book.new.state }
{
    book.cut(choice, steps)??;
    Ok(Told::Nothing)
}

impl<B: Settle> Book<B> {
    // A cut that settles the words by these choices, with new steps; answered as the opening after it is.
    pub fn cut(&mut self, choice: &[u64], steps: u64) -> Result<Told, Trouble>
        ensures answer { BookCuts B.Memory.meaning choice.now steps self.old result }
        ensures words { BookSettles B.Memory.meaning choice.now steps self.old self.new }
        ensures state { BookOpens B.Memory.meaning choice.now steps self.old self.new }
        ensures kind { kind_of self.new ≡ kind_of self.old }
        ensures sound { IsSound B.Memory.meaning self.old → IsSound B.Memory.meaning self.new }
    {
        match self {
            Book::Unkind(_) => Err(Wrong::NoKind.into()),
            Book::Stamps(book) => cut(book, choice, steps),
            Book::Ports(book) => cut(book, choice, steps),
        }
    }
}
