// A logbook over a memory under layers, as a script's settings make it anew.
ghost use Rattle.std.specs.Prelude.{◌≡◌, []};
ghost use Rattle.fixed_vec.specs.Items.{items};
ghost use Rattle.desk.specs.Books.{IsNew, kind_of, pile_of};
ghost use Rattle.desk.specs.Desks.{Sets};
ghost use Rattle.desk.specs.Piles.{pile_words, under};

use super::answer::{Told, Trouble};
use super::book::Book;
use super::pile::{piled, unpile};
use fixed_vec::FixedVec;
use layers::chosen::Sort;
use makes::probe::Probe;
use script::line::{Kind, Setting};
use script::wrong::Wrong;

// The logbook of a memory, and the layers that it lies on.
#[derive(Drop)]
pub struct Desk<B> {
    pub book: Book<B>,
    pub layers: FixedVec<Sort, 3>,
}

impl<B: Probe> Desk<B> {
    // A blank logbook over a make, under no layer.
    pub fn new(bottom: B, kind: Option<Kind>) -> Self
        ensures layers { items result.layers ≡ [] }
        ensures pile { pile_words B.Memory.meaning (pile_of result.book) ≡ under [] (B.Memory.meaning bottom) }
        ensures kind { kind_of result.book ≡ kind }
        ensures blank { IsNew result.book }
    {
        let layers = FixedVec::new(Sort::Hides(0));
        let book = Book::new(piled(bottom, layers.as_slice()), kind);
        Desk { book, layers }
    }

    // A new blank logbook over the same make, under these layers.
    fn over(book: Book<B>, layers: FixedVec<Sort, 3>, kind: Option<Kind>) -> Self
        ensures layers { result.layers ≡ layers }
        ensures pile { pile_words B.Memory.meaning (pile_of result.book) ≡ under (items layers) (B.Memory.meaning (pile_of book).below.below.below) }
        ensures kind { kind_of result.book ≡ kind }
        ensures blank { IsNew result.book }
    {
        let words = unpile(book.release());
        let book = Book::new(piled(words, layers.as_slice()), kind);
        Desk { book, layers }
    }

    // A new blank logbook: over one more layer, for another kind of key, or only so.
    pub fn set(self, setting: Setting, kind: &mut Option<Kind>) -> (Self, Result<Told, Trouble>)
        ensures { Sets B.Memory.meaning self result.0 kind.old kind.new result.1 setting }
    {
        let Desk { book, mut layers } = self;
        match (setting, *kind) {
            (Setting::Layer(sort), _) => match layers.push(sort) {
                Ok(()) => (Desk::over(book, layers, *kind), Ok(Told::Nothing)),
                Err(_) => (Desk { book, layers }, Err(Wrong::FourthLayer.into())),
            },
            (Setting::Kind(named), _) => {
                *kind = Some(named);
                (Desk::over(book, layers, *kind), Ok(Told::Nothing))
            }
            (Setting::Anew, None) => (Desk { book, layers }, Err(Wrong::NoKind.into())),
            (Setting::Anew, named) => (Desk::over(book, layers, named), Ok(Told::Nothing)),
        }
    }
}
