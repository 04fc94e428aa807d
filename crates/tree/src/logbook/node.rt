// Node.
ghost use Rattle.std.specs.Prelude.{◌≡◌, if◌then◌else◌, Ok, Err, nat_lt};
ghost use Rattle.index.specs.Showing.{told};
ghost use Rattle.refusal.specs.declared.Refusal.TheVariants.{Outside};
ghost use Rattle.tree.specs.Telling.{asked, node_after};

use super::{Logbook, State};
use index::record::NodeRecord;
use keys::Key;
use memory::Memory;
use refusal::Refusal;

impl<K: Key, M: Memory> Logbook<K, M> {
    // Fills the caller's record with node i of the index; refused above 90.
    pub fn node(&self, i: usize, out: &mut NodeRecord) -> Result<(), Refusal>
        ensures answer { result ≡ asked self.now.state (if nat_lt 90 i then Err Outside else Ok tt) }
        ensures filled { told out.new ≡ node_after self.now.state i (told out.old) }
    {
        self.index()?.node(i, out)
    }
}
