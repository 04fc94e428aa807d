// The one search of every kind of key.
ghost use Rattle.std.specs.Prelude.{◌≡◌, ◌<◌, length};
ghost use Rattle.keys.specs.InWords.{in_words};
ghost use Rattle.index.specs.Nodes.{bounds};
ghost use Rattle.index.specs.Search.{search as place_of};

use super::Entry;
use keys::Key;

// The first entry whose bound is not before the key, otherwise the last.
#[inline(always)]
pub(crate) fn search<K: Key>(entries: &[Entry], key: &K) -> usize
    requires { 0 < length entries.now }
    ensures place { result ≡ place_of (in_words K.Key.kind) (K.Key.kind.form key.now) (bounds entries.now) }
    ensures within { result < length entries.now }
{
    let last = entries.len() - 1;
    let front = &entries[..last];
    front
        .iter()
        .position(|e| !K::stands_before(e.bound, key))
        .unwrap_or(last)
}
