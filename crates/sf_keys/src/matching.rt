//! Which letters are of a key.
ghost use Rattle.std.specs.Prelude.{◌↔◌, ◌≡◌, IsTrue};

use sf_group::Letter;
use sf_keys_places::OfKey;

// Whether a letter is of the key.
pub(crate) fn is_of<V: OfKey>(letter: &Letter<V>, key: &[u8]) -> bool
    ensures { IsTrue result ↔ V.key_of letter.now.value ≡ key.now }
{
    letter.value().key() == key
}
