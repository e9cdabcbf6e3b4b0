ghost use Rattle.std.specs.Prelude.{◌≡◌, [], ◌∷◌};
ghost use Rattle.object_tables.specs.Keys.{no_key, after, hash_after};

use std::hash::{BuildHasher, DefaultHasher, Hasher};

/// What names are hashed after: nothing, or all that a file says of them. A stranger who makes names of one hash has to make
/// them for the very file that they stand in, and each name that is changed changes the key.
#[derive(Clone, Copy)]
pub struct HashKey {
    start: DefaultHasher,
}

impl HashKey {
    /// The key of a model whose identifiers no file spells.
    pub fn none() -> HashKey
        ensures { result ≡ no_key }
    {
        HashKey {
            start: DefaultHasher::new(),
        }
    }

    /// The key that these bytes besides change. In time linear in their number.
    pub fn after(self, bytes: &[u8]) -> HashKey
        ensures { result ≡ after self bytes.now }
    {
        let mut start = self.start;
        start.write(bytes);
        HashKey { start }
    }

    /// The key that this text besides changes, with a byte behind it that no text has: texts that are cut elsewhere make
    /// another key. In time linear in its length.
    pub fn after_text(self, text: &str) -> HashKey
        ensures { result ≡ after (after self text.now) (255 ∷ []) }
    {
        self.after(text.as_bytes()).after(&[0xff])
    }

    /// The hash of a text. In time linear in its length.
    pub(crate) fn hash_of(self, text: &str) -> u64
        ensures { result ≡ hash_after self text.now }
    {
        let mut hasher = self.start;
        hasher.write(text.as_bytes());
        hasher.finish()
    }
}

impl BuildHasher for HashKey {
    type Hasher = DefaultHasher;

    ghost build_hasher = { λ k. k.start };

    fn build_hasher(&self) -> DefaultHasher {
        self.start
    }
}
