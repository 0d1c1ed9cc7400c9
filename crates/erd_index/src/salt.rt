ghost use Rattle.std.specs.Prelude.{◌≡◌, ◌++◌, fold};
ghost use Rattle.std.specs.Hash as fed;
ghost use Rattle.std.specs.Hash.DefaultHasher.{initial, write};
ghost use Rattle.erd_index.specs.Salts.{joined_start, salted_number, start_of, text_number};

use std::hash::{DefaultHasher, Hash, Hasher};

/// What an index hashes before each key: std's default hasher after two words. Where these come from the texts that are the
/// keys, nobody can choose texts whose numbers crowd the index before the words are known, and these change with each text.
#[derive(Debug, Clone, Copy, Drop)]
pub struct Salt {
    start: DefaultHasher,
}

impl Salt {
    /// Returns the salt of two words.
    ///
    /// ```
    /// let salt = Salt::of(1, 2);
    /// ```
    pub fn of(first: u64, second: u64) -> Salt
        ensures { start_of result ≡ fold write initial (fed.u64 first ++ fed.u64 second) }
    {
        let mut start = DefaultHasher::new();
        start.write_u64(first);
        start.write_u64(second);
        Salt { start }
    }

    /// Returns a salt for an index that has keys of two sources, from the salts of both.
    ///
    /// ```
    /// let joined = salt.joined(&Salt::of(3, 4));
    /// ```
    pub fn joined(&self, other: &Salt) -> Salt
        ensures { start_of result ≡ joined_start (start_of self.now) (start_of other.now) }
    {
        let mut start = self.start;
        let mut others = other.start;
        start.write_u64(others.finish());
        others.write_u64(0);
        start.write_u64(others.finish());
        Salt { start }
    }

    /// Returns the hasher that computes numbers under the salt from what it is given next.
    ///
    /// ```
    /// let mut hasher = salt.hasher();
    /// 20.hash(&mut hasher);
    /// assert!(rt; hasher.finish() == salt.number(&20));
    /// ```
    pub fn hasher(&self) -> DefaultHasher
        ensures { result ≡ start_of self.now }
    {
        self.start
    }

    /// Returns the number of a key.
    ///
    /// ```
    /// assert!(rt; joined.number(&20) != salt.number(&20));
    /// ```
    pub fn number<K: Hash>(&self, key: &K) -> u64
        ensures { result ≡ salted_number self.now (K.hash_input key.now) }
    {
        let mut hasher = self.start;
        key.hash(&mut hasher);
        hasher.finish()
    }

    /// Returns the number of a text that is a key by itself.
    ///
    /// ```
    /// assert!(rt; salt.text_number("gp1") != salt.text_number("gp2"));
    /// ```
    pub fn text_number(&self, text: &str) -> u64
        ensures { result ≡ text_number self.now text.now }
    {
        let mut hasher = self.start;
        hasher.write(text.as_bytes());
        hasher.finish()
    }
}
