ghost use Rattle.std.specs.Prelude.{◌≡◌, ◌≤◌, ◌<◌, ◌++◌, ◌∷◌, [], ◌-◌, length, replicate};
ghost use Rattle.erd_index.specs.Salts.{fed, salt_start, start_of, text_writes, unfed};

use crate::salt::Salt;
use std::hash::{DefaultHasher, Hash, Hasher};

/// The two hashers that compute the words of a salt. Both are fed the same, after a different first word.
#[derive(Debug, Clone, Copy, Drop)]
pub struct SaltHasher {
    first: DefaultHasher,
    second: DefaultHasher,
}

impl SaltHasher {
    /// Returns hashers that were fed nothing but their first words.
    ///
    /// ```
    /// let mut hasher = SaltHasher::new();
    /// ```
    pub fn new() -> SaltHasher
        ensures { result ≡ unfed }
    {
        let mut first = DefaultHasher::new();
        let mut second = DefaultHasher::new();
        first.write_u64(1);
        second.write_u64(2);
        SaltHasher { first, second }
    }

    /// Feeds what a value writes when it is hashed.
    ///
    /// ```
    /// hasher.feed(&20u64);
    /// ```
    pub fn feed<T: Hash>(&mut self, value: &T)
        ensures { self.new ≡ fed self.old (T.hash_input value.now) }
    {
        value.hash(&mut self.first);
        value.hash(&mut self.second);
    }

    /// Feeds a text, so that no other text is fed alike, whatever follows it: a word of what stands for its length and of the
    /// bytes after its whole words, its length if that is long, and the whole words.
    ///
    /// ```
    /// hasher.feed_text("gp1");
    /// ```
    pub fn feed_text(&mut self, text: &str)
        ensures { self.new ≡ fed self.old (text_writes text.now) }
    {
        let bytes = text.as_bytes();
        let whole = bytes.len() - bytes.len() % 8;
        let short = bytes.len().min(254) as u8;
        self.write(&first_word(&bytes[whole..], short));
        if bytes.len() >= 254 {
            self.feed(&bytes.len());
        }
        if bytes.len() >= 8 {
            self.write(&bytes[..whole]);
        }
    }

    fn write(&mut self, bytes: &[u8])
        ensures { self.new ≡ fed self.old (bytes.now ∷ []) }
    {
        self.first.write(bytes);
        self.second.write(bytes);
    }

    /// Returns the salt of what was fed.
    ///
    /// ```
    /// assert!(rt; hasher.salt().number(&20) != SaltHasher::new().salt().number(&20));
    /// ```
    pub fn salt(self) -> Salt
        ensures { start_of result ≡ salt_start self }
    {
        Salt::of(self.first.finish(), self.second.finish())
    }
}

/// Returns the bytes, zeros, and what stands for a length.
fn first_word(bytes: &[u8], short: u8) -> [u8; 8]
    requires { length bytes.now ≤ 7 }
    ensures { result ≡ bytes.now ++ (replicate (7 - length bytes.now) 0 ++ short ∷ []) }
{
    let mut word = [0, 0, 0, 0, 0, 0, 0, short];
    let (front, _zeros) = word.split_at_mut(bytes.len());
    front.copy_from_slice(bytes);
    word
}
