//! Examples of `erd_index`.
use erd_index::{Salt, SaltHasher, SaltedSet, Sought};
use std::hash::{Hash, Hasher};

// A number that is looked up in a set of numbers.
#[derive(Clone, Copy, Drop)]
struct Number(u64);

impl Sought<u64> for Number {
    ghost use Rattle.std.proofs.Common.{◌==◌, ap};
    ghost use Rattle.std.proofs.lemmas.Bool.Decides.{Decides-eqb};

    ghost finds = { λ q k. q.0 == k };

    ghost respects_eq = { λ q x y found. ap (λ n. n == y) ((Decides-eqb q.0 x).0 found) };

    fn number(&self, salt: &Salt) -> u64 {
        salt.number(&self.0)
    }

    fn finds(&self, key: &u64) -> bool {
        self.0 == *key
    }
}

#[test]
fn salts(rt: HostRuntime) {
    let salt = Salt::of(1, 2);
    let joined = salt.joined(&Salt::of(3, 4));
    assert!(rt;
        joined.number(&20) != salt.number(&20) && salt.text_number("gp1") != salt.text_number("gp2")
    );
    let mut hasher = salt.hasher();
    20.hash(&mut hasher);
    assert!(rt; hasher.finish() == salt.number(&20));
}

#[test]
fn salts_of_what_is_fed(rt: HostRuntime) {
    let mut hasher = SaltHasher::new();
    hasher.feed(&20u64);
    hasher.feed_text("gp1");
    assert!(rt; hasher.salt().number(&20) != SaltHasher::new().salt().number(&20));
}

// The number of 20 under the salt of one text.
fn number_under(text: &str) -> u64 {
    let mut hasher = SaltHasher::new();
    hasher.feed_text(text);
    hasher.salt().number(&20u64)
}

// SipHash-1-3 as another program has it: of the words of a salt and what is hashed under it, and of the words of a text.
#[test]
fn numbers_of_siphash(rt: HostRuntime) {
    let salt = Salt::of(1, 2);
    assert!(rt; salt.number(&20u64) == 15102672038844615267);
    assert!(rt; salt.text_number("gp1") == 12029688055557344295);
    assert!(rt; number_under("gp1") == 11426097856501944888);
    assert!(rt; number_under("reporting-unit-12345") == 16890560474747541812);
}

#[test]
fn sought_keys(rt: HostRuntime) {
    let (salt, sought) = (Salt::of(1, 2), Number(20));
    assert!(rt; sought.number(&salt) == salt.number(&20u64) && sought.finds(&20));
}

// Whether each number is new once, stands at its position, and is found there.
fn has_numbers(numbers: &mut SaltedSet<u64>) -> bool {
    numbers.insert(20) == Ok(true)
        && numbers.insert(20) == Ok(false)
        && numbers.insert_full(30) == Ok((1, true))
        && numbers.insert_full(30) == Ok((1, false))
        && numbers.get_index(1) == Some(&30)
        && numbers.position(Number(30)) == Some(1)
}

#[test]
fn salted_sets(rt: HostRuntime) {
    let alloc = rt.alloc();
    let mut numbers = SaltedSet::new(alloc, Salt::of(1, 2));
    assert!(rt; has_numbers(&mut numbers));
}
