ghost use Rattle.std.specs.Prelude.{◌≡◌, codes, option_copied, IfOk};
ghost use Rattle.erd_compare.specs.Words.{string, object, member, no_members, view, difference_data, key_data};

use crate::difference::{Difference, How, key_value, part_words};
use erd_meaning::Key;
use serde_json::{Value, json};
use std::alloc::{AllocError, Global};

impl Difference {
    /// Returns the difference as a JSON object. `part` is the part in lower case. `key` is the array of the three texts of the
    /// key, or null if there is no key. `how` is `only left`, `only right`, `other class` or `member`. In the last case,
    /// `member` is the name of the member.
    ///
    /// # Errors
    ///
    /// `AllocError` if out of memory.
    ///
    /// ```
    /// let text = difference.to_value(alloc)?.to_string(alloc)?;
    /// assert_eq!(rt;
    ///     text.as_str(),
    ///     r#"{"how":"member","key":null,"member":"Name","part":"election"}"#
    /// );
    /// ```
    pub fn to_value(&self, alloc: Global) -> Result<Value, AllocError>
        ensures { IfOk result (λ value. view value ≡ difference_data self.now) }
    {
        let part = part_words(self.part);
        let key = key_or_null(alloc, self.key.as_ref())?;
        match &self.how {
            How::OnlyLeft => without_member(alloc, part, key, "only left"),
            How::OnlyRight => without_member(alloc, part, key, "only right"),
            How::OtherClass => without_member(alloc, part, key, "other class"),
            How::Member(name) => {
                let name = name.as_str();
                json!(in alloc; {"how": "member", "key": key, "member": name, "part": part})
            }
        }
    }
}

/// Returns the object of a difference that is not in a member.
fn without_member(alloc: Global, part: &str, key: Value, how: &str) -> Result<Value, AllocError>
    ensures { IfOk result (λ value. view value ≡ object (member (codes "how") (string how.now)
        (member (codes "key") (view key) (member (codes "part") (string part.now) no_members)))) }
{
    json!(in alloc; {"how": how, "key": key, "part": part})
}

/// Returns the key as a JSON array, or null if there is no key.
pub(crate) fn key_or_null(alloc: Global, key: Option<&Key>) -> Result<Value, AllocError>
    ensures { IfOk result (λ value. view value ≡ key_data (option_copied key.entry)) }
{
    match key {
        Some(key) => key_value(alloc, key),
        None => Ok(Value::Null),
    }
}
