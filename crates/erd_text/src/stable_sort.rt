ghost use Rattle.std.specs.Prelude.{IfOk};
ghost use Rattle.erd_text.specs.StableOrder.{IsStablySorted};

use crate::set_order::SetOrder;
use std::alloc::{AllocError, Global};

/// Returns the pairs sorted by key. The sort is stable: pairs with equal keys keep their order.
///
/// # Errors
///
/// `AllocError` if out of memory. The pairs are then dropped.
///
/// ```
/// let sorted = in_order(alloc, vec![in alloc; (other, 2), (one, 1)]?)?;
/// assert_eq!(rt; sorted.first().map(|pair| pair.1), Some(1));
/// ```
pub fn in_order<K: SetOrder + Drop, T: Drop>(
    alloc: Global,
    pairs: Vec<(K, T)>,
) -> Result<Vec<(K, T)>, AllocError>
    ensures { IfOk result (λ sorted. IsStablySorted K.cmp pairs.items sorted.items) }
{
    let mut sorted = pairs;
    sorted
        .as_mut_slice()
        .sort_by(alloc, |left, right| left.0.order(&right.0))?;
    Ok(sorted)
}
