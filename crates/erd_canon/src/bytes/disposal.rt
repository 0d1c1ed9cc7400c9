/// What becomes of the trees and the reports of a run once it no longer needs them: the caller of the run decides.
///
/// A program that ends after one run can leave them to the system, which takes all memory of a process back when it ends. To
/// free a large tree value by value takes longer.
///
/// ```
/// struct LeaveToExit;
///
/// impl Disposal for LeaveToExit {
///     fn dispose<T: Drop>(&self, value: T) {
///         mem::forget(value);
///     }
/// }
/// ```
pub trait Disposal {
    /// Disposes of the value.
    ///
    /// ```
    /// Free.dispose(String::from_str(alloc, "freed at once")?);
    /// ```
    fn dispose<T: Drop>(&self, value: T);
}

/// Frees each value at once. The calls that take no disposal do so.
pub struct Free;

impl Disposal for Free {
    fn dispose<T: Drop>(&self, _value: T) {}
}
