// Parts and copies of slices.
ghost use Rattle.std.specs.Prelude.{◌≡◌, ◌≤◌, IfOk, drop, length, take};

use crate::{List, Memory};
use std::alloc::Global;

/// The first so many items.
pub fn prefix<T>(items: &[T], count: usize) -> &[T]
    requires { count ≤ length items.now }
    ensures { result.now ≡ take count items.now }
{
    &items[..count]
}

/// What follows the first so many items.
pub fn skip<T>(items: &[T], count: usize) -> &[T]
    requires { count ≤ length items.now }
    ensures { result.now ≡ drop count items.now }
{
    &items[count..]
}

/// The same items. `Memory` comes where there was no room.
pub fn copied<T: Copy>(alloc: Global, items: &[T]) -> Result<List<T>, Memory>
    ensures { IfOk result (λ copy. copy ≡ items.now) }
{
    Ok(List::from_vec(Vec::from_slice(alloc, items)?))
}
