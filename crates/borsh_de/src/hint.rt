// How much memory to take at first.
ghost use Rattle.std.specs.Prelude.{◌≡◌, ◌≤◌, ◌/◌, min, max};

use borsh_types::BorshType;

/// How many elements to make room for at first, if `hint` are announced: no more than fit in about 4096 bytes of memory,
/// but at least one. So an announcement alone takes no more memory than that. Left open: any number from 1 to 4096.
///
/// ```
/// assert_eq!(rt; cautious::<u64>(1000000), 512);
/// ```
#[inline]
pub fn cautious<T: BorshType>(hint: u32) -> usize
    ensures some { 1 ≤ result }
    ensures few { result ≤ 4096 }
{
    let size = T::element_size().max(1);
    (hint as usize).min(4096 / size).max(1)
}
