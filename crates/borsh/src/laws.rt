//! Laws of the words that contracts use, each as the contract of a function that does nothing: a function whose proof needs
//! one calls it. Left open of each call: none.
ghost use Rattle.std.specs.Borrow.{MutBor};
ghost use Rattle.std.specs.Prelude.{ℕ, List};
ghost use Rattle.borsh_codec.specs.Maps.{after_inserts};
ghost use Rattle.borsh.specs.Inserted.{HasEachKeyOnce};
ghost use Rattle.borsh.specs.Room.{FitsIntoRoom, TakesAByteEach};

use borsh_types::{BorshKey, BorshType};

/// What inserting entries in turn leaves (`after_inserts`), as in a decoded index map: each key once, in its first place and
/// with its last value.
///
/// ```
/// index_map_entries::<u8, String>();
/// ```
pub fn index_map_entries<K: BorshKey, V>()
    ensures { (read : List (K × V)) → HasEachKeyOnce K.eq read (after_inserts K.eq read) }
{}

/// A list that was decoded (`list`, the codec of `Vec<T>` and of other lists) took at least four bytes and one for each element.
///
/// ```
/// list_takes_bytes::<u8>();
/// ```
pub fn list_takes_bytes<T: BorshType>()
    ensures { TakesAByteEach T.codec }
{}

/// A value is written into a `&mut [u8]` with room for its encoding, unless encoding its type allocates, as that of hashed maps
/// and sets and of what contains one does.
///
/// ```
/// slice_with_room_takes::<u64>();
/// ```
pub fn slice_with_room_takes<T: BorshType>()
    ensures { FitsIntoRoom T.codec (λ (s : MutBor (List ℕ)). s.now) }
{}
