// The codes that the calls return.

// tools/calls.py writes: codes
/// Yes; the buffer has what was asked for.
pub const YES: u32 = 0;
/// No: the container breaks a rule or has no size, the bytes are no value, the JSON says none, the type has no container, or
/// the new schema hasn't all values of the old one.
pub const NO: u32 = 1;
/// The bytes of the schema aren't the encoding of a container.
pub const MALFORMED: u32 = 2;
/// An allocation failed.
pub const OUT_OF_MEMORY: u32 = 3;
// 4 is for a null pointer: `bindings/c/borsh.c` returns it, and no call of this library.

/// The container allows two values for the same bytes, or breaks a rule of widths, so it has no answer; of `borsh_compare`:
/// neither answer was found.
pub const UNDECIDED: u32 = 5;
/// The bytes end within a value, of which more bytes may make one: of `borsh_records` alone.
pub const SHORT: u32 = 6;
// tools/calls.py: end
