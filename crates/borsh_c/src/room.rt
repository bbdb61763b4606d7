// How bytes are handed to C: in a room of the caller's.
ghost use Rattle.borsh_c.specs.Room.{IsGiven, IsKept};

/// Writes the bytes to the beginning of the room if they fit, and their length to `needed`. If they don't fit, the
/// room is unchanged.
pub fn give(bytes: &[u8], room: &mut [u8], needed: &mut usize)
    ensures given { IsGiven bytes.now room.new needed.new }
    ensures kept { IsKept room.old room.new needed.new }
{
    *needed = bytes.len();
    if bytes.len() <= room.len() {
        room[..bytes.len()].copy_from_slice(bytes);
    }
}
