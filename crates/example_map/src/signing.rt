// Bytes that are signed, and the values that they encode.
ghost use Rattle.std.specs.Prelude.{◌≡◌, ◌≤◌, ◌+◌, true, IfOk, length};
ghost use Rattle.borsh.specs.Signing.{EncodesValue};

use borsh::{BorshDeserialize, BorshKey, BorshSerialize, from_slice, io, to_vec};
use std::alloc::Global;

/// The bytes that are signed: the value's encoding, which encodes no other value and decodes to this one.
pub fn bytes_to_sign<T: BorshSerialize>(alloc: Global, value: &T) -> io::Result<Vec<u8>>
    ensures { EncodesValue T T.codec value.now result }
{
    to_vec(alloc, value)
}

/// The bytes of two values that are to be signed. If they are the same, the values are.
pub fn both_to_sign<T: BorshSerialize + BorshKey>(
    alloc: Global,
    first: &T,
    second: &T,
) -> io::Result<(Vec<u8>, Vec<u8>)>
    ensures { IfOk result (λ both. both.0.items ≡ both.1.items → T.eq first.now second.now ≡ true) }
{
    let bytes = bytes_to_sign(alloc, first)?;
    let others = bytes_to_sign(alloc, second)?;
    Ok((bytes, others))
}

/// The value that was signed: one that the bytes decode to.
pub fn signed_value<T: BorshDeserialize>(alloc: Global, bytes: &[u8]) -> io::Result<T>
    ensures { IfOk result (λ v. T.codec.decodes true bytes.now v) }
{
    from_slice(alloc, bytes)
}

/// What another one decodes from the bytes that are signed for a value: the same value.
pub fn value_at_receiver<T: BorshSerialize + BorshDeserialize>(
    alloc: Global,
    value: &T,
) -> io::Result<T>
    ensures { IfOk result (λ theirs. T.codec.equivalent theirs value.now) }
{
    let bytes = bytes_to_sign(alloc, value)?;
    signed_value(alloc, bytes.as_slice())
}

/// The list that was signed. However long a list it says it is, its bytes are more: four and one for each element, or more.
pub fn signed_list<T: BorshDeserialize>(alloc: Global, bytes: &[u8]) -> io::Result<Vec<T>>
    ensures { IfOk result (λ v. 4 + length v.items ≤ length bytes.now) }
{
    from_slice(alloc, bytes)
}

/// Prints what the receiver of a number decodes, and whether two numbers have the same bytes to sign.
pub fn show(rt: &(impl Print + AllocGlobal)) -> Result<(), anyhow::Error> {
    let alloc = rt.alloc();
    println!(rt; "received {}", value_at_receiver(alloc, &7u64)?)?;
    let (bytes, others) = both_to_sign(alloc, &7u64, &8u64)?;
    println!(rt; "the same bytes: {}", bytes == others)?;
    Ok(())
}
