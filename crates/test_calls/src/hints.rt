// How much memory a list takes at first.
use borsh::de::hint::cautious;

/// What lists of bytes, of numbers and of units take at first, of so many elements announced; a large array is taken alone.
fn are_hints(hint: u32, bytes: usize, numbers: usize, units: usize) -> bool {
    cautious::<u8>(hint) == bytes
        && cautious::<u64>(hint) == numbers
        && cautious::<()>(hint) == units
        && cautious::<[u8; 4097]>(hint) == 1
}

#[test]
fn at_first_a_list_takes_at_most_4096_bytes(rt: HostRuntime) {
    for &(hint, bytes, numbers, units) in &[
        (0, 1, 1, 1),
        (1, 1, 1, 1),
        (10, 10, 10, 10),
        (511, 511, 511, 511),
        (512, 512, 512, 512),
        (513, 513, 512, 513),
        (4095, 4095, 512, 4095),
        (4096, 4096, 512, 4096),
        (4097, 4096, 512, 4096),
        (4294967295, 4096, 512, 4096),
    ] {
        assert!(rt; are_hints(hint, bytes, numbers, units), "of {hint}");
    }
}
