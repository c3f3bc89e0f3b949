//! The number in a region: its first eight bytes, the highest first.

const WIDTH: usize = 8;

/// The number, or 0 where there are fewer bytes.
pub fn number_in(bytes: &[u8]) -> u64 {
    match bytes.get(..WIDTH) {
        Some(first) => {
            let mut word = [0; WIDTH];
            word.copy_from_slice(first);
            u64::from_be_bytes(word)
        }
        None => 0,
    }
}

/// Adds 1 to the number, modulo 2^64.
pub fn raise_in(bytes: &mut [u8]) {
    let raised = number_in(bytes).wrapping_add(1);
    if let Some(first) = bytes.get_mut(..WIDTH) {
        first.copy_from_slice(raised.to_be_bytes().as_slice());
    }
}
