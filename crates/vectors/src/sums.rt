// The sum of memory.

// Sixteen bits go into the sum.
fn mix(sum: u64, x: u64) -> u64 {
    (sum % 4294967291 * 65599 + x % 65536) % 4294967291
}

// All numbers of a slice go into the sum, one after the other.
pub(crate) fn mix_all<T: Copy + Into<u64>>(sum: u64, s: &[T]) -> u64 {
    let mut all = sum;
    for x in s {
        all = mix(all, (*x).into());
    }
    all
}
