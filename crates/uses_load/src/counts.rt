//! What the threads counted, added up.

/// The sum of these counts, or 2^64 - 1 if it would be more.
pub fn sum_of(counts: &[u64]) -> u64 {
    let mut sum = 0u64;
    for count in counts {
        sum = sum.saturating_add(*count);
    }
    sum
}
