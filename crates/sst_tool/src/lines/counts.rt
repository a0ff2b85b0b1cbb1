//! Singular and plural.

/// Returns `one` if the count is 1, and else `many`.
pub fn word_for(count: u64, one: &'static str, many: &'static str) -> &'static str {
    if count == 1 { one } else { many }
}
