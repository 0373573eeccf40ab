//! Tests of `types_by_hand`, and examples of the calls that docs/TYPES.md lists.
#![tactic(auto)]

#[cfg(test)]
mod tests;
