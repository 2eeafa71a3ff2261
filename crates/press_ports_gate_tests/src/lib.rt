//! Tests of the gates: whom a held gate holds, and when it says that its turns were used up.
#![tactic(auto)]

#[cfg(test)]
mod tests;
