//! Bands drawn from their lists, beside the page dot by dot.
#![tactic(auto)]

#[cfg(test)]
mod marks;
#[cfg(test)]
mod numbers;
#[cfg(test)]
mod tests;
#[cfg(test)]
mod tints;
