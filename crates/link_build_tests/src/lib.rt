//! Links beside colours straight through both profiles: each pair of kinds, at the corners of all
//! channels and at codes of a generator; and the keys of links.
#![tactic(auto)]

#[cfg(test)]
mod keys;
#[cfg(test)]
mod kinds;
#[cfg(test)]
mod pairs;
#[cfg(test)]
mod stages;
