//! Lemmas that proofs of several crates need, and that std doesn't have in this form.
//!
//! There is no code here: `proofs/Cases.antt` has the case splits, `proofs/Tests.antt` what tests joined by
//! `&&` say. What std has is imported from there: `std.proofs.lemmas.Bool` and `std.proofs.Math.Bool`.
#![tactic(auto)]
