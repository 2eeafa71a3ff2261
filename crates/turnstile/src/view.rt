//! What a seat of the table knows, which exists in proofs alone: no value of these types is made.

/// Who knows it.
pub enum Role {
    /// The chair, which gives out numbers.
    Chairing,
    /// The pass of a number that is out.
    Passing,
    /// Nobody any more: a pass that went home.
    Spent,
}

/// How far a pass is in its turn.
pub enum Stage<S> {
    /// It hasn't the turn.
    Away,
    /// It has the turn, and the value is at home.
    Won,
    /// It has the turn, and took this value out.
    Took(S),
}

/// What a seat of the table knows.
pub struct View<S> {
    pub role: Role,
    /// The number of a pass; of the chair, the number that it named last.
    pub number: u64,
    /// How many turns a pass has won.
    pub turns: u64,
    pub stage: Stage<S>,
    /// The first claim word of a pass: 0 for `Free`, 1 for `Builds`, 2 for `Holds`.
    pub kind: u64,
    /// The second claim word of a pass: the residency, 0 for `Free`.
    pub residency: u64,
    /// The numbers that the chair has out. A clause reads an array as a list, of any length.
    pub out: [u64; 0],
}
