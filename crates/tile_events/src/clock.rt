//! What the view of a seat at a table tells of the seat's steps, for proofs alone: no value of it is made.

/// The steps of a seat: how many, how many all seats had made behind its last one (0 before the first), the word of
/// that step and what it left there, and how many of the seat's claims found no tile.
pub struct Clock {
    pub steps: u64,
    pub stamp: u64,
    pub word: u64,
    pub left: u64,
    pub misses: u64,
}
