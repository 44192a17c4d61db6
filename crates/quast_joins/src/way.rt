//! The two ways to look along a walk, and why two quasts are not joined.

/// Which of two instances is wanted: the later one, or the earlier one.
#[derive(Clone, Copy)]
pub enum Way {
    Later,
    Earlier,
}

/// Why two quasts are not joined.
#[derive(Clone, Copy)]
pub enum JoinStop {
    /// The join has more than 4,096 nodes: so many, or 2^128 - 1 where there are more.
    Spent { nodes: u128 },
    /// The join has few enough nodes, and memory is wanting.
    NoMemory,
}
