//! What a schedule is made of: rows, items, bands, and the blocks that a search puts together.

/// A statement's part of a row: a coefficient for each loop, the outermost first, and the shift.
#[derive(Drop)]
pub struct Part {
    pub coefficients: Vec<i128>,
    pub shift: i128,
}

/// A row: the bound `u.n + w` of its distances, with a number of `u` for each parameter, and a part for each statement.
#[derive(Drop)]
pub struct Row {
    pub u: Vec<i128>,
    pub w: i128,
    pub parts: Vec<Part>,
}

/// A row of a band, or a scalar item with a number for each statement.
#[derive(Drop)]
pub enum Item {
    Row(Row),
    Scalar(Vec<usize>),
}

/// The first and the last of a band's items, which are numbered from 0.
#[derive(Clone, Copy)]
pub struct Band {
    pub first: usize,
    pub last: usize,
}

/// A row, and whether it is parallel.
#[derive(Drop)]
pub struct Marked {
    pub row: Row,
    pub parallel: bool,
}

/// A scalar item with a number for each statement, or the rows of a band.
#[derive(Drop)]
pub enum Block {
    Scalar(Vec<usize>),
    Band(Vec<Marked>),
}
