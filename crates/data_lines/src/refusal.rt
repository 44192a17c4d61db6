//! Why data says no case of a kernel, rule by rule in their order.

/// The rule that data breaks first. Lines count from 1, parameters and arrays from 0 in the order of declaration,
/// dimensions from 1.
#[derive(Clone, Copy)]
pub enum DataRefusal {
    /// The line is not `NAME = WORD ..`, or has not as many words as its first word or its parameter asks for.
    Line(u64),
    /// The line's name is neither a parameter nor an array.
    UnknownName(u64),
    /// An earlier line has the line's name.
    Repeated(u64),
    /// A word of the line is no number of 64 bits, or no cell of 32 bits of a narrow array.
    Number(u64),
    /// The line gives a parameter more than 65536.
    ParameterRange(u64),
    /// No line gives this parameter.
    Missing(usize),
    /// An extent of an array is not positive.
    Extent {
        array: usize,
        dimension: u64,
        value: i64,
    },
    /// All arrays together have this many cells, more than 2^22.
    Cells(u128),
    /// The line lists another number of cells than its array has.
    Count {
        line: u64,
        expected: u64,
        found: u64,
    },
}

/// Why data was not read.
#[derive(Clone, Copy)]
pub enum DataStop {
    /// The data breaks a rule.
    Refused(DataRefusal),
    /// Memory ran out.
    NoMemory,
}
