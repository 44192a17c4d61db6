//! Why a schedule has no certificate.

/// Why a schedule has no certificate.
#[derive(Clone, Copy)]
pub enum CertifyStop {
    /// The first goal, counted from 1, whose determined derivation meets no contradiction, makes more than 4,096 pairs
    /// in one elimination, or leaves 128 bits.
    Uncertified { goal: u64 },
    NoMemory,
}
