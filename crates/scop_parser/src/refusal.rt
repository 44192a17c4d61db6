//! Why a text is refused: the kind of its first fault, and where it stands.

pub use scop_roles::Kind as RefusalKind;

/// A fault: lines and columns count from 1, columns in bytes.
#[derive(Clone, Copy)]
pub struct Refusal {
    pub kind: RefusalKind,
    pub line: u64,
    pub column: u64,
}
