//! What can be wrong with a text, in the order of the kinds at one place.
ghost use Rattle.std.specs.Prelude.{◌≡◌};
ghost use Rattle.scop_roles.specs.Faults.{first, first_of, number, only_where, precedes, told};
ghost use Rattle.scop_roles.specs.steps.Judgement.{part_or_own};

/// The kinds of faults, in the order in which they are looked for, and at one place in their order.
#[derive(Clone, Copy)]
pub enum Kind {
    /// A byte begins no token, or is the 64th of a name.
    Character = 1,
    /// A directive line is neither `include` nor `pragma`, or goes on behind its line.
    Directive,
    /// A word that begins with a digit is no constant.
    LiteralRange,
    /// A comment has no end.
    UnendedComment,
    /// No text of the grammar goes on with this token.
    Token,
    /// The text ends within the grammar.
    Unended,
    /// A name is not in scope.
    UnknownName,
    /// A name is in scope already, or begins with `pp_`.
    Redeclared,
    /// A part that must be affine is not.
    NotAffine,
    /// An affine part leaves the limits of coefficients and constants.
    Coefficient,
    /// A loop's head is none of the forms that are read.
    LoopForm,
    /// A condition is none, or a comparison stands where none may.
    Condition,
    /// An operator has signed operands where C's result would depend on their width.
    SignedValue,
    /// A shift's count is no constant from 0 to 63, or to 31 where the left side has 32 bits.
    ShiftCount,
    /// A division or a remainder.
    Division,
    /// A call.
    Call,
    /// A name has another number of subscripts than its declaration, or an array more than four extents.
    Rank,
    /// An iterator stands outside its loop, or a number where something is stored.
    IteratorOutside,
    /// Too many loops, comparisons, brackets or operators in one another.
    Depth,
    /// More than 32 statements.
    Statements,
    /// More than 16 arrays.
    Arrays,
    /// More than four parameters.
    Parameters,
    /// More than 16 reads in a statement.
    Reads,
    /// The text is longer than it may be: told before it is read, and of no text that is read.
    TooLong,
    /// A signed part beside 32 bits has a name in it, or is a constant of more than 32 bits.
    Width,
}

/// A fault, and the place of its token among the tokens.
#[derive(Clone, Copy)]
pub struct Fault {
    pub place: usize,
    pub kind: Kind,
}

// A kind's number.
fn number(kind: Kind) -> u8
    ensures { result ≡ number kind }
{
    kind as u8
}

/// Whether a fault stands before another: at an earlier place, or at the same as a lesser kind.
pub fn precedes(fault: Fault, other: Fault) -> bool
    ensures { result ≡ precedes fault other }
{
    fault.place < other.place
        || (fault.place == other.place && number(fault.kind) < number(other.kind))
}

/// The first of two.
pub fn first_of(fault: Option<Fault>, other: Option<Fault>) -> Option<Fault>
    ensures { result ≡ first_of fault other }
{
    match (fault, other) {
        (None, other) => other,
        (Some(fault), None) => Some(fault),
        (Some(fault), Some(other)) => {
            if precedes(other, fault) {
                Some(other)
            } else {
                Some(fault)
            }
        }
    }
}

// The fault of a kind at a place.
pub(crate) fn told(place: usize, kind: Option<Kind>) -> Option<Fault>
    ensures { result ≡ first (told place kind) }
{
    match kind {
        None => None,
        Some(kind) => Some(Fault { place, kind }),
    }
}

// The first fault of a node: that of its parts, else its own.
pub(crate) fn part_or_own(part: Option<Fault>, place: usize, own: Option<Kind>) -> Option<Fault>
    ensures { result ≡ part_or_own part place own }
{
    match part {
        Some(fault) => Some(fault),
        None => told(place, own),
    }
}

// A kind, where it is there to tell.
pub(crate) fn only_where(wrong: bool, kind: Kind) -> Option<Kind>
    ensures { result ≡ only_where wrong kind }
{
    if wrong { Some(kind) } else { None }
}
