//! Where the unknowns of a dependence stand: a `u` for each parameter, `w`, and the coefficients, innermost first, and
//! the shift of each statement in textual order.

ghost use Rattle.std.specs.Prelude.{◌≡◌, ◌≤◌, ◌^◌};
ghost use Rattle.std.specs.Option.{ForSome, IfNone};
ghost use Rattle.farkas.specs.Unknowns.{layout_of, behind, places};

use iteration_domains::DepEnd;

/// The columns of a dependence's rows: a `u` for each parameter from 0 on, `w` behind them, then the unknowns of each
/// statement.
#[derive(Clone, Copy)]
pub struct Layout {
    /// How many unknowns there are.
    pub unknowns: usize,
    /// Where the source's begin: its coefficients, innermost first, then its shift.
    pub source: usize,
    /// Where the target's begin; one statement's stand once.
    pub target: usize,
}

/// The place behind the unknowns of a statement whose first stands at `first`.
fn place_behind(first: usize, side: DepEnd) -> Option<usize>
    ensures place { ForSome result (λ place. place ≡ behind first side) }
    ensures none { IfNone result (2 ^ 64 ≤ behind first side) }
{
    first.checked_add(side.loops)?.checked_add(1)
}

/// The layout of one statement's unknowns from a place on.
fn lay_one(first: usize, side: DepEnd) -> Option<Layout>
    ensures layout { ForSome result (λ l. l ≡ places (behind first side) first first) }
    ensures none { IfNone result (2 ^ 64 ≤ behind first side) }
{
    match place_behind(first, side) {
        None => None,
        Some(unknowns) => Some(Layout {
            unknowns,
            source: first,
            target: first,
        }),
    }
}

/// The places of an earlier and a later statement from a place on: where the later's unknowns begin, and where they end.
fn lay_two(first: usize, early: DepEnd, late: DepEnd) -> Option<(usize, usize)>
    ensures places { ForSome result (λ p. (p.0 ≡ behind first early) × (p.1 ≡ behind (behind first early) late)) }
    ensures none { IfNone result (2 ^ 64 ≤ behind (behind first early) late) }
{
    let second = place_behind(first, early)?;
    match place_behind(second, late) {
        None => None,
        Some(unknowns) => Some((second, unknowns)),
    }
}

/// The layout of the rows of a dependence with so many parameters between these ends; nothing where a place does not
/// fit its type.
#[tactic(auto, unfolding(crate::specs::Unknowns::layout_of))]
pub fn lay_out(parameters: usize, source: DepEnd, target: DepEnd) -> Option<Layout>
    ensures layout { ForSome result (λ l. l ≡ layout_of parameters source target) }
    ensures none { IfNone result (2 ^ 64 ≤ (layout_of parameters source target).unknowns) }
{
    let first = parameters.checked_add(1)?;
    if source.statement == target.statement {
        lay_one(first, source)
    } else if source.statement < target.statement {
        match lay_two(first, source, target) {
            None => None,
            Some((second, unknowns)) => Some(Layout {
                unknowns,
                source: first,
                target: second,
            }),
        }
    } else {
        match lay_two(first, target, source) {
            None => None,
            Some((second, unknowns)) => Some(Layout {
                unknowns,
                source: second,
                target: first,
            }),
        }
    }
}
