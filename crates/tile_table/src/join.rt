//! Rows whose code joins three values read by two operators, as in products and eliminations: the lanes of their four
//! cells side by side, so that an instance takes no slots. Promises what a join makes, and where its lanes stand.
ghost use Rattle.std.specs.Prelude.{◌≡◌, ℤ, IfSome, List};
ghost use Rattle.whole_numbers.specs.Lists.{sums};
ghost use Rattle.tile_table.specs.Joins.{IsJoinAt, Joins, joined_by};
ghost use Rattle.tile_table.specs.declared.code.Step.TheVariants.{Binary};
ghost use Rattle.tile_table.specs.declared.table.Row.{Row as AnyRow};

use crate::code::{Code, Step};
use crate::lane::Lane;
use crate::table::Row;
use scop_meaning::combined;
use scop_syntax::Operator;

/// `(x inner y) outer z`, or else `x outer (y inner z)`.
#[derive(Clone, Copy)]
pub struct Join {
    pub front: bool,
    pub inner: Operator,
    pub outer: Operator,
}

impl Join {
    /// What it makes of these values.
    #[inline]
    pub fn of(&self, x: u64, y: u64, z: u64) -> u64
        ensures { result ≡ joined_by self.now x y z }
    {
        if self.front {
            combined(self.outer, combined(self.inner, x, y), z)
        } else {
            combined(self.outer, x, combined(self.inner, y, z))
        }
    }
}

/// The operator of a step that joins these two slots.
fn operator_between(step: &Step, left: usize, right: usize) -> Option<Operator>
    ensures { IfSome result (λ operator. step.now ≡ Binary operator left right) }
{
    match step {
        Step::Binary(operator, a, b) if *a == left && *b == right => Some(*operator),
        _ => None,
    }
}

impl Code {
    /// What it makes of the values read, where that is a join of three.
    pub fn join(&self) -> Option<Join>
        ensures { IfSome result (Joins self.now) }
    {
        if self.reads != 3 || self.result != 4 {
            return None;
        }
        let [first, second] = self.steps.as_slice() else {
            return None;
        };
        if let Some(outer) = operator_between(second, 0, 3) {
            let inner = operator_between(first, 1, 2)?;
            return Some(Join {
                front: false,
                inner,
                outer,
            });
        }
        let inner = operator_between(first, 0, 1)?;
        let outer = operator_between(second, 3, 2)?;
        Some(Join {
            front: true,
            inner,
            outer,
        })
    }
}

/// The lanes of a row's cells, and what its code makes of the three that are read.
#[derive(Clone, Copy)]
pub struct JoinLanes {
    pub place: Lane,
    pub first: Lane,
    pub second: Lane,
    pub third: Lane,
    pub join: Join,
}

impl JoinLanes {
    /// Takes them one step on.
    #[inline]
    pub fn go_on(&mut self)
        ensures { (row : AnyRow) (steps turns : List ℤ) → IsJoinAt row steps turns self.old
            → IsJoinAt row steps (sums turns steps) self.new }
    {
        self.place.go_on();
        self.first.go_on();
        self.second.go_on();
        self.third.go_on();
    }
}

impl Row {
    /// Its lanes from these turns on, by these steps, where it stores, and its code is a join.
    pub fn lay_join(&self, turns: &[i64], steps: &[i64]) -> Option<JoinLanes>
        ensures { IfSome result (IsJoinAt self.now steps.now turns.now) }
    {
        if self.adds {
            return None;
        }
        let [place, first, second, third] = self.cells.as_slice() else {
            return None;
        };
        match self.code.join() {
            None => None,
            Some(join) => Some(JoinLanes {
                place: Lane::of(place, turns, steps),
                first: Lane::of(first, turns, steps),
                second: Lane::of(second, turns, steps),
                third: Lane::of(third, turns, steps),
                join,
            }),
        }
    }
}
