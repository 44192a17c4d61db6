//! The goals of a plan that are left.
use crate::walk::{Rest, Walk};
use std::marker::Model;

/// The goals of a plan that are left: those of the dependence in hand, then those of the rest.
#[derive(Drop)]
pub struct Goals {
    pub rest: Rest,
    pub walk: Option<Walk>,
}

impl Model for Goals {
    ghost use Rattle.plan_check.specs.GoalList.{AreGoals, Listed, listed};

    ghost Value = { Listed };

    ghost view = { λ g. listed g.rest g.walk };

    ghost invariant = { λ g. AreGoals g.rest g.walk };
}
