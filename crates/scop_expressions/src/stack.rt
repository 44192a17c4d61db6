//! What waits, innermost last in memory and first in contracts.
ghost use Rattle.std.specs.Prelude.{◌≡◌, List, [], ◌∷◌, MatchOption, OnOk};
ghost use Rattle.scop_expressions.specs.steps.Joining.{rest};

use crate::node::Held;
use std::alloc::{AllocError, Global};
use std::marker::Model;

#[derive(Drop)]
pub(crate) struct Stack {
    items: Vec<Held>,
}

impl Model for Stack {
    ghost use Rattle.std.specs.Prelude.{List, reverse};
    ghost use Rattle.scop_expressions.specs.declared.node.Held.{Held};

    ghost Value = { List Held };

    ghost view = { λ s. reverse s.items.items };
}

impl Stack {
    pub(crate) fn new(alloc: Global) -> Stack
        ensures { result ≡ [] }
    {
        Stack {
            items: Vec::new(alloc),
        }
    }

    pub(crate) fn push(&mut self, held: Held) -> Result<(), AllocError>
        ensures { OnOk result (self.new ≡ held ∷ self.old) }
    {
        self.items.push(held)?;
        Ok(())
    }

    pub(crate) fn pop(&mut self) -> Option<Held>
        ensures { MatchOption result ((self.old ≡ []) × (self.new ≡ [])) (λ h. self.old ≡ h ∷ self.new) }
    {
        self.items.pop()
    }

    // The innermost, which stays.
    pub(crate) fn top(&self) -> Option<Held>
        ensures { MatchOption result (self.now ≡ []) (λ h. self.now ≡ h ∷ rest self.now) }
    {
        match self.items.last() {
            None => None,
            Some(held) => Some(*held),
        }
    }
}
