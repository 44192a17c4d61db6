//! The pass over a kernel's parts: what is in scope, what is open, and the trees of the innermost open head.
//! It stops at the first unit with a fault; nothing recurses over the nesting of items. `specs/Machine` is the same
//! pass over pieces, which goes on behind faults.

ghost use Rattle.std.specs.Prelude.{◌≡◌, ◌++◌, IfOk, List, length, map};
ghost use Rattle.scop_grammar.specs.Kernel.{Kernel as GrammarKernel, KernelFits, Piece, kernel_elements, mark_at};
ghost use Rattle.scop_grammar.specs.Kernel.{nodes_from, pieces};
ghost use Rattle.scop_grammar.specs.Turns.{piece_of, pieces_of};
ghost use Rattle.scop_syntax.specs.View.{program_of, tree_of, trees_of};
ghost use Rattle.scop_roles.specs.declared.kinds.Fault.{Fault};
ghost use Rattle.scop_roles.specs.Faults.{first};
ghost use Rattle.scop_roles.specs.Formula.{formula_of};
ghost use Rattle.scop_roles.specs.Resolving.{IsWritten, formula_of_nodes};
ghost use Rattle.scop_pass.specs.declared.pass.Stop.TheVariants as stop;
ghost use Rattle.scop_pass.specs.Machine.{expects, first_state, formula_step, program_at, run, step};
ghost use Rattle.scop_pass.specs.Passing.{Clears, ComeNext, Comes, IsWhole, Steps, Takes, pending_of, state_of};
ghost use Rattle.scop_units.specs.Scopes.{look};
ghost use Rattle.scop_units.specs.Units.{declared_over};
ghost use Rattle.scop_units.specs.View.{scope_of, scope_within, words_in};

use crate::frames::Frame;
use crate::laws::{passes_may_stop_at_a_fault, passes_may_stop_at_an_array};
use crate::pending::{Hand, Pending, inner_of};
use scop_expressions::Node;
use scop_grammar::{Mark, Part};
use scop_roles::{Fault, Formula, resolve};
use scop_syntax::{Item, Kernel, Name};
use scop_units::{Look, Scope, Words, all_over};
use std::alloc::{AllocError, Global};
use std::mem;

/// Why the pass stops.
#[derive(Clone, Copy)]
pub enum Stop {
    Refused(Fault),
    NoMemory,
}

impl From<AllocError> for Stop {
    ghost from_gives = { λ _ s. s ≡ stop.NoMemory };

    fn from(_: AllocError) -> Stop {
        Stop::NoMemory
    }
}

/// The pass.
#[derive(Drop)]
pub struct Pass {
    pub(crate) name: Name,
    pub(crate) scope: Scope,
    pub(crate) before: usize,
    pub(crate) comparisons: usize,
    pub(crate) frames: Vec<Frame>,
    pub(crate) trees: Vec<Item>,
    pub(crate) pending: Pending,
}

// No fault, or the pass stops at it.
pub(crate) fn checked(fault: Result<Option<Fault>, AllocError>) -> Result<(), Stop>
    ensures { (fs : List Fault) → IfOk fault (λ f. f ≡ first fs) → Clears result fs }
{
    match fault {
        Err(_) => Err(Stop::NoMemory),
        Ok(None) => Ok(()),
        Ok(Some(fault)) => Err(Stop::Refused(fault)),
    }
}

// The kernel of a name, of what was declared and of the items.
fn kernel_of(
    alloc: Global,
    name: Name,
    scope: Scope,
    items: Vec<Item>,
) -> Result<Kernel, AllocError>
    ensures { IfOk result (λ kernel. program_of kernel ≡ record {
      name = name.items;
      parameters = (scope_of scope).parameters;
      arrays = map (declared_over (length (scope_of scope).parameters)) scope.arrays.items;
      body = trees_of (map tree_of items.items);
    }) }
{
    let parameters = scope.parameters;
    let arrays = scope.arrays;
    let arrays = all_over(alloc, &arrays, parameters.len())?;
    Ok(Kernel {
        name,
        parameters,
        arrays,
        items,
    })
}

impl Pass {
    pub fn new(alloc: Global) -> Pass
        ensures { state_of result ≡ first_state }
    {
        Pass {
            name: Vec::new(alloc),
            scope: Scope::new(alloc),
            before: 0,
            comparisons: 0,
            frames: Vec::new(alloc),
            trees: Vec::new(alloc),
            pending: Pending::Hand(Hand::Idle),
        }
    }

    // The formula of an expression.
    fn formula(
        &self,
        alloc: Global,
        words: &Words,
        inner: Option<usize>,
        first: usize,
        nodes: &[Node],
    ) -> Result<Formula, AllocError>
        requires { IsWritten nodes.now first }
        ensures { IfOk result (λ f. formula_of f ≡ formula_of_nodes (look (words_in words.now)
            (scope_within (words_in words.now) (scope_of self.now.scope) inner)) first nodes.now) }
    {
        let look = Look {
            words: *words,
            scope: &self.scope,
            inner,
        };
        resolve(alloc, nodes, first, &look)
    }

    // A sign; it completes an array in hand.
    fn mark_step(
        &mut self,
        alloc: Global,
        words: &Words,
        pending: Pending,
        mark: Mark,
        at: usize,
    ) -> Result<(), Stop>
        ensures { Steps result (words_in words.now) (expects (state_of self.old) (pending_of pending))
            (state_of self.new) (mark_at mark at) }
    {
        match pending {
            Pending::Extents(width, name_at, extents) => {
                self.behind_array(alloc, words, width, name_at, &extents, mark, at)
            }
            Pending::Hand(hand) => self.sign_step(alloc, words, hand, mark, at),
        }
    }

    // An expression by its formula.
    fn formula_step(
        &mut self,
        alloc: Global,
        words: &Words,
        pending: Pending,
        formula: Formula,
    ) -> Result<(), Stop>
        ensures { Comes result (state_of self.new) (formula_step (pending_of pending) (words_in words.now)
            (expects (state_of self.old) (pending_of pending)) (formula_of formula)) }
    {
        match pending {
            Pending::Extents(width, at, extents) => self.extent(width, at, extents, formula),
            Pending::Hand(hand) => self.hand_formula(alloc, words, hand, formula),
        }
    }

    // An expression.
    fn nodes_step(
        &mut self,
        alloc: Global,
        words: &Words,
        pending: Pending,
        first_at: usize,
        nodes: &[Node],
    ) -> Result<(), Stop>
        requires { IsWritten nodes.now first_at }
        ensures { Comes result (state_of self.new) (step (words_in words.now)
            (expects (state_of self.old) (pending_of pending)) (nodes_from first_at nodes.now)) }
    {
        match self.formula(alloc, words, inner_of(&pending), first_at, nodes) {
            Err(_) => {
                drop(pending);
                Err(Stop::NoMemory)
            }
            Ok(formula) => self.formula_step(alloc, words, pending, formula),
        }
    }

    /// One part.
    pub fn step(&mut self, alloc: Global, words: &Words, part: &Part) -> Result<(), Stop>
        requires { IsWhole (piece_of part.now) }
        ensures { Steps result (words_in words.now) (state_of self.old) (state_of self.new) (piece_of part.now) }
    {
        let pending = mem::replace(&mut self.pending, Pending::Hand(Hand::Idle));
        match part {
            Part::Sign(mark, at) => self.mark_step(alloc, words, pending, *mark, *at),
            Part::Expression(first, nodes) => self.nodes_step(alloc, words, pending, *first, nodes),
        }
    }

    /// Some parts that come next in a kernel, one by one, or the kernel's first fault; `NoMemory` is free.
    pub fn take(&mut self, alloc: Global, words: &Words, parts: &[Part]) -> Result<(), Stop>
        requires { ComeNext (words_in words.now) (state_of self.old) (pieces_of parts.now) }
        ensures { (k : GrammarKernel) (front rest : List Piece) → KernelFits 64 256 k
            → pieces 0 (kernel_elements k) ≡ front ++ (pieces_of parts.now ++ rest)
            → run (words_in words.now) first_state front ≡ state_of self.old
            → Takes result (words_in words.now) k (front ++ pieces_of parts.now) (state_of self.new) }
    {
        passes_may_stop_at_a_fault();
        passes_may_stop_at_an_array();
        for part in parts {
            self.step(alloc, words, part)?;
        }
        Ok(())
    }

    /// The kernel behind the last part.
    pub fn finish(self, alloc: Global) -> Result<Kernel, AllocError>
        ensures { IfOk result (λ kernel. program_of kernel ≡ program_at (state_of self)) }
    {
        drop(self.pending);
        kernel_of(alloc, self.name, self.scope, self.trees)
    }
}
