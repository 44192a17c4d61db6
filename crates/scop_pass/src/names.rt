//! Names that are declared, and arrays with their extents.

ghost use Rattle.std.specs.Prelude.{◌≡◌, ◌++◌, ◌∷◌, [], map};
ghost use Rattle.scop_grammar.specs.Kernel.{mark_at};
ghost use Rattle.scop_roles.specs.Formula.{formula_of};
ghost use Rattle.scop_pass.specs.Machine.{declared, expects, named, numbered, ranked};
ghost use Rattle.scop_pass.specs.Machine as machine;
ghost use Rattle.scop_pass.specs.Passing.{Comes, Steps, state_of};
ghost use Rattle.scop_units.specs.Units.{array_faults};
ghost use Rattle.scop_units.specs.View.{scope_of, words_in};

use crate::lists::{push, push_formula, push_name};
use crate::pass::{Pass, Stop, checked};
use crate::pending::{Hand, Pending};
use scop_expressions::Width;
use scop_grammar::Mark;
use scop_roles::Formula;
use scop_units::{
    Words, array_fault, array_of, copied, kernel_name_fault, name_fault, number_fault,
};
use std::alloc::Global;

impl Pass {
    pub(crate) fn named(&mut self, alloc: Global, words: &Words, at: usize) -> Result<(), Stop>
        ensures { Comes result (state_of self.new) (named (words_in words.now) (state_of self.old) at) }
    {
        checked(Ok(kernel_name_fault(words, at)))?;
        self.name = copied(alloc, words.spelling(at))?;
        Ok(())
    }

    pub(crate) fn numbered(&mut self, alloc: Global, words: &Words, at: usize) -> Result<(), Stop>
        ensures { Comes result (state_of self.new) (numbered (words_in words.now) (state_of self.old) at) }
    {
        checked(Ok(number_fault(words, &self.scope, at)))?;
        let name = copied(alloc, words.spelling(at))?;
        push_name(&mut self.scope.parameters, name)?;
        Ok(())
    }

    pub(crate) fn declared(&mut self, alloc: Global, words: &Words, at: usize) -> Result<(), Stop>
        ensures { Comes result (state_of self.new) (declared (words_in words.now) (state_of self.old) at) }
    {
        checked(Ok(name_fault(words, &self.scope, at)))?;
        let name = copied(alloc, words.spelling(at))?;
        self.scope.declare(name)?;
        Ok(())
    }

    // An array begins.
    pub(crate) fn begin_array(&mut self, alloc: Global, width: Width, at: usize) -> Result<(), Stop>
        ensures { Comes result (state_of self.new) (expects (state_of self.old) (machine.extents width at [])) }
    {
        self.keep(Pending::Extents(width, at, Vec::new(alloc)));
        Ok(())
    }

    // An extent more.
    pub(crate) fn extent(
        &mut self,
        width: Width,
        at: usize,
        mut extents: Vec<Formula>,
        formula: Formula,
    ) -> Result<(), Stop>
        ensures { Comes result (state_of self.new) (expects (state_of self.old)
            (machine.extents width at (map formula_of extents.items ++ formula_of formula ∷ []))) }
    {
        push_formula(&mut extents, formula)?;
        self.keep(Pending::Extents(width, at, extents));
        Ok(())
    }

    // An array without faults, with all its extents.
    fn rank(
        &mut self,
        alloc: Global,
        words: &Words,
        width: Width,
        at: usize,
        extents: &[Formula],
    ) -> Result<(), Stop>
        requires { array_faults (words_in words.now) (scope_of self.old.scope) at (map formula_of extents.now) ≡ [] }
        ensures { Comes result (state_of self.new)
            (ranked (words_in words.now) (state_of self.old) width at (map formula_of extents.now)) }
    {
        let array = array_of(alloc, words, &self.scope, at, width, extents)?;
        push(&mut self.scope.arrays, array)?;
        self.keep(Pending::Hand(Hand::Idle));
        Ok(())
    }

    fn ranked(
        &mut self,
        alloc: Global,
        words: &Words,
        width: Width,
        at: usize,
        extents: &[Formula],
    ) -> Result<(), Stop>
        ensures { Comes result (state_of self.new)
            (ranked (words_in words.now) (state_of self.old) width at (map formula_of extents.now)) }
    {
        checked(array_fault(alloc, words, &self.scope, at, extents))?;
        self.rank(alloc, words, width, at, extents)
    }

    // A sign behind an array with its extents.
    pub(crate) fn behind_array(
        &mut self,
        alloc: Global,
        words: &Words,
        width: Width,
        name_at: usize,
        extents: &[Formula],
        mark: Mark,
        at: usize,
    ) -> Result<(), Stop>
        ensures { Steps result (words_in words.now)
            (expects (state_of self.old) (machine.extents width name_at (map formula_of extents.now)))
            (state_of self.new) (mark_at mark at) }
    {
        self.ranked(alloc, words, width, name_at, extents)?;
        self.idle_step(alloc, words, mark, at)
    }
}
