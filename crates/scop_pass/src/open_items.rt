//! What is open, and what completes it: blocks, conditions, loops' heads and statements.

ghost use Rattle.std.specs.Prelude.{◌≡◌, ◌+◌, ◌-◌, ◌<◌, ◌^◌, ◌++◌, ◌∷◌, [], Ok, OnOk, length, map, replicate};
ghost use Rattle.std.specs.Prelude.{true};
ghost use Rattle.scop_syntax.specs.Tree as scop;
ghost use Rattle.scop_syntax.specs.View.{test_of, tree_of};
ghost use Rattle.scop_roles.specs.declared.formula.Role.TheVariants as role;
ghost use Rattle.scop_roles.specs.Faults.{faults};
ghost use Rattle.scop_roles.specs.Formula.{formula_of};
ghost use Rattle.scop_pass.specs.Machine.{closed, complete, expects, guard_opened, loop_opened, stated, whole_head};
ghost use Rattle.scop_pass.specs.Machine as machine;
ghost use Rattle.scop_pass.specs.Passing.{Closes, Comes, state_of};
ghost use Rattle.scop_units.specs.Loops.{loop_faults};
ghost use Rattle.scop_units.specs.Programs.{wrapped};
ghost use Rattle.scop_units.specs.Scopes.{entries};
ghost use Rattle.scop_units.specs.Units.{statement_faults};
ghost use Rattle.scop_units.specs.View.{change_of, head_of, scope_of, stored_of, words_in};

use crate::frames::{Frame, pop_frame, push_block, push_frame, raised};
use crate::lists::{pop_name, push_name, push_tree};
use crate::pass::{Pass, Stop, checked};
use crate::pending::{Hand, Pending, Sides};
use scop_roles::{Formula, Names, Role, fault, push_tests};
use scop_syntax::{Guard, Item, Loop, Test};
use scop_units::{
    Change, LoopHead, Stored, Words, copied, loop_fault, loop_of, statement_fault, statement_of,
};
use std::alloc::{AllocError, Global};
use std::mem;

// More names than memory holds.
const MOST_NAMES: usize = 1 << 62;

// A head that is complete, with the trees behind it; without any it leaves nothing.
fn wrap_guard(trees: &mut Vec<Item>, tests: Vec<Test>, body: Vec<Item>) -> Result<(), AllocError>
    ensures { OnOk result (map tree_of trees.new.items ≡ map tree_of trees.old.items
        ++ wrapped (scop.guard (map test_of tests.items)) (map tree_of body.items)) }
{
    if body.is_empty() {
        return Ok(());
    }
    push_tree(trees, Item::Guard(Guard { tests }, body))
}

fn wrap_loop(trees: &mut Vec<Item>, head: Loop, body: Vec<Item>) -> Result<(), AllocError>
    ensures { OnOk result (map tree_of trees.new.items ≡ map tree_of trees.old.items
        ++ wrapped (scop.loop head) (map tree_of body.items)) }
{
    if body.is_empty() {
        return Ok(());
    }
    push_tree(trees, Item::Loop(head, body))
}

impl Pass {
    // The innermost head is completed; false: there is none, or a block.
    fn close(&mut self) -> Result<bool, AllocError>
        ensures state { Closes result (state_of self.old) (state_of self.new) }
        ensures count { result ≡ Ok true → length self.new.frames.items + 1 ≡ length self.old.frames.items }
    {
        match pop_frame(&mut self.frames) {
            None => Ok(false),
            Some(Frame::Blocks(more)) => {
                push_frame(&mut self.frames, Frame::Blocks(more))?;
                Ok(false)
            }
            Some(Frame::Guarded(tests, outer)) => {
                self.comparisons = self.comparisons.saturating_sub(tests.len());
                let body = mem::replace(&mut self.trees, outer);
                wrap_guard(&mut self.trees, tests, body)?;
                Ok(true)
            }
            Some(Frame::Looped(head, outer)) => {
                pop_name(&mut self.scope.open_loops);
                let body = mem::replace(&mut self.trees, outer);
                wrap_loop(&mut self.trees, head, body)?;
                Ok(true)
            }
        }
    }

    // Each head on top is completed by its item.
    fn close_all(&mut self) -> Result<(), AllocError>
        ensures { OnOk result (complete (state_of self.old) ≡ expects (state_of self.new) machine.idle) }
    {
        let count = self.frames.len();
        for _ in 0..count {
            if !self.close()? {
                return Ok(());
            }
        }
        Ok(())
    }

    // An item is complete.
    pub(crate) fn complete(&mut self) -> Result<(), Stop>
        ensures { Comes result (state_of self.new) (complete (state_of self.old)) }
    {
        self.close_all()?;
        self.keep(Pending::Hand(Hand::Idle));
        Ok(())
    }

    // The innermost of some blocks ends.
    fn end_block(&mut self, more: usize) -> Result<(), AllocError>
        ensures { OnOk result (state_of self.new
            ≡ record (state_of self.old) { frames = replicate more machine.block ++ (state_of self.old).frames }) }
    {
        match more.checked_sub(1) {
            None => Ok(()),
            Some(less) => push_frame(&mut self.frames, Frame::Blocks(less)),
        }
    }

    // A block ends.
    pub(crate) fn end(&mut self) -> Result<(), Stop>
        ensures { Comes result (state_of self.new) (closed (state_of self.old).frames (state_of self.old)) }
    {
        match pop_frame(&mut self.frames) {
            None => Ok(()),
            Some(Frame::Blocks(more)) => {
                self.end_block(more)?;
                self.complete()
            }
            Some(Frame::Guarded(tests, outer)) => {
                push_frame(&mut self.frames, Frame::Guarded(tests, outer))?;
                Ok(())
            }
            Some(Frame::Looped(head, outer)) => {
                push_frame(&mut self.frames, Frame::Looped(head, outer))?;
                Ok(())
            }
        }
    }

    // A block begins.
    pub(crate) fn begin(&mut self) -> Result<(), Stop>
        ensures { Comes result (state_of self.new)
            (record (state_of self.old) { frames = machine.block ∷ (state_of self.old).frames }) }
    {
        push_block(&mut self.frames)?;
        Ok(())
    }

    // A condition without faults.
    fn guard(&mut self, alloc: Global, condition: &Formula) -> Result<(), Stop>
        requires { faults (entries (scope_of self.old.scope)) role.Condition (formula_of condition.now) ≡ [] }
        ensures { Comes result (state_of self.new) (guard_opened (state_of self.old) (formula_of condition.now)) }
    {
        let mut tests = Vec::new(alloc);
        push_tests(alloc, condition, self.scope.entries(), &mut tests)?;
        self.comparisons = raised(self.comparisons, tests.len())?;
        let outer = mem::replace(&mut self.trees, Vec::new(alloc));
        push_frame(&mut self.frames, Frame::Guarded(tests, outer))?;
        self.keep(Pending::Hand(Hand::Idle));
        Ok(())
    }

    pub(crate) fn guarded(&mut self, alloc: Global, condition: &Formula) -> Result<(), Stop>
        ensures { Comes result (state_of self.new) (guard_opened (state_of self.old) (formula_of condition.now)) }
    {
        checked(fault(alloc, condition, self.scope.entries(), Role::Condition))?;
        self.guard(alloc, condition)
    }

    // A loop's head without faults.
    fn open_loop(&mut self, alloc: Global, head: &LoopHead) -> Result<(), Stop>
        requires room { entries (scope_of self.old.scope) < 2 ^ 63 }
        requires clean { loop_faults (scope_of self.old.scope) (head_of head.now) ≡ [] }
        ensures { Comes result (state_of self.new) (loop_opened (state_of self.old) (head_of head.now)) }
    {
        let name = copied(alloc, head.iterator)?;
        let looped = loop_of(alloc, &self.scope, head)?;
        let outer = mem::replace(&mut self.trees, Vec::new(alloc));
        push_frame(&mut self.frames, Frame::Looped(looped, outer))?;
        push_name(&mut self.scope.open_loops, name)?;
        self.keep(Pending::Hand(Hand::Idle));
        Ok(())
    }

    fn looped(&mut self, alloc: Global, head: &LoopHead) -> Result<(), Stop>
        ensures { Comes result (state_of self.new) (loop_opened (state_of self.old) (head_of head.now)) }
    {
        if MOST_NAMES <= self.scope.entries() {
            return Err(Stop::NoMemory);
        }
        checked(loop_fault(alloc, &self.scope, head))?;
        self.open_loop(alloc, head)
    }

    // A head with its last part; the step changes the name at a place.
    pub(crate) fn stepped(
        &mut self,
        alloc: Global,
        words: &Words,
        sides: Sides,
        changed_at: usize,
        change: Change,
    ) -> Result<(), Stop>
        ensures { Comes result (state_of self.new) (loop_opened (state_of self.old)
            (whole_head (words_in words.now) (state_of self.old) sides.begun (formula_of sides.first)
            (formula_of sides.second) changed_at (change_of change))) }
    {
        let Sides {
            begun,
            first,
            second,
        } = sides;
        let iterator = words.spelling(begun.name_at);
        let meaning = self
            .scope
            .meaning_inside(iterator, words.spelling(changed_at));
        let head = LoopHead {
            place: begun.place,
            new: begun.new,
            name_at: begun.name_at,
            iterator,
            first,
            second,
            changed: Formula::Name(meaning, changed_at),
            change,
        };
        let opened = self.looped(alloc, &head);
        drop(head);
        opened
    }

    // A statement without faults.
    fn state(&mut self, alloc: Global, stored: &Stored) -> Result<(), Stop>
        requires { statement_faults (entries (scope_of self.old.scope)) self.old.comparisons self.old.before
            (stored_of stored.now) ≡ [] }
        ensures { Comes result (state_of self.new) (stated (state_of self.old) (stored_of stored.now)) }
    {
        let statement = statement_of(alloc, self.scope.entries(), stored)?;
        push_tree(&mut self.trees, Item::Stmt(statement))?;
        self.before = raised(self.before, 1)?;
        Ok(())
    }

    fn stated(&mut self, alloc: Global, stored: &Stored) -> Result<(), Stop>
        ensures { Comes result (state_of self.new) (stated (state_of self.old) (stored_of stored.now)) }
    {
        let entries = self.scope.entries();
        checked(statement_fault(alloc, entries, self.comparisons, self.before, stored))?;
        self.state(alloc, stored)
    }

    // A statement, and what it completes.
    pub(crate) fn valued(&mut self, alloc: Global, stored: &Stored) -> Result<(), Stop>
        ensures { Comes result (state_of self.new)
            (complete (stated (state_of self.old) (stored_of stored.now))) }
    {
        self.stated(alloc, stored)?;
        self.complete()
    }
}
