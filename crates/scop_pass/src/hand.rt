//! Signs and expressions behind what is in hand.

ghost use Rattle.std.specs.Prelude.{◌≡◌};
ghost use Rattle.scop_roles.specs.Formula.{formula_of, index};
ghost use Rattle.scop_roles.specs.Formula as formula;
ghost use Rattle.scop_pass.specs.declared.pending.Hand.TheVariants as hand;
ghost use Rattle.scop_pass.specs.declared.pending.StepRead.TheVariants as read;
ghost use Rattle.scop_pass.specs.Machine.{begun_step, change_step, change_whole, counted_sign, expects, first_sign};
ghost use Rattle.scop_pass.specs.Machine.{formula_step, idle_step, loop_begun, named_sign, placed, placed_step};
ghost use Rattle.scop_pass.specs.Machine.{sign_step};
ghost use Rattle.scop_pass.specs.Passing.{Comes, hand_of, pending_of, state_of};
ghost use Rattle.scop_units.specs.Scopes.{look};
ghost use Rattle.scop_units.specs.View.{scope_of, words_in};

use crate::pass::{Pass, Stop};
use crate::pending::{Begun, Hand, Pending, Sides, StepRead};
use scop_expressions::Count;
use scop_grammar::Mark;
use scop_roles::{Formula, Names, with_subscript};
use scop_units::{Change, Stored, Words};
use std::alloc::Global;
use std::mem;

impl Pass {
    // A place begins.
    fn place(&mut self, words: &Words, at: usize)
        ensures { state_of self.new ≡ expects (state_of self.old)
            (placed (formula.name ((look (words_in words.now) (scope_of self.old.scope)).meaning at) at)) }
    {
        let meaning = self.scope.meaning(words.spelling(at));
        self.keep(Pending::Hand(Hand::Placed(Formula::Name(meaning, at))));
    }

    // Dropped by a call: written out here, the drop of each shape would be proved anew.
    pub(crate) fn keep(&mut self, pending: Pending)
        ensures { state_of self.new ≡ expects (state_of self.old) (pending_of pending) }
    {
        drop(mem::replace(&mut self.pending, pending));
    }

    fn hold(&mut self, hand: Hand) -> Result<(), Stop>
        ensures { Comes result (state_of self.new) (expects (state_of self.old) (hand_of hand)) }
    {
        self.keep(Pending::Hand(hand));
        Ok(())
    }

    // A sign where nothing is pending.
    pub(crate) fn idle_step(
        &mut self,
        alloc: Global,
        words: &Words,
        mark: Mark,
        at: usize,
    ) -> Result<(), Stop>
        ensures { Comes result (state_of self.new)
            (idle_step (words_in words.now) (state_of self.old) mark at) }
    {
        match mark {
            Mark::Kernel => self.named(alloc, words, at),
            Mark::Number => self.numbered(alloc, words, at),
            Mark::Declared => self.declared(alloc, words, at),
            Mark::Array(width) => self.begin_array(alloc, width, at),
            Mark::Begin => self.begin(),
            Mark::End => self.end(),
            Mark::Empty => self.complete(),
            Mark::If => self.hold(Hand::Condition),
            Mark::For => self.hold(Hand::LoopBegun(at)),
            Mark::Place => {
                self.place(words, at);
                Ok(())
            }
            _ => Ok(()),
        }
    }

    // A loop's iterator.
    fn begun_step(&mut self, place: usize, mark: Mark, at: usize) -> Result<(), Stop>
        ensures { Comes result (state_of self.new)
            (begun_step (expects (state_of self.old) (loop_begun place)) place mark at) }
    {
        match mark {
            Mark::Iterator => self.hold(Hand::LoopNamed(Begun {
                place,
                new: false,
                name_at: at,
            })),
            Mark::NewIterator => self.hold(Hand::LoopNamed(Begun {
                place,
                new: true,
                name_at: at,
            })),
            _ => self.hold(Hand::LoopBegun(place)),
        }
    }

    // The first sign of a loop's step.
    fn first_sign(&mut self, sides: Sides, mark: Mark, at: usize) -> Result<(), Stop>
        ensures { Comes result (state_of self.new) (first_sign
            (expects (state_of self.old) (hand_of (hand.LoopStep sides read.Nothing)))
            sides.begun (formula_of sides.first) (formula_of sides.second) mark at) }
    {
        match mark {
            Mark::StepName => self.hold(Hand::LoopStep(sides, StepRead::Name(at))),
            Mark::Count(count) => self.hold(Hand::LoopStep(sides, StepRead::Count(count))),
            _ => self.hold(Hand::LoopStep(sides, StepRead::Nothing)),
        }
    }

    // A sign behind `++` or `--`.
    fn counted_sign(
        &mut self,
        alloc: Global,
        words: &Words,
        sides: Sides,
        count: Count,
        mark: Mark,
        at: usize,
    ) -> Result<(), Stop>
        ensures { Comes result (state_of self.new) (counted_sign (words_in words.now)
            (expects (state_of self.old) (hand_of (hand.LoopStep sides (read.Count count))))
            sides.begun (formula_of sides.first) (formula_of sides.second) count mark at) }
    {
        match mark {
            Mark::StepName => self.stepped(alloc, words, sides, at, Change::Counted(count)),
            _ => self.hold(Hand::LoopStep(sides, StepRead::Count(count))),
        }
    }

    // A sign behind the name that a step changes.
    fn named_sign(
        &mut self,
        alloc: Global,
        words: &Words,
        sides: Sides,
        name: usize,
        mark: Mark,
        at: usize,
    ) -> Result<(), Stop>
        ensures { Comes result (state_of self.new) (named_sign (words_in words.now)
            (expects (state_of self.old) (hand_of (hand.LoopStep sides (read.Name name))))
            sides.begun (formula_of sides.first) (formula_of sides.second) name mark at) }
    {
        match mark {
            Mark::Count(count) => {
                self.stepped(alloc, words, sides, name, Change::Counted(count))
            }
            Mark::Assign(assign) => {
                self.hold(Hand::LoopStep(sides, StepRead::Assignment(name, assign)))
            }
            _ => self.hold(Hand::LoopStep(sides, StepRead::Name(name))),
        }
    }

    // A sign of a loop's step.
    fn change_step(
        &mut self,
        alloc: Global,
        words: &Words,
        sides: Sides,
        read: StepRead,
        mark: Mark,
        at: usize,
    ) -> Result<(), Stop>
        ensures { Comes result (state_of self.new) (change_step (words_in words.now)
            (expects (state_of self.old) (hand_of (hand.LoopStep sides read)))
            sides.begun (formula_of sides.first) (formula_of sides.second) read mark at) }
    {
        match read {
            StepRead::Nothing => self.first_sign(sides, mark, at),
            StepRead::Count(count) => self.counted_sign(alloc, words, sides, count, mark, at),
            StepRead::Name(name) => self.named_sign(alloc, words, sides, name, mark, at),
            StepRead::Assignment(name, assign) => {
                self.hold(Hand::LoopStep(sides, StepRead::Assignment(name, assign)))
            }
        }
    }

    fn placed_step(&mut self, cell: Formula, mark: Mark, at: usize) -> Result<(), Stop>
        ensures { Comes result (state_of self.new) (placed_step
            (expects (state_of self.old) (placed (formula_of cell))) (formula_of cell) mark at) }
    {
        match mark {
            Mark::Assign(assign) => self.hold(Hand::Valued(cell, assign, at)),
            _ => self.hold(Hand::Placed(cell)),
        }
    }

    // A sign.
    pub(crate) fn sign_step(
        &mut self,
        alloc: Global,
        words: &Words,
        hand: Hand,
        mark: Mark,
        at: usize,
    ) -> Result<(), Stop>
        ensures { Comes result (state_of self.new) (sign_step (hand_of hand) (words_in words.now)
            (expects (state_of self.old) (hand_of hand)) mark at) }
    {
        match hand {
            Hand::Idle => {
                self.keep(Pending::Hand(Hand::Idle));
                self.idle_step(alloc, words, mark, at)
            }
            Hand::Condition => self.hold(Hand::Condition),
            Hand::LoopBegun(place) => self.begun_step(place, mark, at),
            Hand::LoopNamed(begun) => self.hold(Hand::LoopNamed(begun)),
            Hand::LoopFirst(begun, first) => self.hold(Hand::LoopFirst(begun, first)),
            Hand::LoopStep(sides, read) => self.change_step(alloc, words, sides, read, mark, at),
            Hand::Placed(cell) => self.placed_step(cell, mark, at),
            Hand::Valued(cell, assign, assign_at) => {
                self.hold(Hand::Valued(cell, assign, assign_at))
            }
        }
    }

    // An expression where none is wanted.
    fn unwanted(&mut self, hand: Hand, formula: Formula) -> Result<(), Stop>
        ensures { Comes result (state_of self.new) (expects (state_of self.old) (hand_of hand)) }
    {
        drop(formula);
        self.hold(hand)
    }

    // The right side of a loop's step.
    fn change_whole(
        &mut self,
        alloc: Global,
        words: &Words,
        sides: Sides,
        read: StepRead,
        formula: Formula,
    ) -> Result<(), Stop>
        ensures { Comes result (state_of self.new) (change_whole (words_in words.now)
            (expects (state_of self.old) (hand_of (hand.LoopStep sides read)))
            sides.begun (formula_of sides.first) (formula_of sides.second) read (formula_of formula)) }
    {
        match read {
            StepRead::Assignment(name, assign) => self.stepped(
                alloc,
                words,
                sides,
                name,
                Change::Assigned(assign, formula),
            ),
            StepRead::Nothing => {
                self.unwanted(Hand::LoopStep(sides, StepRead::Nothing), formula)
            }
            StepRead::Count(count) => {
                self.unwanted(Hand::LoopStep(sides, StepRead::Count(count)), formula)
            }
            StepRead::Name(name) => {
                self.unwanted(Hand::LoopStep(sides, StepRead::Name(name)), formula)
            }
        }
    }

    // A subscript of a place.
    fn subscript(&mut self, alloc: Global, cell: Formula, formula: Formula) -> Result<(), Stop>
        ensures { Comes result (state_of self.new)
            (expects (state_of self.old) (placed (index (formula_of cell) (formula_of formula)))) }
    {
        let cell = with_subscript(alloc, cell, formula)?;
        self.hold(Hand::Placed(cell))
    }

    // An expression's formula.
    pub(crate) fn hand_formula(
        &mut self,
        alloc: Global,
        words: &Words,
        hand: Hand,
        formula: Formula,
    ) -> Result<(), Stop>
        ensures { Comes result (state_of self.new) (formula_step (hand_of hand) (words_in words.now)
            (expects (state_of self.old) (hand_of hand)) (formula_of formula)) }
    {
        match hand {
            Hand::Condition => {
                let opened = self.guarded(alloc, &formula);
                drop(formula);
                opened
            }
            Hand::LoopNamed(begun) => self.hold(Hand::LoopFirst(begun, formula)),
            Hand::LoopFirst(begun, first) => {
                let sides = Sides {
                    begun,
                    first,
                    second: formula,
                };
                self.hold(Hand::LoopStep(sides, StepRead::Nothing))
            }
            Hand::LoopStep(sides, read) => self.change_whole(alloc, words, sides, read, formula),
            Hand::Placed(cell) => self.subscript(alloc, cell, formula),
            Hand::Valued(cell, assign, assign_at) => {
                let stored = Stored {
                    cell,
                    assign,
                    assign_at,
                    value: formula,
                };
                let done = self.valued(alloc, &stored);
                drop(stored);
                done
            }
            Hand::Idle => self.unwanted(Hand::Idle, formula),
            Hand::LoopBegun(place) => self.unwanted(Hand::LoopBegun(place), formula),
        }
    }
}
