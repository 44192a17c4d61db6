//! A node: a tableau, a context of rows over its parameters, and the parameters that cuts have bound. A move changes
//! it in place; a cut or a split takes its memory before it changes anything.
ghost use Rattle.std.specs.Prelude.{◌≡◌, ℕ, ◌+◌, ◌<◌, length, All, None, Some, Ok, Err, IfOk, IfErr, OnErr, OnOk};
ghost use Rattle.affine_forms.specs.Gives.{Gives};
ghost use Rattle.affine_forms.specs.Parts.{variables_of};
ghost use Rattle.wide_math.specs.declared.Wide.{Wide};
ghost use Rattle.checked_tableau.specs.Moves.{row_at};
ghost use Rattle.checked_tableau.specs.Problem.{problem_of};
ghost use Rattle.checked_tableau.specs.Nodes.{first_node, goes, opposite_run, part_of, side, split, cut, taken_off};
ghost use Rattle.checked_tableau.specs.Solutions.{ArePlaced, IsNode};
ghost use Rattle.checked_tableau.specs.declared.stop.TableauStop.TheVariants as stop;
ghost use Rattle.pip_solver.specs.declared.node.Move.TheVariants as move;
ghost use Rattle.pip_solver.specs.Node.{node_of, next_of, IsGoing, Keeps, Pivots, Moves};
ghost use Rattle.pip_solver.specs.steps.Cuts.{cut_known, cut_new, BindsOn};
ghost use Rattle.pip_solver.specs.Node.{StopsAt};

use crate::bounds::{Bound, bind_front, copied_bounds, place_of};
use crate::forms::{copies_with, opposite, tied_forms};
use crate::parts::{all_zero, part_of, taken_off};
use crate::ties::tied_parts;
use affine_forms::{Form, FormStop, copies, push};
use checked_tableau::{Problem, Rows, TableauStop};
use std::alloc::{AllocError, Global};
use std::mem;
use wide_math::Wide;

/// A node of the run.
#[derive(Drop)]
pub struct Tableau {
    /// Whether the node begins: whether its context has a point is still to be asked.
    pub begins: bool,
    /// The rows, over the unknowns' columns and the parameters.
    pub rows: Rows,
    /// Forms over the parameters that are at least 0.
    pub context: Vec<Form>,
    /// The parameters that cuts have bound, the last in front.
    pub bounds: Vec<Bound>,
}

/// What a move leads to.
#[derive(Drop)]
pub enum Move {
    /// The node goes on.
    Goes,
    /// It goes on with one parameter more, the quotient of a form by a divisor.
    Binds { form: Form, divisor: i128 },
    /// It is the side on which a form is at least 0, beside the one on which it is below.
    Splits { test: Form, second: Tableau },
}

impl Tableau {
    /// The first node of a problem.
    ///
    /// # Errors
    /// `AllocError` alone.
    pub fn of(alloc: Global, problem: &Problem) -> Result<Tableau, AllocError>
        requires { All (λ f. variables_of f ≡ problem.now.unknowns + problem.now.parameters) problem.now.rows.items }
        ensures node { IfOk result (λ t. node_of t
            ≡ first_node problem.now.parameters (problem_of problem.now.unknowns problem.now.rows.items)
            problem.now.context.items) }
        ensures going { IfOk result (IsGoing problem.now.unknowns) }
    {
        let rows = match Rows::of(
            alloc,
            problem.unknowns,
            problem.parameters,
            &problem.rows,
            &[],
        ) {
            Err(error) => return Err(error),
            Ok(rows) => rows,
        };
        let context = match copies(alloc, &problem.context) {
            Err(error) => return Err(error),
            Ok(context) => context,
        };
        Ok(Tableau {
            begins: true,
            rows,
            context,
            bounds: Vec::new(alloc),
        })
    }

    /// The pivot on a row, in the column that the rows of the unknowns choose. Takes no memory.
    ///
    /// # Errors
    /// `Wide` names the first number that 128 bits do not hold; or the one at which an earlier move stopped.
    pub fn pivot(&mut self, row: usize) -> Result<(), Wide>
        requires { row < length self.old.rows.rows }
        ensures run { self.old.rows.stopped ≡ None → Pivots self.old row self.new result }
        ensures again { (w : Wide) → self.old.rows.stopped ≡ Some w
            → (result ≡ Err w) × StopsAt w self.old self.new }
        ensures solutions { self.old.rows.stopped ≡ None → IsNode self.old.rows.unknowns (node_of self.old)
            → OnOk result (Keeps self.old (goes (node_of self.new))) }
    {
        self.pivot_rows(row)
    }

    // The pivot, as the run's.
    fn pivot_rows(&mut self, row: usize) -> Result<(), Wide>
        requires { row < length self.old.rows.rows }
        ensures run { self.old.rows.stopped ≡ None → Pivots self.old row self.new result }
        ensures again { (w : Wide) → self.old.rows.stopped ≡ Some w
            → (result ≡ Err w) × StopsAt w self.old self.new }
    {
        match self.rows.pivot_on(row) {
            Err(wide) => Err(wide),
            Ok(()) => {
                self.begins = false;
                Ok(())
            }
        }
    }

    /// The split on a row's part: the node becomes the side on which it is at least 0, beside the one on which it is at
    /// most -1.
    ///
    /// # Errors
    /// `Wide` names the first opposite that 128 bits do not hold, or the number at which an earlier move stopped.
    /// Behind `NoMemory` the node is as it was.
    pub fn split(&mut self, alloc: Global, row: usize) -> Result<Move, TableauStop>
        requires { row < length self.old.rows.rows }
        ensures run { self.old.rows.stopped ≡ None → Moves self.old
            (λ left. split left (node_of self.old) (part_of self.old.rows.unknowns (row_at self.old.rows.rows row)))
            self.new result }
        ensures again { (w : Wide) → self.old.rows.stopped ≡ Some w
            → (result ≡ Err (stop.Wide w)) × StopsAt w self.old self.new }
        ensures solutions { self.old.rows.stopped ≡ None → IsNode self.old.rows.unknowns (node_of self.old)
            → IfOk result (λ move. Keeps self.old (next_of move self.new)) }
    {
        self.split_rows(alloc, row)
    }

    // The split, as the run's.
    fn split_rows(&mut self, alloc: Global, row: usize) -> Result<Move, TableauStop>
        requires { row < length self.old.rows.rows }
        ensures run { self.old.rows.stopped ≡ None → Moves self.old
            (λ left. split left (node_of self.old) (part_of self.old.rows.unknowns (row_at self.old.rows.rows row)))
            self.new result }
        ensures again { (w : Wide) → self.old.rows.stopped ≡ Some w
            → (result ≡ Err (stop.Wide w)) × StopsAt w self.old self.new }
    {
        if let Some(wide) = self.rows.stopped() {
            return Err(TableauStop::Wide(wide));
        }
        let (test, opposite) = match split_forms(alloc, &self.rows, row) {
            Err(FormStop::NoMemory) => return Err(TableauStop::NoMemory),
            Err(FormStop::Wide(wide)) => {
                self.rows.stop(wide);
                return Err(TableauStop::Wide(wide));
            }
            Ok(forms) => forms,
        };
        match self.split_on(alloc, &test, opposite) {
            Err(_) => Err(TableauStop::NoMemory),
            Ok(second) => Ok(Move::Splits { test, second }),
        }
    }

    // The node becomes the side of a split on which a form is at least 0, beside the one on which another is.
    fn split_on(&mut self, alloc: Global, form: &Form, other: Form) -> Result<Tableau, AllocError>
        ensures beside { IfOk result (λ t. (node_of t ≡ side (node_of self.old) other) × (t.rows ≡ self.old.rows)) }
        ensures goes { OnOk result (node_of self.new ≡ side (node_of self.old) form.now) }
        ensures stays { OnErr result (node_of self.new ≡ node_of self.old) }
        ensures rows { self.new.rows ≡ self.old.rows }
    {
        let part = match form.copy() {
            Err(_) => return Err(AllocError),
            Ok(part) => part,
        };
        let second = match self.side(alloc, other) {
            Err(error) => return Err(error),
            Ok(second) => second,
        };
        match push(&mut self.context, part) {
            Err(error) => Err(error),
            Ok(()) => {
                self.begins = true;
                Ok(second)
            }
        }
    }

    /// The cut on a row of an unknown, tied to the quotient of what it takes off: none where that has no parameter, the
    /// parameter that is bound to it, or a new one.
    ///
    /// # Errors
    /// `Wide` names the first number that 128 bits do not hold, or the one at which an earlier move stopped. Behind
    /// `NoMemory` the node is as it was.
    pub fn cut(&mut self, alloc: Global, row: usize) -> Result<Move, TableauStop>
        requires row { row < length self.old.rows.rows }
        requires placed { self.old.rows.stopped ≡ None → ArePlaced self.old.rows.parameters self.old.bounds.items }
        ensures run { self.old.rows.stopped ≡ None
            → Moves self.old (λ left. cut self.old.rows.unknowns left (node_of self.old) row) self.new result }
        ensures again { (w : Wide) → self.old.rows.stopped ≡ Some w
            → (result ≡ Err (stop.Wide w)) × StopsAt w self.old self.new }
        ensures solutions { self.old.rows.stopped ≡ None → IsNode self.old.rows.unknowns (node_of self.old)
            → row < self.old.rows.unknowns → IfOk result (λ move. Keeps self.old (next_of move self.new)) }
    {
        self.cut_rows(alloc, row)
    }

    // The cut, as the run's.
    fn cut_rows(&mut self, alloc: Global, row: usize) -> Result<Move, TableauStop>
        requires row { row < length self.old.rows.rows }
        requires placed { self.old.rows.stopped ≡ None → ArePlaced self.old.rows.parameters self.old.bounds.items }
        ensures run { self.old.rows.stopped ≡ None
            → Moves self.old (λ left. cut self.old.rows.unknowns left (node_of self.old) row) self.new result }
        ensures again { (w : Wide) → self.old.rows.stopped ≡ Some w
            → (result ≡ Err (stop.Wide w)) × StopsAt w self.old self.new }
    {
        match self.rows.stopped() {
            Some(wide) => Err(TableauStop::Wide(wide)),
            None => self.cut_going(alloc, row),
        }
    }

    // The cut of a node at which no number was too wide.
    fn cut_going(&mut self, alloc: Global, row: usize) -> Result<Move, TableauStop>
        requires row { row < length self.old.rows.rows }
        requires going { self.old.rows.stopped ≡ None }
        requires placed { ArePlaced self.old.rows.parameters self.old.bounds.items }
        ensures { Moves self.old (λ left. cut self.old.rows.unknowns left (node_of self.old) row) self.new result }
    {
        let form = match taken_off(alloc, &self.rows, row) {
            Err(_) => return Err(TableauStop::NoMemory),
            Ok(form) => form,
        };
        if all_zero(form.coefficients()) {
            return self.cut_known(row, None);
        }
        match place_of(&form, self.rows.line(row)[0], &self.bounds) {
            Some(place) => self.cut_known(row, Some(place)),
            None => self.cut_new(alloc, row, form),
        }
    }

    // The cut on a row, tied to a parameter that stands, or to none.
    fn cut_known(&mut self, row: usize, parameter: Option<usize>) -> Result<Move, TableauStop>
        requires row { row < length self.old.rows.rows }
        requires going { self.old.rows.stopped ≡ None }
        requires parameter { (k : ℕ) → parameter ≡ Some k → k < self.old.rows.parameters }
        ensures { Moves self.old (λ left. cut_known self.old.rows.unknowns left (node_of self.old) row parameter)
            self.new result }
    {
        match self.rows.cut(row, parameter) {
            Err(stop) => Err(stop),
            Ok(()) => {
                self.begins = false;
                Ok(Move::Goes)
            }
        }
    }

    // The cut on a row, tied to a new parameter, the quotient of what it takes off.
    fn cut_new(&mut self, alloc: Global, row: usize, form: Form) -> Result<Move, TableauStop>
        requires row { row < length self.old.rows.rows }
        requires going { self.old.rows.stopped ≡ None }
        requires form { form ≡ taken_off self.old.rows.unknowns (row_at self.old.rows.rows row) }
        ensures { Moves self.old (λ left. cut_new self.old.rows.unknowns left (node_of self.old) row) self.new result }
    {
        let divisor = self.rows.line(row)[0];
        match self.cut_tied(alloc, row, &form, divisor) {
            Err(stop) => Err(stop),
            Ok(()) => Ok(Move::Binds { form, divisor }),
        }
    }

    // The cut on a row, tied to a new parameter, without what is told of it.
    fn cut_tied(
        &mut self,
        alloc: Global,
        row: usize,
        form: &Form,
        divisor: i128,
    ) -> Result<(), TableauStop>
        requires row { row < length self.old.rows.rows }
        requires going { self.old.rows.stopped ≡ None }
        requires form { form.now ≡ taken_off self.old.rows.unknowns (row_at self.old.rows.rows row) }
        requires divisor { divisor ≡ (row_at self.old.rows.rows row).denominator }
        ensures binds { OnOk result (Moves self.old
            (λ left. cut_new self.old.rows.unknowns left (node_of self.old) row)
            self.new (Ok (move.Binds form.now divisor))) }
        ensures stops { IfErr result (λ e. Moves self.old
            (λ left. cut_new self.old.rows.unknowns left (node_of self.old) row) self.new (Err e)) }
    {
        match tied_parts(alloc, &self.rows, row, divisor, form) {
            Err(TableauStop::NoMemory) => Err(TableauStop::NoMemory),
            Err(TableauStop::Wide(wide)) => {
                self.rows.stop(wide);
                Err(TableauStop::Wide(wide))
            }
            Ok((rows, low, high)) => match self.bind(alloc, rows, form, divisor, low, high) {
                Err(_) => Err(TableauStop::NoMemory),
                Ok(()) => Ok(()),
            },
        }
    }

    // The node over one parameter more, with these rows and the two forms that tie the parameter.
    fn bind(
        &mut self,
        alloc: Global,
        rows: Rows,
        form: &Form,
        divisor: i128,
        low: Form,
        high: Form,
    ) -> Result<(), AllocError>
        ensures { BindsOn self.old rows form.now divisor low high self.new result }
    {
        let context = match tied_forms(alloc, &self.context, low, high) {
            Err(error) => return Err(error),
            Ok(context) => context,
        };
        let place = self.rows.parameters();
        match bind_front(alloc, &mut self.bounds, form, divisor, place) {
            Err(error) => Err(error),
            Ok(()) => {
                self.begins = false;
                drop(mem::replace(&mut self.rows, rows));
                drop(mem::replace(&mut self.context, context));
                Ok(())
            }
        }
    }

    // The side of a split on which a form is at least 0, as a node of its own.
    fn side(&self, alloc: Global, form: Form) -> Result<Tableau, AllocError>
        ensures node { IfOk result (λ t. node_of t ≡ side (node_of self.now) form) }
        ensures rows { IfOk result (λ t. t.rows ≡ self.now.rows) }
    {
        let context = match copies_with(alloc, &self.context, form) {
            Err(error) => return Err(error),
            Ok(context) => context,
        };
        let bounds = match copied_bounds(alloc, &self.bounds) {
            Err(error) => return Err(error),
            Ok(bounds) => bounds,
        };
        match self.rows.copy(alloc) {
            Err(error) => Err(error),
            Ok(rows) => Ok(Tableau {
                begins: true,
                rows,
                context,
                bounds,
            }),
        }
    }
}

// A row's part, and its opposite.
fn split_forms(alloc: Global, rows: &Rows, row: usize) -> Result<(Form, Form), FormStop>
    requires { row < length rows.now.rows }
    ensures part { IfOk result (λ p. p.0 ≡ part_of rows.now.unknowns (row_at rows.now.rows row)) }
    ensures opposite { Gives (λ p. p.1) result (opposite_run (part_of rows.now.unknowns (row_at rows.now.rows row))) }
{
    let part = match part_of(alloc, rows, row) {
        Err(_) => return Err(FormStop::NoMemory),
        Ok(part) => part,
    };
    match opposite(alloc, &part) {
        Err(stop) => Err(stop),
        Ok(opposite) => Ok((part, opposite)),
    }
}
