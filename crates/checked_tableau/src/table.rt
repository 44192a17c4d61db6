//! Rows in one buffer, a line each: the denominator, an entry for each column, the constant, and an entry
//! for each parameter.
ghost use Rattle.std.specs.Prelude.{◌≡◌, ◌↔◌, ℕ, ℤ, List, OnOk, ◌+◌, ◌*◌, ◌++◌, ◌<◌, ◌<ℤ◌, pos, length};
ghost use Rattle.std.specs.Prelude.{slice_index_or, take, map, Ok, Some, None, All, IfOk};
ghost use Rattle.std.specs.Option.{ForSome};
ghost use Rattle.wide_math.specs.Gives.{Becomes};
ghost use Rattle.affine_forms.specs.Parts.{variables_of};
ghost use Rattle.tableau_rows.specs.Rows.{entry, Sized};
ghost use Rattle.tableau_rows.specs.Problem.{first_rows, problem_of, IsPoint};
ghost use Rattle.tableau_rows.specs.Solutions.{HaveSameSolutions, IsSolution, IsTied};
ghost use Rattle.tableau_rows.specs.Moves.{HeadsPositive, column_run, cut_run, line_row, pivot_run, row_at, rows_in};
ghost use Rattle.tableau_rows.specs.Moves.{rows_run};
ghost use Rattle.lexmin_runs.specs.Nodes.{longer_row};
ghost use Rattle.checked_tableau.specs.Lines.{behind_columns};
ghost use Rattle.tableau_rows.specs.Run.{first_row, has_below, has_fraction, some_positive};
ghost use Rattle.checked_tableau.specs.Table.{Appends, Cuts, Moves, table_of, stride_of};

use crate::cuts::cut_line;
use crate::first::first_lines;
use crate::longer::longer_lines;
use crate::pivot::pivot_rows;
use crate::scans;
use crate::stop::TableauStop;
use affine_forms::Form;
use std::alloc::{AllocError, Global};
use std::marker::Model;
use wide_math::Wide;

/// Rows over unknowns and parameters. A move changes them in place; once a number was too wide, each move
/// answers so again.
#[derive(Drop)]
pub struct Rows {
    unknowns: usize,
    parameters: usize,
    count: usize,
    cells: Vec<i128>,
    line: Vec<i128>,
    stopped: Option<Wide>,
}

impl Model for Rows {
    ghost use Rattle.checked_tableau.specs.Table.{Table, table_in, IsSound};

    ghost Value = { Table };

    ghost view = { λ t. table_in t.unknowns t.parameters t.count t.cells.items t.stopped };

    ghost invariant = { λ t. IsSound t.unknowns t.parameters t.count t.cells.items t.line.items t.stopped };
}

/// How many numbers a line has, where a `usize` holds it.
fn stride_for(unknowns: usize, parameters: usize) -> Option<usize>
    ensures { ForSome result (λ n. n ≡ stride_of unknowns parameters) }
{
    match unknowns.checked_add(parameters) {
        None => None,
        Some(sum) => sum.checked_add(2),
    }
}

/// The line at `row`.
fn line_at(cells: &[i128], stride: usize, count: usize, row: usize) -> &[i128]
    requires size { length cells.now ≡ count * stride }
    requires row { row < count }
    ensures length { length result.now ≡ stride }
    ensures line { line_row result.now ≡ row_at (rows_in stride count cells.now) row }
{
    let start = row * stride;
    &cells[start..start + stride]
}

/// The pivot over the lines of a buffer. `line` is room for one.
fn pivot_lines(
    cells: &mut [i128],
    line: &mut [i128],
    count: usize,
    row: usize,
    column: usize,
) -> Result<(), Wide>
    requires size { length cells.old ≡ count * length line.old }
    requires row { row < count }
    requires column { column + 1 < length line.old }
    requires heads { HeadsPositive (length line.old) count cells.old }
    requires entry { pos 0 <ℤ entry (row_at (rows_in (length line.old) count cells.old) row) column }
    ensures { Becomes (rows_in (length line.old) count cells.new) result
        (rows_run row column (row_at (rows_in (length line.old) count cells.old) row) 0
        (rows_in (length line.old) count cells.old)) }
{
    line.copy_from_slice(line_at(cells, line.len(), count, row));
    pivot_rows(cells, line, count, row, column)
}

/// Appends the cut on a row, tied to a parameter or to none, to the lines of a buffer. `line` is room for one.
fn append_cut(
    cells: &mut Vec<i128>,
    line: &mut [i128],
    count: usize,
    row: usize,
    unknowns: usize,
    parameter: Option<usize>,
) -> Result<(), TableauStop>
    requires size { length cells.old.items ≡ count * length line.old }
    requires row { row < count }
    requires constant { unknowns + 1 < length line.old }
    requires parameter { (k : ℕ) → parameter ≡ Some k → unknowns + 2 + k < length line.old }
    requires sized { (m : ℕ) × Sized m (rows_in (length line.old) count cells.old.items) }
    ensures { Appends (length line.old) cells.old.items cells.new.items result
        (cut_run unknowns (behind_columns unknowns parameter)
        (row_at (rows_in (length line.old) count cells.old.items) row)) }
{
    line.copy_from_slice(line_at(cells, line.len(), count, row));
    match cut_line(line, unknowns, parameter) {
        Err(wide) => return Err(TableauStop::Wide(wide)),
        Ok(()) => {}
    }
    match cells.extend_from_slice(line) {
        Err(_) => Err(TableauStop::NoMemory),
        Ok(()) => Ok(()),
    }
}

impl Rows {
    /// The first rows of a problem: its unknowns are the columns, and its forms stand in two parts.
    ///
    /// # Errors
    /// `AllocError` alone.
    pub fn of(
        alloc: Global,
        unknowns: usize,
        parameters: usize,
        forms: &[Form],
        more: &[Form],
    ) -> Result<Rows, AllocError>
        requires forms { All (λ f. variables_of f ≡ unknowns + parameters) forms.now }
        requires more { All (λ f. variables_of f ≡ unknowns + parameters) more.now }
        ensures rows { IfOk result (λ t. t
            ≡ table_of unknowns parameters (first_rows parameters (problem_of unknowns (forms.now ++ more.now))) None) }
        ensures solutions { IfOk result (λ t. (p x : List ℤ) → length p ≡ parameters
            → IsPoint (problem_of unknowns (forms.now ++ more.now)) p x ↔ IsSolution unknowns t.rows p x) }
    {
        let stride = match stride_for(unknowns, parameters) {
            None => return Err(AllocError),
            Some(stride) => stride,
        };
        let mut line = match Vec::from_elem(alloc, 0i128, stride) {
            Err(error) => return Err(error),
            Ok(line) => line,
        };
        let cells = match first_lines(alloc, unknowns, forms, more, &mut line) {
            Err(error) => return Err(error),
            Ok(cells) => cells,
        };
        let front = match unknowns.checked_add(forms.len()) {
            None => return Err(AllocError),
            Some(front) => front,
        };
        let count = match front.checked_add(more.len()) {
            None => return Err(AllocError),
            Some(count) => count,
        };
        Ok(Rows {
            unknowns,
            parameters,
            count,
            cells,
            line,
            stopped: None,
        })
    }

    /// The same rows again.
    ///
    /// # Errors
    /// `AllocError` alone.
    pub fn copy(&self, alloc: Global) -> Result<Rows, AllocError>
        ensures { IfOk result (λ t. t ≡ self.now) }
    {
        let line = match Vec::from_slice(alloc, &self.line) {
            Err(error) => return Err(error),
            Ok(line) => line,
        };
        let cells = match Vec::from_slice(alloc, &self.cells) {
            Err(error) => return Err(error),
            Ok(cells) => cells,
        };
        Ok(Rows {
            unknowns: self.unknowns,
            parameters: self.parameters,
            count: self.count,
            cells,
            line,
            stopped: self.stopped,
        })
    }

    /// The rows with one parameter more, of which they do not speak.
    ///
    /// # Errors
    /// `AllocError` alone.
    pub fn widened(&self, alloc: Global) -> Result<Rows, AllocError>
        requires { self.now.stopped ≡ None }
        ensures { IfOk result (λ t. t ≡ table_of self.now.unknowns (self.now.parameters + 1)
            (map longer_row self.now.rows) None) }
    {
        let parameters = match self.parameters.checked_add(1) {
            None => return Err(AllocError),
            Some(parameters) => parameters,
        };
        let stride = match stride_for(self.unknowns, parameters) {
            None => return Err(AllocError),
            Some(stride) => stride,
        };
        let line = match Vec::from_elem(alloc, 0i128, stride) {
            Err(error) => return Err(error),
            Ok(line) => line,
        };
        match longer_lines(alloc, &self.cells, self.line.len(), self.count) {
            Err(error) => Err(error),
            Ok(cells) => Ok(Rows {
                unknowns: self.unknowns,
                parameters,
                count: self.count,
                cells,
                line,
                stopped: None,
            }),
        }
    }

    /// How many unknowns the rows have, and as many columns.
    pub fn unknowns(&self) -> usize
        ensures { result ≡ self.now.unknowns }
    {
        self.unknowns
    }

    /// How many parameters the rows have.
    pub fn parameters(&self) -> usize
        ensures { result ≡ self.now.parameters }
    {
        self.parameters
    }

    /// The number that was too wide, once one was.
    pub fn stopped(&self) -> Option<Wide>
        ensures { result ≡ self.now.stopped }
    {
        self.stopped
    }

    /// Stops the rows at a number that is too wide.
    pub fn stop(&mut self, wide: Wide)
        ensures { self.new ≡ record self.old { stopped = Some wide } }
    {
        self.stopped = Some(wide);
    }

    /// A row's numbers: the denominator, the columns, the constant, the parameters.
    #[tactic(auto, using(crate::proofs::Tables::tables))]
    pub fn line(&self, row: usize) -> &[i128]
        requires { row < length self.now.rows }
        ensures length { length result.now ≡ stride_of self.now.unknowns self.now.parameters }
        ensures line { line_row result.now ≡ row_at self.now.rows row }
        ensures positive { self.now.stopped ≡ None → pos 0 <ℤ slice_index_or result.now 0 (pos 0) }
    {
        line_at(&self.cells, self.line.len(), self.count, row)
    }

    /// How many rows there are.
    #[tactic(auto, using(crate::proofs::Tables::tables))]
    pub fn count(&self) -> usize
        ensures { result ≡ length self.now.rows }
    {
        self.count
    }

    /// The first row whose constant is below 0.
    pub fn first_below(&self) -> Option<usize>
        ensures first { result ≡ first_row (has_below self.now.unknowns) 0 self.now.rows }
        ensures inside { (r : ℕ) → result ≡ Some r → r < length self.now.rows }
    {
        scans::first_below(&self.cells, self.line.len(), self.count, self.unknowns)
    }

    /// The first row of an unknown whose constant its denominator does not divide.
    #[tactic(auto, using(crate::proofs::Tables::tables))]
    pub fn first_fraction(&self) -> Option<usize>
        requires { self.now.stopped ≡ None }
        ensures first { result ≡ first_row (has_fraction self.now.unknowns) 0 (take self.now.unknowns self.now.rows) }
        ensures inside { (r : ℕ) → result ≡ Some r → r < length self.now.rows }
    {
        let stride = self.line.len();
        let unknowns = &self.cells[..self.unknowns * stride];
        scans::first_fraction(unknowns, stride, self.unknowns, self.unknowns)
    }

    /// Whether a row has a positive entry in one of its columns.
    #[tactic(auto, using(crate::proofs::Tables::tables))]
    pub fn has_positive(&self, row: usize) -> bool
        requires { row < length self.now.rows }
        ensures { result ≡ some_positive (row_at self.now.rows row) 0 self.now.unknowns }
    {
        let line = line_at(&self.cells, self.line.len(), self.count, row);
        scans::has_positive(line, self.unknowns)
    }

    /// The column of the pivot on a row, if one has a positive entry there.
    ///
    /// # Errors
    /// `Wide` names the first product of the comparisons that 128 bits do not hold.
    #[tactic(auto, using(crate::proofs::Tables::tables))]
    pub fn column(&self, row: usize) -> Result<Option<usize>, Wide>
        requires { row < length self.now.rows }
        ensures run { result ≡ column_run (take self.now.unknowns self.now.rows) (row_at self.now.rows row)
            self.now.unknowns 0 None }
        ensures leads { (s : ℕ) → result ≡ Ok (Some s)
            → (s < self.now.unknowns) × (pos 0 <ℤ entry (row_at self.now.rows row) s) }
    {
        let stride = self.line.len();
        let pivot = line_at(&self.cells, stride, self.count, row);
        let unknowns = &self.cells[..self.unknowns * stride];
        scans::choose(unknowns, pivot, self.unknowns, self.unknowns)
    }

    /// The pivot on a row and a column. Takes no memory.
    ///
    /// # Errors
    /// `Wide` names the first number that 128 bits do not hold, rows from the first, in each the denominator
    /// and then the entries, before lowest terms; or the one at which an earlier move stopped.
    #[tactic(auto, using(crate::proofs::Tables::tables))]
    pub fn pivot(&mut self, row: usize, column: usize) -> Result<(), Wide>
        requires row { row < length self.old.rows }
        requires column { column < self.old.unknowns }
        requires entry { self.old.stopped ≡ None → pos 0 <ℤ entry (row_at self.old.rows row) column }
        ensures run { Moves self.old (rows_run row column (row_at self.old.rows row) 0 self.old.rows) self.new result }
        ensures solutions { OnOk result ((p : List ℤ) → length p ≡ self.old.parameters
            → HaveSameSolutions self.old.unknowns self.old.rows self.new.rows p) }
    {
        if let Some(wide) = self.stopped {
            return Err(wide);
        }
        match pivot_lines(&mut self.cells, &mut self.line, self.count, row, column) {
            Err(wide) => {
                self.stopped = Some(wide);
                Err(wide)
            }
            Ok(()) => Ok(()),
        }
    }

    /// The pivot on a row, in the column that the rows of the unknowns choose. Takes no memory.
    ///
    /// # Errors
    /// `Wide` names the first number that 128 bits do not hold, first of the choice, then of the pivot; or the one at
    /// which an earlier move stopped.
    pub fn pivot_on(&mut self, row: usize) -> Result<(), Wide>
        requires { row < length self.old.rows }
        ensures { Moves self.old (pivot_run self.old.unknowns self.old.rows row) self.new result }
    {
        if let Some(wide) = self.stopped {
            return Err(wide);
        }
        match self.column(row) {
            Err(wide) => {
                self.stopped = Some(wide);
                Err(wide)
            }
            Ok(None) => Ok(()),
            Ok(Some(column)) => self.pivot(row, column),
        }
    }

    /// The cut on a row behind the rows, tied to a parameter or to none. Takes its memory before it changes
    /// anything.
    ///
    /// # Errors
    /// `Wide` names the first opposite that 128 bits do not hold, the constant's first; or the number at which
    /// an earlier move stopped. Behind `NoMemory` the rows are as they were.
    pub fn cut(&mut self, row: usize, parameter: Option<usize>) -> Result<(), TableauStop>
        requires row { row < length self.old.rows }
        requires parameter { (k : ℕ) → parameter ≡ Some k → k < self.old.parameters }
        ensures run { Cuts self.old (cut_run self.old.unknowns (behind_columns self.old.unknowns parameter)
            (row_at self.old.rows row))
            self.new result }
        ensures solutions { OnOk result ((p : List ℤ) → length p ≡ self.old.parameters
            → IsTied self.old.unknowns (behind_columns self.old.unknowns parameter) (row_at self.old.rows row) p
            → HaveSameSolutions self.old.unknowns self.old.rows self.new.rows p) }
    {
        if let Some(wide) = self.stopped {
            return Err(TableauStop::Wide(wide));
        }
        match append_cut(
            &mut self.cells,
            &mut self.line,
            self.count,
            row,
            self.unknowns,
            parameter,
        ) {
            Err(TableauStop::Wide(wide)) => {
                self.stopped = Some(wide);
                Err(TableauStop::Wide(wide))
            }
            Err(TableauStop::NoMemory) => Err(TableauStop::NoMemory),
            Ok(()) => {
                self.count += 1;
                Ok(())
            }
        }
    }
}
