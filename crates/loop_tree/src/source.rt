//! The source's own loops as a loop tree: each loop runs over its turns, and the forms of bounds and comparisons are
//! composed to forms of turns. Promises exactly the tree of specs/Source.antt, which visits the kernel's walk.
ghost use Rattle.std.specs.Prelude.{
  ◌≡◌,
  ◌+◌,
  ◌<◌,
  ◌≤◌,
  ◌^◌,
  [],
  All,
  IfOk,
  List,
  OnOk,
  false,
  length,
  map,
  pos,
  unsigned_abs,
  ℤ,
};
ghost use Rattle.whole_numbers.specs.Affine.{composed};
ghost use Rattle.scop_syntax.specs.Kernel.{IsComparison, IsHead, IsKernel, test_form};
ghost use Rattle.scop_syntax.specs.Limits.{HasParameters};
ghost use Rattle.scop_syntax.specs.Statements.{loops_in};
ghost use Rattle.scop_syntax.specs.Tree.{guard as guarded_items, loop as repeated, more as followed, none as nothing};
ghost use Rattle.scop_syntax.specs.View.{items_of, program_of, test_of as comparison_of, tree_of as item_tree};
ghost use Rattle.scop_syntax.specs.Walk.{instance, statements_in, statements_in_all, walk_of};
ghost use Rattle.iteration_domains.specs.Path.{CanModel, path_of};
ghost use Rattle.iteration_domains.specs.Rows.{variable, variables};
ghost use Rattle.iteration_domains.specs.Sizes.{form_size};
ghost use Rattle.loop_tree.specs.Conditions.{CanWalk};
ghost use Rattle.loop_tree.specs.Marks.{FlatAll};
ghost use Rattle.loop_tree.specs.Shape.{AreSerial, TreesAreOf, TreesAreOver, TreesAreUpTo};
ghost use Rattle.loop_tree.specs.Source.{begun, first_turn, last_turn, point_at, source, source_of, sources, test_over};
ghost use Rattle.loop_tree.specs.steps.Placing.{CanBegin, CanPlace, CanTest};
ghost use Rattle.loop_tree.specs.Source.{variables_at};
ghost use Rattle.loop_tree.specs.Tree.{only};
ghost use Rattle.loop_tree.specs.View.{bounds_in, nodes_of, test_of, tree_of, trees_in};
ghost use Rattle.loop_tree.specs.Walk.{visits};

use crate::source_laws::source_trees_visit_the_walk;
use crate::tree::{Bound, Bounds, Guard, Leaf, Loop, Node, Test, Tree};
use iteration_domains::{
    Form, Path, Scope, compose, enter_loop, enter_scope, push, rows_within, variable_form,
};
use scop_syntax::{
    Aff, Guard as SourceGuard, Item, Kernel, Loop as SourceLoop, Test as Comparison,
};
use std::alloc::{AllocError, Global};

/// A small number as one of a tree.
fn narrow_number(number: i128) -> i64
    requires { unsigned_abs number ≤ 2 ^ 50 }
    ensures { result ≡ number }
{
    number as i64
}

/// Small numbers as those of a tree.
fn narrow_numbers(alloc: Global, numbers: &[i128]) -> Result<Vec<i64>, AllocError>
    requires { All (λ x. unsigned_abs x ≤ 2 ^ 50) numbers.now }
    ensures { IfOk result (λ xs. xs.items ≡ numbers.now) }
{
    numbers
        .iter()
        .map(|number| narrow_number(*number))
        .collect(alloc)
}

/// A form of small numbers as one of a tree.
fn narrow(alloc: Global, form: &Form) -> Result<Aff, AllocError>
    requires { form_size form.now ≤ 2 ^ 50 }
    ensures { IfOk result (λ a. a ≡ form.now) }
{
    let coefficients = narrow_numbers(alloc, form.coefficients())?;
    let constant = narrow_number(form.constant());
    Ok(Aff {
        coefficients,
        constant,
    })
}

/// The variable `at` of so many variables.
fn unit(alloc: Global, variables: usize, at: usize) -> Result<Aff, AllocError>
    requires { at < variables }
    ensures { IfOk result (λ a. a ≡ variable variables at) }
{
    let form = variable_form(alloc, variables, at)?;
    narrow(alloc, &form)
}

/// The source's point at `path`, as forms over the turns of the loops round it and the parameters.
fn point_forms(alloc: Global, path: &Path) -> Result<Vec<Form>, AllocError>
    requires { CanModel (path_of path.now) nothing }
    ensures { IfOk result (λ fs. fs.items ≡ point_at (path_of path.now)) }
{
    let rows = rows_within(
        alloc,
        path.scopes.as_slice(),
        path.parameters,
        path.loops.len(),
    )?;
    Ok(rows.forms)
}

/// Turn 0 over so many variables.
fn first_bound(alloc: Global, variables: usize) -> Result<Bound, AllocError>
    ensures { IfOk result (λ b. b ≡ first_turn variables) }
{
    match Vec::from_elem(alloc, 0i64, variables) {
        Err(_) => Err(AllocError),
        Ok(coefficients) => Ok(Bound {
            form: Aff {
                coefficients,
                constant: 0,
            },
            divisor: 1,
        }),
    }
}

/// A loop's condition at turn 0, where the point round it has these forms.
fn first_condition(
    alloc: Global,
    first: &Aff,
    condition: &Aff,
    forms: &mut Vec<Form>,
    variables: usize,
) -> Result<Aff, AllocError>
    requires { CanBegin variables forms.old.items first.now condition.now }
    ensures { IfOk result (λ a. a ≡ begun variables forms.old.items first.now condition.now) }
{
    let first = compose(alloc, first, forms.as_slice(), variables)?;
    push(forms, first)?;
    let condition = compose(alloc, condition, forms.as_slice(), variables)?;
    narrow(alloc, &condition)
}

/// By how much a loop's condition falls a turn.
fn slope(stride: i64) -> i64
    requires { unsigned_abs stride ≤ 16 }
    ensures { result ≡ pos (unsigned_abs stride) }
{
    stride.unsigned_abs() as i64
}

/// The last turn of a loop at `path`.
fn last_bound(alloc: Global, path: &Path, head: &SourceLoop) -> Result<Bound, AllocError>
    requires place { CanModel (path_of path.now) nothing }
    requires head { IsHead (path.now.parameters + loops_in (path_of path.now).scopes) head.now }
    ensures { IfOk result (λ b. b
        ≡ last_turn (variables_at (path_of path.now)) (point_at (path_of path.now)) head.now) }
{
    let mut forms = point_forms(alloc, path)?;
    let variables = path.loops.len() + path.parameters;
    let form = first_condition(alloc, &head.first, &head.condition, &mut forms, variables)?;
    Ok(Bound {
        form,
        divisor: slope(head.stride),
    })
}

/// The head of a loop at `path`.
fn loop_at(alloc: Global, path: &Path, head: &SourceLoop) -> Result<Loop, AllocError>
    requires place { CanModel (path_of path.now) nothing }
    requires head { IsHead (path.now.parameters + loops_in (path_of path.now).scopes) head.now }
    ensures serial { IfOk result (λ l. l.parallel ≡ false) }
    ensures lower { IfOk result (λ l. bounds_in l.lower ≡ only (first_turn (variables_at (path_of path.now)))) }
    ensures upper { IfOk result (λ l. bounds_in l.upper
        ≡ only (last_turn (variables_at (path_of path.now)) (point_at (path_of path.now)) head.now)) }
{
    let first = first_bound(alloc, path.loops.len() + path.parameters)?;
    let last = last_bound(alloc, path, head)?;
    Ok(Loop {
        parallel: false,
        lower: Bounds {
            first,
            others: Vec::new(alloc),
        },
        upper: Bounds {
            first: last,
            others: Vec::new(alloc),
        },
    })
}

/// A comparison, where the point has these forms over so many variables.
fn test_at(
    alloc: Global,
    test: &Comparison,
    forms: &[Form],
    variables: usize,
) -> Result<Test, AllocError>
    requires { CanTest variables forms.now (comparison_of test.now) }
    ensures { IfOk result (λ t. test_of t ≡ test_over variables forms.now (comparison_of test.now)) }
{
    match test {
        Comparison::AtLeast(form) => {
            let composed = compose(alloc, form, forms, variables)?;
            Ok(Test::AtLeast(narrow(alloc, &composed)?))
        }
        Comparison::Equal(form) => {
            let composed = compose(alloc, form, forms, variables)?;
            Ok(Test::Equal(narrow(alloc, &composed)?))
        }
    }
}

/// Comparisons, where the point has these forms over so many variables.
fn tests_at(
    alloc: Global,
    tests: &[Comparison],
    forms: &[Form],
    variables: usize,
) -> Result<Vec<Test>, AllocError>
    requires { All (λ test. CanTest variables forms.now (comparison_of test)) tests.now }
    ensures { IfOk result (λ ts. map test_of ts.items
        ≡ map (test_over variables forms.now) (map comparison_of tests.now)) }
{
    let mut composed = Vec::new(alloc);
    for test in tests {
        push(&mut composed, test_at(alloc, test, forms, variables)?)?;
    }
    Ok(composed)
}

/// The tests of a guard at `path`.
fn guard_at(alloc: Global, path: &Path, guarded: &SourceGuard) -> Result<Guard, AllocError>
    requires place { CanModel (path_of path.now) nothing }
    requires tests { All (λ test. IsComparison (path.now.parameters + loops_in (path_of path.now).scopes)
        (test_form test)) (map comparison_of guarded.now.tests.items) }
    ensures { IfOk result (λ g. map test_of g.tests.items
        ≡ map (test_over (variables_at (path_of path.now)) (point_at (path_of path.now)))
        (map comparison_of guarded.now.tests.items)) }
{
    let forms = point_forms(alloc, path)?;
    let variables = path.loops.len() + path.parameters;
    let tests = tests_at(alloc, guarded.tests.as_slice(), forms.as_slice(), variables)?;
    Ok(Guard { tests })
}

/// The first of so many variables.
fn units(alloc: Global, of: usize, count: usize) -> Result<Vec<Aff>, AllocError>
    requires { count ≤ of }
    ensures { IfOk result (λ fs. fs.items ≡ variables of 0 count) }
{
    let mut forms = Vec::new(alloc);
    for at in 0..count {
        push(&mut forms, unit(alloc, of, at)?)?;
    }
    Ok(forms)
}

/// The statement at `path` with this number.
fn leaf_at(alloc: Global, path: &Path, statement: usize) -> Result<Leaf, AllocError>
    requires { CanModel (path_of path.now) nothing }
    ensures { IfOk result (λ l. (l.statement ≡ statement)
        × (l.turns.items ≡ variables (variables_at (path_of path.now)) 0 (length path.now.loops.items))) }
{
    let loops = path.loops.len();
    let turns = units(alloc, loops + path.parameters, loops)?;
    Ok(Leaf { statement, turns })
}

/// The nodes of `items`, which stand at `path` behind so many statements.
#[cycle(placing)]
fn place_items<'a>(
    alloc: Global,
    items: &'a [Item],
    path: &mut Path<'a>,
    counted: &mut usize,
) -> Result<Vec<Node>, AllocError>
    requires { CanPlace (path_of path.old) (items_of items.now) counted.old }
    ensures nodes { IfOk result (λ ns. nodes_of ns.items
        ≡ sources (path_of path.old) (items_of items.now) counted.old) }
    ensures path { OnOk result (path_of path.new ≡ path_of path.old) }
    ensures counted { OnOk result (counted.new ≡ counted.old + statements_in_all (items_of items.now)) }
{
    let mut nodes = Vec::new(alloc);
    for item in items {
        push(&mut nodes, place_item(alloc, item, path, counted)?)?;
    }
    Ok(nodes)
}

/// The node of `item`.
#[cycle(placing)]
fn place_item<'a>(
    alloc: Global,
    item: &'a Item,
    path: &mut Path<'a>,
    counted: &mut usize,
) -> Result<Node, AllocError>
    requires { CanPlace (path_of path.old) (followed (item_tree item.now) nothing) counted.old }
    ensures node { IfOk result (λ n. tree_of n ≡ source (path_of path.old) (item_tree item.now) counted.old) }
    ensures path { OnOk result (path_of path.new ≡ path_of path.old) }
    ensures counted { OnOk result (counted.new ≡ counted.old + statements_in (item_tree item.now)) }
{
    match item {
        Item::Loop(head, body) => place_loop(alloc, head, body, path, counted),
        Item::Guard(guarded, body) => place_guard(alloc, guarded, body, path, counted),
        Item::Stmt(_) => {
            let leaf = leaf_at(alloc, path, *counted)?;
            *counted += 1;
            Ok(Node::Instance(leaf))
        }
    }
}

/// The node of a loop.
#[cycle(placing)]
fn place_loop<'a>(
    alloc: Global,
    head: &'a SourceLoop,
    body: &'a [Item],
    path: &mut Path<'a>,
    counted: &mut usize,
) -> Result<Node, AllocError>
    requires { CanPlace (path_of path.old) (followed (repeated head.now (items_of body.now)) nothing) counted.old }
    ensures node { IfOk result (λ n. tree_of n
        ≡ source (path_of path.old) (repeated head.now (items_of body.now)) counted.old) }
    ensures path { OnOk result (path_of path.new ≡ path_of path.old) }
    ensures counted { OnOk result (counted.new ≡ counted.old + statements_in_all (items_of body.now)) }
{
    let looped = loop_at(alloc, path, head)?;
    enter_scope(path, Scope::Round(head))?;
    enter_loop(path, *counted)?;
    let nodes = place_items(alloc, body, path, counted)?;
    let _loop = path.loops.pop();
    let _scope = path.scopes.pop();
    Ok(Node::Loop(looped, nodes))
}

/// The node of a guard.
#[cycle(placing)]
fn place_guard<'a>(
    alloc: Global,
    guarded: &'a SourceGuard,
    body: &'a [Item],
    path: &mut Path<'a>,
    counted: &mut usize,
) -> Result<Node, AllocError>
    requires { CanPlace (path_of path.old)
        (followed (guarded_items (map comparison_of guarded.now.tests.items) (items_of body.now)) nothing) counted.old }
    ensures node { IfOk result (λ n. tree_of n ≡ source (path_of path.old)
        (guarded_items (map comparison_of guarded.now.tests.items) (items_of body.now)) counted.old) }
    ensures path { OnOk result (path_of path.new ≡ path_of path.old) }
    ensures counted { OnOk result (counted.new ≡ counted.old + statements_in_all (items_of body.now)) }
{
    let guard = guard_at(alloc, path, guarded)?;
    enter_scope(path, Scope::Under(guarded))?;
    let nodes = place_items(alloc, body, path, counted)?;
    let _scope = path.scopes.pop();
    Ok(Node::Guard(guard, nodes))
}

/// The tree of a kernel.
fn place_kernel(alloc: Global, kernel: &Kernel) -> Result<Tree, AllocError>
    requires { IsKernel (program_of kernel.now) }
    ensures { IfOk result (λ t. trees_in t ≡ source_of (program_of kernel.now)) }
{
    let parameters = kernel.parameters.len();
    let mut path = Path {
        parameters,
        scopes: Vec::new(alloc),
        loops: Vec::new(alloc),
    };
    let mut counted = 0;
    let nodes = place_items(alloc, &kernel.items, &mut path, &mut counted)?;
    Ok(Tree { nodes })
}

impl Tree {
    /// The source's own loops of `kernel`. The tree visits exactly the kernel's walk.
    ///
    /// # Errors
    /// `AllocError` alone.
    pub fn of_source(alloc: Global, kernel: &Kernel) -> Result<Tree, AllocError>
        requires { IsKernel (program_of kernel.now) }
        ensures tree { IfOk result (λ t. trees_in t ≡ source_of (program_of kernel.now)) }
        ensures visits { IfOk result (λ t. (params : List ℤ)
            → length params ≡ length (program_of kernel.now).parameters
            → visits (trees_in t) params ≡ map instance (walk_of (program_of kernel.now) params)) }
        ensures walk { IfOk result (λ t. (params : List ℤ) → HasParameters (program_of kernel.now) params
            → CanWalk (trees_in t) params []) }
        ensures flat { IfOk result (λ t. FlatAll (trees_in t)) }
        ensures serial { IfOk result (λ t. AreSerial (trees_in t)) }
        ensures over { IfOk result (λ t. TreesAreOver (length (program_of kernel.now).parameters) (trees_in t)) }
        ensures instances { IfOk result (λ t. TreesAreOf (program_of kernel.now) (trees_in t)) }
        ensures small { IfOk result (λ t. TreesAreUpTo (2 ^ 45) (trees_in t)) }
    {
        source_trees_visit_the_walk();
        let tree = place_kernel(alloc, kernel)?;
        Ok(tree)
    }
}
