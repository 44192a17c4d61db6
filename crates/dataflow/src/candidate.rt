//! A candidate solved: its problem's minimum, for a last writer turned back into the greatest writer's turns, as a
//! quast over the kernel's parameters and then the reader's turns.
ghost use Rattle.std.specs.Prelude.{◌≡◌, IfOk, ℕ, Ok, Some, slice_get};
ghost use Rattle.quast_trees.specs.Postfix.{tree_of};
ghost use Rattle.quast_trees.specs.Mapped.{map_run};
ghost use Rattle.quast_trees.specs.Tree.{LeavesHave};
ghost use Rattle.quast_joins.specs.Limits.{leaf_limit};
ghost use Rattle.scop_syntax.specs.Members.{In};
ghost use Rattle.conflict_deps.specs.Conflicts.{conflicts_of};
ghost use Rattle.dataflow.specs.Posed.{CanPose, IsOfKernel};
ghost use Rattle.dataflow.specs.Problems.{all_below, top};
ghost use Rattle.dataflow.specs.Sources.{reader_end, writer_end};
ghost use Rattle.dataflow.specs.steps.Steps.{HeldOver, IsToldAs, Solves, node_fits, nodes_fit, tree_held};
ghost use Rattle.dataflow.specs.WriterRuns.{form_fits, forms_fit, fitting, number_fits, turned_back, wide_leaf};

use crate::ends::{reader_end, writer_end};
use crate::forms::push_below;
use crate::problem::{TOP, posed};
use affine_forms::{Form, FormStop};
use conflict_deps::systems_have_parts;
use iteration_domains::{Dep, Model, StatementModel};
use pip_solver::{Stop, lexmin};
use quast_joins::Way;
use quast_trees::{Node, Quast};
use scop_syntax::statements_are_numbered;
use std::alloc::{AllocError, Global};

// 2^125.
const LIMIT: i128 = 42_535_295_865_117_307_932_921_825_928_971_026_432;

// Whether a number is at most 2^125 in absolute value.
fn number_fits(number: i128) -> bool
    ensures { result ≡ number_fits leaf_limit number }
{
    -LIMIT <= number && number <= LIMIT
}

// Whether each number of a form is.
fn form_fits(form: &Form) -> bool
    ensures { result ≡ form_fits leaf_limit form.now }
{
    for coefficient in form.coefficients() {
        if !number_fits(*coefficient) {
            return false;
        }
    }
    number_fits(form.constant())
}

// Whether each number of some forms is.
fn forms_fit(forms: &[Form]) -> bool
    ensures { result ≡ forms_fit leaf_limit forms.now }
{
    for form in forms {
        if !form_fits(form) {
            return false;
        }
    }
    true
}

// Whether each number of a node's forms is, if it is a leaf's.
fn node_fits(node: &Node) -> bool
    ensures { result ≡ node_fits leaf_limit node.now }
{
    match node {
        Node::Forms(leaf) => forms_fit(&leaf.forms),
        _ => true,
    }
}

// Whether those of each node are.
fn nodes_fit(nodes: &[Node]) -> bool
    ensures { result ≡ nodes_fit leaf_limit nodes.now }
{
    for node in nodes {
        if !node_fits(node) {
            return false;
        }
    }
    true
}

// The quast, if its leaves are not too wide.
fn fitting(quast: Quast) -> Option<Quast>
    ensures tree { tree_held result ≡ fitting (Ok (tree_of quast)) }
    ensures parameters { HeldOver quast.parameters result }
{
    if nodes_fit(quast.nodes()) {
        Some(quast)
    } else {
        None
    }
}

// The quast with 2^46 less each form of its leaves in the form's place, if its leaves are not too wide.
fn greatest_of(alloc: Global, unknowns: usize, least: &Quast) -> Result<Option<Quast>, AllocError>
    requires { LeavesHave unknowns (tree_of least.now) }
    ensures tree { IfOk result
        (λ o. tree_held o ≡ fitting (map_run (all_below top unknowns 0 unknowns) (tree_of least.now))) }
    ensures parameters { IfOk result (HeldOver least.now.parameters) }
{
    let mut forms = Vec::new(alloc);
    push_below(alloc, &mut forms, TOP, unknowns, 0, unknowns)?;
    match least.map(&forms) {
        Err(FormStop::NoMemory) => Err(AllocError),
        Err(FormStop::Wide(_)) => Ok(None),
        Ok(greatest) => Ok(fitting(greatest)),
    }
}

// The writer's turns in place of the minimum, if their leaves are not too wide.
fn turned_back(
    alloc: Global,
    way: Way,
    unknowns: usize,
    least: Quast,
) -> Result<Option<Quast>, AllocError>
    requires { LeavesHave unknowns (tree_of least) }
    ensures tree { IfOk result (λ o. tree_held o ≡ fitting (turned_back way unknowns (tree_of least))) }
    ensures parameters { IfOk result (HeldOver least.parameters) }
{
    match way {
        Way::Later => greatest_of(alloc, unknowns, &least),
        Way::Earlier => Ok(fitting(least)),
    }
}

// A number of a leaf is too wide: told with 0 moves.
fn too_wide(
    alloc: Global,
    way: Way,
    model: &Model,
    writer: &StatementModel,
    reader: &StatementModel,
    dep: &Dep,
) -> Stop
    requires can { CanPose model.now.parameters writer.now reader.now dep.now }
    requires writer { slice_get model.now.statements (writer_end way dep.now).statement ≡ Some writer.now }
    requires reader { slice_get model.now.statements (reader_end way dep.now).statement ≡ Some reader.now }
    ensures { (budget : ℕ) → IsToldAs way model.now budget result (wide_leaf dep.now) }
{
    match posed(alloc, way, model.parameters(), writer, reader, dep) {
        Err(_) => Stop::NoMemory,
        Ok(problem) => Stop::Wide {
            posed: problem,
            moves: 0,
        },
    }
}

// The quast of a candidate between a writer and a reader.
fn solved_between(
    alloc: Global,
    way: Way,
    model: &Model,
    writer: &StatementModel,
    reader: &StatementModel,
    dep: &Dep,
    budget: u64,
) -> Result<Quast, Stop>
    requires can { CanPose model.now.parameters writer.now reader.now dep.now }
    requires writer { slice_get model.now.statements (writer_end way dep.now).statement ≡ Some writer.now }
    requires reader { slice_get model.now.statements (reader_end way dep.now).statement ≡ Some reader.now }
    ensures { Solves way model.now budget dep.now result }
{
    let problem = match posed(alloc, way, model.parameters(), writer, reader, dep) {
        Err(_) => return Err(Stop::NoMemory),
        Ok(problem) => problem,
    };
    let least = match lexmin(alloc, problem, budget) {
        Err(stop) => return Err(stop),
        Ok(least) => least,
    };
    match turned_back(alloc, way, writer.loops().len(), least) {
        Err(_) => Err(Stop::NoMemory),
        Ok(None) => Err(too_wide(alloc, way, model, writer, reader, dep)),
        Ok(Some(wanted)) => {
            match wanted.named(writer_end(way, dep).statement, writer.loops()) {
                Err(_) => Err(Stop::NoMemory),
                Ok(named) => Ok(named),
            }
        }
    }
}

/// The quast of a candidate of a kernel's model: its last writers, or its next ones.
///
/// # Errors
/// The stop of its problem; `Wide` after 0 moves where a number of a leaf is beyond 2^125.
pub fn solved(alloc: Global, way: Way, model: &Model, dep: &Dep, budget: u64) -> Result<Quast, Stop>
    requires kernel { IsOfKernel model.now }
    requires dep { In dep.now (conflicts_of model.now) }
    ensures { Solves way model.now budget dep.now result }
{
    statements_are_numbered();
    systems_have_parts();
    let writes = writer_end(way, dep).statement;
    let reads = reader_end(way, dep).statement;
    let statements = model.statements();
    let writer = &statements[writes];
    let reader = &statements[reads];
    solved_between(alloc, way, model, writer, reader, dep, budget)
}
