//! A quast and what makes one. A tree is put together from its sides by moving their nodes, and is
//! dropped, like every list, without recursion.
ghost use Rattle.std.specs.Prelude.{◌≡◌, ◌+◌, pos, ◌≤ℤ◌, [], ◌∷◌, ◌++◌, length, IfOk, All};
ghost use Rattle.quast_trees.specs.Tree.{initial, leaf, branch, bind, count, Speaks};
ghost use Rattle.quast_trees.specs.Source.{unnamed};
ghost use Rattle.quast_trees.specs.Postfix.{held, tree_of, written, IsQuast};

use crate::node::{Forms, Node};
use affine_forms::{Form, copies, push};
use std::alloc::{AllocError, Global};
use std::marker::Model;

/// The answer of a parametric problem: a selection tree over `parameters` parameters.
#[derive(Drop)]
pub struct Quast {
    parameters: usize,
    nodes: Vec<Node>,
}

impl Model for Quast {
    ghost use Rattle.quast_trees.specs.Postfix.{Postfix, held, IsQuast};

    ghost Value = { Postfix };

    ghost view = { λ q. held q.parameters q.nodes.items };

    ghost invariant = { λ q. IsQuast (held q.parameters q.nodes.items) };
}

impl Quast {
    /// The initial value at every point.
    pub fn initial(alloc: Global, parameters: usize) -> Result<Quast, AllocError>
        ensures parameters { IfOk result (λ q. q.parameters ≡ parameters) }
        ensures tree { IfOk result (λ q. tree_of q ≡ initial) }
    {
        Quast::ending(parameters, Vec::new(alloc), Node::Initial)
    }

    /// Forms over the parameters, at every point.
    pub fn leaf(alloc: Global, parameters: usize, forms: &[Form]) -> Result<Quast, AllocError>
        requires { All (λ f. length f.coefficients ≡ parameters) forms.now }
        ensures parameters { IfOk result (λ q. q.parameters ≡ parameters) }
        ensures tree { IfOk result (λ q. tree_of q ≡ leaf (unnamed parameters forms.now)) }
    {
        let forms = match copies(alloc, forms) {
            Err(error) => return Err(error),
            Ok(forms) => forms,
        };
        let leaf = Forms {
            source: None,
            variables: parameters,
            forms,
        };
        Quast::ending(parameters, Vec::new(alloc), Node::Forms(leaf))
    }

    /// The first quast where `test` is at least 0, else the second, whose nodes move behind the first's: the
    /// time is that of the second's nodes.
    pub fn branch(test: Form, first: Quast, second: Quast) -> Result<Quast, AllocError>
        requires parameters { first.parameters ≡ second.parameters }
        requires test { length test.coefficients ≡ first.parameters }
        ensures parameters { IfOk result (λ q. q.parameters ≡ first.parameters) }
        ensures tree { IfOk result (λ q. tree_of q ≡ branch test (tree_of first) (tree_of second)) }
    {
        let Quast {
            parameters,
            mut nodes,
        } = first;
        let Quast {
            nodes: mut behind,
            ..
        } = second;
        let second = behind.len();
        if nodes.append(&mut behind).is_err() {
            return Err(AllocError);
        }
        Quast::ending(parameters, nodes, Node::Branch { test, second })
    }

    /// `body` with its last parameter bound to the quotient of `form` by `divisor`, rounded down.
    pub fn bind(form: Form, divisor: i128, body: Quast) -> Result<Quast, AllocError>
        requires parameters { body.parameters ≡ length form.coefficients + 1 }
        requires divisor { pos 1 ≤ℤ divisor }
        ensures parameters { IfOk result (λ q. q.parameters ≡ length form.coefficients) }
        ensures tree { IfOk result (λ q. tree_of q ≡ bind form divisor (tree_of body)) }
    {
        let parameters = form.variables();
        Quast::ending(parameters, body.nodes, Node::Bind { form, divisor })
    }

    /// How many parameters the quast has: a point has a value for each.
    pub fn parameters(&self) -> usize
        ensures { result ≡ self.now.parameters }
    {
        self.parameters
    }

    /// How many nodes the tree has.
    pub fn count(&self) -> usize
        ensures { result ≡ count (tree_of self.now) }
    {
        self.nodes.len()
    }

    /// The tree's nodes in postfix order.
    pub fn nodes(&self) -> &[Node]
        ensures nodes { result.now ≡ written (tree_of self.now) }
        ensures speaks { Speaks self.now.parameters (tree_of self.now) }
    {
        &self.nodes
    }

    /// Where the quast takes its memory.
    pub fn allocator(&self) -> Global {
        *self.nodes.allocator()
    }

    // The parameters and the nodes.
    pub(crate) fn into_nodes(self) -> (usize, Vec<Node>)
        ensures parameters { result.0 ≡ self.parameters }
        ensures nodes { result.1.items ≡ written (tree_of self) }
        ensures speaks { Speaks self.parameters (tree_of self) }
    {
        (self.parameters, self.nodes)
    }

    // The quast of these nodes and one more, its root.
    fn ending(parameters: usize, mut nodes: Vec<Node>, root: Node) -> Result<Quast, AllocError>
        requires { IsQuast (held parameters (nodes.items ++ root ∷ [])) }
        ensures { IfOk result (λ q. q ≡ held parameters (nodes.items ++ root ∷ [])) }
    {
        match push(&mut nodes, root) {
            Err(error) => Err(error),
            Ok(()) => Ok(Quast::of_nodes(parameters, nodes)),
        }
    }

    // The quast of these nodes.
    pub(crate) fn of_nodes(parameters: usize, nodes: Vec<Node>) -> Quast
        requires { IsQuast (held parameters nodes.items) }
        ensures { result ≡ held parameters nodes.items }
    {
        Quast { parameters, nodes }
    }
}
