//! A quast made node by node, in postfix order, by a run that goes depth first: no node moves.
ghost use Rattle.std.specs.Prelude.{◌≡◌, ◌≤◌, [], ◌∷◌, length, OnOk, OnErr};
ghost use Rattle.quast_trees.specs.Tree.{initial, leaf, Speaks};
ghost use Rattle.quast_trees.specs.Tree as Tree;
ghost use Rattle.quast_trees.specs.Source.{unnamed};
ghost use Rattle.quast_trees.specs.Postfix.{tree_of, read, built, standing, branched, bound, IsLeaf};

use crate::node::{Forms, Node};
use crate::quast::Quast;
use affine_forms::{Form, push};
use std::alloc::{AllocError, Global};
use std::marker::Model;

/// A stack of finished trees: a leaf goes on top, a branch joins the two on top, a bind takes the one on
/// top as its body. A call that finds no memory leaves the stack as it was.
#[derive(Drop)]
pub struct Builder {
    nodes: Vec<Node>,
    // Where each tree's nodes begin.
    starts: Vec<usize>,
}

impl Model for Builder {
    ghost use Rattle.std.specs.Prelude.{List};
    ghost use Rattle.quast_trees.specs.declared.node.Node.{Node};
    ghost use Rattle.quast_trees.specs.Postfix.{IsStack};

    ghost Value = { List Node };

    ghost view = { λ b. b.nodes.items };

    ghost invariant = { λ b. IsStack b.nodes.items b.starts.items };
}

impl Builder {
    /// No tree yet.
    pub fn new(alloc: Global) -> Builder
        ensures { standing result ≡ [] }
    {
        Builder {
            nodes: Vec::new(alloc),
            starts: Vec::new(alloc),
        }
    }

    /// How many trees stand.
    pub fn count(&self) -> usize
        ensures { result ≡ length (standing self.now) }
    {
        self.starts.len()
    }

    /// The initial value on top.
    pub fn initial(&mut self) -> Result<(), AllocError>
        ensures pushed { OnOk result (standing self.new ≡ initial ∷ standing self.old) }
        ensures kept { OnErr result (self.new ≡ self.old) }
    {
        self.start(Node::Initial)
    }

    /// Forms on top, each over `variables` variables.
    pub fn leaf(&mut self, variables: usize, forms: Vec<Form>) -> Result<(), AllocError>
        ensures pushed { OnOk result (standing self.new ≡ leaf (unnamed variables forms.items) ∷ standing self.old) }
        ensures kept { OnErr result (self.new ≡ self.old) }
    {
        self.start(Node::Forms(Forms {
            source: None,
            variables,
            forms,
        }))
    }

    /// Forms on top, with what they are an instance of, where that is known.
    pub fn source_leaf(&mut self, leaf: Forms) -> Result<(), AllocError>
        ensures pushed { OnOk result (standing self.new ≡ Tree.leaf leaf ∷ standing self.old) }
        ensures kept { OnErr result (self.new ≡ self.old) }
    {
        self.start(Node::Forms(leaf))
    }

    /// The two trees on top joined: the lower one where `test` is at least 0, else the upper one.
    pub fn branch(&mut self, test: Form) -> Result<(), AllocError>
        requires { 2 ≤ length (standing self.old) }
        ensures joined { OnOk result (standing self.new ≡ branched test (standing self.old)) }
        ensures kept { OnErr result (self.new ≡ self.old) }
    {
        let top = self.starts.len() - 1;
        let second = self.nodes.len() - self.starts[top];
        match push(&mut self.nodes, Node::Branch { test, second }) {
            Err(error) => Err(error),
            Ok(()) => {
                self.starts.truncate(top);
                Ok(())
            }
        }
    }

    /// The tree on top with its last variable bound to the quotient of `form` by `divisor`, rounded down.
    pub fn bind(&mut self, form: Form, divisor: i128) -> Result<(), AllocError>
        requires { 1 ≤ length (standing self.old) }
        ensures bound { OnOk result (standing self.new ≡ bound form divisor (standing self.old)) }
        ensures kept { OnErr result (self.new ≡ self.old) }
    {
        push(&mut self.nodes, Node::Bind { form, divisor })
    }

    /// The quast of the only tree that stands.
    pub fn finish(self, parameters: usize) -> Quast
        requires one { length (standing self) ≡ 1 }
        requires speaks { Speaks parameters (read self) }
        ensures parameters { result.parameters ≡ parameters }
        ensures tree { tree_of result ≡ read self }
    {
        Quast::of_nodes(parameters, self.nodes)
    }

    /// Where the trees take their memory.
    pub fn allocator(&self) -> Global {
        *self.nodes.allocator()
    }

    // A leaf's node on top, as a tree of its own.
    fn start(&mut self, leaf: Node) -> Result<(), AllocError>
        requires { IsLeaf leaf }
        ensures pushed { OnOk result (standing self.new ≡ built (standing self.old) leaf) }
        ensures kept { OnErr result (self.new ≡ self.old) }
    {
        let nodes = self.nodes.len();
        match push(&mut self.nodes, leaf) {
            Err(error) => Err(error),
            Ok(()) => match self.starts.push(nodes) {
                Err(_) => {
                    self.nodes.truncate(nodes);
                    Err(AllocError)
                }
                Ok(()) => Ok(()),
            },
        }
    }
}
