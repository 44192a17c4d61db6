//! The quast whose leaves have the values of given forms at those of another's.
ghost use Rattle.std.specs.Prelude.{◌≡◌, length, IfOk, All, Ok};
ghost use Rattle.affine_forms.specs.Gives.{Gives};
ghost use Rattle.quast_trees.specs.Postfix.{tree_of};
ghost use Rattle.quast_trees.specs.Mapped.{Suits, SuitsNode, IsMapped, map_run, node_run, leaf_run, composed_run};

use crate::naming::copied_source;
use crate::node::{Forms, Node};
use crate::quast::Quast;
use affine_forms::{Form, FormStop, push};
use std::alloc::Global;

impl Quast {
    /// The quast with each leaf's forms put in place of the variables of the given forms. Branches, binds
    /// and initial leaves stay.
    ///
    /// # Errors
    /// `Wide` exactly where a number of a composed form does not fit 128 bits: the first of them, the
    /// leaves from the first side of the root on, at each leaf the given forms in order.
    pub fn map(&self, forms: &[Form]) -> Result<Quast, FormStop>
        requires { Suits forms.now (tree_of self.now) }
        ensures parameters { IfOk result (λ q. q.parameters ≡ self.now.parameters) }
        ensures run { Gives tree_of result (map_run forms.now (tree_of self.now)) }
        ensures value { IfOk result (λ q. IsMapped forms.now self.now.parameters (tree_of self.now) (tree_of q)) }
    {
        let alloc = self.allocator();
        let nodes = self.nodes();
        let mut mapped = match Vec::with_capacity(alloc, nodes.len()) {
            Err(_) => return Err(FormStop::NoMemory),
            Ok(mapped) => mapped,
        };
        for node in nodes {
            match mapped_node(alloc, node, forms) {
                Err(stop) => return Err(stop),
                Ok(node) => match push(&mut mapped, node) {
                    Err(_) => return Err(FormStop::NoMemory),
                    Ok(()) => {}
                },
            }
        }
        Ok(Quast::of_nodes(self.parameters(), mapped))
    }
}

// A node, or the leaf's with the forms at its own.
fn mapped_node(alloc: Global, node: &Node, forms: &[Form]) -> Result<Node, FormStop>
    requires { SuitsNode forms.now node.now }
    ensures { Gives (λ n. n) result (node_run forms.now node.now) }
{
    match node {
        Node::Initial => Ok(Node::Initial),
        Node::Forms(leaf) => match mapped_leaf(alloc, leaf, forms) {
            Err(stop) => Err(stop),
            Ok(leaf) => Ok(Node::Forms(leaf)),
        },
        Node::Branch { test, second } => match test.copy() {
            Err(stop) => Err(stop),
            Ok(test) => Ok(Node::Branch {
                test,
                second: *second,
            }),
        },
        Node::Bind { form, divisor } => match form.copy() {
            Err(stop) => Err(stop),
            Ok(form) => Ok(Node::Bind {
                form,
                divisor: *divisor,
            }),
        },
    }
}

// A leaf with the forms at its own.
fn mapped_leaf(alloc: Global, leaf: &Forms, forms: &[Form]) -> Result<Forms, FormStop>
    requires inner { All (λ f. length f.coefficients ≡ leaf.now.variables) leaf.now.forms }
    requires forms { All (λ f. length f.coefficients ≡ length leaf.now.forms) forms.now }
    ensures { Gives (λ l. l) result (leaf_run forms.now leaf.now) }
{
    let composed = match composed(alloc, forms, &leaf.forms, leaf.variables) {
        Err(stop) => return Err(stop),
        Ok(composed) => composed,
    };
    match copied_source(alloc, &leaf.source) {
        Err(_) => Err(FormStop::NoMemory),
        Ok(source) => Ok(Forms {
            source,
            variables: leaf.variables,
            forms: composed,
        }),
    }
}

// Each form with the inner forms in place of its variables.
fn composed(
    alloc: Global,
    forms: &[Form],
    inner: &[Form],
    variables: usize,
) -> Result<Vec<Form>, FormStop>
    requires inner { All (λ f. length f.coefficients ≡ variables) inner.now }
    requires forms { All (λ f. length f.coefficients ≡ length inner.now) forms.now }
    ensures { Gives (λ v. v.items) result (composed_run forms.now inner.now variables) }
{
    let mut composed = match Vec::with_capacity(alloc, forms.len()) {
        Err(_) => return Err(FormStop::NoMemory),
        Ok(composed) => composed,
    };
    for form in forms {
        match form.compose(inner, variables) {
            Err(stop) => return Err(stop),
            Ok(form) => match push(&mut composed, form) {
                Err(_) => return Err(FormStop::NoMemory),
                Ok(()) => {}
            },
        }
    }
    Ok(composed)
}
