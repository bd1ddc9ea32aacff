// What a node becomes, decided from its own words: `local_certifiable_atom_rewrite` without the writing.
ghost use Rattle.std.specs.Prelude.{◌≡◌, ◌∷◌, ◌++◌, ℕ};
ghost use Rattle.expr.specs.Expr.{unary, unary_number, unary_operand};
ghost use Rattle.expr.specs.declared.kind.Unary.TheVariants.{Not};
ghost use Rattle.expr.specs.Trees.{tree_of};
ghost use Rattle.rewriting.specs.AtomSimplifier.{not_rewrite, local_rewrite};
ghost use Rattle.atom_simplifier.specs.Promises.{Decides};

use crate::fold;
use crate::fold::{BinaryFold, Bitwise, NodeFold};
use crate::operands::Operands;
use expr::kind;
use expr::kind::{Binary, Unary};
use expr::tree::{Node, Tree};
use width::Width;

// A decision to rewrite. Places and lengths count the words of the node that it is about: the chain writes over these words, so that they cannot
// be lent here.
#[derive(Clone, Copy)]
pub(crate) enum Decision {
    // A part of the node's words: its place and its length.
    Part(usize, usize),
    Constant(u64),
    // The node's own kind over a part, by place and length, and a constant.
    Join(usize, usize, u64),
    // De Morgan's law for a Not over an And or Or: the place of the right operand.
    DeMorgan(usize),
}

// A Not over the tree: the operand of a second Not; De Morgan, where it is over an And or Or of which one operand is a Not.
#[tactic(auto, using(expr::specs::PartLaws::parts, crate::proofs::LocalLaws::not_rule))]
fn not_rewrite(below: Tree<'_>) -> Option<Decision>
    ensures { Decides (unary_number Not ∷ 0 ∷ below.entry.words.now) result (not_rewrite (tree_of below.entry)) }
{
    // by the kind word first: `node` passes over the left operand of a node of any kind, which is read of an And or Or alone
    if !matches!(below.words[0], kind::NOT | kind::AND | kind::OR) {
        return None;
    }
    match below.node() {
        Node::Unary(Unary::Not, operand) => Some(Decision::Part(4, operand.words.len())),
        Node::Binary(Binary::And | Binary::Or, l, r) => {
            if l.operand(Unary::Not).is_none() && r.operand(Unary::Not).is_none() {
                return None;
            }
            Some(Decision::DeMorgan(4 + l.words.len()))
        }
        _ => None,
    }
}

// A node with one child.
#[tactic(auto, using(crate::proofs::LocalLaws::unary_rule))]
fn unary_rewrite(kind: Unary, child: Tree<'_>) -> Option<Decision>
    ensures { (w : ℕ) → Decides (unary_number kind ∷ unary_operand kind ∷ child.entry.words.now) result (local_rewrite w (unary kind (tree_of child.entry))) }
{
    match kind {
        Unary::Not => not_rewrite(child),
        Unary::Shr(0) => Some(Decision::Part(2, child.words.len())),
        _ => None,
    }
}

impl NodeFold<'_> {
    // An And or Or of the same trees is one of them, and 3 and 1 are 1 whatever the width.
    fn rewrite(self) -> Option<Decision>
        ensures { Decides self.entry.operands.node.words.now result (local_rewrite self.entry.by.width.bits (tree_of self.entry.operands.node)) }
    {
        let width = self.by.width;
        let lhs = self.operands.lhs();
        let rhs = self.operands.rhs();
        if self.by.op != Bitwise::Xor && fold::same_part(lhs.tree, rhs.tree, width) {
            return Some(lhs.part());
        }
        if self.by.op == Bitwise::And
            && fold::is_constant(lhs.tree, 3, width)
            && fold::is_constant(rhs.tree, 1, width)
        {
            return Some(Decision::Constant(1));
        }
        self.try_fold_binary()
    }
}

// A node with two children.
#[tactic(auto, using(expr::specs::PartLaws::parts, crate::proofs::LocalLaws::binary_stays))]
pub(crate) fn binary_rewrite(operands: Operands<'_>, width: Width) -> Option<Decision>
    ensures { Decides operands.entry.node.words.now result (local_rewrite width.bits (tree_of operands.entry.node)) }
{
    // by the kind word, not by a `Binary`: the search and the chain know a node by its words alone
    let op = Bitwise::of(operands.node.words[0])?;
    let by = BinaryFold { op, width };
    NodeFold { by, operands }.rewrite()
}

// The root of a tree.
#[tactic(auto, using(crate::proofs::LocalLaws::root_rule))]
pub(crate) fn root_rewrite(tree: Tree<'_>, width: Width) -> Option<Decision>
    ensures { Decides tree.entry.words.now result (local_rewrite width.bits (tree_of tree.entry)) }
{
    match tree.node() {
        Node::Leaf(_) => None,
        Node::Unary(kind, child) => unary_rewrite(kind, child),
        Node::Binary(_, lhs, _) => {
            let right = 2 + lhs.words.len();
            binary_rewrite(Operands { node: tree, right }, width)
        }
    }
}
