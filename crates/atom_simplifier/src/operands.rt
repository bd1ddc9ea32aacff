// The operands of a node, by their words and where these begin in the node's.
ghost use Rattle.std.specs.Prelude.{◌≡◌, ◌+◌, ◌≤◌, length, get_or};
ghost use Rattle.expr.specs.Outcome.{accepted};
ghost use Rattle.expr.specs.Expr.{encode};
ghost use Rattle.expr.specs.Parse.{arity_of};
ghost use Rattle.expr.specs.Front.{tree_at, left_of};

use crate::local::Decision;
use expr::kind::Binary;
use expr::tree::Tree;

// A part of a node's words, and its place in them: the chain writes over these words, so that no decision about the node can lend them.
#[derive(Clone, Copy)]
pub(crate) struct Placed<'a> {
    pub(crate) tree: Tree<'a>,
    pub(crate) at: usize,
    ghost inside: { at + length tree.words.now ≤ 1024 },
}

impl<'a> Placed<'a> {
    ghost use Rattle.expr.specs.Trees.{tree_of, operands_of};
    ghost use Rattle.atom_simplifier.specs.Promises.{part_of, placed_trees, AreBelow};

    // That it takes the node's place.
    pub(crate) fn part(self) -> Decision
        ensures { result ≡ part_of self.entry }
    {
        Decision::Part(self.at, self.tree.words.len())
    }

    // Its operands, where it is a node of that kind.
    #[tactic(auto, using(crate::proofs::DecideLaws::placed))]
    pub(crate) fn operands(self, kind: Binary) -> Option<(Placed<'a>, Placed<'a>)>
        ensures trees { placed_trees result ≡ operands_of kind (tree_of self.entry.tree) }
        ensures places { AreBelow self.entry result }
    {
        let (l, r) = self.tree.operands(kind)?;
        let left = self.at + 2;
        let right = left + l.words.len();
        Some((Placed { tree: l, at: left }, Placed { tree: r, at: right }))
    }
}

// A node over two children, and the place of the right one's words.
// Promises' `HasArity` cannot be asked for here: Promises imports `Placed`, and that is an import cycle.
#[derive(Clone, Copy)]
pub(crate) struct Operands<'a> {
    pub(crate) node: Tree<'a>,
    pub(crate) right: usize,
    ghost two_children: { arity_of (get_or node.words.now 0 0) ≡ accepted 2 },
    ghost right_is: { right ≡ 2 + length (encode (left_of (tree_at node.words.now))) },
}

impl<'a> Operands<'a> {
    ghost use Rattle.expr.specs.Front.{right_of};
    ghost use Rattle.expr.specs.Trees.{tree_of};
    ghost use Rattle.expr.specs.Parts.{part, tail};

    #[tactic(auto, using(expr::specs::PartLaws::parts, expr::specs::PartLaws::left_tree))]
    pub(crate) fn lhs(self) -> Placed<'a>
        ensures tree { tree_of result.tree ≡ left_of (tree_of self.entry.node) }
        ensures words { result.tree.words.now ≡ part 2 self.entry.right self.entry.node.words.now }
        ensures place { result.at ≡ 2 }
    {
        let node = self.node.words;
        let tree = Tree {
            words: &node[2..self.right],
        };
        Placed { tree, at: 2 }
    }

    #[tactic(auto, using(expr::specs::PartLaws::parts, expr::specs::PartLaws::right_tree))]
    pub(crate) fn rhs(self) -> Placed<'a>
        ensures tree { tree_of result.tree ≡ right_of (tree_of self.entry.node) }
        ensures words { result.tree.words.now ≡ tail self.entry.right self.entry.node.words.now }
        ensures place { result.at ≡ self.entry.right }
    {
        let node = self.node.words;
        let tree = Tree {
            words: &node[self.right..],
        };
        Placed {
            tree,
            at: self.right,
        }
    }
}
