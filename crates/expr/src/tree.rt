// A tree, by its words.
ghost use Rattle.std.specs.Prelude.{◌≡◌, ◌≤◌, length};
ghost use Rattle.expr.specs.Front.{Leads, Whole};

use crate::kind::{Binary, Leaf, Unary};
use crate::refusal::Refusal;
use crate::{Arity, arity_of, check_tree, kind, same_words, span};

// The words of a tree, exactly; no other words make one. They may have more levels than those of a tree that is read.
#[derive(Clone, Copy)]
pub struct Tree<'a> {
    pub words: &'a [u64],
    pub ghost whole: { Whole words.now },
    pub ghost short: { length words.now ≤ 1024 },
}

// The words that a walk has before it: they begin with those of a tree.
#[derive(Clone, Copy)]
pub struct Walk<'a> {
    pub words: &'a [u64],
    pub ghost leads: { Leads words.now },
    pub ghost short: { length words.now ≤ 1024 },
}

// A node over the trees below it.
#[derive(Clone, Copy)]
pub enum Node<'a> {
    Leaf(Leaf),
    Unary(Unary, Tree<'a>),
    Binary(Binary, Tree<'a>, Tree<'a>),
}

impl<'a> Tree<'a> {
    ghost use Rattle.expr.specs.Expr.{encode, nodes};
    ghost use Rattle.expr.specs.Front.{left_of, right_of};
    ghost use Rattle.expr.specs.Outcome.{accepted, mapped};
    ghost use Rattle.expr.specs.Optional.{option_of};
    ghost use Rattle.expr.specs.Parse.{parse, arity_of};
    ghost use Rattle.expr.specs.SameWords.{same_words};
    ghost use Rattle.expr.specs.Answers.{outcome};
    ghost use Rattle.expr.specs.Trees.{tree_of, node_of, constant_of, operand_of, operands_of, optional_tree, optional_trees};
    ghost use Rattle.expr.specs.Room.{room_for};
    ghost use Rattle.std.specs.Prelude.{get_or, ◌+◌, ◌*◌};

    // The tree that the words are, or the refusal.
    #[tactic(auto, using(crate::proofs::ChildLaws::reading))]
    pub fn read(words: &'a [u64]) -> Result<Tree<'a>, Refusal>
        ensures { mapped tree_of (outcome result) ≡ parse words.now }
    {
        check_tree(words)?;
        Ok(Tree { words })
    }

    // The number of nodes.
    #[tactic(auto, using(crate::proofs::ChildLaws::half))]
    pub fn nodes(self) -> usize
        ensures { result ≡ nodes (tree_of self.entry) }
    {
        self.words.len() / 2
    }

    // The tree, where so many words have room for so many nodes more than it has.
    pub fn with_room(self, room: usize, more: usize) -> Result<Tree<'a>, Refusal>
        ensures { mapped tree_of (outcome result) ≡ room_for (λ t. 2 * (nodes t + more)) room (tree_of self.entry) }
    {
        if room / 2 < self.nodes().saturating_add(more) {
            return Err(Refusal::OutputTooSmall);
        }
        Ok(self)
    }

    // The word of a Constant.
    #[inline]
    #[tactic(auto, using(crate::specs::PartLaws::parts, crate::proofs::ChildLaws::no_constant, crate::proofs::ChildLaws::constant_word))]
    pub fn constant(self) -> Option<u64>
        ensures { option_of result ≡ constant_of (tree_of self.entry) }
    {
        let words = self.words;
        (words[0] == kind::CONSTANT).then_some(words[1])
    }

    // The operand, where it is a node of that kind.
    #[inline]
    pub fn operand(self, kind: Unary) -> Option<Tree<'a>>
        ensures { optional_tree result ≡ operand_of kind (tree_of self.entry) }
    {
        let words = self.words;
        if words[0] != kind.number() {
            return None;
        }
        if words[1] != kind.operand() {
            return None;
        }
        Some(Tree { words: &words[2..] })
    }

    // Where the right operand's words begin. Not inlined, so that what first asks for the kind stays small.
    #[inline(never)]
    fn right_at(self) -> usize
        requires { arity_of (get_or self.words.now 0 0) ≡ accepted 2 }
        ensures { result ≡ 2 + length (encode (left_of (tree_of self.entry))) }
    {
        let words = self.words;
        // a tree's words are not refused
        2 + span(&words[2..]).unwrap()
    }

    // The operands of a node with two.
    fn both(self) -> (Tree<'a>, Tree<'a>)
        requires { arity_of (get_or self.words.now 0 0) ≡ accepted 2 }
        ensures { (tree_of result.0 ≡ left_of (tree_of self.entry)) × (tree_of result.1 ≡ right_of (tree_of self.entry)) }
    {
        let words = self.words;
        let right = self.right_at();
        let l = Tree {
            words: &words[2..right],
        };
        let r = Tree {
            words: &words[right..],
        };
        (l, r)
    }

    // The operands, where it is a node of that kind.
    #[inline]
    pub fn operands(self, kind: Binary) -> Option<(Tree<'a>, Tree<'a>)>
        ensures { optional_trees result ≡ operands_of kind (tree_of self.entry) }
    {
        let words = self.words;
        if words[0] != kind.number() {
            return None;
        }
        Some(self.both())
    }

    // The root, with what is below it.
    #[inline]
    pub fn node(self) -> Node<'a>
        ensures { node_of result ≡ tree_of self.entry }
    {
        let words = self.words;
        match arity_of(words[0]).unwrap() {
            Arity::Zero => Node::Leaf(Leaf::of(words[0], words[1])),
            Arity::One => {
                let child = Tree { words: &words[2..] };
                Node::Unary(Unary::of(words[0], words[1]), child)
            }
            Arity::Two => {
                let (l, r) = self.both();
                Node::Binary(Binary::of(words[0]), l, r)
            }
        }
    }

    // Whether the trees are equal: their words are the same.
    pub fn expr_eq(self, other: Tree<'_>) -> bool
        ensures { result ≡ same_words (encode (tree_of self.entry)) (encode (tree_of other.entry)) }
    {
        same_words(self.words, other.words)
    }
}

impl<'a> Walk<'a> {
    ghost use Rattle.expr.specs.Answers.{children_of};
    ghost use Rattle.expr.specs.Outcome.{accepted};
    ghost use Rattle.expr.specs.Parse.{arity_of};
    ghost use Rattle.std.specs.Prelude.{get_or};

    // Over the whole tree.
    #[tactic(auto, using(crate::proofs::ChildLaws::whole_leads))]
    pub fn over(tree: Tree<'a>) -> Walk<'a>
        ensures { result.words.now ≡ tree.entry.words.now }
    {
        Walk { words: tree.words }
    }

    // The number of children of the tree's root.
    #[inline]
    #[tactic(auto, using(crate::specs::PartLaws::lead_starts, crate::specs::FrontLaws::has_kind, crate::specs::FrontLaws::has_arity, crate::specs::FrontLaws::known_arity))]
    pub fn arity(self) -> Arity
        ensures { accepted (children_of result) ≡ arity_of (get_or self.entry.words.now 0 0) }
    {
        let words = self.words;
        // a tree's kind is not refused
        arity_of(words[0]).unwrap()
    }
}
