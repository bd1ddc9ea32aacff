// The one walk over a tree.
ghost use Rattle.expr.specs.Domain.{Domain, every, on};
ghost use Rattle.expr.specs.Expr.{Expr, leaf, unary, binary};
ghost use Rattle.expr.specs.Front.{Read};
ghost use Rattle.expr.specs.Trees.{tree_of};

use crate::Arity;
use crate::kind::{Binary, Leaf, Unary};
use crate::tree::{Tree, Walk};

// What is found of a tree, a node after its children.
pub trait Fold {
    type Found;

    // what holds of what was found of a tree
    ghost gives: { Self → Self.Found → Expr → Type 0 };

    // the trees of which a node's method promises it; all, unless a sum could wrap
    ghost domain: { Domain } = { every };

    fn leaf(&self, kind: Leaf) -> Self::Found
        ensures { gives self.now result (leaf kind) };

    fn unary(&self, kind: Unary, child: Self::Found) -> Self::Found
        ensures { (t : Expr) → on domain t (gives self.now child t) → on domain (unary kind t) (gives self.now result (unary kind t)) };

    fn binary(&self, kind: Binary, left: Self::Found, right: Self::Found) -> Self::Found
        ensures { (l r : Expr) → on domain l (gives self.now left l) → on domain r (gives self.now right r) → on domain (binary kind l r) (gives self.now result (binary kind l r)) };
}

// What was found of the tree that words begin with, and how many of them it takes.
struct Found<T> {
    words: usize,
    found: T,
}

// The tree that the words begin with.
fn fold_at<F: Fold>(by: &F, walk: Walk<'_>) -> Found<F::Found>
    ensures { Read walk.entry.words.now result.words (λ t. on F.domain t (F.gives by.now result.found t)) }
{
    let ws = walk.words;
    let kind = ws[0];
    let rest = &ws[2..];
    match walk.arity() {
        Arity::Zero => Found {
            words: 2,
            found: by.leaf(Leaf::of(kind, ws[1])),
        },
        Arity::One => {
            let Found { words, found } = fold_at(by, Walk { words: rest });
            Found {
                words: words + 2,
                found: by.unary(Unary::of(kind, ws[1]), found),
            }
        }
        Arity::Two => {
            let left = fold_at(by, Walk { words: rest });
            let Found {
                words: from,
                found: left,
            } = left;
            let right = &rest[from..];
            let right = fold_at(by, Walk { words: right });
            let Found {
                words,
                found: right,
            } = right;
            Found {
                words: from + words + 2,
                found: by.binary(Binary::of(kind), left, right),
            }
        }
    }
}

impl Tree<'_> {
    // What is found of the tree.
    pub fn fold<F: Fold>(self, by: &F) -> F::Found
        ensures { F.gives by.now result (tree_of self.entry) }
    {
        let Found {
            words: _words,
            found,
        } = fold_at(by, Walk::over(self));
        found
    }
}
