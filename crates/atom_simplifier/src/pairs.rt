// The pairs of an And or Or and a Not above it, which are document 01's D, by one fold.
ghost use Rattle.std.specs.Prelude.{◌≡◌};
ghost use Rattle.expr.specs.Domain.{those};
ghost use Rattle.rewriting.specs.Measures.{and_or, pairs};
ghost use Rattle.atom_simplifier.specs.PairsLaws.{narrow};
ghost use Rattle.atom_simplifier.specs.Promises.{counted, Narrow};

use expr::fold::Fold;
use expr::kind::{Binary, Leaf, Unary};

// The And and Or nodes of a tree, and its pairs.
#[derive(Clone, Copy)]
pub(crate) struct Pairs {
    and_ors: usize,
    pub(crate) pairs: usize,
}

// The pairs of a node of the kind with the And and Or nodes below it.
fn pairs_below(kind: Unary, and_ors: usize) -> usize
    ensures { result ≡ pairs kind and_ors }
{
    match kind {
        Unary::Not => and_ors,
        _ => 0,
    }
}

// One for an And or Or.
fn and_or(kind: Binary) -> usize
    ensures { result ≡ and_or kind }
{
    match kind {
        Binary::And | Binary::Or => 1,
        _ => 0,
    }
}

// The walk that counts a tree's pairs. No sum wraps in a tree of at most 512 nodes, and no `Tree` has more.
pub(crate) struct Counting;

impl Fold for Counting {
    type Found = Pairs;

    ghost gives = { λ _ found t. found ≡ counted t };

    ghost domain = { those Narrow narrow };

    #[tactic(auto, unfolding(crate::specs::Promises::counted, rewriting::specs::Measures::and_ors_of, rewriting::specs::Measures::D))]
    fn leaf(&self, _kind: Leaf) -> Pairs {
        Pairs {
            and_ors: 0,
            pairs: 0,
        }
    }

    fn unary(&self, kind: Unary, child: Pairs) -> Pairs {
        Pairs {
            and_ors: child.and_ors,
            pairs: pairs_below(kind, child.and_ors).wrapping_add(child.pairs),
        }
    }

    fn binary(&self, kind: Binary, left: Pairs, right: Pairs) -> Pairs {
        Pairs {
            and_ors: and_or(kind)
                .wrapping_add(left.and_ors)
                .wrapping_add(right.and_ors),
            pairs: left.pairs.wrapping_add(right.pairs),
        }
    }
}
