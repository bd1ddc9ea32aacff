// A candidate turned into words, at the front of the lent ones.
ghost use Rattle.std.specs.Prelude.{◌≡◌, [], ◌∷◌, ◌++◌, ◌+◌, ◌≤◌, length};
ghost use Rattle.expr.specs.Expr.{encode};
ghost use Rattle.expr.specs.Parts.{Laid};
ghost use Rattle.expr.specs.Trees.{tree_of};
ghost use Rattle.atom_identity_rewrite.specs.Promises.{second_tree, candidate_tree};

use crate::candidate::Candidate;
use expr::kind;
use expr::tree::Tree;

// The tree's words, behind a Not where `negate`; how many they are.
fn put_second(negate: bool, part: Tree<'_>, out: &mut [u64]) -> usize
    requires { length (encode (second_tree negate (tree_of part))) ≤ length out.old }
    ensures laid { Laid out.old out.new (encode (second_tree negate (tree_of part.entry))) }
    ensures count { result ≡ length (encode (second_tree negate (tree_of part.entry))) }
{
    if negate {
        put_first(kind::NOT, part, out);
        return 2 + part.words.len();
    }
    expr::copy_words(part.words, out);
    part.words.len()
}

// The two words of a node that holds no number, by its kind's word, and the words of its first operand. The word, not a `Binary` or `Unary`: the
// node is of either.
fn put_first(kind: u64, part: Tree<'_>, out: &mut [u64])
    requires { 2 + length part.words.now ≤ length out.old }
    ensures { Laid out.old out.new ((kind ∷ 0 ∷ []) ++ encode (tree_of part.entry)) }
{
    out[0] = kind;
    out[1] = 0;
    expr::copy_words(part.words, &mut out[2..]);
}

// Writes the candidate, and answers how many words that is.
#[tactic(auto, using(crate::proofs::WriteLaws::writing))]
pub(crate) fn write_candidate(c: Candidate<'_>, out: &mut [u64]) -> usize
    requires { length (encode (candidate_tree c)) ≤ length out.old }
    ensures laid { Laid out.old out.new (encode (candidate_tree c.entry)) }
    ensures count { result ≡ length (encode (candidate_tree c.entry)) }
{
    let right = 2 + c.first.words.len();
    put_first(c.kind.number(), c.first, out);
    right + put_second(c.negate, c.second, &mut out[right..])
}
