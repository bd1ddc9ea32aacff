// What the matchers ask of a tree.
ghost use Rattle.std.specs.Prelude.{◌≡◌, if◌then◌else◌};
ghost use Rattle.std.proofs.Math.Option.{none};
ghost use Rattle.expr.specs.declared.kind.Binary.TheVariants.{Or};
ghost use Rattle.expr.specs.Optional.{◌or_else◌};
ghost use Rattle.expr.specs.Trees.{tree_of, optional_trees, operands_of};
ghost use Rattle.rewriting.specs.AtomIdentityRewrite.{is_not_of, is_masked, is_constant_node, or_in_product};
ghost use Rattle.atom_identity_rewrite.specs.Promises.{factor_of};

use expr::kind::{Binary, Unary};
use expr::tree::Tree;
use width::Width;

// The factor beside an Or: 2 under the mask of the width for tag 5, any Constant for tag 7. Not an `impl Fn(Tree) -> bool`: no plainer, as each contract
// would state what the closure answers, where it names the factor now.
#[derive(Clone, Copy)]
pub(crate) enum Factor {
    Two(Width),
    Constant,
}

#[tactic(auto, using(crate::proofs::NodeLaws::not_none, crate::proofs::NodeLaws::not_some))]
pub(crate) fn is_not_of(tree: Tree<'_>, inner: Tree<'_>) -> bool
    ensures { result ≡ is_not_of (tree_of tree.entry) (tree_of inner.entry) }
{
    // tried: `is_some_and`; the check gives a closure that compares trees no contract
    match tree.operand(Unary::Not) {
        Some(operand) => operand.expr_eq(inner),
        None => false,
    }
}

// Whether the tree is a Constant that is n under the mask of the width.
#[tactic(auto, using(crate::proofs::NodeLaws::masked_none, crate::proofs::NodeLaws::masked_some))]
pub(crate) fn is_masked(tree: Tree<'_>, n: u64, width: Width) -> bool
    ensures { result ≡ is_masked width.bits n (tree_of tree.entry) }
{
    tree.constant()
        .is_some_and(|c| arith::trunc(c, width.bits) == n)
}

// Whether the tree is the factor that is looked for beside an Or.
#[tactic(auto, using(crate::proofs::NodeLaws::constant_factor))]
fn is_factor(tree: Tree<'_>, factor: Factor) -> bool
    ensures { result ≡ factor_of factor (tree_of tree.entry) }
{
    match factor {
        Factor::Two(width) => is_masked(tree, 2, width),
        Factor::Constant => tree.constant().is_some(),
    }
}

// The operands of the Or beside a factor.
fn or_beside<'a>(tree: Tree<'a>, factor: Factor, other: Tree<'a>) -> Option<(Tree<'a>, Tree<'a>)>
    ensures { optional_trees result ≡ (if factor_of factor (tree_of tree.entry) then operands_of Or (tree_of other.entry) else none) }
{
    // not `then`: it would need `flatten`, and not `then_some`: the operands would be taken in any case
    if is_factor(tree, factor) {
        return other.operands(Binary::Or);
    }
    None
}

// The operands of the Or in a product with a factor; the left operand is tested first.
#[tactic(auto, unfolding(rewriting::specs::AtomIdentityRewrite::or_in_product))]
pub(crate) fn or_in_product<'a>(tree: Tree<'a>, factor: Factor) -> Option<(Tree<'a>, Tree<'a>)>
    ensures { optional_trees result ≡ or_in_product (factor_of factor) (tree_of tree.entry) }
{
    let (l, r) = tree.operands(Binary::Mul)?;
    // here and in `or_inside` tried: `or_else`; the borrow checker does not cover its closure, whose trees would stand at several lifetimes at once,
    // and `or` takes both: 22 to 27 instructions more a call
    if let Some(sides) = or_beside(l, factor, r) {
        return Some(sides);
    }
    or_beside(r, factor, l)
}

// The operands, where the tree is an Or, or those of the Or in a product with a Constant.
pub(crate) fn or_inside<'a>(tree: Tree<'a>) -> Option<(Tree<'a>, Tree<'a>)>
    ensures { optional_trees result ≡ (operands_of Or (tree_of tree.entry) or_else or_in_product is_constant_node (tree_of tree.entry)) }
{
    if let Some(sides) = tree.operands(Binary::Or) {
        return Some(sides);
    }
    or_in_product(tree, Factor::Constant)
}
