// The matchers, each after the Rust's function of its name. Nothing is written.
ghost use Rattle.std.specs.Prelude.{◌≡◌};
ghost use Rattle.expr.specs.Expr.{binary};
ghost use Rattle.expr.specs.declared.kind.Binary.TheVariants.{And, Xor};
ghost use Rattle.expr.specs.Optional.{map};
ghost use Rattle.expr.specs.Trees.{tree_of, optional_tree, optional_trees};
ghost use Rattle.rewriting.specs.AtomIdentityRewrite.{operand_of_not, beside_not_of, xor_absorb_one, match_xor_and_absorb, same_unordered_pair, xor_of_or_and, match_xor_via_or_minus_and, and_of_or_not, match_and_via_not_or_minus_not, flatten_addends, match_and_via_not_or_plus_a_plus_one, match_xor_via_ornot_flat, match_binary_add_with_neg, lax_and_of, lax_xor_of, lax_and, lax_xor, each};
ghost use Rattle.atom_identity_rewrite.specs.Promises.{made, EitherOrder, OffersAll, AndOfRoles, XorOfRoles, xor_of_or_not};

use crate::addends::Addends;
use crate::candidate::{Candidate, Offer};
use crate::node::is_not_of;
use crate::reading::Roles;
use crate::{Tag, addends, candidate, reading};
use expr::kind::{Binary, Unary};
use expr::tree::Tree;
use width::Width;

// ---- tag 1

#[tactic(auto, using(crate::proofs::OrderLaws::both_orders), unfolding(rewriting::specs::AtomIdentityRewrite::match_xor_and_absorb))]
pub(crate) fn match_xor_and_absorb<'a>(node: Tree<'a>) -> Option<Candidate<'a>>
    ensures { made result ≡ match_xor_and_absorb (tree_of node.entry) }
{
    let (c0, c1) = node.operands(Binary::Xor)?;
    either_order(c0, c1, xor_absorb_one)
}

#[tactic(auto, unfolding(rewriting::specs::AtomIdentityRewrite::xor_absorb_one, rewriting::specs::AtomIdentityRewrite::expr_eq))]
fn xor_absorb_one<'a>(x: Tree<'a>, and_node: Tree<'a>) -> Option<Candidate<'a>>
    ensures { made result ≡ xor_absorb_one (tree_of x.entry) (tree_of and_node.entry) }
{
    let (a, b) = and_node.operands(Binary::And)?;
    if a.expr_eq(x) {
        return Some(Candidate {
            kind: Binary::And,
            first: x,
            negate: true,
            second: b,
        });
    }
    if b.expr_eq(x) {
        return Some(Candidate {
            kind: Binary::And,
            first: x,
            negate: true,
            second: a,
        });
    }
    None
}

// ---- tag 2

// The Rust's `pick_or_and` is the kinds that `xor_of_or_and` asks for: an Or is no And, so that at most one of the two orders gives a tree.
#[tactic(auto, using(crate::proofs::OrderLaws::both_orders), unfolding(rewriting::specs::AtomIdentityRewrite::match_xor_via_or_minus_and))]
pub(crate) fn match_xor_via_or_minus_and<'a>(node: Tree<'a>) -> Option<Candidate<'a>>
    ensures { made result ≡ match_xor_via_or_minus_and (tree_of node.entry) }
{
    let (lhs, rhs) = match_binary_add_with_neg(node)?;
    either_order(lhs, rhs, xor_of_or_and)
}

// The Xor of the operands that an Or and an And have in common.
#[tactic(auto, unfolding(rewriting::specs::AtomIdentityRewrite::xor_of_or_and))]
fn xor_of_or_and<'a>(or_side: Tree<'a>, and_side: Tree<'a>) -> Option<Candidate<'a>>
    ensures { made result ≡ xor_of_or_and (tree_of or_side.entry) (tree_of and_side.entry) }
{
    let (a, b) = or_side.operands(Binary::Or)?;
    let (x, y) = and_side.operands(Binary::And)?;
    exprs_equal_as_unordered_pair(a, b, x, y).then_some(Candidate {
        kind: Binary::Xor,
        first: a,
        negate: false,
        second: b,
    })
}

// ---- tag 3

// The Rust's `pick_kind` and `pick_other` are the kinds that `and_of_or_not` asks for: an Or is no Not, so that at most one of the two orders
// gives a tree.
#[tactic(auto, using(crate::proofs::OrderLaws::both_orders), unfolding(rewriting::specs::AtomIdentityRewrite::match_and_via_not_or_minus_not))]
pub(crate) fn match_and_via_not_or_minus_not<'a>(node: Tree<'a>) -> Option<Candidate<'a>>
    ensures { made result ≡ match_and_via_not_or_minus_not (tree_of node.entry) }
{
    let (lhs, rhs) = match_binary_add_with_neg(node)?;
    either_order(lhs, rhs, and_of_or_not)
}

// The And of a Not's operand and what stands beside this Not in an Or.
#[tactic(auto, using(rewriting::specs::MatchLaws::not_operand, crate::proofs::NodeLaws::no_not), unfolding(rewriting::specs::AtomIdentityRewrite::and_of_or_not))]
fn and_of_or_not<'a>(or_side: Tree<'a>, not_side: Tree<'a>) -> Option<Candidate<'a>>
    ensures { made result ≡ and_of_or_not (tree_of or_side.entry) (tree_of not_side.entry) }
{
    // the Not first: it takes no span
    let a_inside_not = not_side.operand(Unary::Not)?;
    let (l, r) = or_side.operands(Binary::Or)?;
    and_beside(a_inside_not, l, r)
}

// The And of a and what stands beside Not of a, of l and r; l is tested first.
fn and_beside<'a>(a: Tree<'a>, l: Tree<'a>, r: Tree<'a>) -> Option<Candidate<'a>>
    ensures { made result ≡ map (binary And (tree_of a.entry)) (beside_not_of (tree_of a.entry) (tree_of l.entry) (tree_of r.entry)) }
{
    let second = beside_not_of(a, l, r)?;
    Some(Candidate {
        kind: Binary::And,
        first: a,
        negate: false,
        second,
    })
}

// Of l and r the one beside Not of a; l is tested first.
#[tactic(auto, unfolding(rewriting::specs::AtomIdentityRewrite::beside_not_of))]
fn beside_not_of<'a>(a: Tree<'a>, l: Tree<'a>, r: Tree<'a>) -> Option<Tree<'a>>
    ensures { optional_tree result ≡ beside_not_of (tree_of a.entry) (tree_of l.entry) (tree_of r.entry) }
{
    if is_not_of(l, a) {
        return Some(r);
    }
    if is_not_of(r, a) {
        return Some(l);
    }
    None
}

// ---- tag 4

#[tactic(auto, using(crate::proofs::ReadLaws::role_reads))]
pub(crate) fn match_and_via_not_or_plus_a_plus_one<'a>(
    all: &Addends<'a>,
    width: Width,
) -> Option<Candidate<'a>>
    ensures { made result ≡ match_and_via_not_or_plus_a_plus_one width.bits (flatten_addends (tree_of all.now.node)) }
{
    if all.count != 3 {
        return None;
    }
    let roles = addends::read_addends(
        all,
        Roles::default(),
        |roles, a| reading::sort_for_and(width, roles, a),
    );
    and_of_roles(roles)
}

// The And of tag 4, where no addend is subtracted and both the constant and the Or are there.
fn and_of_roles<'a>(roles: Roles<'a>) -> Option<Candidate<'a>>
    ensures { AndOfRoles roles.entry (made result) }
{
    if roles.negated || !roles.unit {
        return None;
    }
    let (l, r) = roles.or?;
    // of three addends, less the constant and the Or, one is left
    let a = roles.plus?;
    and_beside(a, l, r)
}

// ---- tag 5

#[tactic(auto, using(crate::proofs::ReadLaws::role_reads))]
pub(crate) fn match_xor_via_ornot_flat<'a>(all: &Addends<'a>, width: Width) -> Option<Candidate<'a>>
    ensures { made result ≡ match_xor_via_ornot_flat width.bits (flatten_addends (tree_of all.now.node)) }
{
    if all.count != 4 {
        return None;
    }
    let roles = addends::read_addends(
        all,
        Roles::default(),
        |roles, a| reading::sort_for_xor(width, roles, a),
    );
    xor_of_roles(roles)
}

// The Xor of tag 5, where all four roles are there.
fn xor_of_roles<'a>(roles: Roles<'a>) -> Option<Candidate<'a>>
    ensures { XorOfRoles roles.entry (made result) }
{
    if !roles.unit {
        return None;
    }
    let (l, r) = roles.or?;
    let a = roles.plus?;
    let b = roles.minus?;
    xor_of_or_not(l, r, a, b)
}

// The Xor of a and b, where l and r are a and Not of b, in either order.
#[tactic(auto, unfolding(rewriting::specs::AtomIdentityRewrite::expr_eq))]
fn xor_of_or_not<'a>(l: Tree<'a>, r: Tree<'a>, a: Tree<'a>, b: Tree<'a>) -> Option<Candidate<'a>>
    ensures { made result ≡ xor_of_or_not (tree_of l.entry) (tree_of r.entry) (tree_of a.entry) (tree_of b.entry) }
{
    let found = (l.expr_eq(a) && is_not_of(r, b)) || (r.expr_eq(a) && is_not_of(l, b));
    found.then_some(Candidate {
        kind: Binary::Xor,
        first: a,
        negate: false,
        second: b,
    })
}

// ---- tags 6 and 7

// The And and the Xor of each pair below differ in the order of the operands and in which Not comes first too, so that one function for both would
// take those as well: no plainer.

// The root is an Add; each addend that is an Or with a Not is offered as an And.
#[tactic(auto, using(crate::proofs::ReadLaws::all_offered))]
pub(crate) fn match_and_via_ornot_lax<'a>(all: &Addends<'a>, asked: Offer<'a>) -> Offer<'a>
    ensures { OffersAll 6 (each lax_and (flatten_addends (tree_of all.now.node))) asked.entry result }
{
    addends::read_addends(all, asked, |offer, a| reading::lax_and(offer, a))
}

// The root is an Add; each addend that is or has an Or with a Not is offered as a Xor.
#[tactic(auto, using(crate::proofs::ReadLaws::all_offered))]
pub(crate) fn match_xor_via_ornot_lax<'a>(all: &Addends<'a>, asked: Offer<'a>) -> Offer<'a>
    ensures { OffersAll 7 (each lax_xor (flatten_addends (tree_of all.now.node))) asked.entry result }
{
    addends::read_addends(all, asked, |offer, a| reading::lax_xor(offer, a))
}

// The Ands of an Or's operands: the left Not first.
#[tactic(auto, using(crate::proofs::OfferLaws::two_offered))]
pub(crate) fn offer_ands<'a>(asked: Offer<'a>, l: Tree<'a>, r: Tree<'a>) -> Offer<'a>
    ensures { OffersAll 6 (lax_and_of (tree_of l.entry, tree_of r.entry)) asked.entry result }
{
    let one = candidate::with_match(asked, Tag::LaxAnd, and_of_not(l, r));
    candidate::with_match(one, Tag::LaxAnd, and_of_not(r, l))
}

// The Xors of an Or's operands: the right Not first.
#[tactic(auto, using(crate::proofs::OfferLaws::two_offered))]
pub(crate) fn offer_xors<'a>(asked: Offer<'a>, l: Tree<'a>, r: Tree<'a>) -> Offer<'a>
    ensures { OffersAll 7 (lax_xor_of (tree_of l.entry, tree_of r.entry)) asked.entry result }
{
    let one = candidate::with_match(asked, Tag::LaxXor, xor_of_not(r, l));
    candidate::with_match(one, Tag::LaxXor, xor_of_not(l, r))
}

// The And of a Not's operand and the other tree.
#[tactic(auto, using(rewriting::specs::MatchLaws::not_operand))]
fn and_of_not<'a>(not_side: Tree<'a>, other: Tree<'a>) -> Option<Candidate<'a>>
    ensures { made result ≡ map (λ x. binary And x (tree_of other.entry)) (operand_of_not (tree_of not_side.entry)) }
{
    let inner = not_side.operand(Unary::Not)?;
    Some(Candidate {
        kind: Binary::And,
        first: inner,
        negate: false,
        second: other,
    })
}

// The Xor of the other tree and a Not's operand.
#[tactic(auto, using(rewriting::specs::MatchLaws::not_operand))]
fn xor_of_not<'a>(not_side: Tree<'a>, other: Tree<'a>) -> Option<Candidate<'a>>
    ensures { made result ≡ map (λ y. binary Xor (tree_of other.entry) y) (operand_of_not (tree_of not_side.entry)) }
{
    let inner = not_side.operand(Unary::Not)?;
    Some(Candidate {
        kind: Binary::Xor,
        first: other,
        negate: false,
        second: inner,
    })
}

// ---- helpers

// The answer for a and b in this order, else in the other.
#[tactic(auto, using(crate::proofs::OrderLaws::first_order, crate::proofs::OrderLaws::second_order))]
fn either_order<'a, F: Fn(Tree<'a>, Tree<'a>) -> Option<Candidate<'a>>>(
    a: Tree<'a>,
    b: Tree<'a>,
    f: F,
) -> Option<Candidate<'a>>
    requires { F.IsAlwaysCallable f }
    ensures { EitherOrder (F.post f) a.entry b.entry result }
{
    // tried: `or_else`; the borrow checker does not cover a closure whose result names a lifetime that it does not capture, and `or` would try both
    // orders in any case. `match_binary_add_with_neg` is of the same form
    if let Some(c) = f(a, b) {
        return Some(c);
    }
    f(b, a)
}

// X and Y of `Neg Y + X` or `X + Neg Y`; the left operand is tested first.
#[tactic(auto, using(rewriting::specs::MatchLaws::neg_operand), unfolding(rewriting::specs::AtomIdentityRewrite::match_binary_add_with_neg))]
fn match_binary_add_with_neg<'a>(node: Tree<'a>) -> Option<(Tree<'a>, Tree<'a>)>
    ensures { optional_trees result ≡ match_binary_add_with_neg (tree_of node.entry) }
{
    let (l, r) = node.operands(Binary::Add)?;
    if let Some(y) = l.operand(Unary::Neg) {
        return Some((r, y));
    }
    let y = r.operand(Unary::Neg)?;
    Some((l, y))
}

#[tactic(auto, unfolding(rewriting::specs::AtomIdentityRewrite::same_unordered_pair, rewriting::specs::AtomIdentityRewrite::expr_eq))]
fn exprs_equal_as_unordered_pair<'a>(a: Tree<'a>, b: Tree<'a>, x: Tree<'a>, y: Tree<'a>) -> bool
    ensures { result ≡ same_unordered_pair (tree_of a.entry) (tree_of b.entry) (tree_of x.entry) (tree_of y.entry) }
{
    (a.expr_eq(x) && b.expr_eq(y)) || (a.expr_eq(y) && b.expr_eq(x))
}
