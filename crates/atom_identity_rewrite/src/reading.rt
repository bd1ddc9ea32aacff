// What is kept while the addends are read, one after the other.
ghost use Rattle.std.specs.Prelude.{◌≡◌};
ghost use Rattle.rewriting.specs.AtomIdentityRewrite.{is_masked, as_one, as_or, as_minus_two, as_minus_twice_or, lax_and, lax_xor};
ghost use Rattle.atom_identity_rewrite.specs.Promises.{addend_of, no_roles, SortsAs, Sorts, OffersAll};

use crate::addends::SignedTree;
use crate::candidate::Offer;
use crate::matchers;
use crate::node::{Factor, is_masked, or_in_product, or_inside};
use expr::kind::Binary;
use expr::tree::Tree;
use width::Width;

// The roles of addends in tags 4 and 5: the constant, the Or by its operands, and of the others the last that is added and the last that is subtracted.
#[derive(Clone, Copy, Default)]
pub(crate) struct Roles<'a> {
    pub(crate) unit: bool,
    pub(crate) or: Option<(Tree<'a>, Tree<'a>)>,
    pub(crate) plus: Option<Tree<'a>>,
    pub(crate) minus: Option<Tree<'a>>,
    // whether any addend is subtracted
    pub(crate) negated: bool,
}

// ---- tags 4 and 5

// The roles with one addend more, of which is known whether it is the constant, and the Or that it is or has.
fn sort<'a>(
    before: Roles<'a>,
    a: SignedTree<'a>,
    unit: bool,
    or: Option<(Tree<'a>, Tree<'a>)>,
) -> Roles<'a>
    ensures { SortsAs (addend_of a.entry) unit or.entry before.entry result }
{
    let negated = before.negated | a.negated;
    if unit & !before.unit {
        return Roles {
            unit: true,
            negated,
            ..before
        };
    }
    if or.is_some() & before.or.is_none() {
        return Roles {
            or,
            negated,
            ..before
        };
    }
    let this = Some(a.tree);
    if a.negated {
        return Roles {
            minus: this,
            negated,
            ..before
        };
    }
    Roles {
        plus: this,
        negated,
        ..before
    }
}

// The roles with one addend more, as tag 4 reads it: the constant is 1, and the Or is the addend itself.
pub(crate) fn sort_for_and<'a>(width: Width, roles: Roles<'a>, a: SignedTree<'a>) -> Roles<'a>
    ensures { Sorts (as_one width.bits) as_or (addend_of a.entry) roles.entry result }
{
    let unit = is_masked(a.tree, 1, width);
    let or = a.tree.operands(Binary::Or);
    sort(roles, a, unit, or)
}

// As tag 5 reads it: the constant is -2, and the Or is that in -2 times an Or.
pub(crate) fn sort_for_xor<'a>(width: Width, roles: Roles<'a>, a: SignedTree<'a>) -> Roles<'a>
    ensures { Sorts (as_minus_two width.bits) (as_minus_twice_or width.bits) (addend_of a.entry) roles.entry result }
{
    if !a.negated {
        return sort(roles, a, false, None);
    }
    let unit = is_masked(a.tree, 2, width);
    let or = or_in_product(a.tree, Factor::Two(width));
    sort(roles, a, unit, or)
}

// ---- tags 6 and 7

// The candidates of a lax And: of an Or that is added, the left Not first.
#[tactic(auto, using(crate::proofs::OfferLaws::lax_offers))]
pub(crate) fn lax_and<'a>(asked: Offer<'a>, a: SignedTree<'a>) -> Offer<'a>
    ensures { OffersAll 6 (lax_and (addend_of a.entry)) asked.entry result }
{
    if a.negated {
        return asked;
    }
    // here and in `lax_xor` tried: `map_or`; the borrow checker does not cover the closure, whose trees would stand at several lifetimes at once
    match a.tree.operands(Binary::Or) {
        Some((l, r)) => matchers::offer_ands(asked, l, r),
        None => asked,
    }
}

// The candidates of a lax Xor: of an Or, or of one in a product with a Constant, the right Not first.
#[tactic(auto, using(crate::proofs::OfferLaws::lax_offers))]
pub(crate) fn lax_xor<'a>(asked: Offer<'a>, a: SignedTree<'a>) -> Offer<'a>
    ensures { OffersAll 7 (lax_xor (addend_of a.entry)) asked.entry result }
{
    match or_inside(a.tree) {
        Some((l, r)) => matchers::offer_xors(asked, l, r),
        None => asked,
    }
}
