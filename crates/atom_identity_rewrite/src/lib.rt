// The candidates of a tree's root by their number, after atom_identity_rewrite.rs: `try_match_all` and what is below it. A candidate, in document
// 01's terms a tree that a matcher offers in place of the node, is decided first, with nothing written, and then turned into words.
#![tactic(auto)]

ghost use Rattle.std.specs.Prelude.{◌≡◌, ◌≤◌, length};
ghost use Rattle.expr.specs.Outcome.{mapped};
ghost use Rattle.expr.specs.Expr.{nodes};
ghost use Rattle.expr.specs.Trees.{tree_of};
ghost use Rattle.expr.specs.Answers.{outcome};
ghost use Rattle.expr.specs.Lent.{lent_after};
ghost use Rattle.rewriting.specs.AtomIdentityRewrite.{lax_candidates, candidates};
ghost use Rattle.atom_identity_rewrite.specs.Calls.{candidate_at, told, candidate_words};
ghost use Rattle.atom_identity_rewrite.specs.Answers.{tag_number, candidate_outcome};
ghost use Rattle.atom_identity_rewrite.specs.Promises.{OffersList, sum_candidates, Offered, Answers};

mod addends;
mod candidate;
mod matchers;
mod node;
mod reading;
mod write;

use addends::Addends;
use candidate::Offer;
use expr::kind;
use expr::refusal::Refusal;
use expr::tree::Tree;
use width::Width;

// The matcher that a candidate is from.
#[derive(Clone, Copy, PartialEq, Eq)]
pub enum Tag {
    Absorb,
    OrMinusAnd,
    OrMinusNot,
    PlusOne,
    FlatOrNot,
    LaxAnd,
    LaxXor,
}

// A tag's number, from 1 to 7.
impl From<Tag> for u64 {
    ghost from_gives = { λ tag number. number ≡ tag_number tag };

    fn from(tag: Tag) -> u64 {
        match tag {
            Tag::Absorb => 1,
            Tag::OrMinusAnd => 2,
            Tag::OrMinusNot => 3,
            Tag::PlusOne => 4,
            Tag::FlatOrNot => 5,
            Tag::LaxAnd => 6,
            Tag::LaxXor => 7,
        }
    }
}

// A candidate's tag and nodes or, where the number is past the last, how many candidates there are.
#[derive(Clone, Copy, PartialEq, Eq)]
pub enum Found {
    Candidate { tag: Tag, nodes: usize },
    // neither `None` nor an `Err`: a caller that counts the candidates asks for it
    NoMore { count: usize },
}

// ---- one tag after the other

// Tags 6 and 7, which only an Add has.
#[tactic(auto, using(expr::specs::PartLaws::parts, crate::proofs::CallLaws::laxes))]
fn offer_lax<'a>(all: &Addends<'a>, asked: Offer<'a>) -> Offer<'a>
    ensures { OffersList (lax_candidates (tree_of all.now.node)) asked.entry result }
{
    // here and in `offer_sum` the kind word: `operands` would take the span of a child, which nothing here reads
    if all.node.words[0] != kind::ADD {
        return asked;
    }
    let ands = matchers::match_and_via_ornot_lax(all, asked);
    matchers::match_xor_via_ornot_lax(all, ands)
}

// Tags 4 to 7, of a sum.
fn offer_addends<'a>(node: Tree<'a>, width: Width, asked: Offer<'a>) -> Offer<'a>
    ensures { OffersList (sum_candidates width.bits (tree_of node.entry)) asked.entry result }
{
    let all = addends::flatten_addends(node);
    let m = matchers::match_and_via_not_or_plus_a_plus_one(&all, width);
    let four = candidate::with_match(asked, Tag::PlusOne, m);
    let m = matchers::match_xor_via_ornot_flat(&all, width);
    let five = candidate::with_match(four, Tag::FlatOrNot, m);
    offer_lax(&all, five)
}

// Tags 4 to 7. The addends are not gathered where the candidate is found already, nor where the root is the only one.
fn offer_sum<'a>(node: Tree<'a>, width: Width, asked: Offer<'a>) -> Offer<'a>
    ensures { OffersList (sum_candidates width.bits (tree_of node.entry)) asked.entry result }
{
    if let Offer::Found(_, _) = asked {
        return asked;
    }
    let root = node.words[0];
    if root != kind::ADD && root != kind::NEG {
        return asked;
    }
    offer_addends(node, width, asked)
}

// The candidate of that number.
fn find_candidate<'a>(node: Tree<'a>, width: Width, number: usize) -> Offer<'a>
    ensures { Offered number (candidates width.bits (tree_of node.entry)) result }
{
    let m = matchers::match_xor_and_absorb(node);
    let one = candidate::with_match(Offer::Left(number), Tag::Absorb, m);
    let m = matchers::match_xor_via_or_minus_and(node);
    let two = candidate::with_match(one, Tag::OrMinusAnd, m);
    let m = matchers::match_and_via_not_or_minus_not(node);
    let three = candidate::with_match(two, Tag::OrMinusNot, m);
    offer_sum(node, width, three)
}

// ---- the call

// Writes the candidate, once nothing is to be refused.
fn hand_over(node: Tree<'_>, width: Width, number: usize, out: &mut [u64]) -> Found
    requires { length node.words.now ≤ length out.old }
    ensures { Answers (tree_of node.entry) width.bits number result out.old out.new }
{
    match find_candidate(node, width, number) {
        Offer::Left(left) => Found::NoMore {
            count: number - left,
        },
        Offer::Found(tag, c) => Found::Candidate {
            tag,
            nodes: write::write_candidate(c, out) / 2,
        },
    }
}

// The candidate of that number, from 0, with its tag; its words are written at the front of `out`, and nothing else. A number past the last
// answers how many there are.
pub fn try_match_all(
    words: &[u64],
    width: u32,
    number: usize,
    out: &mut [u64],
) -> Result<Found, Refusal>
    ensures { (candidate_outcome result ≡ mapped told (candidate_at words.now width number (length out.old))) × (out.new ≡ lent_after candidate_words (candidate_at words.now width number (length out.old)) out.old) }
{
    let width = Width::try_from(width)?;
    let node = Tree::read(words)?.with_room(out.len(), 0)?;
    Ok(hand_over(node, width, number, out))
}
