// A candidate, decided with nothing written, and the one that is asked for by number.
ghost use Rattle.rewriting.specs.AtomIdentityRewrite.{to_list};
ghost use Rattle.atom_identity_rewrite.specs.Answers.{tag_number};
ghost use Rattle.atom_identity_rewrite.specs.Promises.{made, OffersAll};

use crate::Tag;
use expr::kind::Binary;
use expr::tree::Tree;

// And or Xor of two trees; where `negate`, of the first and a Not over the second. A flag, not an enum over the second: both cases hold one tree,
// which one `put_second` writes.
#[derive(Clone, Copy)]
pub(crate) struct Candidate<'a> {
    pub(crate) kind: Binary,
    pub(crate) first: Tree<'a>,
    pub(crate) negate: bool,
    pub(crate) second: Tree<'a>,
}

// The candidate that is asked for, with its tag, or how many are left to pass over before it. Not an `Option`: where all are passed over, what is
// left tells how many there are. Not `ControlFlow<(Tag, Candidate), usize>`: tried, with `?`, and the proofs of `match_and_via_ornot_lax` and
// `match_xor_via_ornot_lax` did not close, whose closures keep it over the addends.
#[derive(Clone, Copy)]
pub(crate) enum Offer<'a> {
    Left(usize),
    Found(Tag, Candidate<'a>),
}

// The offer after a matcher's answer: as it was where there is none or it was found before; else found, or one fewer to pass over.
pub(crate) fn with_match<'a>(asked: Offer<'a>, tag: Tag, m: Option<Candidate<'a>>) -> Offer<'a>
    ensures { OffersAll (tag_number tag) (to_list (made m.entry)) asked.entry result }
{
    let Some(candidate) = m else {
        return asked;
    };
    match asked {
        Offer::Found(_, _) => asked,
        Offer::Left(left) => {
            if left == 0 {
                return Offer::Found(tag, candidate);
            }
            Offer::Left(left - 1)
        }
    }
}
