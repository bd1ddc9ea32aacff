// The addends of a sum. Memory is fixed: they are gathered in an array by value, which one function copies into a lent list and another reads.
ghost use Rattle.std.specs.Prelude.{◌≡◌, ◌++◌, ◌≤◌, length, take, drop};
ghost use Rattle.expr.specs.Front.{tree_at};
ghost use Rattle.rewriting.specs.AtomIdentityRewrite.{flatten_addends};
ghost use Rattle.atom_identity_rewrite.specs.Places.{AddendsAre};
ghost use Rattle.atom_identity_rewrite.specs.PlacesLaws.{AddendsAre-prop};
ghost use Rattle.atom_identity_rewrite.specs.Promises.{addend_of, placed_addend, Addended, Named, Folded, ReadAll};

use expr::kind;
use expr::tree::Tree;

// The place of an addend's subtree in the words of the sum, and whether it is subtracted: a record of start, length and sign, as document 01 asks.
#[derive(Clone, Copy, Default)]
pub(crate) struct Addend {
    start: usize,
    len: usize,
    negated: bool,
}

// A subtree that is added or, where `negated`, subtracted.
#[derive(Clone, Copy)]
pub(crate) struct SignedTree<'a> {
    pub(crate) tree: Tree<'a>,
    pub(crate) negated: bool,
}

// The addends of a tree: the first `count` of the list.
#[derive(Clone, Copy)]
pub(crate) struct Addends<'a> {
    pub(crate) node: Tree<'a>,
    list: [Addend; 256],
    pub(crate) count: usize,
    ghost few: { count ≤ 256 },
    ghost counts: { count ≡ length (flatten_addends (tree_at node.words.now)) },
    ghost are: { AddendsAre node.words.now (take count list) (flatten_addends (tree_at node.words.now)) } by { AddendsAre-prop node.words.now (take count list) (flatten_addends (tree_at node.words.now)) },
}

// The addends of the tree, first to last. `push_addend`'s recursion is a loop over the subtrees that are due, and their signs stand in an array
// with a count beside it, as memory is fixed. Not a `for`: a turn goes on by a node or by a whole subtree, until none is due.
pub(crate) fn flatten_addends<'a>(node: Tree<'a>) -> Addends<'a>
    ensures { tree_at result.node.words.now ≡ tree_at node.entry.words.now }
{
    let words = node.words;
    let mut list = [Addend::default(); 256];
    let mut count = 0;
    // whether each subtree that is due is subtracted, the next one last
    let mut signs = [false; 512];
    let mut due = 1;
    let mut start = 0;
    while due > 0 {
        let top = due - 1;
        let negated = signs[top];
        // the kind word: a place in the words is no `Tree` before its span is known, and only an addend's is taken
        match words[start] {
            kind::ADD => {
                // the left operand is next, the right one keeps the place
                signs[due] = negated;
                due += 1;
                start += 2;
            }
            kind::NEG => {
                signs[top] = !negated;
                start += 2;
            }
            _ => {
                // a tree's words are not refused
                let len = expr::span(&words[start..]).unwrap();
                list[count] = Addend {
                    start,
                    len,
                    negated,
                };
                count += 1;
                due = top;
                start += len;
            }
        }
    }
    Addends { node, list, count }
}

// The only function that fills the lent list: it copies the addends that are in use to its front.
fn fill(out: &mut [Addend], all: &Addends<'_>)
    requires { all.now.count ≤ length out.old }
    ensures { out.new ≡ take all.now.count all.now.list ++ drop all.now.count out.old }
{
    let n = all.count;
    out[0..n].copy_from_slice(&all.list[0..n]);
}

// The addend's own subtree.
#[tactic(auto, using(crate::proofs::ScanLaws::places))]
fn signed_tree<'a>(sum: Tree<'a>, a: Addend) -> SignedTree<'a>
    requires { Named sum.words.now a }
    ensures { addend_of result ≡ placed_addend sum.entry.words.now a }
{
    let words = sum.words;
    let end = a.start + a.len;
    SignedTree {
        tree: Tree {
            words: &words[a.start..end],
        },
        negated: a.negated,
    }
}

// The only function that reads the lent list: it hands its addends to `read`, one after the other.
#[tactic(auto, using(crate::proofs::ScanLaws::named_one, crate::proofs::ScanLaws::none_read, crate::proofs::ScanLaws::read_on))]
fn scan<'a, S, F: Fn(S, SignedTree<'a>) -> S>(
    sum: Tree<'a>,
    list: &[Addend],
    start: S,
    read: F,
) -> S
    requires addends { Addended sum.words.now list.now }
    requires calls { F.IsAlwaysCallable read }
    ensures { ReadAll sum.entry.words.now list.now (F.post read) start result }
{
    // tried: `fold`; what `signed_tree` requires of an addend did not prove in its closure, which would need clauses of its own: no plainer
    let mut state = start;
    for a in list {
        state = read(state, signed_tree(sum, *a));
    }
    state
}

// What reading the addends makes of `start`. The list is lent to `fill` and then to `scan`: document 01 asks for a lent list that one function fills and
// another reads.
pub(crate) fn read_addends<'a, S, F: Fn(S, SignedTree<'a>) -> S>(
    all: &Addends<'a>,
    start: S,
    read: F,
) -> S
    requires { F.IsAlwaysCallable read }
    ensures { Folded (F.post read) start (flatten_addends (tree_at all.now.node.words.now)) result }
{
    let n = all.count;
    let mut list = [Addend::default(); 256];
    fill(&mut list, all);
    scan(all.node, &list[0..n], start, read)
}
