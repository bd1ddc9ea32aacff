// The chain. Document 01's list of trees begins with the input, and each next tree is the one before after the rewrite at its first site; its
// last tree, the end tree, has no site. The end tree is built in the work from the words of the input, a node after its children, so that after
// a rewrite only what it has made is looked at again. The rewrites are those of the list, in its order, but that De Morgan's law and the double
// Not that it makes are one move of words: the work never holds more nodes than the input has.
ghost use Rattle.std.specs.Prelude.{◌≡◌, ◌+◌, ◌≤◌, ◌<◌, length, get_or, replicate};
ghost use Rattle.expr.specs.Outcome.{mapped};
ghost use Rattle.expr.specs.Expr.{encode};
ghost use Rattle.expr.specs.Parts.{tail, part, Laid};
ghost use Rattle.expr.specs.Front.{tree_at, left_of};
ghost use Rattle.rewriting.specs.AtomSimplifier.{not, local_rewrite};
ghost use Rattle.atom_simplifier.specs.Calls.{chain_admitted};
ghost use Rattle.expr.specs.Answers.{outcome};
ghost use Rattle.atom_simplifier.specs.Answers.{end_numbers};
ghost use Rattle.atom_simplifier.specs.Chained.{ChainGives};
ghost use Rattle.atom_simplifier.specs.Promises.{Decides, loaded, Settleable, Apart, Turnable, Turned, HalfTurned, HalfEnds, EndsAt, Loaded, HasLeft, IsBuilt, RightBuilt, HasArity, HasRoom};

use crate::local::Decision;
use crate::operands::Operands;
use crate::pairs::Counting;
use crate::{local, write};
use expr::refusal::Refusal;
use expr::tree::{Tree, Walk};
use expr::{Arity, kind};
use width::Width;

// The nodes of the end tree, and the number of rewrites.
#[derive(Clone, Copy, PartialEq, Eq)]
pub struct ChainEnd {
    pub nodes: usize,
    pub rewrites: usize,
}

// How many words the tree has that a node has come to, and how many rewrites it took.
// No struct with methods holds the words and their number: behind a field lent `&mut work[at..]` the check knows only a length ('no proof of EndsAt').
#[derive(Clone, Copy)]
pub(crate) struct Settled {
    len: usize,
    count: usize,
}

// The same for a tree of the input, with the number of its words that were read.
#[derive(Clone, Copy)]
pub(crate) struct Built {
    read: usize,
    len: usize,
    count: usize,
}

// What a node over two children without a site becomes; the right one is at `right`. It takes the words, as both callers have no `Operands`: the
// words are theirs to write over.
#[tactic(auto, using(crate::proofs::SettleLaws::settleable_tree))]
fn two_rewrite(node: &[u64], right: usize, len: usize, width: Width) -> Option<Decision>
    requires { Settleable width.bits node.now len × HasArity node.now 2 × (right ≡ 2 + length (encode (left_of (tree_at node.now)))) }
    ensures { Decides (part 0 len node.now) result (local_rewrite width.bits (tree_at (part 0 len node.now))) }
{
    let node = Tree {
        words: &node[0..len],
    };
    local::binary_rewrite(Operands { node, right }, width)
}

// A node over two children without a site, with what was decided about it. A fold may make a node whose root has a site again.
fn rewrite_two(node: &mut [u64], decided: Option<Decision>, len: usize, width: Width) -> Settled
    requires { Settleable width.bits node.old len × HasArity node.old 2 × Decides (part 0 len node.old) decided (local_rewrite width.bits (tree_at (part 0 len node.old))) }
    ensures { EndsAt width.bits (tree_at node.old) len node.old node.new result.len result.count }
{
    let Some(rewrite) = decided else {
        return Settled { len, count: 0 };
    };
    match rewrite {
        Decision::Join(_, _, _) => {
            let all = write::replace(node, len, rewrite);
            let next = two_rewrite(node, all - 2, all, width);
            let again = rewrite_two(node, next, all, width);
            Settled {
                len: again.len,
                count: 1 + again.count,
            }
        }
        _ => Settled {
            len: write::replace(node, len, rewrite),
            count: 1,
        },
    }
}

// A node over two children without a site; the right one is at `right`.
fn settle_two(node: &mut [u64], right: usize, len: usize, width: Width) -> Settled
    requires { Settleable width.bits node.old len × HasArity node.old 2 × (right ≡ 2 + length (encode (left_of (tree_at node.old)))) }
    ensures { EndsAt width.bits (tree_at node.old) len node.old node.new result.len result.count }
{
    let decided = two_rewrite(node, right, len, width);
    rewrite_two(node, decided, len, width)
}

// A node whose left child has no site and ends at `at`, and whose right child is a Not over the operand at `right`. The places are given to this
// function alone, so that no struct holds them.
#[cycle(rewrite_one_settle_de_morgan_settle_one_settle_operand_settle_second)]
fn settle_second(node: &mut [u64], at: usize, right: usize, len: usize, width: Width) -> Settled
    requires { HalfTurned width.bits node.old at right len }
    ensures { HalfEnds width.bits node.old at right len node.new result.len result.count }
{
    let second = settle_operand(&mut node[at..], right - at, len - right, width);
    let top = settle_two(node, at, at + second.len, width);
    Settled {
        len: top.len,
        count: second.count + top.count,
    }
}

// The first node gets And for Or of the node behind it, and Or for And.
fn turn_kind(node: &mut [u64])
    requires { 2 < length node.old }
    ensures { Turned node.old node.new }
{
    node[0] = write::dual(node[2]);
}

// De Morgan's law for a Not over an And or Or; the right operand is at `right`. Either operand gets its Not, the left one first, and then the
// node is looked at.
#[cycle(rewrite_one_settle_de_morgan_settle_one_settle_operand_settle_second)]
fn settle_de_morgan(node: &mut [u64], right: usize, len: usize, width: Width) -> Settled
    requires { Turnable width.bits node.old right len }
    ensures { EndsAt width.bits (tree_at node.old) len node.old node.new result.len result.count }
{
    turn_kind(node);
    let first = settle_operand(&mut node[2..], 2, right - 4, width);
    let rest = settle_second(node, 2 + first.len, right, len, width);
    Settled {
        len: rest.len,
        count: 1 + first.count + rest.count,
    }
}

// A node over one child without a site, with what was decided about it.
#[cycle(rewrite_one_settle_de_morgan_settle_one_settle_operand_settle_second)]
fn rewrite_one(node: &mut [u64], decided: Option<Decision>, len: usize, width: Width) -> Settled
    requires { Settleable width.bits node.old len × HasArity node.old 1 × Decides (part 0 len node.old) decided (local_rewrite width.bits (tree_at (part 0 len node.old))) }
    ensures { EndsAt width.bits (tree_at node.old) len node.old node.new result.len result.count }
{
    let Some(rewrite) = decided else {
        return Settled { len, count: 0 };
    };
    match rewrite {
        Decision::DeMorgan(right) => settle_de_morgan(node, right, len, width),
        _ => Settled {
            len: write::replace(node, len, rewrite),
            count: 1,
        },
    }
}

// A node over one child without a site.
#[cycle(rewrite_one_settle_de_morgan_settle_one_settle_operand_settle_second)]
fn settle_one(node: &mut [u64], len: usize, width: Width) -> Settled
    requires { Settleable width.bits node.old len × HasArity node.old 1 }
    ensures { EndsAt width.bits (tree_at node.old) len node.old node.new result.len result.count }
{
    let tree = Tree {
        words: &node[0..len],
    };
    let decided = local::root_rewrite(tree, width);
    rewrite_one(node, decided, len, width)
}

// A Not over the operand of `len` words at `from`, which has no site; what it comes to is put at the front. Where the operand is a Not, the two
// are taken away together, so that no word more is needed.
#[cycle(rewrite_one_settle_de_morgan_settle_one_settle_operand_settle_second)]
fn settle_operand(work: &mut [u64], from: usize, len: usize, width: Width) -> Settled
    requires { Apart width.bits work.old from len }
    ensures { EndsAt width.bits (not (tree_at (tail from work.old))) (from + len) work.old work.new result.len result.count }
{
    if work[from] == kind::NOT {
        write::move_down(work, from + 2, len - 2);
        return Settled {
            len: len - 2,
            count: 1,
        };
    }
    let at = from - 2;
    write::put_node(kind::NOT, 0, &mut work[at..]);
    let settled = settle_one(&mut work[at..], len + 2, width);
    write::move_down(work, at, settled.len);
    settled
}

// The only place where a node of the input is read into the work: its two words as they stand, whatever the width.
#[tactic(auto, unfolding(crate::specs::Promises::loaded))]
fn load(ws: &[u64], width: Width, work: &mut [u64])
    requires { (2 ≤ length ws.now) × (2 ≤ length work.old) }
    ensures { Laid work.old work.new (loaded width.bits (get_or ws.now 0 0) (get_or ws.now 1 0)) }
{
    write::put_node(ws[0], ws[1], work);
}

// A node over one child, whose own words stand in the work.
#[cycle(build_build_one_build_right_build_two)]
fn build_one(walk: Walk<'_>, width: Width, work: &mut [u64]) -> Built
    requires { HasArity walk.words.now 1 × Loaded width.bits walk.words.now work.old × HasRoom walk.words.now work.old }
    ensures { IsBuilt width.bits walk.entry.words.now work.old work.new result.read result.len result.count }
{
    let ws = walk.words;
    let child = build(Walk { words: &ws[2..] }, width, &mut work[2..]);
    let top = settle_one(work, 2 + child.len, width);
    Built {
        read: 2 + child.read,
        len: top.len,
        count: child.count + top.count,
    }
}

// The right child of a node over two, and then the node: its own words and its left child stand in the work, up to `at`.
#[cycle(build_build_one_build_right_build_two)]
fn build_right(walk: Walk<'_>, width: Width, work: &mut [u64], at: usize) -> Built
    requires { HasLeft width.bits work.old at × (at + length (encode (tree_at walk.words.now)) ≤ length work.old) × (at + length (encode (tree_at walk.words.now)) ≤ 1024) }
    ensures { RightBuilt width.bits walk.entry.words.now at work.old work.new result.read result.len result.count }
{
    let right = build(walk, width, &mut work[at..]);
    let top = settle_two(work, at, at + right.len, width);
    Built {
        read: right.read,
        len: top.len,
        count: right.count + top.count,
    }
}

// A node over two children, whose own words stand in the work.
#[cycle(build_build_one_build_right_build_two)]
fn build_two(walk: Walk<'_>, width: Width, work: &mut [u64]) -> Built
    requires { HasArity walk.words.now 2 × Loaded width.bits walk.words.now work.old × HasRoom walk.words.now work.old }
    ensures { IsBuilt width.bits walk.entry.words.now work.old work.new result.read result.len result.count }
{
    let ws = walk.words;
    let left = build(Walk { words: &ws[2..] }, width, &mut work[2..]);
    let from = 2 + left.read;
    let right = build_right(Walk { words: &ws[from..] }, width, work, 2 + left.len);
    Built {
        read: from + right.read,
        len: right.len,
        count: left.count + right.count,
    }
}

// The end tree of the tree at the front of the words, at the front of the work.
#[cycle(build_build_one_build_right_build_two)]
fn build(walk: Walk<'_>, width: Width, work: &mut [u64]) -> Built
    requires { HasRoom walk.words.now work.old }
    ensures { IsBuilt width.bits walk.entry.words.now work.old work.new result.read result.len result.count }
{
    load(walk.words, width, work);
    match walk.arity() {
        Arity::Zero => Built {
            read: 2,
            len: 2,
            count: 0,
        },
        Arity::One => build_one(walk, width, work),
        Arity::Two => build_two(walk, width, work),
    }
}

// The end tree of the input in the work, and zeros behind it to the end.
pub fn chain(
    words: &[u64],
    width: u32,
    var_widths: &[u32],
    work: &mut [u64],
) -> Result<ChainEnd, Refusal>
    ensures { ChainGives (chain_admitted words.now width var_widths.now (length work.old)) width var_widths.now work.old work.new (mapped end_numbers (outcome result)) }
{
    let (tree, width) = value::one_width(words, width, var_widths)?;
    let found = tree.fold(&Counting);
    let tree = tree.with_room(work.len(), found.pairs)?;
    let built = build(Walk::over(tree), width, work);
    let len = built.len;
    work[len..].fill(0);
    Ok(ChainEnd {
        nodes: len / 2,
        rewrites: built.count,
    })
}
