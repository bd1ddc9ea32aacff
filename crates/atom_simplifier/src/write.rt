// A decision turned into words: the replacement is written at the front of the lent words, and nothing behind it.
ghost use Rattle.std.specs.Prelude.{◌≡◌, [], ◌∷◌, ◌++◌, ◌+◌, ◌≤◌, ◌<◌, length, get_or};
ghost use Rattle.expr.specs.Parts.{part, Laid};
ghost use Rattle.atom_simplifier.specs.Promises.{copied, dual_number, Writable, Writes, Replaceable};

use crate::local::Decision;
use expr::kind;
use expr::tree::Tree;
use width::Width;

// The only place where words are copied: as they stand, whatever the width.
#[tactic(auto, using(crate::proofs::WriteLaws::part_copied))]
fn copy(part: &[u64], width: Width, out: &mut [u64])
    requires { length part.now ≤ length out.old }
    ensures { Laid out.old out.new (copied width.bits part.now) }
{
    expr::copy_words(part, out);
}

// A node's own two words. Its kind is a word, here and in `write_join`, as it mostly comes from words: those of the input or of the node that is
// rewritten.
pub(crate) fn put_node(kind: u64, operand: u64, out: &mut [u64])
    requires { 2 ≤ length out.old }
    ensures { Laid out.old out.new (kind ∷ operand ∷ []) }
{
    out[0] = kind;
    out[1] = operand;
}

// And for Or, Or for And: by the kind word, as it is written over another; `Bitwise::dual` is asked of a kind that is known already.
pub(crate) fn dual(kind: u64) -> u64
    ensures { result ≡ dual_number kind }
{
    if kind == kind::AND {
        kind::OR
    } else {
        kind::AND
    }
}

// A node of the kind over the part and the constant c. A struct of its parameters would be made and taken apart in one call.
fn write_join(kind: u64, part: &[u64], c: u64, width: Width, out: &mut [u64])
    requires { 4 + length part.now ≤ length out.old }
    ensures { Laid out.old out.new (((kind ∷ 0 ∷ []) ++ copied width.bits part.now) ++ (0 ∷ c ∷ [])) }
{
    put_node(kind, 0, out);
    copy(part, width, &mut out[2..]);
    put_node(kind::CONSTANT, c, &mut out[2 + part.len()..]);
}

// A Not over the part.
fn write_not(part: &[u64], width: Width, out: &mut [u64])
    requires { 2 + length part.now ≤ length out.old }
    ensures { Laid out.old out.new ((7 ∷ 0 ∷ []) ++ copied width.bits part.now) }
{
    put_node(kind::NOT, 0, out);
    copy(part, width, &mut out[2..]);
}

// The other kind over a Not of each operand; the right operand is at `right`.
#[tactic(auto, using(crate::proofs::WriteLaws::de_morgan_laid))]
fn write_de_morgan(node: &[u64], right: usize, width: Width, out: &mut [u64])
    requires { (4 ≤ right) × (right ≤ length node.now) × (2 + length node.now ≤ length out.old) }
    ensures { Laid out.old out.new (((dual_number (get_or node.now 2 0) ∷ 0 ∷ []) ++ ((7 ∷ 0 ∷ []) ++ copied width.bits (part 4 right node.now))) ++ ((7 ∷ 0 ∷ []) ++ copied width.bits (part right (length node.now) node.now))) }
{
    put_node(dual(node[2]), 0, out);
    write_not(&node[4..right], width, &mut out[2..]);
    write_not(&node[right..], width, &mut out[right..]);
}

// Writes what the decision makes of the node, and answers how many words that is.
pub(crate) fn write_replacement(
    node: Tree<'_>,
    local: Decision,
    width: Width,
    out: &mut [u64],
) -> usize
    requires { Writable node.words.now local (length out.old) }
    ensures { Writes node.entry.words.now local out.old out.new result }
{
    let words = node.words;
    match local {
        Decision::Part(at, len) => {
            copy(&words[at..at + len], width, out);
            len
        }
        Decision::Constant(c) => {
            put_node(kind::CONSTANT, c, out);
            2
        }
        Decision::Join(at, len, c) => {
            write_join(words[0], &words[at..at + len], c, width, out);
            4 + len
        }
        Decision::DeMorgan(right) => {
            write_de_morgan(words, right, width, out);
            2 + words.len()
        }
    }
}

// Moves the `len` words from `by` on to the front.
pub(crate) fn move_down(ws: &mut [u64], by: usize, len: usize)
    requires { by + len ≤ length ws.old }
    ensures { Laid ws.old ws.new (part by (by + len) ws.old) }
{
    if by > 0 {
        ws.copy_within(by..by + len, 0);
    }
}

// The node's kind over the part of `len` words at `at` and the constant c, in the place of the node: what `write_join` writes, but the words are moved.
#[tactic(auto, using(crate::proofs::InPlaceLaws::join_moved))]
fn join_down(node: &mut [u64], at: usize, len: usize, c: u64)
    requires { (2 ≤ at) × (at + len ≤ length node.old) × (4 + len ≤ length node.old) }
    ensures { Laid node.old node.new (((get_or node.old 0 0 ∷ 0 ∷ []) ++ part at (at + len) node.old) ++ (0 ∷ c ∷ [])) }
{
    node[1] = 0;
    move_down(&mut node[2..], at - 2, len);
    let last = 2 + len;
    put_node(kind::CONSTANT, c, &mut node[last..]);
}

// Writes what the decision makes of the node of `len` words in the place of the node, from its first word on, and answers how many words that
// is. De Morgan's law, which needs more words than the node has, is not for it. `write_replacement` gives the same words, but from lent words that
// stay: these are copied, and here they are moved, which takes no second buffer.
pub(crate) fn replace(node: &mut [u64], len: usize, local: Decision) -> usize
    requires { Replaceable node.old len local }
    ensures { Writes (part 0 len node.old) local node.old node.new result }
{
    match local {
        Decision::Part(at, n) => {
            move_down(node, at, n);
            n
        }
        Decision::Constant(c) => {
            put_node(kind::CONSTANT, c, node);
            2
        }
        Decision::Join(at, n, c) => {
            join_down(node, at, n, c);
            4 + n
        }
        // never: more words than the node has. A second enum without this decision would be made from the first one by the same match.
        Decision::DeMorgan(_) => len,
    }
}
