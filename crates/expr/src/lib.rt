// Trees as words, after expr.rs and expr_utils.rs. A node is a kind word and an operand word; the words of its children follow, from
// left to right. A child is passed on as the part of the caller's slice where its words begin.
#![tactic(auto)]

ghost use Rattle.std.specs.Prelude.{◌≡◌, min, length, take};
ghost use Rattle.expr.specs.Expr.{nodes};
ghost use Rattle.expr.specs.ExprUtils.{has_var_dep_of, is_constant_subtree};
ghost use Rattle.expr.specs.Outcome.{mapped};
ghost use Rattle.expr.specs.Parse.{arity, arity_of, operand_ok, node_kind, subtree, word_count_ok, parse};
ghost use Rattle.expr.specs.Span.{span_of};
ghost use Rattle.expr.specs.SameWords.{same_words};
ghost use Rattle.expr.specs.Lent.{over};
ghost use Rattle.expr.specs.Trees.{tree_of};
ghost use Rattle.expr.specs.Answers.{outcome, children_of, arity_outcome};

pub mod fold;
pub mod kind;
pub mod refusal;
pub mod tree;

use refusal::Refusal;
use tree::Tree;

// How many children a node has.
#[derive(Clone, Copy, PartialEq, Eq)]
pub enum Arity {
    Zero,
    One,
    Two,
}

impl Arity {
    // As a number, by name: a cast of the enum would leave it to the order of the cases.
    pub fn children(self) -> usize
        ensures { result ≡ children_of self }
    {
        match self {
            Arity::Zero => 0,
            Arity::One => 1,
            Arity::Two => 2,
        }
    }
}

// The number of children of a kind word: the project's rules have a match with ranges decide it, and no other function.
#[tactic(auto, using(crate::proofs::NodeLaws::arities))]
pub fn arity_of(kind: u64) -> Result<Arity, Refusal>
    ensures { arity_outcome result ≡ arity_of kind }
{
    match kind {
        0..=1 => Ok(Arity::Zero),
        2..=6 => Ok(Arity::Two),
        7..=12 => Ok(Arity::One),
        13 => Ok(Arity::Two),
        _ => Err(Refusal::UnknownKind),
    }
}

// Whether the kind allows the operand, by a node's two words, which are not yet known to be one's.
#[tactic(auto, using(crate::proofs::NodeLaws::operand_rules))]
fn operand_ok(kind: u64, operand: u64) -> bool
    ensures { result ≡ operand_ok kind operand }
{
    match kind {
        kind::CONSTANT => true,
        kind::VARIABLE | kind::SHR..=kind::TRUNC => operand <= 0xffff_ffff,
        _ => operand == 0,
    }
}

// The arity of a node, by its two words, with `levels` levels left for it and what is below it, or its own refusal.
fn node_arity(kind: u64, operand: u64, levels: usize) -> Result<Arity, Refusal>
    ensures { arity_outcome result ≡ mapped arity (node_kind levels kind operand) }
{
    let arity = arity_of(kind)?;
    if !operand_ok(kind, operand) {
        return Err(Refusal::OperandOutOfRange);
    }
    if levels == 0 {
        return Err(Refusal::TooDeep);
    }
    Ok(arity)
}

// Whether so many words are a whole number of nodes, from 1 to 512.
#[tactic(auto, using(crate::proofs::NodeLaws::counts))]
fn word_count_ok(count: usize) -> bool
    ensures { result ≡ word_count_ok count }
{
    count != 0 && count <= 1024 && count % 2 == 0
}

// The subtree at the front of the words, of at most `levels` levels: its nodes, or the first refusal in word order.
fn check_at(ws: &[u64], levels: usize) -> Result<usize, Refusal>
    ensures { outcome result ≡ mapped (λ p. nodes p.0) (subtree levels ws.now) }
{
    if ws.len() < 2 {
        return Err(Refusal::WordsEnd);
    }
    let arity = node_arity(ws[0], ws[1], levels)?;
    let rest = &ws[2..];
    match arity {
        Arity::Zero => Ok(1),
        Arity::One => {
            let n = check_at(rest, levels - 1)?;
            Ok(n + 1)
        }
        Arity::Two => {
            let below = levels - 1;
            let n = check_at(rest, below)?;
            let right = 2 * n;
            let m = check_at(&rest[right..], below)?;
            Ok(n + m + 1)
        }
    }
}

// The number of nodes of the tree that the words are, or the refusal.
pub fn check_tree(words: &[u64]) -> Result<usize, Refusal>
    ensures { outcome result ≡ mapped nodes (parse words.now) }
{
    let n = words.len();
    if !word_count_ok(n) {
        return Err(Refusal::WordCount);
    }
    let m = check_at(words, 64)?;
    if 2 * m < n {
        return Err(Refusal::WordsLeftOver);
    }
    Ok(m)
}

// The length of the first subtree in words, or the refusal. It looks at no operand, no depth and nothing behind the subtree.
pub fn span(words: &[u64]) -> Result<usize, Refusal>
    ensures { outcome result ≡ span_of words.now }
{
    if !word_count_ok(words.len()) {
        return Err(Refusal::WordCount);
    }
    // how many subtrees are still to come; by places, since the answer is one
    let mut due: usize = 1;
    for at in (0..words.len()).step_by(2) {
        let arity = arity_of(words[at])?;
        due = due + arity.children() - 1;
        if due == 0 {
            return Ok(at + 2);
        }
    }
    Err(Refusal::WordsEnd)
}

// Whether two trees are equal: their words are the same.
pub fn same_words(a: &[u64], b: &[u64]) -> bool
    ensures { result ≡ same_words a.now b.now }
{
    a == b
}

// Copies words to the front of `out`, as many as it has room for.
pub fn copy_words(words: &[u64], out: &mut [u64])
    ensures { out.new ≡ over (take (length out.old) words.now) out.old }
{
    let n = words.len().min(out.len());
    out[..n].copy_from_slice(&words[..n]);
}

// Whether a tree has a Variable. Not a `Fold`, which visits each node: its kind words stand at the even places, and the first of a Variable
// ends the loop.
fn has_variable(tree: Tree<'_>) -> bool
    ensures { result ≡ has_var_dep_of (tree_of tree.entry) }
{
    let words = tree.words;
    // by places, since every second word is a kind word
    for place in (0..words.len()).step_by(2) {
        if words[place] == kind::VARIABLE {
            return true;
        }
    }
    false
}

// Whether the tree has a Variable.
pub fn has_var_dep(words: &[u64]) -> Result<bool, Refusal>
    ensures { outcome result ≡ mapped has_var_dep_of (parse words.now) }
{
    Ok(has_variable(Tree::read(words)?))
}

// Whether the tree has no Variable.
pub fn is_constant_subtree(words: &[u64]) -> Result<bool, Refusal>
    ensures { outcome result ≡ mapped is_constant_subtree (parse words.now) }
{
    Ok(!has_var_dep(words)?)
}
