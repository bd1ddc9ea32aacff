// Frames: a tree and a width as one line of lower-case hexadecimal.
#![tactic(auto)]

ghost use Rattle.std.specs.Prelude.{◌≡◌, ◌+◌, ◌*◌, ◌/◌, ◌≤◌, length, MatchOption};
ghost use Rattle.expr.specs.Outcome.{mapped};
ghost use Rattle.expr.specs.Answers.{outcome};
ghost use Rattle.expr.specs.Expr.{encode, nodes};
ghost use Rattle.expr.specs.Trees.{tree_of};
ghost use Rattle.expr.specs.Lent.{lent_after};
ghost use Rattle.hexadecimal.specs.Hex.{all_digits};
ghost use Rattle.frame.specs.Frame.{frame, with_bytes, nodes_in, unended, framed, read_line, write_frame, read_frame};

use expr::refusal::Refusal;
use expr::tree::Tree;
use width::Width;

// What a line is the frame of: a width, and how many nodes a tree has.
#[derive(Clone, Copy)]
pub struct Frame {
    pub width: u32,
    pub nodes: usize,
}

// How many nodes a line of so many bytes has, its 0a not counted, if a frame has that length.
#[tactic(auto, using(crate::proofs::ReadLaws::nodes_told))]
pub fn nodes_in(bytes: usize) -> Option<usize>
    ensures { MatchOption result (nodes_in bytes ≡ 0) (λ n. (n ≡ nodes_in bytes) × (1 ≤ n)) }
{
    ((20 <= bytes) & ((bytes <= 9218) & (bytes % 18 == 2))).then_some(bytes / 18)
}

// ---- reading

// A line without its one final 0a.
#[tactic(auto, using(crate::proofs::ReadLaws::ending))]
fn without_end(line: &[u8]) -> &[u8]
    ensures { result.now ≡ unended line.now }
{
    match line {
        [before @ .., b'\n'] => before,
        _ => line,
    }
}

// Whether every byte is a digit. No `all`: it looks at each of them, so that the compiler does so for many in one step.
fn all_digits(bytes: &[u8]) -> bool
    ensures { result ≡ all_digits bytes.now }
{
    bytes.iter().fold(true, |good, b| {
        good & (((b'0' <= *b) & (*b <= b'9')) | ((b'a' <= *b) & (*b <= b'f')))
    })
}

// Reads a line, its 0a not counted, with no look at the tree: puts its words at the front of `words`, once nothing is to be refused.
#[tactic(auto, using(crate::proofs::ReadLaws::lining))]
pub fn read_line(line: &[u8], words: &mut [u64]) -> Result<Frame, Refusal>
    ensures answer { outcome result ≡ mapped (λ p. record { width = p.0; nodes = length p.1 / 2 }) (read_line line.now (length words.old)) }
    ensures written { words.new ≡ lent_after (λ p. p.1) (read_line line.now (length words.old)) words.old }
{
    let Some(nodes) = nodes_in(line.len()) else {
        return Err(Refusal::NoFrame);
    };
    if !all_digits(line) {
        return Err(Refusal::NoFrame);
    }
    if words.len() < 2 * nodes {
        return Err(Refusal::OutputTooSmall);
    }
    let width = hexadecimal::number(&line[..2]);
    hexadecimal::read_nodes(&line[2..], words);
    Ok(Frame {
        width: width.value as u32,
        nodes,
    })
}

// Hands the tree that the words are over to `out`, once nothing is to be refused.
#[tactic(auto, using(crate::proofs::ReadLaws::handing))]
fn hand_over(words: &[u64], width: u32, out: &mut [u64]) -> Result<Frame, Refusal>
    ensures answer { outcome result ≡ mapped (λ p. record { width = p.0; nodes = nodes p.1 }) (framed (length out.old) (width, words.now)) }
    ensures written { out.new ≡ lent_after (λ p. encode p.1) (framed (length out.old) (width, words.now)) out.old }
{
    Width::try_from(width)?;
    let tree = Tree::read(words)?;
    if out.len() < words.len() {
        return Err(Refusal::OutputTooSmall);
    }
    expr::copy_words(words, out);
    Ok(Frame {
        width,
        nodes: tree.nodes(),
    })
}

// Reads a line, with or without its one final 0a: puts the words of its tree at the front of `out`.
#[tactic(auto, using(crate::proofs::ReadLaws::frames))]
pub fn read_frame(line: &[u8], out: &mut [u64]) -> Result<Frame, Refusal>
    ensures answer { outcome result ≡ mapped (λ p. record { width = p.0; nodes = nodes p.1 }) (read_frame line.now (length out.old)) }
    ensures written { out.new ≡ lent_after (λ p. encode p.1) (read_frame line.now (length out.old)) out.old }
{
    // as many words as the largest frame has; `out` is as it was where the tree is refused
    let mut words = [0; 1024];
    let read = read_line(without_end(line), &mut words)?;
    hand_over(&words[..2 * read.nodes], read.width, out)
}

// ---- writing

// Puts the frame of a tree at the front of `out`, its 0a included; how many bytes it is.
#[tactic(auto, using(crate::proofs::PutLaws::putting))]
pub fn put_frame(tree: Tree<'_>, width: Width, out: &mut [u8]) -> Result<usize, Refusal>
    ensures answer { outcome result ≡ mapped (λ t. 3 + 18 * nodes t) (with_bytes (length out.old) (tree_of tree.entry)) }
    ensures written { out.new ≡ lent_after (frame width.bits) (with_bytes (length out.old) (tree_of tree.entry)) out.old }
{
    let last = 2 + 18 * tree.nodes();
    if out.len() <= last {
        return Err(Refusal::OutputTooSmall);
    }
    hexadecimal::put_digits(u64::from(width.bits), 2, out);
    hexadecimal::put_nodes(tree.words, &mut out[2..]);
    out[last] = b'\n';
    Ok(last + 1)
}

// The same of the tree that the words are, or the refusal.
#[tactic(auto, using(crate::proofs::PutLaws::writing))]
pub fn write_frame(words: &[u64], width: u32, out: &mut [u8]) -> Result<usize, Refusal>
    ensures answer { outcome result ≡ mapped (λ t. 3 + 18 * nodes t) (write_frame words.now width (length out.old)) }
    ensures written { out.new ≡ lent_after (frame width) (write_frame words.now width (length out.old)) out.old }
{
    let width = Width::try_from(width)?;
    put_frame(Tree::read(words)?, width, out)
}
