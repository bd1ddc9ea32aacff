// The local rewrite of a tree and its first site, after atom_simplifier.rs. A rewrite is decided first, with nothing written, and the
// decision is then turned into words. In document 01's terms a site is a node that has a local rewrite; the first site is the one that is met
// first where each node is visited after its children, the left child before the right one.
#![tactic(auto)]

ghost use Rattle.std.specs.Prelude.{◌≡◌, IfOk, length};
ghost use Rattle.expr.specs.Outcome.{mapped};
ghost use Rattle.expr.specs.Expr.{encode, nodes};
ghost use Rattle.expr.specs.Answers.{outcome};
ghost use Rattle.expr.specs.Trees.{tree_of};
ghost use Rattle.expr.specs.Optional.{map, option_of};
ghost use Rattle.atom_simplifier.specs.Calls.{admitted, local_rewrite_at, first_site_at, written};
ghost use Rattle.atom_simplifier.specs.Answers.{site_numbers};

pub mod chain;
mod fold;
mod local;
mod operands;
mod pairs;
mod search;
mod write;

use expr::refusal::Refusal;
use expr::tree::{Tree, Walk};
use std::ops::ControlFlow;
use width::Width;

// A path has a byte for each level below the root, of which a tree has at most so many.
const PATH_BYTES: usize = 63;

// A site: the bytes of its path, and the nodes of what it becomes.
#[derive(Clone, Copy, PartialEq, Eq)]
pub struct FoundSite {
    pub path: usize,
    pub nodes: usize,
}

// The tree that can be rewritten into an output of `room` words and its width, or the refusal.
fn admit<'a>(words: &'a [u64], width: u32, room: usize) -> Result<(Tree<'a>, Width), Refusal>
    ensures tree { mapped (λ p. tree_of p.0) (outcome result) ≡ admitted words.now width room }
    ensures width { IfOk result (λ p. p.1.bits ≡ width) }
{
    let supported = Width::try_from(width)?;
    let tree = Tree::read(words)?.with_room(room, 1)?;
    Ok((tree, supported))
}

// What the tree becomes at its root: the nodes of the replacement, if it has one. Its words are written at the front of `out`, and nothing else.
pub fn local_certifiable_atom_rewrite(
    words: &[u64],
    width: u32,
    out: &mut [u64],
) -> Result<Option<usize>, Refusal>
    ensures { (mapped option_of (outcome result) ≡ mapped (map nodes) (local_rewrite_at words.now width (length out.old))) × (out.new ≡ written encode (local_rewrite_at words.now width (length out.old)) out.old) }
{
    let (root, width) = admit(words, width, out.len())?;
    let Some(decided) = local::root_rewrite(root, width) else {
        return Ok(None);
    };
    let n = write::write_replacement(root, decided, width, out);
    Ok(Some(n / 2))
}

// The first site, if there is one: its path, a byte 0 or 1 for each level, at the front of `path`, and what it becomes at the front of `out`.
pub fn find_first_certifiable_atom_rewrite(
    words: &[u64],
    width: u32,
    path: &mut [u8],
    out: &mut [u64],
) -> Result<Option<FoundSite>, Refusal>
    ensures { (mapped (λ o. map site_numbers (option_of o)) (outcome result) ≡ mapped (map (λ s. (length s.path, nodes s.replacement))) (first_site_at words.now width (length path.old) (length out.old))) × (path.new ≡ written (λ s. s.path) (first_site_at words.now width (length path.old) (length out.old)) path.old) × (out.new ≡ written (λ s. encode s.replacement) (first_site_at words.now width (length path.old) (length out.old)) out.old) }
{
    let (tree, width) = admit(words, width, out.len())?;
    if path.len() < PATH_BYTES {
        return Err(Refusal::OutputTooSmall);
    }
    match search::find_first_certifiable_atom_rewrite_at(Walk::over(tree), width, path) {
        ControlFlow::Continue(_) => Ok(None),
        ControlFlow::Break(site) => {
            let n = write::write_replacement(site.node, site.local, width, out);
            Ok(Some(FoundSite {
                path: site.levels,
                nodes: n / 2,
            }))
        }
    }
}
