// The first site of a tree: `find_first_certifiable_atom_rewrite_at`. Each node is visited once, children before parent and left before
// right, and its rewrite is decided only where its children have none.
ghost use Rattle.std.specs.Prelude.{◌≡◌, ◌+◌, ◌≤◌, length, get_or};
ghost use Rattle.expr.specs.Expr.{encode, depth};
ghost use Rattle.expr.specs.Parts.{tail};
ghost use Rattle.expr.specs.Front.{Leads, tree_at};
ghost use Rattle.expr.specs.Optional.{map, ◌or_else◌};
ghost use Rattle.rewriting.specs.AtomSimplifier.{here, below, local_rewrite, first_site};
ghost use Rattle.atom_simplifier.specs.Promises.{HasArity, at_root, Searched};

use crate::local;
use crate::local::Decision;
use crate::operands::Operands;
use expr::Arity;
use expr::tree::{Tree, Walk};
use std::ops::ControlFlow;
use width::Width;

// A site: its node, how many levels it is below the tree's root, and what it becomes.
#[derive(Clone, Copy)]
pub(crate) struct Site<'a> {
    pub(crate) node: Tree<'a>,
    pub(crate) levels: usize,
    pub(crate) local: Decision,
}

// The answer for a root whose children have no site: the site that ends the search, or the number of the tree's words, behind which it goes on.
fn at_root<'a>(root: Tree<'a>, decided: Option<Decision>) -> ControlFlow<Site<'a>, usize>
    ensures { result ≡ at_root root.entry decided }
{
    match decided {
        None => ControlFlow::Continue(root.words.len()),
        Some(local) => ControlFlow::Break(Site {
            node: root,
            levels: 0,
            local,
        }),
    }
}

// The child whose words begin at `from`. The path to a site is written once it is found, from its last byte to its first. No struct holds what is
// handed on: each level lends only a part of the path, as at `chain::Settled`, and `from` and `byte` are given to this function alone.
#[cycle(find_first_certifiable_atom_rewrite_at_find_from_right_find_in_child)]
fn find_in_child<'a>(
    walk: Walk<'a>,
    from: usize,
    byte: u8,
    width: Width,
    path: &mut [u8],
) -> ControlFlow<Site<'a>, usize>
    requires { (1 ≤ from) × (from ≤ length walk.words.now) × Leads (tail from walk.words.now) × (depth (tree_at (tail from walk.words.now)) ≤ length path.old) }
    ensures { Searched (map (below byte) (first_site width.bits (tree_at (tail from walk.entry.words.now)))) (length (encode (tree_at (tail from walk.entry.words.now)))) path.old path.new result }
{
    let ws = walk.words;
    let child = Walk { words: &ws[from..] };
    match find_first_certifiable_atom_rewrite_at(child, width, &mut path[1..]) {
        ControlFlow::Continue(n) => ControlFlow::Continue(n),
        ControlFlow::Break(site) => {
            path[0] = byte;
            ControlFlow::Break(Site {
                levels: site.levels + 1,
                ..site
            })
        }
    }
}

// The right child and then the root of a tree whose left child has no site; `right` is where the right one's words begin.
#[cycle(find_first_certifiable_atom_rewrite_at_find_from_right_find_in_child)]
fn find_from_right<'a>(
    walk: Walk<'a>,
    right: usize,
    width: Width,
    path: &mut [u8],
) -> ControlFlow<Site<'a>, usize>
    requires { HasArity walk.words.now 2 × (right ≡ 2 + length (encode (tree_at (tail 2 walk.words.now)))) × (depth (tree_at walk.words.now) ≤ length path.old + 1) }
    ensures { Searched (map (below 1) (first_site width.bits (tree_at (tail right walk.entry.words.now))) or_else map here (local_rewrite width.bits (tree_at walk.entry.words.now))) (length (encode (tree_at walk.entry.words.now))) path.old path.new result }
{
    let n = find_in_child(walk, right, 1, width, path)?;
    let ws = walk.words;
    let root = Tree {
        words: &ws[..right + n],
    };
    at_root(
        root,
        local::binary_rewrite(Operands { node: root, right }, width),
    )
}

// The tree at the front of the words.
#[cycle(find_first_certifiable_atom_rewrite_at_find_from_right_find_in_child)]
pub(crate) fn find_first_certifiable_atom_rewrite_at<'a>(
    walk: Walk<'a>,
    width: Width,
    path: &mut [u8],
) -> ControlFlow<Site<'a>, usize>
    requires { depth (tree_at walk.words.now) ≤ length path.old + 1 }
    ensures { Searched (first_site width.bits (tree_at walk.entry.words.now)) (length (encode (tree_at walk.entry.words.now))) path.old path.new result }
{
    match walk.arity() {
        Arity::Zero => ControlFlow::Continue(2),
        Arity::One => {
            let n = find_in_child(walk, 2, 0, width, path)?;
            let ws = walk.words;
            let root = Tree {
                words: &ws[..2 + n],
            };
            at_root(root, local::root_rewrite(root, width))
        }
        Arity::Two => {
            let left = find_in_child(walk, 2, 0, width, path)?;
            find_from_right(walk, 2 + left, width, path)
        }
    }
}
