// The widths of a tree's nodes, after width.rs. `var_widths` is document 01's width list: the widths of the variables by their number; a
// variable past its end has the default width.
#![tactic(auto)]

ghost use Rattle.std.specs.Prelude.{◌≡◌, ◌≤◌};
ghost use Rattle.expr.specs.Expr.{nodes};
ghost use Rattle.expr.specs.Outcome.{mapped, ◌and_then◌};
ghost use Rattle.expr.specs.Parse.{parse};
ghost use Rattle.expr.specs.Answers.{outcome};
ghost use Rattle.expr.specs.Trees.{tree_of};
ghost use Rattle.width.specs.Width.{supported, checked_width_of, width_of, validate_widths, is_uniform_width};
ghost use Rattle.width.specs.Checked.{checked, width_of_call};

mod widths;

use expr::refusal::Refusal;
use expr::tree::Tree;
use widths::{Uniform, VariableWidths, widths_of};

// Whether a width is one of 1 to 64.
#[tactic(auto, using(crate::specs::WidthLaws::in_range, crate::specs::WidthLaws::too_narrow, crate::specs::WidthLaws::too_wide))]
pub fn is_supported(width: u32) -> bool
    ensures { result ≡ supported width }
{
    matches!(width, 1..=64)
}

// A width of 1 to 64 bits.
#[derive(Clone, Copy, PartialEq, Eq)]
pub struct Width {
    pub bits: u32,
    pub ghost least: { 1 ≤ bits },
    pub ghost most: { bits ≤ 64 },
}

impl TryFrom<u32> for Width {
    type Error = Refusal;

    ghost try_from_gives = { λ bits r. mapped (λ w. w.bits) (outcome r) ≡ width_of_call bits };

    fn try_from(bits: u32) -> Result<Width, Refusal> {
        if !is_supported(bits) {
            return Err(Refusal::WidthOutOfRange);
        }
        Ok(Width { bits })
    }
}

// The width of the tree, or the refusal.
pub fn checked_width_of(words: &[u64], var_widths: &[u32], default_w: u32) -> Result<u32, Refusal>
    ensures { outcome result ≡ (parse words.now and_then checked_width_of var_widths.now default_w) }
{
    widths_of(words, var_widths, default_w)?.width
}

// The width of the tree, 0 where `checked_width_of` gives 10.
pub fn width_of(words: &[u64], var_widths: &[u32], default_w: u32) -> Result<u32, Refusal>
    ensures { outcome result ≡ mapped (width_of var_widths.now default_w) (parse words.now) }
{
    Ok(widths_of(words, var_widths, default_w)?.width.unwrap_or(0))
}

// Whether the widths of the tree's nodes are consistent: the first refusal, each node's own width before its children, and they before
// its operand rule.
pub fn validate_widths(words: &[u64], var_widths: &[u32], default_w: u32) -> Result<(), Refusal>
    ensures { outcome result ≡ (parse words.now and_then validate_widths var_widths.now default_w) }
{
    widths_of(words, var_widths, default_w)?.valid
}

// Whether the tree has no cast and no Concat, and every variable is w bits wide.
pub fn is_uniform(tree: Tree<'_>, var_widths: &[u32], w: u32) -> bool
    ensures { result ≡ is_uniform_width var_widths.now w (tree_of tree.entry) }
{
    let variables = VariableWidths {
        list: var_widths,
        default: w,
    };
    tree.fold(&Uniform { variables })
}

// The same of the tree that the words are, or the refusal.
pub fn is_uniform_width(words: &[u64], var_widths: &[u32], w: u32) -> Result<bool, Refusal>
    ensures { outcome result ≡ mapped (is_uniform_width var_widths.now w) (parse words.now) }
{
    Ok(is_uniform(Tree::read(words)?, var_widths, w))
}

// The nodes of a tree at a supported width, or the refusal: 1, then 2 to 7.
pub fn check_tree_at(words: &[u64], width: u32) -> Result<usize, Refusal>
    ensures { outcome result ≡ mapped nodes (checked width words.now) }
{
    Width::try_from(width)?;
    expr::check_tree(words)
}
