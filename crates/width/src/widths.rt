// What the two walks find of a tree.
ghost use Rattle.std.specs.Prelude.{◌≡◌, get_or};
ghost use Rattle.expr.specs.Expr.{Expr, leaf};
ghost use Rattle.expr.specs.declared.kind.Leaf.{Leaf};
ghost use Rattle.expr.specs.declared.kind.Unary.{Unary};
ghost use Rattle.expr.specs.declared.kind.Binary.{Binary};
ghost use Rattle.expr.specs.declared.kind.Binary.TheVariants.{Concat};
ghost use Rattle.expr.specs.Outcome.{mapped, ◌and_then◌};
ghost use Rattle.expr.specs.Parse.{parse};
ghost use Rattle.expr.specs.Answers.{outcome};
ghost use Rattle.width.specs.Width.{ranged, unary_width, binary_width, checked_width_of, validate_widths, unary_rule, binary_rule, unary_keeps, binary_keeps, is_uniform_width};
ghost use Rattle.width.specs.Promises.{WidthsOf, both_of, Summable};

use crate::is_supported;
use expr::fold::Fold;
use expr::kind::{Binary, Leaf, Unary};
use expr::refusal::Refusal;
use expr::tree::Tree;

// A width list and the default width.
#[derive(Clone, Copy)]
pub(crate) struct VariableWidths<'a> {
    pub(crate) list: &'a [u32],
    pub(crate) default: u32,
}

impl VariableWidths<'_> {
    // The width of the variable of that number.
    fn of(&self, number: u32) -> u32
        ensures { result ≡ get_or self.now.list.now number self.now.default }
    {
        self.list
            .get(number as usize)
            .copied()
            .unwrap_or(self.default)
    }

    #[tactic(auto, unfolding(crate::specs::Width::checked_width_of))]
    fn leaf_width(&self, kind: Leaf) -> Result<u32, Refusal>
        ensures { outcome result ≡ checked_width_of self.now.list.now self.now.default (leaf kind) }
    {
        match kind {
            Leaf::Constant(_) => ranged(self.default),
            Leaf::Variable(number) => ranged(self.of(number)),
        }
    }
}

// The test of `Width::try_from`, with the refusal of a width in a tree, which carries it.
#[tactic(auto, unfolding(crate::specs::Width::ranged))]
fn ranged(width: u32) -> Result<u32, Refusal>
    ensures { outcome result ≡ ranged width }
{
    if is_supported(width) {
        Ok(width)
    } else {
        Err(Refusal::UnsupportedWidth(width))
    }
}

// A cast has the width that it holds, whatever its child's is.
#[tactic(auto, unfolding(crate::specs::Width::ranged))]
fn unary_width(kind: Unary, child: Result<u32, Refusal>) -> Result<u32, Refusal>
    ensures { outcome result ≡ (unary_width kind (outcome child) and_then ranged) }
{
    match kind {
        Unary::ZExt(width) | Unary::SExt(width) | Unary::Trunc(width) => ranged(width),
        _ => ranged(child?),
    }
}

// A Concat refuses by its left child before the right one. The sum does not wrap, as a width has at most 64 bits.
fn concat_width(left: Result<u32, Refusal>, right: Result<u32, Refusal>) -> Result<u32, Refusal>
    ensures { Summable left → Summable right → outcome result ≡ (binary_width Concat (outcome left) (outcome right) and_then ranged) }
{
    ranged(left?.wrapping_add(right?))
}

fn binary_width(
    kind: Binary,
    left: Result<u32, Refusal>,
    right: Result<u32, Refusal>,
) -> Result<u32, Refusal>
    ensures { Summable left → Summable right → outcome result ≡ (binary_width kind (outcome left) (outcome right) and_then ranged) }
{
    match kind {
        Binary::Concat => concat_width(left, right),
        _ => ranged(left?),
    }
}

// The operand rule of a node with one child: a cast has to fit it, for any other kind there is none.
fn unary_rule(kind: Unary, child: Result<u32, Refusal>) -> Result<(), Refusal>
    ensures { outcome result ≡ unary_rule kind (outcome child) }
{
    match kind {
        Unary::ZExt(target) | Unary::SExt(target) => {
            let child = child?;
            if target < child {
                return Err(Refusal::NarrowingExtension(target, child));
            }
            Ok(())
        }
        Unary::Trunc(target) => {
            let child = child?;
            if child < target {
                return Err(Refusal::WideningTruncation(target, child));
            }
            Ok(())
        }
        _ => Ok(()),
    }
}

// The operand rule of a node with two children: they have the same width, unless it is a Concat.
fn binary_rule(
    kind: Binary,
    left: Result<u32, Refusal>,
    right: Result<u32, Refusal>,
) -> Result<(), Refusal>
    ensures { outcome result ≡ binary_rule kind (outcome left) (outcome right) }
{
    if kind == Binary::Concat {
        return Ok(());
    }
    let left = left?;
    let right = right?;
    if left != right {
        return Err(Refusal::WidthMismatch(left, right));
    }
    Ok(())
}

// The width of a tree, and whether its widths are consistent.
#[derive(Clone, Copy)]
pub(crate) struct Widths {
    pub(crate) width: Result<u32, Refusal>,
    pub(crate) valid: Result<(), Refusal>,
}

// A node's own width goes before what is below it, and its operand rule comes last.
impl Fold for VariableWidths<'_> {
    type Found = Widths;

    ghost gives = { λ variables found t. WidthsOf variables.list.now variables.default found t };

    fn leaf(&self, kind: Leaf) -> Widths {
        let width = self.leaf_width(kind);
        Widths {
            width,
            valid: width.and(Ok(())),
        }
    }

    fn unary(&self, kind: Unary, child: Widths) -> Widths {
        let width = unary_width(kind, child.width);
        let rule = unary_rule(kind, child.width);
        Widths {
            width,
            valid: width.and(child.valid).and(rule),
        }
    }

    fn binary(&self, kind: Binary, left: Widths, right: Widths) -> Widths {
        let width = binary_width(kind, left.width, right.width);
        let rule = binary_rule(kind, left.width, right.width);
        Widths {
            width,
            valid: width.and(left.valid).and(right.valid).and(rule),
        }
    }
}

// The widths of the tree that the words are, or the refusal.
pub(crate) fn widths_of(words: &[u64], list: &[u32], default: u32) -> Result<Widths, Refusal>
    ensures { mapped both_of (outcome result) ≡ mapped (λ t. (checked_width_of list.now default t, validate_widths list.now default t)) (parse words.now) }
{
    let variables = VariableWidths { list, default };
    Ok(Tree::read(words)?.fold(&variables))
}

// Whether a tree is uniform at a width, which is the default width too.
#[derive(Clone, Copy)]
pub(crate) struct Uniform<'a> {
    pub(crate) variables: VariableWidths<'a>,
}

// A cast is not uniform, nor is a Concat.
impl Fold for Uniform<'_> {
    type Found = bool;

    ghost gives = { λ uniform found t. found ≡ is_uniform_width uniform.variables.list.now uniform.variables.default t };

    #[tactic(auto, unfolding(crate::specs::Width::is_uniform_width))]
    fn leaf(&self, kind: Leaf) -> bool {
        match kind {
            Leaf::Constant(_) => true,
            Leaf::Variable(number) => self.variables.of(number) == self.variables.default,
        }
    }

    #[tactic(auto, unfolding(crate::specs::Width::is_uniform_width))]
    fn unary(&self, kind: Unary, child: bool) -> bool {
        match kind {
            Unary::ZExt(_) | Unary::SExt(_) | Unary::Trunc(_) => false,
            _ => child,
        }
    }

    #[tactic(auto, unfolding(crate::specs::Width::is_uniform_width))]
    fn binary(&self, kind: Binary, left: bool, right: bool) -> bool {
        match kind {
            Binary::Concat => false,
            _ => left && right,
        }
    }
}
