// The value of a tree of one width at a setting. In document 01's terms a tree is of one width if a call with that width and that width list
// gives it none of the refusals 1 to 8; a setting is a list that has a word for each variable, by its number.
#![tactic(auto)]

ghost use Rattle.std.specs.Prelude.{◌≡◌, IfOk};
ghost use Rattle.expr.specs.Expr.{nodes};
ghost use Rattle.expr.specs.Trees.{tree_of};
ghost use Rattle.expr.specs.Outcome.{mapped, ◌and_then◌};
ghost use Rattle.expr.specs.Answers.{outcome};
ghost use Rattle.value.specs.Value.{one_width_of, value_at};

mod values;

use expr::refusal::Refusal;
use expr::tree::Tree;
use values::Values;
use width::Width;

// The tree of one width that the words are and this width, or the first of the refusals 1 to 8.
pub fn one_width<'a>(
    words: &'a [u64],
    width: u32,
    var_widths: &[u32],
) -> Result<(Tree<'a>, Width), Refusal>
    ensures tree { mapped (λ p. tree_of p.0) (outcome result) ≡ one_width_of words.now width var_widths.now }
    ensures width { IfOk result (λ p. p.1.bits ≡ width) }
{
    let supported = Width::try_from(width)?;
    let tree = Tree::read(words)?;
    if !width::is_uniform(tree, var_widths, width) {
        return Err(Refusal::NotUniform);
    }
    Ok((tree, supported))
}

// The nodes of a tree of one width, or the refusal.
pub fn check_one_width(words: &[u64], width: u32, var_widths: &[u32]) -> Result<usize, Refusal>
    ensures { outcome result ≡ mapped nodes (one_width_of words.now width var_widths.now) }
{
    let (tree, _) = one_width(words, width, var_widths)?;
    Ok(tree.nodes())
}

// The value of a tree of one width at a setting, or the refusal: 1 to 8, then 15.
pub fn value(words: &[u64], width: u32, var_widths: &[u32], setting: &[u64]) -> Result<u64, Refusal>
    ensures { outcome result ≡ (one_width_of words.now width var_widths.now and_then value_at width setting.now) }
{
    let (tree, width) = one_width(words, width, var_widths)?;
    let values = Values { width, setting };
    tree.fold(&values).ok_or(Refusal::NoWord)
}
