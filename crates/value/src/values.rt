// The walk that finds a tree's value.
ghost use Rattle.std.specs.Prelude.{◌≡◌, ◌<◌, ◌^◌};
ghost use Rattle.expr.specs.declared.kind.Unary.{Unary};
ghost use Rattle.expr.specs.declared.kind.Binary.{Binary};
ghost use Rattle.value.specs.Value.{unary_value, binary_value};
ghost use Rattle.value.specs.Promises.{value_if_lent};

use expr::fold::Fold;
use expr::kind::{Binary, Leaf, Unary};
use width::Width;

// The shift is by the operand as a number: from the width up nothing is left.
#[tactic(auto, using(crate::proofs::NodeLaws::not_value, crate::proofs::NodeLaws::neg_value, crate::proofs::NodeLaws::shr_value))]
fn unary_value(kind: Unary, x: u64, width: Width) -> u64
    ensures { x < 2 ^ width.bits → result ≡ unary_value width.bits kind x }
{
    match kind {
        Unary::Not => arith::mod_not(x, width.bits),
        Unary::Neg => arith::mod_neg(x, width.bits),
        Unary::Shr(shift) => arith::mod_shr(x, u64::from(shift), width.bits),
        // no tree of one width has a cast
        Unary::ZExt(_) | Unary::SExt(_) | Unary::Trunc(_) => 0,
    }
}

fn binary_value(kind: Binary, x: u64, y: u64, width: Width) -> u64
    ensures { result ≡ binary_value width.bits kind x y }
{
    match kind {
        Binary::Add => arith::mod_add(x, y, width.bits),
        Binary::Mul => arith::mod_mul(x, y, width.bits),
        Binary::And => x & y,
        Binary::Or => x | y,
        Binary::Xor => x ^ y,
        // no tree of one width has one
        Binary::Concat => 0,
    }
}

// A width and a setting. A tree has a value if the setting has a word for each of its variables.
#[derive(Clone, Copy)]
pub(crate) struct Values<'a> {
    pub(crate) width: Width,
    pub(crate) setting: &'a [u64],
}

impl Fold for Values<'_> {
    type Found = Option<u64>;

    ghost gives = { λ values found t. found ≡ value_if_lent values.width.bits values.setting.now t };

    fn leaf(&self, kind: Leaf) -> Option<u64> {
        match kind {
            Leaf::Constant(word) => Some(arith::trunc(word, self.width.bits)),
            Leaf::Variable(number) => {
                let word = self.setting.get(number as usize)?;
                Some(arith::trunc(*word, self.width.bits))
            }
        }
    }

    fn unary(&self, kind: Unary, child: Option<u64>) -> Option<u64> {
        let x = child?;
        Some(unary_value(kind, x, self.width))
    }

    fn binary(&self, kind: Binary, left: Option<u64>, right: Option<u64>) -> Option<u64> {
        let x = left?;
        let y = right?;
        Some(binary_value(kind, x, y, self.width))
    }
}
