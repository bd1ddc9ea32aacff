// The cost of a tree, after expr_cost.rs.
#![tactic(auto)]

ghost use Rattle.std.specs.Prelude.{◌≡◌};
ghost use Rattle.expr.specs.declared.kind.Binary.{Binary};
ghost use Rattle.expr.specs.Domain.{those};
ghost use Rattle.expr.specs.Expr.{Expr};
ghost use Rattle.expr.specs.ExprUtils.{has_var_dep_of};
ghost use Rattle.expr.specs.Outcome.{mapped};
ghost use Rattle.expr.specs.Parse.{parse};
ghost use Rattle.expr.specs.Answers.{outcome};
ghost use Rattle.expr_cost.specs.ExprCost.{is_nonlinear, own_weight, compute_cost, is_better};
ghost use Rattle.expr_cost.specs.Promises.{Narrow};
ghost use Rattle.expr_cost.specs.ExprCostLaws.{narrow};

use expr::fold::Fold;
use expr::kind::{Binary, Leaf, Unary};
use expr::refusal::Refusal;
use expr::tree::Tree;

// Costs are compared by weight, then by nonlinear products, then by depth.
#[derive(Clone, Copy, PartialEq, Eq, PartialOrd, Ord)]
pub struct ExprCost {
    pub weighted_size: u32,
    pub nonlinear_mul_count: u32,
    pub max_depth: u32,
}

// A cost, and whether the tree has a Variable: a product's weight depends on that of its operands.
#[derive(Clone, Copy, PartialEq, Eq)]
pub struct CostInfo {
    pub cost: ExprCost,
    pub has_var_dep: bool,
}

// What a node weighs by itself: a name for it, as all three kinds of node ask.
fn own_weight(nonlinear: bool) -> u32
    ensures { result ≡ own_weight nonlinear }
{
    if nonlinear { 3 } else { 1 }
}

// Whether a node is a product of operands that both have a Variable.
fn is_nonlinear(kind: Binary, left: bool, right: bool) -> bool
    ensures { (l r : Expr) → left ≡ has_var_dep_of l → right ≡ has_var_dep_of r → result ≡ is_nonlinear kind l r }
{
    kind == Binary::Mul && left && right
}

// The walk that finds a tree's cost. No sum wraps in a tree of at most 512 nodes, and no `Tree` has more.
struct Costs;

impl Fold for Costs {
    type Found = CostInfo;

    ghost gives = { λ _ info t. info ≡ compute_cost t };

    ghost domain = { those Narrow narrow };

    #[tactic(auto, unfolding(crate::specs::ExprCost::compute_cost, crate::specs::ExprCost::weighted_size_of, crate::specs::ExprCost::nonlinear_mul_count_of, expr::specs::Expr::depth, expr::specs::ExprUtils::has_var_dep_of))]
    fn leaf(&self, kind: Leaf) -> CostInfo {
        let cost = ExprCost {
            weighted_size: own_weight(false),
            nonlinear_mul_count: 0,
            max_depth: 1,
        };
        CostInfo {
            cost,
            has_var_dep: matches!(kind, Leaf::Variable(_)),
        }
    }

    fn unary(&self, _kind: Unary, child: CostInfo) -> CostInfo {
        let cost = ExprCost {
            weighted_size: child.cost.weighted_size.wrapping_add(own_weight(false)),
            nonlinear_mul_count: child.cost.nonlinear_mul_count,
            max_depth: child.cost.max_depth.wrapping_add(1),
        };
        CostInfo {
            cost,
            has_var_dep: child.has_var_dep,
        }
    }

    fn binary(&self, kind: Binary, lhs: CostInfo, rhs: CostInfo) -> CostInfo {
        let nonlinear = is_nonlinear(kind, lhs.has_var_dep, rhs.has_var_dep);
        let weight = lhs.cost.weighted_size.wrapping_add(rhs.cost.weighted_size);
        let products = lhs
            .cost
            .nonlinear_mul_count
            .wrapping_add(rhs.cost.nonlinear_mul_count);
        let levels = lhs.cost.max_depth.max(rhs.cost.max_depth);
        let cost = ExprCost {
            weighted_size: weight.wrapping_add(own_weight(nonlinear)),
            nonlinear_mul_count: products.wrapping_add(nonlinear as u32),
            max_depth: levels.wrapping_add(1),
        };
        CostInfo {
            cost,
            has_var_dep: lhs.has_var_dep || rhs.has_var_dep,
        }
    }
}

// The cost of the tree and whether it has a Variable, or the refusal.
pub fn compute_cost(words: &[u64]) -> Result<CostInfo, Refusal>
    ensures { outcome result ≡ mapped compute_cost (parse words.now) }
{
    Ok(Tree::read(words)?.fold(&Costs))
}

// Whether a cost is strictly below another.
pub fn is_better(candidate: ExprCost, baseline: ExprCost) -> bool
    ensures { result ≡ is_better candidate baseline }
{
    candidate < baseline
}
