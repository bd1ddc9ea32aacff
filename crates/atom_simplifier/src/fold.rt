// `try_fold_binary` and its helpers.
ghost use Rattle.std.specs.Prelude.{◌≡◌, Some, get_or};
ghost use Rattle.std.proofs.Math.Option.{some};
ghost use Rattle.expr.specs.Optional.{◌and_then◌, option_of};
ghost use Rattle.expr.specs.Trees.{tree_of};
ghost use Rattle.rewriting.specs.AtomSimplifier.{constant, constant_val, same_part, is_not_of, are_complements, contains_operand, kind_of, constant_arms, arms, folded_word, reassociate_constant, try_fold_binary};
ghost use Rattle.atom_simplifier.specs.Promises.{is_constant, arm_tree, bitwise_of, number_of, KindIs, identity_of, absorbing_of, complements_of, dual_of, DecidesAt};

use crate::local::Decision;
use crate::operands::{Operands, Placed};
use expr::kind;
use expr::kind::{Binary, Unary};
use expr::tree::Tree;
use width::Width;

// The kinds that are folded: with `Binary` each match on them would have an arm for three kinds that cannot be there.
#[derive(Clone, Copy, PartialEq, Eq)]
pub(crate) enum Bitwise {
    And,
    Or,
    Xor,
}

impl Bitwise {
    // The folded kind of a kind word, if it is one.
    pub(crate) fn of(kind: u64) -> Option<Bitwise>
        ensures { KindIs kind result }
    {
        match kind {
            kind::AND => Some(Bitwise::And),
            kind::OR => Some(Bitwise::Or),
            kind::XOR => Some(Bitwise::Xor),
            _ => None,
        }
    }

    // Or for And, And for Or: a node of that kind absorbs.
    fn dual(self) -> Option<Binary>
        ensures { option_of result ≡ dual_of (bitwise_of self) }
    {
        match self {
            Bitwise::And => Some(Binary::Or),
            Bitwise::Or => Some(Binary::And),
            Bitwise::Xor => None,
        }
    }
}

impl From<Bitwise> for Binary {
    ghost from_gives = { λ op kind. kind ≡ kind_of (bitwise_of op) };

    fn from(op: Bitwise) -> Binary {
        match op {
            Bitwise::And => Binary::And,
            Bitwise::Or => Binary::Or,
            Bitwise::Xor => Binary::Xor,
        }
    }
}

// The only place where a constant is read: its word as it stands, whatever the width. The width is given, although not used, as the
// definition takes it: how a word counts at a width is decided here alone. So it is in `same_part`, `write::copy` and `chain::load`.
fn constant_val(tree: Tree<'_>, width: Width) -> Option<u64>
    ensures { option_of result ≡ constant_val width.bits (tree_of tree.entry) }
{
    tree.constant()
}

// The only place where parts are compared: word by word, whatever the width.
#[tactic(auto, unfolding(rewriting::specs::AtomSimplifier::same_part))]
pub(crate) fn same_part(a: Tree<'_>, b: Tree<'_>, width: Width) -> bool
    ensures { result ≡ same_part width.bits (tree_of a.entry) (tree_of b.entry) }
{
    a.expr_eq(b)
}

// Whether the tree is the Constant c.
#[tactic(auto, unfolding(crate::specs::Promises::is_constant))]
pub(crate) fn is_constant(tree: Tree<'_>, c: u64, width: Width) -> bool
    ensures { result ≡ is_constant width.bits (tree_of tree.entry) c }
{
    constant_val(tree, width) == Some(c)
}

// Trees are compared as the width has it; the candidates' `is_not_of` compares them raw. No `is_some_and` here and in `contains_operand`: tried,
// 'no proof' that what it gives is the definition's answer.
#[inline]
#[tactic(auto, using(crate::proofs::OperandLaws::not_tests))]
fn is_not_of(outer: Tree<'_>, inner: Tree<'_>, width: Width) -> bool
    ensures { result ≡ is_not_of width.bits (tree_of outer.entry) (tree_of inner.entry) }
{
    match outer.operand(Unary::Not) {
        Some(operand) => same_part(operand, inner, width),
        None => false,
    }
}

#[tactic(auto, unfolding(rewriting::specs::AtomSimplifier::are_complements))]
fn are_complements(a: Tree<'_>, b: Tree<'_>, width: Width) -> bool
    ensures { result ≡ are_complements width.bits (tree_of a.entry) (tree_of b.entry) }
{
    is_not_of(a, b, width) || is_not_of(b, a, width)
}

// Whether `whole` is a node of the kind `op` with `part` as one of its two operands. Inlined, as the arms ask it
// of nodes that mostly are of another kind.
#[inline(always)]
#[tactic(auto, using(crate::proofs::OperandLaws::operand_tests))]
fn contains_operand(whole: Tree<'_>, op: Binary, part: Tree<'_>, width: Width) -> bool
    ensures { result ≡ contains_operand width.bits (tree_of whole.entry) op (tree_of part.entry) }
{
    match whole.operands(op) {
        Some((l, r)) => same_part(l, part, width) || same_part(r, part, width),
        None => false,
    }
}

// What the arms of the fold make of two operands: one of them, a constant, or the node itself, which is no lack of a tree: `constant_beside`
// writes it.
#[derive(Clone, Copy)]
pub(crate) enum Arm {
    Left,
    Right,
    Constant(u64),
    Node,
}

// A fold: its kind and the width.
#[derive(Clone, Copy)]
pub(crate) struct BinaryFold {
    pub(crate) op: Bitwise,
    pub(crate) width: Width,
}

impl BinaryFold {
    // The constant that leaves the other operand: all ones for And, else 0.
    fn identity(self) -> u64
        ensures { result ≡ identity_of self.width.bits (bitwise_of self.op) }
    {
        match self.op {
            Bitwise::And => arith::bitmask(self.width.bits),
            Bitwise::Or | Bitwise::Xor => 0,
        }
    }

    // What two operands come to of which one is Not of the other: 0 for And, else all ones.
    fn complements(self) -> u64
        ensures { result ≡ complements_of self.width.bits (bitwise_of self.op) }
    {
        match self.op {
            Bitwise::And => 0,
            Bitwise::Or | Bitwise::Xor => arith::bitmask(self.width.bits),
        }
    }

    // The constant that the node comes to whatever the other operand is; Xor has none.
    fn absorbing(self) -> Option<u64>
        ensures { option_of result ≡ absorbing_of self.width.bits (bitwise_of self.op) }
    {
        match self.op {
            Bitwise::And | Bitwise::Or => Some(self.complements()),
            Bitwise::Xor => None,
        }
    }

    #[tactic(auto, using(crate::proofs::ArmLaws::constants))]
    fn constant_arms(self, lhs: Tree<'_>, rhs: Tree<'_>) -> Arm
        ensures { arm_tree (bitwise_of self.op) (tree_of lhs.entry) (tree_of rhs.entry) result ≡ constant_arms self.width.bits (bitwise_of self.op) (tree_of lhs.entry) (tree_of rhs.entry) }
    {
        let identity = self.identity();
        if is_constant(rhs, identity, self.width) {
            return Arm::Left;
        }
        if is_constant(lhs, identity, self.width) {
            return Arm::Right;
        }
        if let Some(c) = self.absorbing() {
            if is_constant(rhs, c, self.width) || is_constant(lhs, c, self.width) {
                return Arm::Constant(c);
            }
        }
        Arm::Node
    }

    // Complements, absorption, and the constants 0 and all ones.
    #[tactic(auto, using(crate::proofs::ArmLaws::operands))]
    fn arms(self, lhs: Tree<'_>, rhs: Tree<'_>) -> Arm
        ensures { arm_tree (bitwise_of self.op) (tree_of lhs.entry) (tree_of rhs.entry) result ≡ arms self.width.bits (bitwise_of self.op) (tree_of lhs.entry) (tree_of rhs.entry) }
    {
        if are_complements(lhs, rhs, self.width) {
            return Arm::Constant(self.complements());
        }
        if let Some(dual) = self.op.dual() {
            if contains_operand(rhs, dual, lhs, self.width) {
                return Arm::Left;
            }
            if contains_operand(lhs, dual, rhs, self.width) {
                return Arm::Right;
            }
        }
        self.constant_arms(lhs, rhs)
    }

    // Two constants as one, masked to the width.
    fn folded_word(self, d: u64, c: u64) -> u64
        ensures { result ≡ folded_word self.width.bits (bitwise_of self.op) d c }
    {
        let word = match self.op {
            Bitwise::And => d & c,
            Bitwise::Or => d | c,
            Bitwise::Xor => d ^ c,
        };
        arith::trunc(word, self.width.bits)
    }

    // What the arms make of the part and the constant c.
    #[tactic(auto, using(crate::proofs::ReassociateLaws::beside))]
    fn constant_beside(self, part: Placed<'_>, c: u64) -> Decision
        ensures { DecidesAt (number_of self.op) part.entry.at part.entry.tree.words.now (Some result) (some (arms self.width.bits (bitwise_of self.op) (tree_of part.entry.tree) (constant c))) }
    {
        let words = [kind::CONSTANT, c];
        match self.arms(part.tree, Tree { words: &words }) {
            Arm::Left => part.part(),
            Arm::Right => Decision::Constant(c),
            Arm::Constant(v) => Decision::Constant(v),
            Arm::Node => Decision::Join(part.at, part.tree.words.len(), c),
        }
    }

    // The fold of the part with the constants d and c as one.
    #[cycle(fold_constants_reassociate_constant)]
    #[tactic(auto, using(crate::proofs::ReassociateLaws::folded_two))]
    fn fold_constants(self, part: Placed<'_>, d: u64, c: u64) -> Decision
        ensures { DecidesAt (number_of self.op) part.entry.at part.entry.tree.words.now (Some result) (some (try_fold_binary self.width.bits (bitwise_of self.op) (tree_of part.entry.tree) (constant (folded_word self.width.bits (bitwise_of self.op) d c)))) }
    {
        let folded = self.folded_word(d, c);
        // no `unwrap_or_else`: tried, 'no proof of DecidesAt' for its result
        match self.reassociate_constant(part, folded) {
            Some(found) => found,
            None => self.constant_beside(part, folded),
        }
    }

    // `(x op d) op c`, or `(d op x) op c`, as the fold of x and `d op c`; `lhs` is the inner node. The Rust calls `try_fold_binary` again here,
    // whose right operand is then that constant. No `map` and `or_else`: tried, each closure
    // is then one more member of the cycle, with clauses and a measure of its own.
    #[cycle(fold_constants_reassociate_constant)]
    #[tactic(auto, using(crate::proofs::ReassociateLaws::other_kind))]
    fn reassociate_constant(self, lhs: Placed<'_>, rhs_const: u64) -> Option<Decision>
        ensures { DecidesAt (number_of self.op) lhs.entry.at lhs.entry.tree.words.now result (reassociate_constant self.width.bits (bitwise_of self.op) (tree_of lhs.entry.tree) rhs_const) }
    {
        let (l, r) = lhs.operands(self.op.into())?;
        if let Some(d) = constant_val(r.tree, self.width) {
            return Some(self.fold_constants(l, d, rhs_const));
        }
        let d = constant_val(l.tree, self.width)?;
        Some(self.fold_constants(r, d, rhs_const))
    }

    // Reassociation of the operand x with the other operand y, where y is a constant.
    #[tactic(auto, using(crate::proofs::NodeFoldLaws::beside_none))]
    fn reassociate_beside(self, x: Placed<'_>, y: Tree<'_>) -> Option<Decision>
        ensures { DecidesAt (number_of self.op) x.entry.at x.entry.tree.words.now result (constant_val self.width.bits (tree_of y.entry) and_then reassociate_constant self.width.bits (bitwise_of self.op) (tree_of x.entry.tree)) }
    {
        let c = constant_val(y, self.width)?;
        self.reassociate_constant(x, c)
    }
}

// The fold of a node with its operands.
#[derive(Clone, Copy)]
pub(crate) struct NodeFold<'a> {
    pub(crate) by: BinaryFold,
    pub(crate) operands: Operands<'a>,
    ghost kind_is: { get_or operands.node.words.now 0 0 ≡ number_of by.op },
}

impl NodeFold<'_> {
    ghost use Rattle.expr.specs.Front.{left_of, right_of};
    ghost use Rattle.rewriting.specs.AtomSimplifier.{fold_rewrite};
    ghost use Rattle.atom_simplifier.specs.Promises.{arm_rewrite, Decides};

    // What the arms make of the node, where it is another tree.
    #[tactic(auto, using(crate::proofs::NodeFoldLaws::node_arms))]
    fn arm_rewrite(self) -> Option<Decision>
        ensures { Decides self.entry.operands.node.words.now result (arm_rewrite self.entry.by.width.bits (bitwise_of self.entry.by.op) (left_of (tree_of self.entry.operands.node)) (right_of (tree_of self.entry.operands.node))) }
    {
        let lhs = self.operands.lhs();
        let rhs = self.operands.rhs();
        match self.by.arms(lhs.tree, rhs.tree) {
            Arm::Left => Some(lhs.part()),
            Arm::Right => Some(rhs.part()),
            Arm::Constant(c) => Some(Decision::Constant(c)),
            Arm::Node => None,
        }
    }

    // The fold, where it gives another tree: reassociation with the right operand's constant, or else with the left one's, or else the arms. Such
    // a tree has fewer nodes (ShapeLaws, `reassociated_less`), so that the two are not compared. No `or_else`: tried, no proof of `Decides` for its
    // result.
    #[tactic(auto, using(crate::proofs::NodeFoldLaws::node_fold))]
    pub(crate) fn try_fold_binary(self) -> Option<Decision>
        ensures { Decides self.entry.operands.node.words.now result (fold_rewrite self.entry.by.width.bits (bitwise_of self.entry.by.op) (left_of (tree_of self.entry.operands.node)) (right_of (tree_of self.entry.operands.node))) }
    {
        let lhs = self.operands.lhs();
        let rhs = self.operands.rhs();
        if let Some(found) = self.by.reassociate_beside(lhs, rhs.tree) {
            return Some(found);
        }
        if let Some(found) = self.by.reassociate_beside(rhs, lhs.tree) {
            return Some(found);
        }
        self.arm_rewrite()
    }
}
