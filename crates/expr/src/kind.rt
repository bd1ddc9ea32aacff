// The kinds of a node, by their words and as enums.
ghost use Rattle.std.specs.Prelude.{◌≡◌, ◌≤◌};

// ---- the kinds that code compares with, by the number in the kind word

pub const CONSTANT: u64 = 0;

pub const VARIABLE: u64 = 1;

pub const ADD: u64 = 2;

pub const MUL: u64 = 3;

pub const AND: u64 = 4;

pub const OR: u64 = 5;

pub const XOR: u64 = 6;

pub const NOT: u64 = 7;

pub const NEG: u64 = 8;

pub const SHR: u64 = 9;

// ZExt, SExt and Trunc are the casts: 10 to 12
pub const ZEXT: u64 = 10;

pub const SEXT: u64 = 11;

pub const TRUNC: u64 = 12;

pub const CONCAT: u64 = 13;

// ---- kinds with what they hold

// The kinds without children.
#[derive(Clone, Copy, PartialEq, Eq)]
pub enum Leaf {
    Constant(u64),
    Variable(u32),
}

// The kinds with one child. Shr holds the shift, the casts the width.
#[derive(Clone, Copy, PartialEq, Eq)]
pub enum Unary {
    Not,
    Neg,
    Shr(u32),
    ZExt(u32),
    SExt(u32),
    Trunc(u32),
}

// The kinds with two children.
#[derive(Clone, Copy, PartialEq, Eq)]
pub enum Binary {
    Add,
    Mul,
    And,
    Or,
    Xor,
    Concat,
}

impl Leaf {
    ghost use Rattle.expr.specs.Expr.{leaf_number, leaf_operand};

    // The kind of a leaf, read from its two words; of the other kinds it is not asked.
    pub(crate) fn of(kind: u64, operand: u64) -> Leaf
        requires { kind ≡ 1 → operand ≤ 4294967295 }
        ensures { (k : Leaf) → kind ≡ leaf_number k → operand ≡ leaf_operand k → result ≡ k }
    {
        if kind == VARIABLE {
            Leaf::Variable(operand as u32)
        } else {
            Leaf::Constant(operand)
        }
    }
}

impl Unary {
    ghost use Rattle.expr.specs.Expr.{unary_number, unary_operand};

    // As that of a leaf, of a node with one child.
    pub(crate) fn of(kind: u64, operand: u64) -> Unary
        requires { operand ≤ 4294967295 }
        ensures { (k : Unary) → kind ≡ unary_number k → operand ≡ unary_operand k → result ≡ k }
    {
        let held = operand as u32;
        match kind {
            NOT => Unary::Not,
            NEG => Unary::Neg,
            SHR => Unary::Shr(held),
            ZEXT => Unary::ZExt(held),
            SEXT => Unary::SExt(held),
            _ => Unary::Trunc(held),
        }
    }

    // The kind word. A method and no `From`: a node has a second word.
    pub fn number(self) -> u64
        ensures { result ≡ unary_number self }
    {
        match self {
            Unary::Not => NOT,
            Unary::Neg => NEG,
            Unary::Shr(_) => SHR,
            Unary::ZExt(_) => ZEXT,
            Unary::SExt(_) => SEXT,
            Unary::Trunc(_) => TRUNC,
        }
    }

    // The operand word: the number that the kind holds, else 0.
    pub fn operand(self) -> u64
        ensures { result ≡ unary_operand self }
    {
        match self {
            Unary::Not | Unary::Neg => 0,
            Unary::Shr(held) | Unary::ZExt(held) | Unary::SExt(held) | Unary::Trunc(held) => {
                u64::from(held)
            }
        }
    }
}

impl Binary {
    ghost use Rattle.expr.specs.Expr.{binary_number};

    // As that of a leaf, of a node with two children.
    pub(crate) fn of(kind: u64) -> Binary
        ensures { (k : Binary) → kind ≡ binary_number k → result ≡ k }
    {
        match kind {
            ADD => Binary::Add,
            MUL => Binary::Mul,
            AND => Binary::And,
            OR => Binary::Or,
            XOR => Binary::Xor,
            _ => Binary::Concat,
        }
    }

    // The kind word, by the name that `Unary` has for it.
    pub fn number(self) -> u64
        ensures { result ≡ binary_number self }
    {
        match self {
            Binary::Add => ADD,
            Binary::Mul => MUL,
            Binary::And => AND,
            Binary::Or => OR,
            Binary::Xor => XOR,
            Binary::Concat => CONCAT,
        }
    }
}
