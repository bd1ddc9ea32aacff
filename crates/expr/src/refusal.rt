// Why a call is turned down: document 01's refusals 1 to 15. The list is closed: a crate with more refusals has its own enum
// around this one.
ghost use Rattle.std.specs.Prelude.{◌≡◌};
ghost use Rattle.expr.specs.Refusals.{reason_of};

#[derive(Clone, Copy, PartialEq, Eq)]
pub enum Refusal {
    // 1: the call's width is not one of 1 to 64.
    WidthOutOfRange,
    // 2: the list is empty, has an odd length, or has more than 1,024 words.
    WordCount,
    // 3: no kind has this number.
    UnknownKind,
    // 4: the kind does not allow this operand.
    OperandOutOfRange,
    // 5: a node below level 64.
    TooDeep,
    // 6: a node or one of its children is missing at the end.
    WordsEnd,
    // 7: something stands behind the tree.
    WordsLeftOver,
    // 8: `is_uniform_width` says no.
    NotUniform,
    // 9: a lent output is below the size that document 01 gives for the call.
    OutputTooSmall,
    // 10 to 13 stand for the Rust's `InvalidArgument`.
    // 10: a part of the tree has a width that is not one of 1 to 64; carries it.
    UnsupportedWidth(u32),
    // 11: the operands' widths differ; carries left and right.
    WidthMismatch(u32, u32),
    // 12: an extension to fewer bits than its child has; carries target and child.
    NarrowingExtension(u32, u32),
    // 13: a truncation to more bits than its child has; carries target and child.
    WideningTruncation(u32, u32),
    // 14: a line that is no frame.
    NoFrame,
    // 15: the setting has no word for a variable.
    NoWord,
}

// A refusal as document 01 tells it: its number and the two values that it carries.
#[derive(Clone, Copy, PartialEq, Eq)]
pub struct Reason {
    pub number: u32,
    pub first: u32,
    pub second: u32,
}

// The number and the values of a refusal.
impl From<Refusal> for Reason {
    ghost from_gives = { λ refusal reason. reason ≡ reason_of refusal };

    fn from(refusal: Refusal) -> Reason {
        let (number, first, second) = match refusal {
            Refusal::WidthOutOfRange => (1, 0, 0),
            Refusal::WordCount => (2, 0, 0),
            Refusal::UnknownKind => (3, 0, 0),
            Refusal::OperandOutOfRange => (4, 0, 0),
            Refusal::TooDeep => (5, 0, 0),
            Refusal::WordsEnd => (6, 0, 0),
            Refusal::WordsLeftOver => (7, 0, 0),
            Refusal::NotUniform => (8, 0, 0),
            Refusal::OutputTooSmall => (9, 0, 0),
            Refusal::UnsupportedWidth(width) => (10, width, 0),
            Refusal::WidthMismatch(left, right) => (11, left, right),
            Refusal::NarrowingExtension(target, child) => (12, target, child),
            Refusal::WideningTruncation(target, child) => (13, target, child),
            Refusal::NoFrame => (14, 0, 0),
            Refusal::NoWord => (15, 0, 0),
        };
        Reason {
            number,
            first,
            second,
        }
    }
}

// The number and the values of a refusal, by a call of its own.
pub fn reason_of(r: Refusal) -> Reason
    ensures { result ≡ reason_of r }
{
    Reason::from(r)
}
