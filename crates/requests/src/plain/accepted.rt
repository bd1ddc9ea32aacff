// What a call accepts, as an answer has it.
use expr::Arity;
use expr_cost::CostInfo;
use std::fmt;

#[derive(Drop)]
pub(crate) enum Accepted {
    Value(u64),
    Cost(CostInfo),
    // `validate_widths` gives `()`, for which the stored lists have the word `valid`
    Valid,
}

impl fmt::Display for Accepted {
    fn fmt<W: fmt::Write>(&self, f: &mut fmt::Formatter<W>) -> fmt::Result {
        match self {
            Accepted::Value(n) => write!(f, "{n:x}"),
            Accepted::Cost(info) => {
                let cost = &info.cost;
                write!(
                    f,
                    "{:x} {:x} {:x} {:x}",
                    cost.weighted_size,
                    cost.nonlinear_mul_count,
                    cost.max_depth,
                    u8::from(info.has_var_dep)
                )
            }
            Accepted::Valid => write!(f, "valid"),
        }
    }
}

// One impl for each type: `impl<T: Into<u64>>` conflicts with those of `CostInfo` and `()`, and neither `usize` nor `Arity` is `Into<u64>`.
impl From<u64> for Accepted {
    fn from(n: u64) -> Accepted {
        Accepted::Value(n)
    }
}

impl From<u32> for Accepted {
    fn from(n: u32) -> Accepted {
        Accepted::Value(u64::from(n))
    }
}

impl From<usize> for Accepted {
    fn from(n: usize) -> Accepted {
        Accepted::Value(n as u64)
    }
}

impl From<bool> for Accepted {
    fn from(yes: bool) -> Accepted {
        Accepted::Value(u64::from(yes))
    }
}

impl From<Arity> for Accepted {
    fn from(arity: Arity) -> Accepted {
        Accepted::Value(arity as u64)
    }
}

impl From<CostInfo> for Accepted {
    fn from(info: CostInfo) -> Accepted {
        Accepted::Cost(info)
    }
}

impl From<()> for Accepted {
    fn from(_: ()) -> Accepted {
        Accepted::Valid
    }
}
