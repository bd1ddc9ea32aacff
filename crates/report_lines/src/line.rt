// One line: its row, the frame of its end tree, and the sums with it.
ghost use Rattle.std.specs.Prelude.{◌≡◌, max, ◌≤◌, length};
ghost use Rattle.expr.specs.Refusals.{reason_of};
ghost use Rattle.expr.specs.Outcome.{refused, accepted, mapped};
ghost use Rattle.expr.specs.Answers.{outcome};
ghost use Rattle.atom_simplifier.specs.Answers.{end_numbers};
ghost use Rattle.report_lines.specs.Report.{chained, outcome_of};
ghost use Rattle.report_lines.specs.Promises.{own_conditions, highest, done_of, Printed, Ran};

use crate::lent::{Ongoing, Scratch};
use crate::{Totals, text};
use atom_simplifier::chain;
use atom_simplifier::chain::ChainEnd;
use expr::kind;
use expr::refusal::{Reason, Refusal};
use expr::tree::Tree;
use width::Width;

// How many bytes were put into the output, and the sums with the line.
#[derive(Clone, Copy)]
pub(crate) struct Put {
    pub(crate) put: usize,
    pub(crate) totals: Totals,
}

// What comes of an accepted line: its width, its tree and its end tree, and the rewrites between them.
#[derive(Clone, Copy)]
struct Accepted<'a> {
    width: Width,
    tree: Tree<'a>,
    end: Tree<'a>,
    rewrites: usize,
}

// The higher of what was found and a node's own. The kind is a number, as the node's words have it.
#[tactic(auto, using(crate::proofs::ConditionsLaws::one_node))]
fn raised(found: u64, kind: u64, operand: u64) -> u64
    requires { own_conditions kind operand ≤ 4294967296 }
    ensures { result ≡ max found (own_conditions kind operand) }
{
    if kind == kind::VARIABLE {
        found.max(operand + 1)
    } else {
        found
    }
}

// The highest variable number and one; 0 where there is no variable.
fn conditions(words: &[u64]) -> u64
    requires { highest words.now ≤ 4294967296 }
    ensures { result ≡ highest words.now }
{
    let mut found = 0;
    let (nodes, _) = words.as_chunks::<2>();
    for node in nodes {
        found = raised(found, node[0], node[1]);
    }
    found
}

// The chain, first with short work, and with work for 2,048 nodes only where that is too little: the chain sets to 0 what it is lent.
#[tactic(auto, using(crate::proofs::RanLaws::running))]
fn run_chain(words: &[u64], width: u32, work: &mut [u64]) -> Result<ChainEnd, Refusal>
    requires { (4096 ≤ length work.old) × (length words.now ≤ 1024) }
    ensures { Ran (chained (width, words.now)) width words.now work.new (mapped end_numbers (outcome result)) }
{
    let short = 4 * words.len();
    match chain::chain(words, width, &[], &mut work[..short]) {
        Err(Refusal::OutputTooSmall) => chain::chain(words, width, &[], &mut work[..4096]),
        answer => answer,
    }
}

// What comes of a line, its 0a not counted. Two slices and not `Scratch`: the answer borrows from them, which the check does not follow through a struct
// with ghost fields. Slices and not arrays: `is_ready` tests every lent length in one place, and an array would be one more test for each.
#[tactic(auto, using(crate::proofs::PrintedLaws::chaining, crate::proofs::PrintedLaws::reading))]
fn run_line<'a>(
    line: &[u8],
    words: &'a mut [u64],
    work: &'a mut [u64],
) -> Result<Accepted<'a>, Refusal>
    requires { (1024 ≤ length words.old) × (4096 ≤ length work.old) }
    ensures { mapped done_of (outcome result) ≡ outcome_of line.now }
{
    // with no look at the tree: the chain checks it
    let read = frame::read_line(line, words)?;
    let words = &words[..2 * read.nodes];
    let end = run_chain(words, read.width, work)?;
    Ok(Accepted {
        width: Width { bits: read.width },
        tree: Tree { words },
        end: Tree {
            words: &work[..2 * end.nodes],
        },
        rewrites: end.rewrites,
    })
}

impl Ongoing {
    // A line that is refused.
    fn refuse(self, refusal: Refusal, out: &mut [u8]) -> Put
        requires { 102 ≤ length out.old }
        ensures { Printed (refused (reason_of refusal)) self.totals out.old out.new result.put result.totals }
    {
        let totals = self.totals;
        let number = Reason::from(refusal).number;
        let row = [totals.lines + 1, u64::from(number), 0, 0, 0, 0];
        Put {
            put: text::put_fields(&row, out),
            totals: Totals {
                lines: totals.lines + 1,
                refused: totals.refused + 1,
                ..totals
            },
        }
    }

    // A line that is accepted.
    #[tactic(auto, using(crate::proofs::PrintedLaws::accepting))]
    fn accept(self, done: Accepted, out: &mut [u8]) -> Put
        requires { 9321 ≤ length out.old }
        ensures { Printed (accepted (done_of done.entry)) self.totals out.old out.new result.put result.totals }
    {
        let totals = self.totals;
        let before = done.tree.nodes() as u64;
        let after = done.end.nodes() as u64;
        let row = [
            totals.lines + 1,
            0,
            before,
            after,
            done.rewrites as u64,
            conditions(done.tree.words),
        ];
        let k = text::put_fields(&row, out);
        let m = frame::put_frame(done.end, done.width, &mut out[k..]).unwrap();
        Put {
            put: k + m,
            totals: Totals {
                lines: totals.lines + 1,
                before: totals.before + before,
                after: totals.after + after,
                ..totals
            },
        }
    }

    // A line, its 0a not counted.
    pub(crate) fn put_line(self, line: &[u8], scratch: &mut Scratch, out: &mut [u8]) -> Put
        requires { 9321 ≤ length out.old }
        ensures { Printed (outcome_of line.now) self.totals out.old out.new result.put result.totals }
    {
        match run_line(line, scratch.words, scratch.work) {
            Err(refusal) => self.refuse(refusal, out),
            Ok(done) => self.accept(done, out),
        }
    }
}
