// Requests to calls that are lent nothing to write, in `arith`, `expr`, `width`, `expr_cost` and `value`.
mod accepted;
mod arithmetic;

use crate::output::{Output, Refused};
use crate::plain::accepted::Accepted;
use crate::text;
use crate::text::MOST_WORDS;
use expr::refusal::Refusal;
use expr_cost::ExprCost;

type Outcome = Result<Accepted, Refusal>;

// By the number of its lists and its name.
pub(crate) fn answer(name: &str, lists: &[u8], out: &mut Output<'_, impl Print>) -> Option<()> {
    match outcome_of(name, lists)? {
        Ok(accepted) => write!(out, "{accepted}"),
        Err(r) => write!(out, "{}", Refused(r)),
    }
    Some(())
}

// What a call gives.
fn given<T: Into<Accepted>>(outcome: Result<T, Refusal>) -> Option<Outcome> {
    Some(outcome.map(|x| x.into()))
}

fn outcome_of(name: &str, lists: &[u8]) -> Option<Outcome> {
    let Some((first, others)) = text::first_list(lists) else {
        return of_one_list(name, lists);
    };
    match name {
        "same_words" => same_words(first, others),
        "is_better" => given(Ok(expr_cost::is_better(cost_in(first)?, cost_in(others)?))),
        _ => of_widths(name, first, others),
    }
}

fn of_one_list(name: &str, list: &[u8]) -> Option<Outcome> {
    let mut room = [0u64; MOST_WORDS];
    let words = text::numbers_in(list, &mut room)?;
    match (name, words) {
        ("arity_of", [kind]) => given(expr::arity_of(*kind)),
        ("check_tree", _) => given(expr::check_tree(words)),
        ("span", _) => given(expr::span(words)),
        ("is_constant_subtree", _) => given(expr::is_constant_subtree(words)),
        ("has_var_dep", _) => given(expr::has_var_dep(words)),
        ("compute_cost", _) => given(expr_cost::compute_cost(words)),
        _ => given(Ok(arithmetic::answer(name, words)?)),
    }
}

// The texts of two lists of words.
fn same_words(first: &[u8], second: &[u8]) -> Option<Outcome> {
    let mut left = [0u64; MOST_WORDS];
    let mut right = [0u64; MOST_WORDS];
    let left = text::numbers_in(first, &mut left)?;
    let right = text::numbers_in(second, &mut right)?;
    given(Ok(expr::same_words(left, right)))
}

// The three numbers of a cost.
fn cost_in(list: &[u8]) -> Option<ExprCost> {
    let mut room = [0u32; 3];
    let [weighted_size, nonlinear_mul_count, max_depth] = text::numbers_in(list, &mut room)? else {
        return None;
    };
    Some(ExprCost {
        weighted_size: *weighted_size,
        nonlinear_mul_count: *nonlinear_mul_count,
        max_depth: *max_depth,
    })
}

// The text of a width, and of the lists behind it: widths, and what else the request has.
fn of_widths(name: &str, width: &[u8], lists: &[u8]) -> Option<Outcome> {
    let (var_widths, others) = text::first_list(lists)?;
    let mut width_room = [0u32; MOST_WORDS];
    let width = text::number_in(width)?;
    let var_widths = text::numbers_in(var_widths, &mut width_room)?;
    match name {
        "value" => of_setting(others, width, var_widths),
        _ => of_tree(name, others, width, var_widths),
    }
}

// The text of a tree.
fn of_tree(name: &str, list: &[u8], width: u32, var_widths: &[u32]) -> Option<Outcome> {
    let mut room = [0u64; MOST_WORDS];
    let words = text::numbers_in(list, &mut room)?;
    match name {
        "check_one_width" => given(value::check_one_width(words, width, var_widths)),
        "checked_width_of" => given(width::checked_width_of(words, var_widths, width)),
        "width_of" => given(width::width_of(words, var_widths, width)),
        "is_uniform_width" => given(width::is_uniform_width(words, var_widths, width)),
        "validate_widths" => given(width::validate_widths(words, var_widths, width)),
        _ => None,
    }
}

// The text of a setting and of a tree.
fn of_setting(lists: &[u8], width: u32, var_widths: &[u32]) -> Option<Outcome> {
    let (setting, words) = text::first_list(lists)?;
    let mut setting_room = [0u64; MOST_WORDS];
    let mut word_room = [0u64; MOST_WORDS];
    let setting = text::numbers_in(setting, &mut setting_room)?;
    let words = text::numbers_in(words, &mut word_room)?;
    given(value::value(words, width, var_widths, setting))
}
