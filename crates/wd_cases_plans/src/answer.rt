//! From a line to what is printed after it.

use crate::shown::push;
use crate::{calls, facts, plans, slides, sorts, steps, values};
use std::alloc::Global;
use wd_cases::{Cases, Failure, text_of};
use wd_cases_notation::{Line, State};
use wd_eval::laws::{has_one_stable_outcome, has_stable_choice};
use wd_frame::laws::{bounds_are_frames, exclusions_are_ranges, places_are_frames};
use wd_laws::laws::agreeing_is_an_equivalence;
use wd_value::laws::compare_is_a_total_order;

/// The cases, over what earlier lines have set.
#[derive(Drop)]
pub struct PlanCases {
    state: State,
}

impl PlanCases {
    /// Nothing is set yet.
    pub fn new(alloc: Global) -> PlanCases {
        PlanCases {
            state: State::new(alloc),
        }
    }

    fn answer_line(&mut self, alloc: Global, line: Line) -> Result<String, Failure> {
        let mut out = String::new(alloc);
        answer(alloc, &mut self.state, line, &mut out)?;
        Ok(out)
    }
}

impl Cases for PlanCases {
    fn answer(&mut self, alloc: Global, word: &str, text: &str) -> Result<String, Failure> {
        let text = text_of(alloc, text)?;
        self.answer_line(alloc, Line::of(word, text.as_str()))
    }
}

fn answer(alloc: Global, state: &mut State, line: Line, out: &mut String) -> Result<(), Failure> {
    if state.set(alloc, line)? {
        return push(out, "set");
    }
    match line.word.name {
        "copies" | "compare" | "same_bag" | "copy_row" | "text" => values::answer(alloc, line, out),
        _ => {
            state.read(alloc, line)?;
            answer_word(alloc, state, line, out)
        }
    }
}

/// What is asked of the words and lists that were read.
fn answer_word(alloc: Global, state: &State, line: Line, out: &mut String) -> Result<(), Failure> {
    match line.word.name {
        "sorted_positions" | "sort_positions" | "is_sorted" | "compare_rows_at" | "value_numbers" =>
            { sorts::answer(alloc, state, line.word.name, out) }
        "sorted_ordering" | "is_ordering" | "partitions" => {
            sorts::class_answer(alloc, state, line, out)
        }
        "members" => calls::frame_members(alloc, state, line, out),
        "call_values" => calls::answer(alloc, state, out),
        "slides" => slides::answer(alloc, state, line, out),
        "map_rows" | "join_rows" | "distinct_rows" | "cut_rows" => {
            steps::answer(alloc, state, line, out)
        }
        "with_fault" => steps::faults(line.word, out),
        "evaluate_window" => plans::window(alloc, state, line.word, out),
        "fits" | "orderings" => plans::plan_answer(state, line.word.name, out),
        "eval_with" | "eval_within" | "run_plan" | "first_choice" | "tied_choice" => {
            plans::answer(alloc, state, line, out)
        }
        "given" => facts::answer(alloc, state, out),
        "refusals" => plans::refusals(out),
        "laws" => laws(out),
        _ => steps::expression_answer(alloc, state, line.word.name, out),
    }
}

/// Calls the laws, which give nothing.
fn laws(out: &mut String) -> Result<(), Failure> {
    compare_is_a_total_order();
    places_are_frames();
    bounds_are_frames();
    exclusions_are_ranges();
    agreeing_is_an_equivalence();
    has_stable_choice();
    has_one_stable_outcome();
    push(out, "called")
}
