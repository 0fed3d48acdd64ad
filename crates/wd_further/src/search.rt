//! The candidates, one after another.

ghost use Rattle.std.specs.Prelude.{◌≡◌, ◌≤◌, ◌+◌, ◌*◌, ◌/◌, ◌^◌, ◌∷◌, [], ℕ, true, drop, filter, length, max, min, All, IfOk, IfSome};
ghost use Rattle.wd_candidates.specs.Outlines.{IsOutline};
ghost use Rattle.wd_further.specs.Finds.{EndsWith, IsSoughtBy, IsSoughtIn, of_size};
ghost use Rattle.wd_further.specs.Tries.{most_tries, most_work};
ghost use Rattle.wd_further.specs.Tries as spec;
ghost use Rattle.wd_plan.specs.Fits.{fits};
ghost use Rattle.wd_plan.specs.Plans.{plan_of};
ghost use Rattle.wd_refute.specs.Laws.{IsShown};
ghost use Rattle.wd_schema.specs.Schemas.{schema_of};
ghost use Rattle.wd_seek.specs.Evaluations.{most_evaluations};
ghost use Rattle.wd_seek.specs.Sought.{IsSought, is_meeting};
ghost use Rattle.wd_varied.specs.Sizes.{sizes as sizes_of};
ghost use Rattle.wd_varied.specs.Suggested.{IsSuggested};
ghost use Rattle.wd_varied.specs.Varied.{varied as varied_of};
ghost use Rattle.wd_witness_text.specs.Witnesses.{witness_of};

use std::alloc::Global;
use wd_candidates::{Outline, outline_of};
use wd_eval::Turn;
use wd_plan::Plan;
use wd_schema::Schema;
use wd_seek::try_candidate;
use wd_value::OutOfMemory;
use wd_varied::{Suggested, collect_suggested, pair_count, row_work, sizes, vary};
use wd_witness_text::Witness;

/// The most tries of all sizes together in one turn.
const MOST_TRIES: u32 = 600;

/// The evaluations of a search are counted up to this number.
const MOST_EVALUATIONS: u32 = 2000;

/// The most evaluations of all sizes together with rows that tie in reverse order.
const MOST_TURNED: u32 = 1000;

/// The most evaluations of all sizes together with rows that tie in each of the two other orders.
const MOST_OTHERWISE: u32 = 500;

/// The most work of the evaluations of all sizes together in one turn, in units of about five nanoseconds.
const MOST_WORK: u128 = 60_000_000;

/// The least work that an evaluation is taken to need for each row.
const LEAST_WORK: u64 = 250;

/// A witness over the first candidate that shows two answers of a plan.
pub(crate) fn search(
    alloc: Global,
    schema: &Schema,
    plan: &Plan,
) -> Result<Option<Witness>, OutOfMemory>
    requires fitting { fits (schema_of schema.now) (plan_of plan.now) ≡ true }
    ensures sought { IfOk result (λ o. IsSoughtIn o (schema_of schema.now) (plan_of plan.now)) }
    ensures shown { IfOk result (λ o. IfSome o (λ w. IsShown (schema_of schema.now) (plan_of plan.now) (witness_of w))) }
{
    let outline = outline_of(alloc, schema, plan)?;
    let suggested = collect_suggested(alloc, plan)?;
    let sizes = sizes(alloc, plan)?;
    search_sizes(alloc, schema, plan, &outline, &suggested, &sizes)
}

/// The searches of all sizes, the smallest first.
fn search_sizes(
    alloc: Global,
    schema: &Schema,
    plan: &Plan,
    outline: &Outline,
    suggested: &Suggested,
    sizes: &[u32],
) -> Result<Option<Witness>, OutOfMemory>
    requires fitting { fits (schema_of schema.now) (plan_of plan.now) ≡ true }
    requires outline { IsOutline (schema_of schema.now) (plan_of plan.now) outline.now }
    requires suggested { IsSuggested (plan_of plan.now) suggested.now }
    requires sizes { sizes.now ≡ sizes_of (plan_of plan.now) }
    requires count { length sizes.now ≤ 63 }
    requires large { All (λ rows. 2 ≤ rows) sizes.now }
    requires small { All (λ rows. rows ≤ 64) sizes.now }
    ensures { IfOk result (λ o. IsSoughtIn o (schema_of schema.now) (plan_of plan.now)) }
{
    for rows in sizes {
        let tries = tries(plan, *rows, sizes.len());
        let found = search_turned(
            alloc,
            schema,
            plan,
            outline,
            suggested,
            *rows,
            tries,
            sizes.len() as u32,
        )?;
        if let Some(smallest) = found {
            return Ok(Some(smallest));
        }
    }
    Ok(None)
}

/// The searches of one size, of `count` sizes: with rows that tie in reverse order, and then in other orders.
fn search_turned(
    alloc: Global,
    schema: &Schema,
    plan: &Plan,
    outline: &Outline,
    suggested: &Suggested,
    rows: u32,
    tries: u32,
    count: u32,
) -> Result<Option<Witness>, OutOfMemory>
    requires fitting { fits (schema_of schema.now) (plan_of plan.now) ≡ true }
    requires outline { IsOutline (schema_of schema.now) (plan_of plan.now) outline.now }
    requires suggested { IsSuggested (plan_of plan.now) suggested.now }
    requires small { rows ≤ 64 }
    requires tries { tries ≡ spec.tries (plan_of plan.now) rows }
    requires some { 1 ≤ count }
    ensures { IfOk result (λ o. IsSoughtBy o (schema_of schema.now) (plan_of plan.now) (of_size count rows)) }
{
    let turned = search_tries(
        alloc,
        schema,
        plan,
        outline,
        suggested,
        rows,
        tries,
        Turn::Reversed,
        MOST_TURNED / count,
    )?;
    match turned {
        Some(witness) => Ok(Some(witness)),
        None => search_neighbours(alloc, schema, plan, outline, suggested, rows, tries, count),
    }
}

/// The searches of one size, of `count` sizes: with the first of the rows that tie moved to the end, and then with neighbours exchanged.
fn search_neighbours(
    alloc: Global,
    schema: &Schema,
    plan: &Plan,
    outline: &Outline,
    suggested: &Suggested,
    rows: u32,
    tries: u32,
    count: u32,
) -> Result<Option<Witness>, OutOfMemory>
    requires fitting { fits (schema_of schema.now) (plan_of plan.now) ≡ true }
    requires outline { IsOutline (schema_of schema.now) (plan_of plan.now) outline.now }
    requires suggested { IsSuggested (plan_of plan.now) suggested.now }
    requires small { rows ≤ 64 }
    requires tries { tries ≡ spec.tries (plan_of plan.now) rows }
    requires some { 1 ≤ count }
    ensures { IfOk result (λ o. IsSoughtBy o (schema_of schema.now) (plan_of plan.now) (drop 1 (of_size count rows))) }
{
    let rotated = search_tries(
        alloc,
        schema,
        plan,
        outline,
        suggested,
        rows,
        tries,
        Turn::Rotated,
        MOST_OTHERWISE / count,
    )?;
    match rotated {
        Some(witness) => Ok(Some(witness)),
        None => search_tries(
            alloc,
            schema,
            plan,
            outline,
            suggested,
            rows,
            tries,
            Turn::Exchanged,
            MOST_OTHERWISE / count,
        ),
    }
}

/// The tries of a size, one after another, with at most `most` evaluations.
fn search_tries(
    alloc: Global,
    schema: &Schema,
    plan: &Plan,
    outline: &Outline,
    suggested: &Suggested,
    rows: u32,
    tries: u32,
    turn: Turn,
    most: u32,
) -> Result<Option<Witness>, OutOfMemory>
    requires fitting { fits (schema_of schema.now) (plan_of plan.now) ≡ true }
    requires outline { IsOutline (schema_of schema.now) (plan_of plan.now) outline.now }
    requires suggested { IsSuggested (plan_of plan.now) suggested.now }
    requires small { rows ≤ 64 }
    requires tries { tries ≡ spec.tries (plan_of plan.now) rows }
    requires few { most ≤ most_evaluations }
    ensures { IfOk result (λ o. EndsWith o (schema_of schema.now) (plan_of plan.now) (record { rows = rows; turn = turn; most = most })) }
{
    let mut spent = MOST_EVALUATIONS - most;
    for number in 0..tries {
        let (found, made) = try_varied(
            alloc, schema, plan, outline, suggested, rows, turn, number, spent,
        )?;
        if let Some(witness) = found {
            return Ok(Some(witness));
        }
        spent = made;
    }
    Ok(None)
}

/// A try, while there are evaluations left.
fn try_varied(
    alloc: Global,
    schema: &Schema,
    plan: &Plan,
    outline: &Outline,
    suggested: &Suggested,
    rows: u32,
    turn: Turn,
    number: u32,
    spent: u32,
) -> Result<(Option<Witness>, u32), OutOfMemory>
    requires fitting { fits (schema_of schema.now) (plan_of plan.now) ≡ true }
    requires outline { IsOutline (schema_of schema.now) (plan_of plan.now) outline.now }
    requires suggested { IsSuggested (plan_of plan.now) suggested.now }
    requires small { rows ≤ 64 }
    requires few { spent ≤ most_evaluations }
    ensures few { IfOk result (λ r. r.1 ≤ most_evaluations) }
    ensures sought { IfOk result (λ r. IsSought turn (schema_of schema.now) (plan_of plan.now) (filter (is_meeting (schema_of schema.now)) (varied_of (schema_of schema.now) (plan_of plan.now) rows number ∷ [])) spent r.0 r.1) }
{
    if spent == MOST_EVALUATIONS {
        return Ok((None, spent));
    }
    let instance = vary(alloc, schema, outline, suggested, rows, number)?;
    try_candidate(alloc, schema, plan, outline, instance, turn, spent)
}

/// How many tries a size has, where there are `sizes` sizes.
fn tries(plan: &Plan, rows: u32, sizes: usize) -> u32
    requires large { 2 ≤ rows }
    requires small { rows ≤ 64 }
    requires is { sizes ≡ length (sizes_of (plan_of plan.now)) }
    requires sizes { 1 ≤ sizes }
    requires few { sizes ≤ 63 }
    ensures { result ≡ spec.tries (plan_of plan.now) rows }
{
    share(
        pair_count(plan, rows),
        plan.orderings(),
        row_work(plan),
        sizes as u32,
    )
}

/// How many tries are the share of one of `sizes` sizes, if the tables pair to `paired` rows and each row costs `work`.
fn share(paired: u64, orderings: u32, work: u64, sizes: u32) -> u32
    requires some { 1 ≤ paired }
    requires small { paired ≤ 2 ^ 28 }
    requires little { work ≤ 2 ^ 28 }
    requires sizes { 1 ≤ sizes }
    requires few { sizes ≤ 63 }
    ensures { result ≡ min (most_tries / sizes) (most_work / (((paired * (orderings + 1)) * max 250 work) * sizes)) }
{
    let cost = cost(paired, orderings, work) * u128::from(sizes);
    u128::from(MOST_TRIES / sizes).min(MOST_WORK / cost) as u32
}

/// What the evaluations of a try cost: one evaluation, and one more for each of `orderings` orderings.
fn cost(paired: u64, orderings: u32, work: u64) -> u128
    requires some { 1 ≤ paired }
    requires small { paired ≤ 2 ^ 28 }
    requires little { work ≤ 2 ^ 28 }
    ensures is { result ≡ (paired * (orderings + 1)) * max 250 work }
    ensures some { 1 ≤ result }
    ensures large { result ≤ 2 ^ 88 }
{
    u128::from(paired) * (u128::from(orderings) + 1) * u128::from(work.max(LEAST_WORK))
}
