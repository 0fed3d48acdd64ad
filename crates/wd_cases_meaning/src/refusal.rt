//! Out of memory, and the laws of the crates.
use std::alloc::Global;
use wd_cases::Failure;
use wd_resolve_operand::ResolveError;

/// `memory resolve`: the number and the place where memory runs out.
pub fn want_of_memory(call: &str) -> Result<String, Failure> {
    match call {
        "resolve" => Err(Failure::from(ResolveError::OutOfMemory)),
        _ => Err(Failure::NoCase),
    }
}

/// `laws`: the laws of the crates are functions, which return.
pub fn laws(alloc: Global) -> Result<String, Failure> {
    wd_resolve_scope::laws::meanings_are_typed();
    wd_resolve_scope::laws::windows_are_typed();
    wd_query::laws::one_plan();
    wd_resolve::laws::plans_fit();
    Ok(String::from_str(alloc, "hold")?)
}
