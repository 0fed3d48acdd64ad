//! The refusals of certificates by their numbers, places and messages, and the laws of the crates.
use std::alloc::Global;
use wd_cases::Failure;
use wd_certificate::CertError;

pub fn failure_of(error: &CertError) -> Failure {
    Failure::refused(error.number(), error.place())
}

fn refusal_named(word: &str, node: u64) -> Result<CertError, Failure> {
    match word {
        "not_json" => Ok(CertError::NotJson),
        "shape" => Ok(CertError::Shape),
        "version" => Ok(CertError::Version),
        "count" => Ok(CertError::Count),
        "unreached_use" => Ok(CertError::UnreachedUse { node }),
        "unreached_claim" => Ok(CertError::UnreachedClaim { node }),
        "unjustified_call" => Ok(CertError::UnjustifiedCall { node }),
        "second_exchange" => Ok(CertError::SecondExchange { node }),
        "unjustified_limit" => Ok(CertError::UnjustifiedLimit { node }),
        "out_of_range" => Ok(CertError::OutOfRange { node }),
        "memory" => Ok(CertError::OutOfMemory),
        _ => Err(Failure::NoCase),
    }
}

/// `refusal WORD NODE`: the number, the place and the message of a refusal at this node.
pub fn refusal(alloc: Global, text: &str) -> Result<String, Failure> {
    let (word, node) = text.split_once(' ').unwrap_or((text, "0"));
    let error = refusal_named(word, node.parse()?)?;
    failure_of(&error).explained(alloc, &error)
}

/// `laws`: the laws of the crates are functions, which return.
pub fn laws(alloc: Global) -> Result<String, Failure> {
    wd_certificate::laws::spells_one();
    wd_certificate::laws::is_read_back();
    wd_certificate::laws::example_texts();
    wd_facts::laws::known_holds();
    wd_facts::laws::given_facts_hold();
    wd_close::laws::closures_come_out();
    wd_rules::laws::valid_shows();
    wd_rules::laws::valid_has_one();
    wd_rules::laws::never_both();
    wd_rules::laws::certificates_come_out();
    wd_accept::laws::accepted_has_one();
    wd_accept::laws::not_both();
    Ok(String::from_str(alloc, "hold")?)
}
