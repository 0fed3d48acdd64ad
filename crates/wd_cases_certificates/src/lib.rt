//! Cases of certificates: their texts, their verdicts, the facts given at nodes, what columns give by facts, and refusals.
#![tactic(auto)]

mod case;
mod closures;
mod facts;
mod followed;
mod named;
mod notation;
mod plain;
mod refusal;
mod sets;
mod shown;
mod text;
mod verdict;

pub use case::CertificateCases;
