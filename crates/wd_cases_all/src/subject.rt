//! What cases are about, and the cases of each subject.
use std::alloc::Global;
use wd_cases::{Cases, Failure};
use wd_cases_calls::CallCases;
use wd_cases_certificates::CertificateCases;
use wd_cases_command::CommandCases;
use wd_cases_growths::GrowthCases;
use wd_cases_meaning::MeaningCases;
use wd_cases_plans::PlanCases;
use wd_cases_reading::ReadingCases;

/// What cases are about: the library that answers them.
#[derive(Clone, Copy)]
pub enum Subject {
    Reading,
    Meaning,
    Plans,
    Certificates,
    Command,
    Calls,
    Growths,
}

impl Subject {
    /// The subject of this name.
    pub fn named(name: &str) -> Result<Subject, Failure> {
        match name {
            "reading" => Ok(Subject::Reading),
            "meaning" => Ok(Subject::Meaning),
            "plans" => Ok(Subject::Plans),
            "certificates" => Ok(Subject::Certificates),
            "command" => Ok(Subject::Command),
            "calls" => Ok(Subject::Calls),
            "growths" => Ok(Subject::Growths),
            _ => Err(Failure::NoCase),
        }
    }
}

/// The cases of each subject, and the subject of the lines that follow.
#[derive(Drop)]
pub struct SubjectCases {
    pub subject: Subject,
    reading: ReadingCases,
    meaning: MeaningCases,
    plans: PlanCases,
    certificates: CertificateCases,
    command: CommandCases,
    calls: CallCases,
    growths: GrowthCases,
}

impl SubjectCases {
    /// Of each subject the cases to which no line has given anything yet.
    pub fn new(alloc: Global) -> SubjectCases {
        SubjectCases {
            subject: Subject::Reading,
            reading: ReadingCases::new(alloc),
            meaning: MeaningCases::new(alloc),
            plans: PlanCases::new(alloc),
            certificates: CertificateCases::new(alloc),
            command: CommandCases::new(alloc),
            calls: CallCases::new(alloc),
            growths: GrowthCases,
        }
    }
}

impl Cases for SubjectCases {
    fn answer(&mut self, alloc: Global, word: &str, text: &str) -> Result<String, Failure> {
        match self.subject {
            Subject::Reading => self.reading.answer(alloc, word, text),
            Subject::Meaning => self.meaning.answer(alloc, word, text),
            Subject::Plans => self.plans.answer(alloc, word, text),
            Subject::Certificates => self.certificates.answer(alloc, word, text),
            Subject::Command => self.command.answer(alloc, word, text),
            Subject::Calls => self.calls.answer(alloc, word, text),
            Subject::Growths => self.growths.answer(alloc, word, text),
        }
    }
}
