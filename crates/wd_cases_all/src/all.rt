use crate::altered::try_altered;
use crate::subject::{Subject, SubjectCases};
use std::alloc::Global;
use wd_cases::{Cases, Failure};

/// The cases of all subjects, by themselves or with their texts altered.
#[derive(Drop)]
pub struct AllCases {
    given: SubjectCases,
}

impl AllCases {
    /// Cases to which no line has given anything yet.
    pub fn new(alloc: Global) -> AllCases {
        AllCases {
            given: SubjectCases::new(alloc),
        }
    }

    /// `cases SUBJECT`: from here on the cases are about this subject.
    fn turn_to(&mut self, alloc: Global, name: &str) -> Result<String, Failure> {
        self.given.subject = Subject::named(name)?;
        Ok(String::from_str(alloc, "from here on")?)
    }
}

impl Cases for AllCases {
    fn answer(&mut self, alloc: Global, word: &str, text: &str) -> Result<String, Failure> {
        match word {
            "cases" => self.turn_to(alloc, text),
            "altered" => try_altered(alloc, &mut self.given, text),
            _ => self.given.answer(alloc, word, text),
        }
    }
}
