//! What earlier lines gave, and what each word of a line asks for.
use crate::ending::{run_command, run_faulty};
use crate::reported::report_failure;
use std::alloc::Global;
use wd_cases::{Cases, Failure, NamedTexts};

#[derive(Drop)]
pub struct CommandCases {
    files: NamedTexts,
}

impl CommandCases {
    /// No files.
    pub fn new(alloc: Global) -> CommandCases {
        CommandCases {
            files: NamedTexts::new(alloc),
        }
    }

    /// `file PATH TEXT` is a further file, and `file` alone takes all files away.
    fn set_files(&mut self, alloc: Global, text: &str) -> Result<String, Failure> {
        let count = self.files.set(alloc, text)?;
        Ok(format!(in alloc; "files: {count}")?)
    }
}

impl Cases for CommandCases {
    fn answer(&mut self, alloc: Global, word: &str, text: &str) -> Result<String, Failure> {
        match word {
            "file" => self.set_files(alloc, text),
            "command" => run_command(alloc, &self.files, text),
            "fault" => run_faulty(alloc, &self.files, text),
            "report" => report_failure(alloc, text),
            _ => Err(Failure::NoCase),
        }
    }
}
