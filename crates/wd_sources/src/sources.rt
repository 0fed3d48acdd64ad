//! The interface to files and folders.

use std::alloc::{AllocError, AllocFailed, Global};

/// Why a file or a folder is not read, or a file not replaced.
#[derive(Clone, Copy, Debug, PartialEq, Eq)]
pub enum SourceError {
    /// There is nothing at that path.
    Missing,
    /// It exists, but can't be read or written.
    Failed,
    /// Another file has the name that the new file has until it replaces the old one.
    Taken,
    OutOfMemory,
}

/// A member of a folder.
#[derive(Drop)]
pub struct Entry {
    pub name: String,
    pub is_folder: bool,
}

/// Files and folders by their paths.
pub trait Sources {
    /// The bytes of a file, at most `most` of them. The path `-` is standard input, of which the rest is read.
    fn read(&mut self, alloc: Global, path: &str, most: u64) -> Result<Vec<u8>, SourceError>;

    /// The members of a folder, in any order; `None` where the path is that of a file.
    fn list(&mut self, alloc: Global, path: &str) -> Result<Option<Vec<Entry>>, SourceError>;

    /// Writes other bytes into an existing file. After an error it is unchanged.
    fn replace(&mut self, alloc: Global, path: &str, bytes: &[u8]) -> Result<(), SourceError>;

    /// Writes bytes into a file, which is created if it does not exist. After an error an existing file is unchanged, and a new one is
    /// not there.
    fn write(&mut self, alloc: Global, path: &str, bytes: &[u8]) -> Result<(), SourceError>;

    /// Removes a file.
    fn remove(&mut self, alloc: Global, path: &str) -> Result<(), SourceError>;

    /// The path of a file that does not depend on the spelling. The file itself need not exist, but its folder has to.
    fn resolve(&mut self, alloc: Global, path: &str) -> Result<String, SourceError>;
}

/// The path that stands for standard input.
pub const STANDARD_INPUT: &str = "-";

/// The most bytes of a query or a schema that are read: one more than a text may have.
pub const MOST_BYTES: u64 = 65537;

impl From<AllocError> for SourceError {
    fn from(_error: AllocError) -> Self {
        SourceError::OutOfMemory
    }
}

impl<T: Drop> From<AllocFailed<T>> for SourceError {
    fn from(_error: AllocFailed<T>) -> Self {
        SourceError::OutOfMemory
    }
}
