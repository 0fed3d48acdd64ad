//! The files and folders of the computer.

use crate::paths::{beside, folder_and_name, join};
use crate::sources::{Entry, STANDARD_INPUT, SourceError, Sources};
use std::alloc::Global;
use std::fs::{OpenFile, OpenOptions, Permissions};
use std::io::{Input, Read, Write};
use std::path::PathBuf;
use std::rt::Files;
use std::{fs, io};

/// The files and folders of the computer.
#[derive(Drop)]
pub struct MachineSources<'a, R> {
    rt: &'a R,
}

impl<'a, R: Files + Input + AllocGlobal + Clone + Drop> MachineSources<'a, R> {
    pub fn new(rt: &'a R) -> MachineSources<'a, R> {
        MachineSources { rt }
    }
}

impl<R: Files + Input + AllocGlobal + Clone + Drop> Sources for MachineSources<'_, R> {
    fn read(&mut self, alloc: Global, path: &str, most: u64) -> Result<Vec<u8>, SourceError> {
        if path == STANDARD_INPUT {
            return read_some(alloc, self.rt.reader(), most);
        }
        match fs::open(self.rt, path) {
            Ok(file) => read_some(alloc, file, most),
            Err(error) => Err(reason_of(error)),
        }
    }

    fn list(&mut self, alloc: Global, path: &str) -> Result<Option<Vec<Entry>>, SourceError> {
        if path == STANDARD_INPUT {
            return Ok(None);
        }
        match fs::metadata(self.rt, path) {
            Ok(metadata) => if metadata.is_dir() {
                Ok(Some(members(self.rt, alloc, path)?))
            } else {
                Ok(None)
            },
            Err(error) => Err(reason_of(error)),
        }
    }

    // The bytes are written to a new file beside the old one, which then takes its name. A link to a file is kept, and the file it leads
    // to is replaced. Anything but a file, as a folder or a device, is left alone.
    fn replace(&mut self, alloc: Global, path: &str, bytes: &[u8]) -> Result<(), SourceError> {
        let path = canonical(self.rt, path)?;
        let new = beside(alloc, path.as_str())?;
        let permissions = match fs::metadata(self.rt, path.as_str()) {
            Ok(metadata) => {
                if !metadata.is_file() {
                    return Err(SourceError::Failed);
                }
                metadata.permissions()
            }
            Err(error) => return Err(reason_of(error)),
        };
        source_result(write_and_rename(
            self.rt,
            path.as_str(),
            new.as_str(),
            Some(permissions),
            bytes,
        ))
    }

    // A missing file is created in the same way. A link that leads nowhere is left alone. A terminal, a pipe or a device gets the bytes
    // as they are.
    fn write(&mut self, alloc: Global, path: &str, bytes: &[u8]) -> Result<(), SourceError> {
        if is_stream(self.rt, path) {
            return source_result(pour(self.rt, path, bytes));
        }
        match self.replace(alloc, path, bytes) {
            Err(SourceError::Missing) => {
                if fs::symlink_metadata(self.rt, path).is_ok() {
                    return Err(SourceError::Failed);
                }
                let new = beside(alloc, path)?;
                source_result(write_and_rename(self.rt, path, new.as_str(), None, bytes))
            }
            done => done,
        }
    }

    fn remove(&mut self, _alloc: Global, path: &str) -> Result<(), SourceError> {
        source_result(fs::remove_file(self.rt, path))
    }

    fn resolve(&mut self, alloc: Global, path: &str) -> Result<String, SourceError> {
        match canonical(self.rt, path) {
            Ok(path) => Ok(String::from_str(alloc, path.as_str())?),
            Err(SourceError::Missing) => {
                let (folder, name) = folder_and_name(path);
                let folder = canonical(self.rt, folder)?;
                Ok(join(alloc, folder.as_str(), name)?)
            }
            Err(error) => Err(error),
        }
    }
}

/// The path of a file or a folder without links and without `.` and `..`.
fn canonical<R: Files + AllocGlobal>(rt: &R, path: &str) -> Result<PathBuf, SourceError> {
    match fs::canonicalize(rt, path) {
        Ok(path) => Ok(path),
        Err(error) => Err(reason_of(error)),
    }
}

/// Whether a path is neither that of a file nor of a folder: a terminal, a pipe or a device.
fn is_stream<R: Files + AllocGlobal>(rt: &R, path: &str) -> bool {
    match fs::metadata(rt, path) {
        Ok(metadata) => !metadata.is_file() && !metadata.is_dir(),
        Err(_) => false,
    }
}

/// Writes bytes to a stream.
fn pour<R: Files>(rt: &R, path: &str, bytes: &[u8]) -> io::Result<()> {
    let mut stream = OpenOptions::new().write(true).open(rt, path)?;
    stream.write_all(bytes)
}

/// The result of an operation, as an error of sources.
fn source_result(ended: io::Result<()>) -> Result<(), SourceError> {
    match ended {
        Ok(()) => Ok(()),
        Err(error) => Err(reason_of(error)),
    }
}

/// Writes bytes to a new file, which then takes a name and replaces the file of that name. After an error the old file is unchanged, and
/// the new one is removed.
fn write_and_rename<R: Files>(
    rt: &R,
    path: &str,
    new: &str,
    permissions: Option<Permissions>,
    bytes: &[u8],
) -> io::Result<()> {
    let file = OpenOptions::new()
        .write(true)
        .create_new(true)
        .open(rt, new)?;
    let written = match fill(file, permissions, bytes) {
        Ok(()) => fs::rename(rt, new, path),
        Err(error) => Err(error),
    };
    if written.is_err() {
        let _ = fs::remove_file(rt, new);
    }
    written
}

/// Writes bytes to a new file, and waits until they are on the disk.
fn fill<F: Write + OpenFile + Drop>(
    mut file: F,
    permissions: Option<Permissions>,
    bytes: &[u8],
) -> io::Result<()> {
    if let Some(permissions) = permissions {
        file.set_permissions(permissions)?;
    }
    file.write_all(bytes)?;
    file.sync_all()
}

/// The contents of a file, up to the given number of bytes.
fn read_some<F: Read + Drop>(alloc: Global, file: F, most: u64) -> Result<Vec<u8>, SourceError> {
    let mut bytes = Vec::new(alloc);
    match file.take(most).read_to_end(&mut bytes) {
        Ok(_) => Ok(bytes),
        Err(error) => Err(reason_of(error)),
    }
}

/// The members of a folder. A member that can't be looked at counts as a file.
fn members<R: Files + AllocGlobal + Clone + Drop>(
    rt: &R,
    alloc: Global,
    path: &str,
) -> Result<Vec<Entry>, SourceError> {
    let mut found = Vec::new(alloc);
    let entries = match fs::read_dir(rt, path) {
        Ok(entries) => entries,
        Err(error) => return Err(reason_of(error)),
    };
    for entry in entries {
        match entry {
            Ok(entry) => {
                let is_folder = match entry.file_type() {
                    Ok(kind) => kind.is_dir(),
                    Err(_) => false,
                };
                let name = String::from_str(alloc, entry.file_name())?;
                found.push(Entry { name, is_folder })?;
            }
            Err(error) => return Err(reason_of(error)),
        }
    }
    Ok(found)
}

/// Why the system does not read something, or write it.
fn reason_of(error: io::Error) -> SourceError {
    match error.kind() {
        io::ErrorKind::NotFound => SourceError::Missing,
        io::ErrorKind::AlreadyExists => SourceError::Taken,
        io::ErrorKind::OutOfMemory => SourceError::OutOfMemory,
        _ => SourceError::Failed,
    }
}
