//! Which files are checked, and where their schemas may be.

use crate::sources::{Entry, SourceError, Sources};
use std::alloc::{AllocError, Global};

/// The most members of folders that are looked at.
const MOST_MEMBERS: u32 = 1_000_000;

/// The most folders around a folder.
const MOST_DEEP: usize = 64;

/// A path to be looked at.
#[derive(Drop)]
struct Waiting {
    path: String,
    /// How many folders lead to the path.
    depth: usize,
    /// Whether it is known to be a file.
    is_file: bool,
}

/// The paths of the files that are checked: the path of a file itself, and the files `*.sql` of a folder and of the folders within it, in
/// the order of their names, except those named `schema.sql`.
pub fn files_at<S: Sources>(
    alloc: Global,
    sources: &mut S,
    path: &str,
) -> Result<Vec<String>, SourceError> {
    let mut found = Vec::new(alloc);
    let mut waiting = Vec::new(alloc);
    waiting.push(Waiting {
        path: String::from_str(alloc, path)?,
        depth: 0,
        is_file: false,
    })?;
    for _ in 0..MOST_MEMBERS {
        let Some(next) = waiting.pop() else {
            return Ok(found);
        };
        if next.is_file {
            found.push(next.path)?;
        } else {
            look(alloc, sources, next, &mut waiting, &mut found)?;
        }
    }
    Ok(found)
}

/// Looks at a path: a file is found; the members of a folder are added to those that wait, the first on top.
fn look<S: Sources>(
    alloc: Global,
    sources: &mut S,
    next: Waiting,
    waiting: &mut Vec<Waiting>,
    found: &mut Vec<String>,
) -> Result<(), SourceError> {
    match sources.list(alloc, next.path.as_str())? {
        None => Ok(found.push(next.path)?),
        Some(members) => if next.depth < MOST_DEEP {
            add_members(alloc, next, members, waiting)
        } else {
            Ok(())
        },
    }
}

/// Adds the members of a folder that are looked at.
fn add_members(
    alloc: Global,
    folder: Waiting,
    mut members: Vec<Entry>,
    waiting: &mut Vec<Waiting>,
) -> Result<(), SourceError> {
    members.sort_by(|a, b| b.name.as_str().cmp(a.name.as_str()))?;
    for member in &members {
        if member.is_folder || is_query(member.name.as_str()) {
            waiting.push(Waiting {
                path: join(alloc, folder.path.as_str(), member.name.as_str())?,
                depth: folder.depth.saturating_add(1),
                is_file: !member.is_folder,
            })?;
        }
    }
    Ok(())
}

/// Whether a file of a folder is checked.
fn is_query(name: &str) -> bool {
    name.ends_with(".sql") && name != "schema.sql"
}

/// The path of a folder's member.
pub(crate) fn join(alloc: Global, folder: &str, name: &str) -> Result<String, AllocError> {
    let mut path = String::from_str(alloc, folder)?;
    if !folder.is_empty() && !folder.ends_with('/') {
        path.push('/')?;
    }
    path.push_str(name)?;
    Ok(path)
}

/// The folder of a path; `None` for the topmost.
fn folder_of(path: &str) -> Option<&str> {
    if path.is_empty() {
        return None;
    }
    match path.rsplit_once('/') {
        Some(("", "")) => None,
        Some(("", _)) => Some("/"),
        Some((folder, _)) => Some(folder),
        None => Some(""),
    }
}

/// The paths of schemas for a query: in its folder, and in the folders above, the nearest first.
pub fn schemas_for(alloc: Global, query: &str) -> Result<Vec<String>, AllocError> {
    let mut found = Vec::new(alloc);
    let mut path = query;
    for _ in 0..MOST_DEEP {
        let Some(folder) = folder_of(path) else {
            return Ok(found);
        };
        found.push(join(alloc, folder, "schema.sql")?)?;
        path = folder;
    }
    Ok(found)
}

/// The folder of a path, and its name there.
pub(crate) fn folder_and_name(path: &str) -> (&str, &str) {
    match path.rsplit_once('/') {
        Some(("", name)) => ("/", name),
        Some((folder, name)) => (folder, name),
        None => (".", path),
    }
}

/// The path of the new file that will replace a file: `.NAME.wdreport-new` beside it.
pub(crate) fn beside(alloc: Global, path: &str) -> Result<String, AllocError> {
    let (folder, name) = folder_and_name(path);
    let mut hidden = String::from_str(alloc, ".")?;
    hidden.push_str(name)?;
    hidden.push_str(".wdreport-new")?;
    join(alloc, folder, hidden.as_str())
}
