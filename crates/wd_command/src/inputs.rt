//! Reads the inputs of a task.

ghost use Rattle.std.specs.Prelude.{◌≡◌, ◌-◌, ◌^◌, ◌<◌, [], ◌∷◌, map, IfOk, IfErr};
ghost use Rattle.wd_command.specs.Failures.{IsUnread};
ghost use Rattle.wd_command.specs.Files.{AllRead, AreTableTexts, AreTexts, StandsNext, reads};
ghost use Rattle.wd_command.specs.Inputs.{table_by, task_of_paths, task_of_texts};
ghost use Rattle.wd_command.specs.Words.{inputs_of};

use crate::failure::Failure;
use crate::files::{Files, ReadFault};
use crate::task::{Table, Task};
use std::alloc::Global;

/// Reads the files of a task, in the order of the words.
pub fn read_inputs<'a, F: Files>(
    alloc: Global,
    files: &mut F,
    task: Task<'a, &'a str>,
) -> Result<Task<'a, Vec<u8>>, Failure<'a>>
    requires { F.failures files.old < 2 ^ 64 - 1 }
    ensures ok { IfOk result (λ texts. AreTexts
        (reads (F.handed files.old) (F.failures files.old)) (reads (F.handed files.new) (F.failures files.new)) (task_of_paths task.entry) (task_of_texts texts)) }
    ensures err { IfErr result (IsUnread (StandsNext (inputs_of (task_of_paths task.entry)))
        (reads (F.handed files.old) (F.failures files.old)) (reads (F.handed files.new) (F.failures files.new))) }
{
    match task {
        Task::Usage => Ok(Task::Usage),
        Task::Check {
            listed,
            schema,
            query,
        } => {
            let (schema, query) = read_two(alloc, files, schema, query)?;
            Ok(Task::Check {
                listed,
                schema,
                query,
            })
        }
        Task::Explain { schema, query } => {
            let (schema, query) = read_two(alloc, files, schema, query)?;
            Ok(Task::Explain { schema, query })
        }
        Task::Verify {
            listed,
            schema,
            query,
            certificate,
        } => {
            let (schema, query) = read_two(alloc, files, schema, query)?;
            let certificate = read_file(alloc, files, certificate)?;
            Ok(Task::Verify {
                listed,
                schema,
                query,
                certificate,
            })
        }
        Task::Refute {
            schema,
            query,
            witness,
        } => {
            let (schema, query) = read_two(alloc, files, schema, query)?;
            let witness = read_file(alloc, files, witness)?;
            Ok(Task::Refute {
                schema,
                query,
                witness,
            })
        }
        Task::Run {
            schema,
            query,
            tables,
        } => {
            let (schema, query) = read_two(alloc, files, schema, query)?;
            let tables = read_tables(alloc, files, tables.as_slice())?;
            Ok(Task::Run {
                schema,
                query,
                tables,
            })
        }
    }
}

fn read_file<'a, F: Files>(
    alloc: Global,
    files: &mut F,
    path: &'a str,
) -> Result<Vec<u8>, Failure<'a>>
    requires { F.failures files.old < 2 ^ 64 - 1 }
    ensures read { IfOk result (λ text. AllRead
        (reads (F.handed files.old) (F.failures files.old)) (reads (F.handed files.new) (F.failures files.new)) ((path.entry.now, text.items) ∷ [])) }
    ensures err { IfErr result (IsUnread (StandsNext (path.entry.now ∷ []))
        (reads (F.handed files.old) (F.failures files.old)) (reads (F.handed files.new) (F.failures files.new))) }
{
    match files.read(alloc, path) {
        Ok(text) => Ok(text),
        Err(ReadFault::Failed) => Err(Failure::CannotRead(path)),
        Err(ReadFault::OutOfMemory) => Err(Failure::OutOfMemory),
    }
}

// Reads two files, one after the other.
fn read_two<'a, F: Files>(
    alloc: Global,
    files: &mut F,
    first: &'a str,
    second: &'a str,
) -> Result<(Vec<u8>, Vec<u8>), Failure<'a>>
    requires { F.failures files.old < 2 ^ 64 - 1 }
    ensures read { IfOk result (λ texts. AllRead
        (reads (F.handed files.old) (F.failures files.old)) (reads (F.handed files.new) (F.failures files.new))
        ((first.entry.now, texts.0.items) ∷ (second.entry.now, texts.1.items) ∷ [])) }
    ensures err { IfErr result (IsUnread (StandsNext (first.entry.now ∷ second.entry.now ∷ []))
        (reads (F.handed files.old) (F.failures files.old)) (reads (F.handed files.new) (F.failures files.new))) }
{
    let text = read_file(alloc, files, first)?;
    Ok((text, read_file(alloc, files, second)?))
}

// Reads the tables' files, in their order.
fn read_tables<'a, F: Files>(
    alloc: Global,
    files: &mut F,
    tables: &[Table<'a, &'a str>],
) -> Result<Vec<Table<'a, Vec<u8>>>, Failure<'a>>
    requires { F.failures files.old < 2 ^ 64 - 1 }
    ensures read { IfOk result (λ v. AreTableTexts
        (reads (F.handed files.old) (F.failures files.old)) (reads (F.handed files.new) (F.failures files.new))
        (map (table_by (λ path. path.now)) tables.now) (map (table_by (λ text. text.items)) v.items)) }
    ensures err { IfErr result (IsUnread (StandsNext (map (λ t. t.1) (map (table_by (λ path. path.now)) tables.now)))
        (reads (F.handed files.old) (F.failures files.old)) (reads (F.handed files.new) (F.failures files.new))) }
{
    let mut read = Vec::with_capacity(alloc, tables.len())?;
    for table in tables {
        let file = read_file(alloc, files, table.file)?;
        read.push(Table {
            name: table.name,
            file,
        })?;
    }
    Ok(read)
}
