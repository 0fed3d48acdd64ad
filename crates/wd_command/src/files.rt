//! Where the program's files come from.
//!
//! `Files` tells what it supplied as an `Option`, as std's `Read` does for its bytes: an implementation that doesn't keep track of it,
//! like the one over the machine's files, promises nothing.

ghost use Rattle.std.specs.Prelude.{◌≡◌, ◌↔◌, ◌+◌, ◌-◌, ◌^◌, ◌<◌, ◌≤◌, ℕ, List, [], ◌∷◌, length, Option, None, IfErr, IfOk, IfSome, MatchResult};
ghost use Rattle.wd_command.specs.Files.{File, HandsOver, IsOwnShortage, failed_reads};
ghost use Rattle.wd_command.specs.declared.files.ReadFault.TheVariants as fault;

use std::alloc::Global;
use std::io::Read;
use std::{fs, io, rt};

/// Why a file was not supplied.
#[derive(Clone, Copy)]
pub enum ReadFault {
    /// There is no such file, it can't be read, or it has more than `MOST_BYTES` bytes.
    Failed,
    /// The allocator refused a growth.
    OutOfMemory,
}

/// The most bytes that a file may have: 256 MiB.
pub const MOST_BYTES: usize = 268_435_456;

/// Reads whole files by their paths.
pub trait Files {
    /// How many reads have failed.
    ghost failures: { Self → ℕ };

    /// The files that were supplied so far, in their order. `None` promises nothing.
    ghost handed: { Self → Option (List File) } = { λ _. None };

    /// The bytes of the file at a path.
    fn read(&mut self, alloc: Global, path: &str) -> Result<Vec<u8>, ReadFault>
        requires { failures self.old < 2 ^ 64 - 1 }
        ensures handed { MatchResult result
            (λ bytes. HandsOver (handed self.old) (handed self.new) ((path.now, bytes.items) ∷ []))
            (λ _. HandsOver (handed self.old) (handed self.new) []) }
        ensures failures { failures self.new ≡ failures self.old + failed_reads result }
        ensures bounded { IfOk result (λ bytes. length bytes.items ≤ MOST_BYTES) };
}

/// The files of the machine.
#[derive(Drop)]
pub struct MachineFiles<'a, R> {
    rt: &'a R,
    failures: u64,
}

impl<'a, R: rt::Files> MachineFiles<'a, R> {
    ghost use Rattle.wd_command.specs.Machine.{failures_of};

    pub fn new(rt: &'a R) -> MachineFiles<'a, R>
        ensures { failures_of result ≡ 0 }
    {
        MachineFiles { rt, failures: 0 }
    }
}

impl<R: rt::Files> Files for MachineFiles<'_, R> {
    ghost failures = { λ m. m.failures };

    fn read(&mut self, alloc: Global, path: &str) -> Result<Vec<u8>, ReadFault> {
        read_counted(alloc, fs::open(self.rt, path), &mut self.failures)
    }
}

// The content of an opened file, from its beginning to its end; a failure is counted.
fn read_counted<R: Read + Drop>(
    alloc: Global,
    opened: io::Result<R>,
    failures: &mut u64,
) -> Result<Vec<u8>, ReadFault>
    requires { failures.old < 2 ^ 64 - 1 }
    ensures whole { IfOk result (λ bytes. MatchResult opened (λ file. IfSome (R.remaining file) (λ rest. bytes.items ≡ rest)) (λ _. ⊥)) }
    ensures opened { IfErr opened (λ error. IfErr result (λ f. (f ≡ fault.OutOfMemory) ↔ IsOwnShortage error)) }
    ensures failures { failures.new ≡ failures.old + failed_reads result }
    ensures bounded { IfOk result (λ bytes. length bytes.items ≤ MOST_BYTES) }
{
    let bytes = read_opened(alloc, opened);
    if let Err(ReadFault::Failed) = bytes {
        *failures += 1;
    }
    bytes
}

// The content of an opened file.
fn read_opened<R: Read + Drop>(alloc: Global, opened: io::Result<R>) -> Result<Vec<u8>, ReadFault>
    ensures whole { IfOk result (λ bytes. MatchResult opened (λ file. IfSome (R.remaining file) (λ rest. bytes.items ≡ rest)) (λ _. ⊥)) }
    ensures opened { IfErr opened (λ error. IfErr result (λ f. (f ≡ fault.OutOfMemory) ↔ IsOwnShortage error)) }
    ensures bounded { IfOk result (λ bytes. length bytes.items ≤ MOST_BYTES) }
{
    match opened {
        Ok(file) => read_whole(alloc, file),
        Err(error) => Err(fault_of(error)),
    }
}

// Reads to the end, but at most one byte more than a file may have.
fn read_whole<R: Read + Drop>(alloc: Global, reader: R) -> Result<Vec<u8>, ReadFault>
    ensures bounded { IfOk result (λ bytes. length bytes.items ≤ MOST_BYTES) }
    ensures whole { IfOk result (λ bytes. IfSome (R.remaining reader) (λ rest. bytes.items ≡ rest)) }
{
    let mut bytes = Vec::new(alloc);
    let limit = MOST_BYTES as u64 + 1;
    if let Err(error) = reader.take(limit).read_to_end(&mut bytes) {
        return Err(fault_of(error));
    }
    if bytes.len() > MOST_BYTES {
        return Err(ReadFault::Failed);
    }
    Ok(bytes)
}

// Out of memory reported by the operating system is a failure of the file.
fn fault_of(error: io::Error) -> ReadFault
    ensures { (result ≡ fault.OutOfMemory) ↔ IsOwnShortage error }
{
    if error.kind() == io::ErrorKind::OutOfMemory && error.raw_os_error().is_none() {
        ReadFault::OutOfMemory
    } else {
        ReadFault::Failed
    }
}
