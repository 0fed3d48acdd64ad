//! Laws of locks, and a round trip: a lock that is written is read back.

ghost use Rattle.std.specs.Prelude.{◌≡◌, IfOk, IfErr};
ghost use Rattle.wd_json_lines.specs.declared.error.LineError.TheVariants as error;
ghost use Rattle.wd_lock.specs.Laws.{HasOneLock};
ghost use Rattle.wd_lock.specs.Locks.{entries_of};

use crate::lock::Lock;
use std::alloc::Global;
use wd_certificate::laws::is_read_back;
use wd_json_lines::LineError;

/// Bytes are the lock of at most one list of certificates.
pub fn has_one_lock()
    ensures { HasOneLock }
{
    is_read_back();
}

/// A lock that is written and read again is unchanged, unless memory runs out.
pub fn read_back(alloc: Global, lock: &Lock) -> Result<Lock, LineError>
    ensures same { IfOk result (λ l. entries_of l ≡ entries_of lock.now) }
    ensures memory { IfErr result (λ e. e ≡ error.OutOfMemory) }
{
    has_one_lock();
    let bytes = lock.to_bytes(alloc)?;
    Lock::read(alloc, &bytes)
}
