//! Reading a script from a source to its end.
ghost use Rattle.std.specs.Prelude.{◌≡◌, ◌≢◌, ℕ, ◌+◌, ◌<◌, ◌≤◌, [], length, Some, IfOk, IfSome, Err};
ghost use Rattle.erm_outside.specs.Faults.{Rose};
ghost use Rattle.erm_top.specs.Told.{TookAtMost, TookMore};

use erm_outside::{Failed, Source};
use std::alloc::{AllocError, Global};

/// The most bytes that a script has.
pub const SCRIPT_BYTES: usize = 16_777_216;

/// How many bytes are asked for at a time.
const CHUNK_BYTES: usize = 4096;

/// Why a script was not read to its end.
#[derive(Clone, Copy)]
pub enum ReadError {
    /// Memory ran out.
    Memory,
    /// The source failed.
    Fault,
    /// It has more than 16,777,216 bytes.
    TooLong,
}

impl From<AllocError> for ReadError {
    ghost use Rattle.std.specs.Prelude.{◌≡◌};
    ghost use Rattle.erm_top.specs.declared.reading.ReadError.TheVariants.{Memory};

    ghost from_gives = { λ _ e. e ≡ Memory };

    fn from(_e: AllocError) -> ReadError {
        ReadError::Memory
    }
}

impl From<Failed> for ReadError {
    ghost use Rattle.std.specs.Prelude.{◌≡◌};
    ghost use Rattle.erm_top.specs.declared.reading.ReadError.TheVariants.{Fault};

    ghost from_gives = { λ _ e. e ≡ Fault };

    fn from(_e: Failed) -> ReadError {
        ReadError::Fault
    }
}

/// Takes all bytes of a source, up to its end.
pub fn read_all<S: Source>(alloc: Global, source: &mut S) -> Result<Vec<u8>, ReadError>
    ensures all { IfOk result (λ bytes. IfSome (S.left source.old)
        (λ left. (bytes.items ≡ left) × (S.left source.new ≡ Some []))) }
    ensures short { IfOk result (λ bytes. length bytes.items ≤ SCRIPT_BYTES) }
    ensures sound { result ≢ Err ReadError.Fault → S.faults source.new ≡ S.faults source.old }
    ensures fault { result ≡ Err ReadError.Fault → Rose (S.faults source.old) (S.faults source.new) }
    ensures too_long { result ≡ Err ReadError.TooLong → TookMore SCRIPT_BYTES (S.left source.old) (S.left source.new) }
    ensures taken { TookAtMost (SCRIPT_BYTES + 1) (S.left source.old) (S.left source.new) }
{
    let mut bytes = Vec::new(alloc);
    let mut chunk = [0; CHUNK_BYTES];
    while bytes.len() <= SCRIPT_BYTES {
        let room = CHUNK_BYTES.min(SCRIPT_BYTES + 1 - bytes.len());
        let part = &mut chunk[..room];
        let count = source.take(part)?;
        if count == 0 {
            return Ok(bytes);
        }
        bytes.extend_from_slice(&part[..count])?;
    }
    Err(ReadError::TooLong)
}
