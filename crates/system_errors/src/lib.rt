// The numbers of the system's errors, as Linux has them, and the number of an error that std tells.
#![tactic(auto)]

ghost use Rattle.std.specs.Prelude.{◌≡◌, IfSome};
ghost use Rattle.std.specs.IoError.{raw_os_error};

use std::io::{Error, ErrorKind};

pub const EPERM: i32 = 1;

pub const ENOENT: i32 = 2;

pub const EIO: i32 = 5;

pub const ENOMEM: i32 = 12;

pub const EACCES: i32 = 13;

pub const ENOTDIR: i32 = 20;

pub const EISDIR: i32 = 21;

pub const EINVAL: i32 = 22;

pub const EFBIG: i32 = 27;

pub const ENOSPC: i32 = 28;

pub const EROFS: i32 = 30;

pub const EPIPE: i32 = 32;

pub const ENAMETOOLONG: i32 = 36;

pub const ELOOP: i32 = 40;

pub const EILSEQ: i32 = 84;

// The number of an error that no call of the system told: of a path with a NUL, or that is not UTF-8; of no memory left.
fn number_of_kind(kind: ErrorKind) -> i32 {
    match kind {
        ErrorKind::InvalidInput => EINVAL,
        ErrorKind::InvalidFilename => EILSEQ,
        ErrorKind::OutOfMemory => ENOMEM,
        _ => EIO,
    }
}

// The number of an error; the system's own where it is one of the system.
pub fn number_of(error: &Error) -> i32
    ensures { IfSome (raw_os_error error.now) (λ number. result ≡ number) }
{
    match error.raw_os_error() {
        Some(number) => number,
        None => number_of_kind(error.kind()),
    }
}
