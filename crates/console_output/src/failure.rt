// Why a file could not be opened, read or written, in words, by the number of the system's error.
use crate::{Console, ErrorPlace, leave, print_aside, print_aside_number, print_start};
use std::io::Error;
use system_errors::{
    EACCES, EFBIG, EILSEQ, EIO, EISDIR, ELOOP, ENAMETOOLONG, ENOENT, ENOSPC, ENOTDIR, EPERM, EPIPE,
    EROFS, number_of,
};

fn print_number(console: &Console, number: i32) {
    print_aside(console, b"error ");
    if 0 < number {
        print_aside_number(console, number as u64);
    }
    print_aside(console, b" of the system\n");
}

fn print_reason(console: &Console, error: Error) {
    match number_of(&error) {
        ENOENT => print_aside(console, b"no such file\n"),
        EACCES | EPERM => print_aside(console, b"no permission\n"),
        EISDIR => print_aside(console, b"it is a directory\n"),
        ENOTDIR => print_aside(console, b"a part of its path is no directory\n"),
        ENOSPC => print_aside(console, b"no room left on the device\n"),
        ENAMETOOLONG => print_aside(console, b"the name is too long\n"),
        EROFS => print_aside(console, b"the file system cannot be written\n"),
        ELOOP => print_aside(console, b"too many symbolic links\n"),
        EFBIG => print_aside(console, b"the file would be too large\n"),
        EIO => print_aside(console, b"the device failed\n"),
        EPIPE => print_aside(console, b"nobody reads it any more\n"),
        EILSEQ => print_aside(console, b"the name is not UTF-8\n"),
        number => print_number(console, number),
    }
}

// error: NAME, line N, column M: 'WORD': why, where WORD names the file that failed and stands in a line of the file NAME.
pub fn print_failure_at(console: &Console, place: ErrorPlace, error: Error) {
    print_start(console, place);
    print_reason(console, error);
}

// error: NAME: why, of a file that is read.
pub fn print_failure(console: &Console, name: &[u8], error: Error) {
    print_failure_at(console, ErrorPlace::of_file(name), error);
}

// error: NAME: why, of a file that is written. Nothing is said where that is standard output and nobody reads it any more.
pub fn print_write_failure(console: &Console, name: &[u8], error: Error) {
    if !matches!(name, b"-") {
        print_failure(console, name, error);
        return;
    }
    if number_of(&error) == EPIPE {
        leave(console);
        return;
    }
    print_failure(console, b"standard output", error);
}
