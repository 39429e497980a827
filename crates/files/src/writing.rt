// Writing a file: a new file beside it, which takes the name when all is written, so that what the name had is there
// until then. What is no regular file, as a device or a pipe, is written directly.
ghost use Rattle.std.specs.Prelude.{IfOk, IfSome};
ghost use Rattle.io.specs.Counts.{IsPrefixLen};

use crate::is_standard;
use crate::status::text_of;
use std::fs;
use std::fs::{File, Metadata, OpenOptions, Permissions};
use std::io::{Error, Result, Stdout, Write};
use std::os::fd::AsRawFd;
use std::os::unix::fs::{MetadataExt, PermissionsExt, fchown};
use std::random::RandomSource;
use system_errors::{EINVAL, ENAMETOOLONG, ENOENT, number_of};
use text_buffer::{append, append_number};

// A file that is being written: standard output; a file that is written itself; or a new file, with its path.
#[derive(Drop)]
pub enum Draft<'a> {
    Output(Stdout),
    Direct(File),
    Beside(File, &'a [u8]),
}

impl<'a> Write for Draft<'a> {
    fn write(&mut self, buf: &[u8]) -> Result<usize> {
        match self {
            Draft::Output(stdout) => Write::write(stdout, buf),
            Draft::Direct(file) => file.write(buf),
            Draft::Beside(file, _) => file.write(buf),
        }
    }

    fn flush(&mut self) -> Result<()> {
        Ok(())
    }
}

// A path's room, and how long a path may be so that the end of the new file's name fits.
const PATH_ROOM: usize = 4096;

const PATH_MOST: usize = 4000;

// A point and ten letters.
const SUFFIX_LENGTH: usize = 11;

fn letter(random: u8) -> u8 {
    b'a' + random % 16
}

fn create_new(rt: &HostRuntime, path: &[u8]) -> Result<File> {
    OpenOptions::new()
        .write(true)
        .create_new(true)
        .open(rt, text_of(path)?)
}

// Makes the new file: its path is the one that stands at the start of `path`, a point and ten random letters.
fn create<'a>(rt: &HostRuntime, path: &'a mut [u8], n: usize) -> Result<Draft<'a>> {
    if path.len() < PATH_ROOM || PATH_MOST < n {
        return Err(Error::from_raw_os_error(ENAMETOOLONG));
    }
    let mut random = [0u8; 10];
    let _ = rt.fill_bytes(&mut random);
    let point = append(path, n, b".");
    let length = append(path, point, &random.map(letter));
    let path = &path[..length];
    let file = create_new(rt, path)?;
    Ok(Draft::Beside(file, path))
}

// Puts a folder's path and the number of a descriptor behind it at the start of `path`.
fn put_path(path: &mut [u8], folder: &[u8], fd: i32) -> usize
    ensures { IsPrefixLen result path.new }
{
    let number = io::count(fd as isize, path) as u64;
    let at = append(path, 0, folder);
    append_number(path, at, number)
}

// Whether the system does not tell the path of an open file; it is an error where it does and std does not take the path.
fn no_path(error: Error) -> Result<()> {
    match error.raw_os_error() {
        Some(ENAMETOOLONG) | None => Err(error),
        Some(_) => Ok(()),
    }
}

// Puts the path of an open file at the start of `path`, with no symbolic link in it, and answers its length; nothing
// where the system does not tell.
fn put_path_of(rt: &HostRuntime, path: &mut [u8], file: &File) -> Result<Option<usize>>
    ensures { IfOk result (λ found. IfSome found (λ n. IsPrefixLen n path.new)) }
{
    let mut link = io::buffer();
    let n = put_path(&mut link, b"/proc/self/fd/", file.as_raw_fd());
    match fs::read_link(rt, text_of(&link[..n])?) {
        Ok(found) => Ok(Some(append(path, 0, found.as_str().as_bytes()))),
        Err(error) => {
            no_path(error)?;
            Ok(None)
        }
    }
}

// The new file has the owner and the permissions of the one that it replaces, as far as the system allows that.
fn keep_owner(draft: &Draft, status: &Metadata) {
    if let Draft::Beside(file, _) = draft {
        let _ = fchown(file, Some(status.uid()), Some(status.gid()));
        let _ = file.set_permissions(Permissions::from_mode(status.mode() & 0o7777));
    }
}

// The new file beside a file of this name, which is there and is closed again.
fn begin_beside<'a>(
    rt: &HostRuntime,
    name: &[u8],
    path: &'a mut [u8],
    file: File,
) -> Result<Draft<'a>> {
    let found = put_path_of(rt, path, &file)?;
    drop(file);
    match found {
        Some(n) => create(rt, path, n),
        None => begin_new(rt, name, path),
    }
}

// A file of this name is there, and open for writing.
fn begin_over<'a>(
    rt: &HostRuntime,
    name: &[u8],
    path: &'a mut [u8],
    file: File,
) -> Result<Draft<'a>> {
    let Ok(status) = file.metadata() else {
        return Ok(Draft::Direct(file));
    };
    if !status.is_file() {
        return Ok(Draft::Direct(file));
    }
    let draft = begin_beside(rt, name, path, file)?;
    keep_owner(&draft, &status);
    Ok(draft)
}

fn begin_new<'a>(rt: &HostRuntime, name: &[u8], path: &'a mut [u8]) -> Result<Draft<'a>> {
    let n = append(path, 0, name);
    create(rt, path, n)
}

// Begins to write the file of this name. `path` is for a path, and has 4,096 bytes.
pub fn begin<'a>(rt: &HostRuntime, name: &[u8], path: &'a mut [u8]) -> Result<Draft<'a>> {
    if is_standard(name) {
        return Ok(Draft::Output(rt.stdout()));
    }
    match OpenOptions::new().append(true).open(rt, text_of(name)?) {
        Ok(file) => begin_over(rt, name, path, file),
        Err(error) => {
            if number_of(&error) != ENOENT {
                return Err(error);
            }
            begin_new(rt, name, path)
        }
    }
}

fn remove(rt: &HostRuntime, path: &[u8]) {
    if let Ok(text) = text_of(path) {
        let _ = fs::remove_file(rt, text);
    }
}

// The new file takes the name: its path, without what was put behind it.
fn rename(rt: &HostRuntime, path: &[u8]) -> Result<()> {
    if path.len() < SUFFIX_LENGTH {
        return Err(Error::from_raw_os_error(EINVAL));
    }
    let name = &path[..path.len() - SUFFIX_LENGTH];
    fs::rename(rt, text_of(path)?, text_of(name)?)
}

// What is written is on the device before the name is taken from the old file.
fn finish_new(rt: &HostRuntime, file: File, path: &[u8]) -> Result<()> {
    let synced = file.sync_all();
    drop(file);
    synced?;
    rename(rt, path)
}

// All is written: the file takes its name. Where that fails, the name keeps what it had.
pub fn finish(rt: &HostRuntime, draft: Draft) -> Result<()> {
    match draft {
        Draft::Output(_) | Draft::Direct(_) => Ok(()),
        Draft::Beside(file, path) => {
            let finished = finish_new(rt, file, path);
            if finished.is_err() {
                remove(rt, path);
            }
            finished
        }
    }
}

// Not all could be written: the name keeps what it had.
pub fn abandon(rt: &HostRuntime, draft: Draft) {
    if let Draft::Beside(file, path) = draft {
        drop(file);
        remove(rt, path);
    }
}

// Writes the bytes to the file that is begun.
fn save_in(rt: &HostRuntime, draft: Draft, bytes: &[u8]) -> Result<()> {
    let mut draft = draft;
    match draft.write_all(bytes) {
        Ok(()) => finish(rt, draft),
        Err(error) => {
            abandon(rt, draft);
            Err(error)
        }
    }
}

// Writes the bytes to the file of this name.
pub fn save(rt: &HostRuntime, name: &[u8], bytes: &[u8]) -> Result<()> {
    let mut path = io::buffer();
    let draft = begin(rt, name, &mut path)?;
    save_in(rt, draft, bytes)
}
