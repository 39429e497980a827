// Which file a name means.
use crate::is_standard;
use crate::status::status_of;
use std::io::IsTerminal;
use std::os::unix::fs::MetadataExt;

// A file, by its device and its number there.
#[derive(Clone, Copy, PartialEq, Eq)]
pub struct FileIdentity {
    pub device: u64,
    pub inode: u64,
}

fn identity_at(rt: &HostRuntime, path: &[u8]) -> Option<FileIdentity> {
    let status = status_of(rt, path).ok()?;
    Some(FileIdentity {
        device: status.dev(),
        inode: status.ino(),
    })
}

// The file that is read or written under this name; nothing where it is not known, as of a file that is not there.
pub fn identity(rt: &HostRuntime, name: &[u8]) -> Option<FileIdentity> {
    if is_standard(name) {
        return identity_at(rt, b"/dev/stdin");
    }
    identity_at(rt, name)
}

// Whether this is standard input, and the system does not tell which file that is, as where there is no /proc. What is
// typed at a terminal is no file that could be lost.
fn may_be_any(rt: &HostRuntime, name: &[u8], found: Option<FileIdentity>) -> bool {
    found.is_none() && is_standard(name) && !rt.stdin().is_terminal()
}

// Whether two names mean one file. Where that cannot be told it is so, that no file is lost that is read.
pub fn is_same(rt: &HostRuntime, a: &[u8], b: &[u8]) -> bool {
    if a == b {
        return true;
    }
    let first = identity(rt, a);
    let second = identity(rt, b);
    if may_be_any(rt, a, first) {
        return second.is_some();
    }
    if may_be_any(rt, b, second) {
        return first.is_some();
    }
    first.is_some() && first == second
}
