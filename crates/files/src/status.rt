// What the system knows of the file of a name.
use std::fs::Metadata;
use std::io::ErrorKind;
use std::{fs, io};

// A name as std takes it, which is UTF-8.
pub fn text_of<'a>(name: &'a [u8]) -> io::Result<&'a str> {
    match std::str::from_utf8(name) {
        Ok(text) => Ok(text),
        Err(_) => Err(ErrorKind::InvalidFilename.into()),
    }
}

// What is known of the file that the name leads to, through symbolic links. No file is opened.
pub fn status_of(rt: &HostRuntime, name: &[u8]) -> io::Result<Metadata> {
    fs::metadata(rt, text_of(name)?)
}
