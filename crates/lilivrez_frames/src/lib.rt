// The frame reader, as functions with plain numbers: for Rust here, for C in lilivrez_frames_c
// (include/lilivrez_frames.h). The numbers, kinds and arrays are those of the C interface.
#![tactic(auto)]

ghost use Rattle.std.specs.Prelude.{◌≡◌};
ghost use Rattle.version.specs.Version.{version_number};

pub mod finding;
pub mod reading;

// The version of this archive.
pub fn lilivrez_frames_version() -> u32
    ensures { result ≡ version_number }
{
    version::NUMBER
}
