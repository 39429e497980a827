// The agent, as functions with plain numbers: for Rust here, for C in lilivrez_agent_c (include/lilivrez_agent.h).
#![tactic(auto)]

ghost use Rattle.std.specs.Prelude.{◌≡◌};
ghost use Rattle.version.specs.Version.{version_number};

pub mod fetching;
pub mod running;

// The version of this archive.
pub fn lilivrez_agent_version() -> u32
    ensures { result ≡ version_number }
{
    version::NUMBER
}
