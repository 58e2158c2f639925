// The handshake: how host and modem settle on a version of the extensions. Each end is a value that
// its calls take and give back, and takes received messages as header and information. Fragments,
// time and which reply belongs to which command are not known here.
#![tactic(auto)]

ghost use Rattle.std.specs.Prelude.{◌≡◌};
ghost use Rattle.handshake.specs.Versions.{number_of, number_verdict, version_of, numbered, info_of, larger, lower, above, is_later};
ghost use Rattle.handshake.specs.Commands.{role_of};

use protocol::service::Kind;
use protocol::{Reason, Refusal, Verdict, Version, refuse_if};
use std::cmp::{max, min};
use version_info::{EXTENSIONS_1_0, EXTENSIONS_2_0, MBIM_1_0, VersionInfo, is_extension};

// What a command is to the handshake.
#[derive(Clone, Copy)]
pub enum Role {
    Services,
    Version,
    Other,
}

// The version of a number, which is judged. Version and its numbers belong to crates below, so that no
// From or TryFrom of it can stand here.
#[tactic(auto, unfolding(crate::specs::Versions::numbered))]
pub fn version_at(number: u16) -> Result<Version, Refusal>
    ensures { result ≡ numbered number }
{
    judge_number(number)?;
    Ok(version_of(number))
}

#[tactic(auto, unfolding(crate::specs::Commands::role_of, crate::specs::Commands::role_of_kind))]
pub fn role_of(carried: Result<Kind, Refusal>) -> Role
    ensures { result ≡ role_of carried }
{
    match carried {
        Ok(Kind::DeviceServices) => Role::Services,
        Ok(Kind::VersionInfo) => Role::Version,
        _ => Role::Other,
    }
}

// The verdict on a number that is to be a version's.
#[tactic(auto, unfolding(crate::specs::Versions::number_verdict, protocol::specs::Verdict::judge_from, protocol::specs::Verdict::first_of))]
pub fn judge_number(number: u16) -> Verdict
    ensures { result ≡ number_verdict number }
{
    refuse_if(!is_extension(number), Reason::WrongVersion, 0)
}

// The version of one of the two numbers.
pub fn version_of(number: u16) -> Version
    ensures { result ≡ version_of number }
{
    if number == EXTENSIONS_2_0 {
        Version::V2
    } else {
        Version::V1
    }
}

pub fn number_of(version: Version) -> u16
    ensures { result ≡ number_of version }
{
    match version {
        Version::V1 => EXTENSIONS_1_0,
        Version::V2 => EXTENSIONS_2_0,
    }
}

// The VERSION payload that carries a version.
#[tactic(auto, unfolding(crate::specs::Versions::info_of))]
pub fn info_of(version: Version) -> VersionInfo
    ensures { result ≡ info_of version }
{
    VersionInfo {
        bcd_mbim_version: MBIM_1_0,
        bcd_mbim_extended_version: number_of(version),
    }
}

pub fn larger(a: Version, b: Version) -> Version
    ensures { result ≡ larger a b }
{
    max(a, b)
}

pub fn lower(a: Version, b: Version) -> Version
    ensures { result ≡ lower a b }
{
    min(a, b)
}

// Whether a is above b.
pub fn is_above(a: Version, b: Version) -> bool
    ensures { result ≡ above a b }
{
    b < a
}

// Whether the version is 2.00.
pub fn is_later(version: Version) -> bool
    ensures { result ≡ is_later version }
{
    matches!(version, Version::V2)
}
