//! The versions of a schedule's text, and what depends on them.

ghost use Rattle.std.specs.Prelude.{◌≡◌, ◌≤◌};
ghost use Rattle.mip_schedule.specs.Versions as versions;

/// Whether updates name the binding numbers that they ask for.
pub fn is_numbered(version: u8) -> bool
    ensures { result ≡ versions.is_numbered version }
{
    version == 2
}

/// How many binding numbers a home has in a schedule of this version.
pub fn numbers_of(version: u8) -> u8
    ensures value { result ≡ versions.numbers_of_version version }
    ensures some { 1 ≤ result }
    ensures few { result ≤ 8 }
{
    if is_numbered(version) { 8 } else { 1 }
}
