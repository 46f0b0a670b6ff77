//! The profiles in which streams are read and written, by their numbers.

ghost use Rattle.std.specs.Prelude.{◌≡◌, ◌↔◌, true, false, None, IfSome};
ghost use Rattle.drc_c.specs.Profiles.{is_profile, profile_chosen, has_shapes};

use drc_base::{PROFILE_THREE, PROFILE_TWO, Profile};

/// The profile of a number, where it is that of one in which streams are read.
pub fn profile_asked(number: u32) -> Option<Profile>
    ensures number { IfSome result (λ p. (p.number ≡ number) × (is_profile number ≡ true)) }
    ensures none { result ≡ None ↔ is_profile number ≡ false }
{
    match number {
        2 => Some(PROFILE_TWO),
        3 => Some(PROFILE_THREE),
        _ => None,
    }
}

/// The profile that a number of options chooses, 0 as 2, where it is that of one in which streams are read.
pub fn profile_chosen(number: u32) -> Option<Profile>
    ensures number { IfSome result (λ p. (p.number ≡ profile_chosen number) × (is_profile (profile_chosen number) ≡ true)) }
    ensures none { result ≡ None ↔ is_profile (profile_chosen number) ≡ false }
{
    if number == 0 {
        return Some(PROFILE_TWO);
    }
    profile_asked(number)
}

/// Whether a profile has octahedral attributes and predictions from positions.
pub fn has_shapes(profile: Profile) -> bool
    ensures { result ≡ has_shapes profile.number }
{
    profile.has(PROFILE_THREE.number as u32)
}
