// Data classes: a table of bits for each version, and the tests of a field that holds them.
ghost use Rattle.std.specs.Prelude.{◌≡◌};
ghost use Rattle.protocol.specs.DataClass.{mask_of, only_classes, one_class, one_class_or_none};

use crate::Version;

// Whether every bit of the field is a class.
pub fn is_only_classes(version: Version, field: u32) -> bool
    ensures { result ≡ only_classes version field }
{
    field & mask(version) == field
}

// Whether the field is 0 or one class.
#[tactic(auto, using(crate::proofs::Classes::counted, crate::proofs::Classes::outside))]
pub fn is_one_class_or_none(version: Version, field: u32) -> bool
    ensures { result ≡ one_class_or_none version field }
{
    let known = field & mask(version);
    if known == field {
        return u32::count_ones(known) <= 1;
    }
    false
}

// Whether the field is one class.
#[tactic(auto, using(crate::proofs::Classes::counted_one, crate::proofs::Classes::outside_one))]
pub fn is_one_class(version: Version, field: u32) -> bool
    ensures { result ≡ one_class version field }
{
    let known = field & mask(version);
    if known == field {
        return u32::count_ones(known) == 1;
    }
    false
}

#[tactic(auto, unfolding(crate::specs::DataClass::class_bits, crate::specs::DataClass::sum_of_bits, crate::specs::DataClass::mask_of))]
fn mask(version: Version) -> u32
    ensures { result ≡ mask_of version }
{
    match version {
        Version::V1 => 0x807F003F,
        Version::V2 => 0x807F00FF,
    }
}
