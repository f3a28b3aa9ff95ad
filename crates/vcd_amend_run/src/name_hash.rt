//! The hash of a full name.

ghost use Rattle.std.specs.Prelude.{◌≡◌};
ghost use Rattle.vcd_core.specs.FullName.{name_bytes};
ghost use Rattle.vcd_amend_run.specs.inside.NameHash as spec;

use vcd_core::FullName;

/// The factor of the hash of a name: the prime 2^40 + 2^8 + 179.
const HASH_FACTOR: u64 = 1_099_511_628_211;

/// The hash of a name.
pub fn name_hash(name: FullName<'_>) -> u64
    ensures { result ≡ spec.name_hash (name_bytes name.entry) }
{
    let mut left = name;
    let mut hash = 0u64;
    while let Some(byte) = left.next_byte() {
        hash = hash.wrapping_mul(HASH_FACTOR).wrapping_add(byte as u64);
    }
    hash
}
