//! The keys by which terms are found: hashes of their roots.
ghost use Rattle.std.specs.Prelude.{◌≡◌};
ghost use Rattle.circ_table.specs.Lines.{plain};
ghost use Rattle.circ_table.specs.Keys.{mixed, hash_of, root_key};

use crate::lines::Root;

// One number more.
fn mixed(hash: u64, number: u32) -> u64
    ensures { result ≡ mixed hash number }
{
    let product = (hash ^ number as u64).wrapping_mul(0x9E37_79B9_7F4A_7C15);
    product ^ (product >> 32)
}

fn hash(root: Root<'_>) -> u64
    ensures { result ≡ hash_of (plain root.entry) }
{
    let mut hash = mixed(mixed(0, root.name), root.sort);
    for arg in root.args {
        hash = mixed(hash, *arg);
    }
    hash
}

// The upper half of the hash.
pub(crate) fn key_of(root: Root<'_>) -> u32
    ensures { result ≡ root_key (plain root.entry) }
{
    (hash(root) >> 32) as u32
}
