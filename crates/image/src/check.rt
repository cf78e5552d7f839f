// The check sum of some bytes: FNV-1a of 64 bits.
ghost use Rattle.std.specs.Prelude.{◌≡◌};
ghost use Rattle.image.specs.Fnv.{fnv};

// FNV-1a of the bytes: for each of them an exclusive or, then a product with the prime.
// A loop: this form, over the bytes with a product that wraps, is a rule of the project.
pub fn fnv1a(bytes: &[u8]) -> u64
    ensures { result ≡ fnv bytes.now }
{
    let mut hash: u64 = 0xCBF2_9CE4_8422_2325;
    for byte in bytes {
        hash = (hash ^ u64::from(*byte)).wrapping_mul(0x100_0000_01B3);
    }
    hash
}
