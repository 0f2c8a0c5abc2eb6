ghost use Rattle.std.specs.Prelude.{◌≡◌};
ghost use Rattle.rng.specs.Fnv.{fnv_1a};

const OFFSET_BASIS: u64 = 14_695_981_039_346_656_037;

const PRIME: u64 = 1_099_511_628_211;

/// The hash FNV-1a of 64 bits of the bytes, in their order.
pub fn fnv1a(bytes: &[u8]) -> u64
    ensures { result ≡ fnv_1a bytes.now }
{
    bytes.iter().fold(
        OFFSET_BASIS,
        |hash, byte| (hash ^ u64::from(*byte)).wrapping_mul(PRIME),
    )
}
