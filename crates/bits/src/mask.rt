// Words of given bits.
ghost use Rattle.std.specs.Prelude.{◌≡◌, ◌-◌, ◌^◌, ◌<◌};
ghost use Rattle.bits.specs.Bits.{without};

// The word whose k lowest bits are 1.
pub fn low_ones(k: u32) -> u64
    requires { k < 64 }
    ensures { result ≡ 2 ^ k - 1 }
{
    (1u64 << k) - 1
}

// The ones of the first word that are not ones of the second.
pub fn without(x: u32, y: u32) -> u32
    ensures { result ≡ without x y }
{
    x ^ (x & y)
}
