// Some of the 32 wires of a sample, cut out of it and put in order.
ghost use Rattle.std.specs.Prelude.{◌≡◌, ℕ, suc, ◌+◌, ◌-◌, ◌≤◌, ◌<◌};
ghost use Rattle.bits.specs.Bits.{bit, number};
ghost use Rattle.bits.specs.Groups.{lower_groups, swapped_groups};

use super::mask::low_ones;

// The wires from `right` up to `left`, the wire `right` as bit 0. The shift left drops the wires above `left`, and the shift right those below
// `right`.
pub fn descending(left: u32, right: u32, wires: u32) -> u32
    requires { (right ≤ left) × (left ≤ 31) }
    ensures { result ≡ number (suc (left - right)) (λ (k : ℕ). bit wires (right + k)) }
{
    (wires << (31 - left)) >> (31 - left + right)
}

// The same by a mask, which depends on the range alone. Both forms stay for speed: a loop over many samples of one port takes one shift and one mask here, where
// the two shifts above take more, and a loop that reads three ports of any direction needs so many masks that it takes longer.
pub fn masked(left: u32, right: u32, wires: u32) -> u32
    requires { (right ≤ left) × (left ≤ 31) }
    ensures { result ≡ number (suc (left - right)) (λ (k : ℕ). bit wires (right + k)) }
{
    (wires >> right) & (low_ones(left - right + 1) as u32)
}

// The wires with each two neighbouring groups of `width` wires in each other's place. `mask` has the lower group of each two.
fn swapped(wires: u32, mask: u32, width: u32) -> u32
    requires { (0 < width) × (width ≤ 31) × (mask ≡ lower_groups width) }
    ensures { result ≡ swapped_groups width wires }
{
    ((wires >> width) & mask) | ((wires & mask) << width)
}

// All 32 wires in the other order, without a loop: a swap turns groups of twice its width round, so that after the first the pairs of wires are turned, then
// the nibbles, the bytes, the halves, and last the word. The library's `reverse_bits` stays out for speed: it takes a turn for each of the 32 bits.
fn reversed(wires: u32) -> u32
    ensures { result ≡ number 32 (λ (k : ℕ). bit wires (31 - k)) }
{
    let pairs = swapped(wires, 0x5555_5555, 1);
    let nibbles = swapped(pairs, 0x3333_3333, 2);
    let bytes = swapped(nibbles, 0x0f0f_0f0f, 4);
    let halves = swapped(bytes, 0x00ff_00ff, 8);
    swapped(halves, 0x0000_ffff, 16)
}

// The wires from `right` down to `left`, the wire `right` as bit 0. In the other order wire i stands at 31 - i, so that the range is a descending one.
pub fn ascending(left: u32, right: u32, wires: u32) -> u32
    requires { (left < right) × (right ≤ 31) }
    ensures { result ≡ number (suc (right - left)) (λ (k : ℕ). bit wires (right - k)) }
{
    descending(31 - left, 31 - right, reversed(wires))
}

// The same by a mask: each of the two is made of the one above that its loops need, for the same speed.
pub fn masked_ascending(left: u32, right: u32, wires: u32) -> u32
    requires { (left < right) × (right ≤ 31) }
    ensures { result ≡ number (suc (right - left)) (λ (k : ℕ). bit wires (right - k)) }
{
    masked(31 - left, 31 - right, reversed(wires))
}

// The wires from `right` up, the wire `right` as bit 0: for a caller that looks at no bit above a range. No mask has to be kept in a loop.
pub fn upward(right: u32, wires: u32) -> u32
    requires { right ≤ 31 }
    ensures { (k : ℕ) → bit result k ≡ bit wires (right + k) }
{
    wires >> right
}

// The wires from `right` down, the wire `right` as bit 0.
pub fn downward(right: u32, wires: u32) -> u32
    requires { right ≤ 31 }
    ensures { (k : ℕ) → k ≤ right → bit result k ≡ bit wires (right - k) }
{
    reversed(wires) >> (31 - right)
}
