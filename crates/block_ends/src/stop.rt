// Where a recheck can stop.
ghost use Rattle.std.specs.Prelude.{true, false, ◌≡◌, ◌≤◌};

// Whether a run goes on before cycle t: it is not yet at b, or its word is not the kept one.
pub fn goes_on(t: usize, b: usize, own: u64, kept: u64) -> bool
    ensures { (result ≡ true → b ≤ t → own ≡ kept → ⊥) × (result ≡ false → (b ≤ t) × (own ≡ kept)) }
{
    if t < b {
        return true;
    }
    own != kept
}
