// A 64-bit word in eight lent bytes, least significant byte first.
ghost use Rattle.std.specs.Prelude.{◌≡◌, length};
ghost use Rattle.word_bytes.specs.Bytes.{word_of, bytes_of};

// The word that the bytes hold.
pub fn load(bytes: &[u8]) -> u64
    requires { length bytes.now ≡ 8 }
    ensures { result ≡ word_of bytes.now }
{
    let mut held = [0u8; 8];
    held.copy_from_slice(bytes);
    u64::from_le_bytes(held)
}

// Writes the word into the bytes.
pub fn store(bytes: &mut [u8], word: u64)
    requires { length bytes.old ≡ 8 }
    ensures { bytes.new ≡ bytes_of 8 word }
{
    bytes.copy_from_slice(&word.to_le_bytes());
}
