// A decimal number of at most 64 bits, digit by digit.
ghost use Rattle.std.specs.Prelude.{◌≡◌};
ghost use Rattle.dump_words.specs.Gather.{number_add};

// Part of a reader's state, which the C host hands over with any bytes in it: so its state is a number, and no enum.
#[repr(C)]
#[derive(Clone, Copy)]
pub struct Number {
    pub value: u64,
    // 0 no digit yet, 1 a number, 2 one above 64 bits, 3 no number.
    pub state: u64,
}

impl Number {
    // No digit yet.
    pub const NONE: Number = Number { value: 0, state: 0 };
}

// One more byte.
pub fn add_digit(n: Number, b: u8) -> Number
    ensures { result ≡ number_add n b }
{
    if b < 48 {
        return Number { value: 0, state: 3 };
    }
    if b > 57 {
        return Number { value: 0, state: 3 };
    }
    if n.state > 1 {
        return n;
    }
    let d = (b - 48) as u64;
    if n.value > 1844674407370955161 {
        return Number { value: 0, state: 2 };
    }
    let ten = n.value * 10;
    if ten > 18446744073709551615 - d {
        return Number { value: 0, state: 2 };
    }
    Number {
        value: ten + d,
        state: 1,
    }
}
