// The arguments of the program, one after the other, as numbers, codes and keywords.
ghost use Rattle.marks_args.specs.Arguments.{behind};
ghost use Rattle.std.specs.Prelude.{◌≡◌, ◌≤◌, length, IfErr, IfSome};

use crate::faults::{Fault, Misuse};
use crate::keyword::{Keyword, keyword_of};
use crate::text::{number_of, text_of};
use std::env::{Env, FillError};

// Whether there is an argument `i`; argument 0 is the program's name.
pub fn has_argument(rt: &impl Env, i: usize) -> bool {
    read_argument(rt, i, &mut [0; 1]).is_some()
}

// Puts the argument `i` at the start of the space, and answers its length: 0 where it is longer than the space, none where it is missing.
pub fn read_argument(rt: &impl Env, i: usize, space: &mut [u8]) -> Option<usize>
    ensures { IfSome result (λ n. n ≤ length space.new) }
{
    match rt.arg(i, space) {
        Ok(n) => Some(n),
        Err(FillError::TooLong) => Some(0),
        Err(FillError::NotPresent) => None,
    }
}

// Where the arguments are read: the number of the one that was read last, at first 0, the program's name. An argument of more than 4,096 bytes is read as an
// empty one, which is no number, no code and no keyword.
#[derive_where(Clone, Copy)]
pub struct Arguments<'a, E: Env> {
    rt: &'a E,
    at: usize,
}

impl<'a, E: Env> Arguments<'a, E> {
    pub fn new(rt: &'a E) -> Self
        ensures { result.at ≡ 0 }
    {
        Arguments { rt, at: 0 }
    }

    // What is wrong with the argument that was read last.
    pub fn misuse(&self, fault: Fault) -> Misuse
        ensures { (result.fault ≡ fault) × (result.at ≡ self.now.at) }
    {
        Misuse { fault, at: self.at }
    }

    // The next argument at the start of the space, and its length.
    #[tactic(auto, unfolding(crate::specs::Arguments::behind))]
    fn next(&mut self, space: &mut [u8; 4096]) -> Option<usize>
        ensures { (self.new.at ≡ behind self.old.at) × IfSome result (λ n. n ≤ 4096) }
    {
        self.at = self.at.saturating_add(1);
        read_argument(self.rt, self.at, space)
    }

    // The next argument as a decimal number.
    pub fn number(&mut self) -> Result<u64, Misuse>
        ensures { (self.new.at ≡ behind self.old.at) × IfErr result (λ m. m.at ≡ self.new.at) }
    {
        let mut space = [0u8; 4096];
        let Some(length) = self.next(&mut space) else {
            return Err(self.misuse(Fault::Missing));
        };
        let n = number_of(&space[..length]);
        if n.state != 1 {
            return Err(self.misuse(Fault::NotNumber));
        }
        Ok(n.value)
    }

    // The next argument as a decimal number of at most 32 bits.
    pub fn word(&mut self) -> Result<u32, Misuse>
        ensures { (self.new.at ≡ behind self.old.at) × IfErr result (λ m. m.at ≡ self.new.at) }
    {
        let n = self.number()?;
        let Ok(word) = u32::try_from(n) else {
            return Err(self.misuse(Fault::NotNumber));
        };
        Ok(word)
    }

    // The next argument as a decimal number that has its limit below 255: one of 255 or more is out of its limits as 255 is.
    pub fn byte(&mut self) -> Result<u8, Misuse>
        ensures { (self.new.at ≡ behind self.old.at) × IfErr result (λ m. m.at ≡ self.new.at) }
    {
        let n = self.word()?;
        Ok(u8::try_from(n).unwrap_or(u8::MAX))
    }

    // The next argument as an identifier code: 1 to 8 bytes from 33 to 126.
    pub fn code(&mut self) -> Result<u64, Misuse>
        ensures { (self.new.at ≡ behind self.old.at) × IfErr result (λ m. m.at ≡ self.new.at) }
    {
        let mut space = [0u8; 4096];
        let Some(length) = self.next(&mut space) else {
            return Err(self.misuse(Fault::Missing));
        };
        let t = text_of(&space[..length]);
        if t.length == 0 || 8 < t.length || t.plain != 1 {
            return Err(self.misuse(Fault::NotCode));
        }
        Ok(t.low)
    }

    // The next argument as the keyword of an option; none where the arguments end.
    pub fn keyword(&mut self) -> Result<Option<Keyword>, Misuse>
        ensures { (self.new.at ≡ behind self.old.at) × IfErr result (λ m. m.at ≡ self.new.at) }
    {
        let mut space = [0u8; 4096];
        let Some(length) = self.next(&mut space) else {
            return Ok(None);
        };
        let keyword = keyword_of(&space[..length]);
        if keyword.is_none() {
            return Err(self.misuse(Fault::NotOption));
        }
        Ok(keyword)
    }
}
