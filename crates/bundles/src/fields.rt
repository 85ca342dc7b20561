// One field of a bundle: a byte, or a number of two bytes. All are inner functions.
ghost use Rattle.std.specs.Prelude.{◌≡◌, Bool, ℕ};
ghost use Rattle.bundles.specs.Reading.{byte, number};
ghost use Rattle.bundles.specs.Readers.{anything};
ghost use Rattle.bundles.specs.Chains.{ReadBy, Decides};
ghost use Rattle.bundles.specs.NumberReading.{numbers_left};

use crate::Reader;
use refusals::{Cause, Refusal};
use slices::number_at;

impl<'a> Reader<'a> {
    // Any byte.
    #[inline(always)]
    pub fn any_byte(&mut self) -> Result<u8, Refusal>
        ensures { ReadBy self.old self.new result (byte anything) }
    {
        let at = self.at;
        let Some(byte) = self.bytes.get(at) else {
            return Err(Cause::BundleEnd.at(at));
        };
        self.at += 1;
        Ok(*byte)
    }

    // A byte that passes a test.
    #[inline(always)]
    pub fn byte<F: Fn(u8) -> bool>(&mut self, in_range: F) -> Result<u8, Refusal>
        requires { F.IsAlwaysCallable in_range }
        ensures { (p : ℕ → Bool) → Decides 256 (F.post in_range) p → ReadBy self.old self.new result (byte p) }
    {
        let at = self.at;
        let byte = self.any_byte()?;
        in_range(byte).then_some(byte).ok_or(Cause::Value.at(at))
    }

    // How many whole numbers are left.
    pub fn numbers_left(&self) -> usize
        ensures { result ≡ numbers_left self.now.bytes.now self.now.at }
    {
        self.bytes.len().saturating_sub(self.at) / 2
    }

    // Any two-byte number.
    #[inline(always)]
    pub fn any_number(&mut self) -> Result<u16, Refusal>
        ensures { ReadBy self.old self.new result (number anything) }
    {
        let at = self.at;
        if self.numbers_left() < 1 {
            return Err(Cause::BundleEnd.at(at));
        }
        self.at += 2;
        Ok(number_at(self.bytes, at))
    }

    // A two-byte number that passes a test. Apart from `byte`: one function of both would need a trait of fields, with a law for each of them.
    #[inline(always)]
    pub fn number<F: Fn(u16) -> bool>(&mut self, in_range: F) -> Result<u16, Refusal>
        requires { F.IsAlwaysCallable in_range }
        ensures { (p : ℕ → Bool) → Decides 65536 (F.post in_range) p → ReadBy self.old self.new result (number p) }
    {
        let at = self.at;
        let number = self.any_number()?;
        in_range(number)
            .then_some(number)
            .ok_or(Cause::Value.at(at))
    }
}
