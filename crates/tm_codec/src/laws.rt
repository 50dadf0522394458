//! What every reader of fields may rely on.
ghost use Rattle.std.specs.Prelude.{◌^◌, ◌<◌, length};
ghost use Rattle.tm_codec.specs.Fields.{u8_text, u16_text, u32_text, u64_text, u128_text, short_text, long_text};
ghost use Rattle.tm_codec.specs.Laws.{AreApart, AreReadAgain};

/// No spelling of one value begins another's: bytes that begin with two spellings of one kind
/// begin with one value, and what follows is the same.
pub fn spellings_are_apart()
    ensures u8s { AreApart (λ n. n < 2 ^ 8) u8_text }
    ensures u16s { AreApart (λ n. n < 2 ^ 16) u16_text }
    ensures u32s { AreApart (λ n. n < 2 ^ 32) u32_text }
    ensures u64s { AreApart (λ n. n < 2 ^ 64) u64_text }
    ensures u128s { AreApart (λ n. n < 2 ^ 128) u128_text }
    ensures shorts { AreApart (λ part. length part < 2 ^ 8) short_text }
    ensures longs { AreApart (λ part. length part < 2 ^ 16) long_text }
{}

/// A value's spelling stands where it was put, whatever follows; so it is read again.
pub fn spellings_are_read_again()
    ensures u8s { AreReadAgain u8_text }
    ensures u16s { AreReadAgain u16_text }
    ensures u32s { AreReadAgain u32_text }
    ensures u64s { AreReadAgain u64_text }
    ensures u128s { AreReadAgain u128_text }
    ensures shorts { AreReadAgain short_text }
    ensures longs { AreReadAgain long_text }
{}
