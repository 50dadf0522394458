//! Bytes, cut at a byte.
ghost use Rattle.std.specs.Prelude.{◌≡◌, ◌<◌, ◌∷◌, ◌==◌, false, length, All, IfOk, IfSome, IfNone};
ghost use Rattle.std.specs.List.{position};
ghost use Rattle.tm_text.specs.Pieces.{pieces, cut, parts_left, texts};

use std::alloc::{AllocError, Global};

// Where the byte stands first.
fn find_byte(bytes: &[u8], at: u8) -> Option<usize>
    ensures first { result ≡ position (λ b. b == at) bytes.now }
    ensures none { IfNone result (All (λ b. (b == at) ≡ false) bytes.now) }
{
    bytes.iter().position(|b| *b == at)
}

/// The first part, and what follows the byte that ends it.
pub fn cut_at(bytes: &[u8], at: u8) -> (&[u8], Option<&[u8]>)
    ensures parts { cut at bytes.now ≡ result.0.now ∷ parts_left at result.1 }
    ensures shorter { IfSome result.1 (λ rest. length rest.now < length bytes.now) }
{
    match find_byte(bytes, at) {
        Some(end) => (&bytes[..end], Some(&bytes[end + 1..])),
        None => (bytes, None),
    }
}

/// The parts between the places where the byte stands, without the empty ones.
pub fn split_at_byte(alloc: Global, bytes: &[u8], at: u8) -> Result<Vec<&[u8]>, AllocError>
    ensures { IfOk result (λ parts. texts parts.items ≡ pieces at bytes.now) }
{
    let mut parts = Vec::new(alloc);
    let mut left = Some(bytes);
    while let Some(text) = left {
        let (part, rest) = cut_at(text, at);
        if !part.is_empty() {
            parts.push(part)?;
        }
        left = rest;
    }
    Ok(parts)
}
