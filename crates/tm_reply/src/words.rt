//! Words as they are printed.
ghost use Rattle.std.specs.Prelude.{◌≡◌, ℕ, IfOk, string_bytes};
ghost use Rattle.tm_reply.specs.Escapes.{printed_word, printed_path, printed_id, printed_octal};

use percent_encoding::{AsciiSet, CONTROLS, ascii_set};
use std::alloc::{AllocError, Global};
use tm_base::Path;
use uuid::Uuid;

/// The bytes below 0x80 that a printed word escapes.
const ESCAPED: AsciiSet = ascii_set!(CONTROLS.add(b' ').add(b'%'));

/// The word that stands for these bytes.
pub fn encode(alloc: Global, bytes: &[u8]) -> Result<String, AllocError>
    ensures { IfOk result (λ word. string_bytes word ≡ printed_word bytes.now) }
{
    let mut word = String::new(alloc);
    percent_encoding::percent_encode(bytes, ESCAPED).append_to(&mut word)?;
    Ok(word)
}

/// A path as it is printed.
#[tactic(auto, unfolding(crate::specs::Escapes::printed_path))]
pub fn encode_path(alloc: Global, path: &Path) -> Result<String, AllocError>
    ensures { IfOk result (λ word. string_bytes word ≡ printed_path path.now) }
{
    let names = path.names();
    if names.is_empty() {
        return String::from_str(alloc, "/");
    }
    let mut text = String::new(alloc);
    for name in names {
        let word = encode(alloc, name.as_bytes())?;
        text.push_str("/")?;
        text.push_str(word.as_str())?;
    }
    Ok(text)
}

/// An id as it is printed.
pub fn print_id(alloc: Global, id: u128) -> Result<String, AllocError>
    ensures { IfOk result (λ text. string_bytes text ≡ printed_id id) }
{
    let mut buffer = Uuid::encode_buffer();
    let text = Uuid::from_u128(id).hyphenated().encode_lower(&mut buffer);
    String::from_str(alloc, text)
}

/// A mode as it is printed: octal digits without leading zeros.
#[tactic(auto, unfolding(crate::specs::Escapes::printed_octal))]
pub fn print_mode(alloc: Global, mode: u16) -> Result<String, AllocError>
    ensures { IfOk result (λ text. string_bytes text ≡ printed_octal mode) }
{
    format!(in alloc; "{mode:o}")
}
