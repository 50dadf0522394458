//! Scripts by path.
ghost use Rattle.std.specs.Prelude.{◌≡◌, ◌<◌, length, IfSome, IfOk};
ghost use Rattle.std.specs.Option.{option_map};
ghost use Rattle.tm_memworld.specs.Script.{scripts_in, text_at};

use std::alloc::{AllocError, Global};
use std::marker::Model;

/// A script, and the path at which it stands.
#[derive(Drop)]
pub struct Script {
    path: Vec<u8>,
    text: Vec<u8>,
}

impl Model for Script {
    ghost use Rattle.tm_memworld.specs.Script.{ScriptView};

    ghost Value = { ScriptView };

    ghost view = { λ s. record { path = s.path.items; text = s.text.items } };
}

impl Script {
    /// A script of these bytes.
    pub fn new(alloc: Global, path: &[u8], text: &[u8]) -> Result<Script, AllocError>
        ensures { IfOk result (λ s. s ≡ record { path = path.now; text = text.now }) }
    {
        Ok(Script {
            path: path.to_vec(alloc)?,
            text: text.to_vec(alloc)?,
        })
    }

    /// The path.
    pub fn path(&self) -> &[u8]
        ensures { result.now ≡ self.now.path }
    {
        &self.path
    }

    /// The bytes.
    pub fn text(&self) -> &[u8]
        ensures { result.now ≡ self.now.text }
    {
        &self.text
    }
}

/// The script that stands at a path: the last that was put there.
pub fn find_script(scripts: &[Script], path: &[u8]) -> Option<usize>
    ensures text { option_map (text_at scripts.now) result ≡ scripts_in scripts.now path.now }
    ensures within { IfSome result (λ i. i < length scripts.now) }
{
    let mut found = None;
    for (i, script) in scripts.iter().enumerate() {
        if script.path() == path {
            found = Some(i);
        }
    }
    found
}
