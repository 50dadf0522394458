//! Replies and their texts.
ghost use Rattle.std.specs.Prelude.{◌≡◌, IfOk};
ghost use Rattle.tm_reply.specs.Replies.{reply_text};

use crate::refusal::print_closing;
use crate::row::ReplyRow;
use std::alloc::{AllocError, AllocFailed, Global};
use std::marker::Model;
use tm_base::Refused;
use tm_world::Bytes;

/// The data lines of a reply, in order. Seen as their list.
#[derive(Drop)]
pub struct ReplyRows {
    rows: Vec<ReplyRow>,
}

impl Model for ReplyRows {
    ghost use Rattle.std.specs.Prelude.{List};
    ghost use Rattle.tm_reply.specs.declared.row.ReplyRow.{ReplyRow};

    ghost Value = { List ReplyRow };

    ghost view = { λ r. r.rows.items };
}

impl ReplyRows {
    ghost use Rattle.std.specs.Prelude.{◌≡◌, [], ◌∷◌, ◌++◌, OnOk, OnErr};

    /// No data line. It takes no memory.
    pub fn new(alloc: Global) -> ReplyRows
        ensures { result ≡ [] }
    {
        ReplyRows {
            rows: Vec::new(alloc),
        }
    }

    /// Puts a data line at the end; where memory is refused, the lines stay as they were.
    pub fn push(&mut self, row: ReplyRow) -> Result<(), AllocError>
        ensures ok { OnOk result (self.new ≡ self.old ++ row ∷ []) }
        ensures err { OnErr result (self.new ≡ self.old) }
    {
        self.rows.push(row)?;
        Ok(())
    }

    /// The data lines, to read. It takes no memory.
    pub fn as_slice(&self) -> &[ReplyRow]
        ensures { result.now ≡ self.now }
    {
        self.rows.as_slice()
    }
}

/// What a line is answered.
#[derive(Drop)]
pub struct Reply {
    /// The data lines; a refused line has none.
    pub rows: ReplyRows,
    /// Why the line was refused, if it was.
    pub refused: Option<Refused>,
}

/// The text of a reply: its data lines and a closing line, each with its end; only want of memory
/// can refuse it (`docs/SCRIPT.md`, "Replies").
#[tactic(auto, unfolding(crate::specs::Replies::reply_text))]
pub fn print(alloc: Global, reply: &Reply) -> Result<Bytes, AllocError>
    ensures { IfOk result (λ text. text ≡ reply_text reply.now) }
{
    let mut text = String::new(alloc);
    for row in reply.rows.as_slice() {
        let line = row.print(alloc)?;
        text.push_str(line.as_str())?;
    }
    let closing = print_closing(alloc, &reply.refused)?;
    text.push_str(closing.as_str())?;
    Ok(Bytes::of(text.into_bytes()))
}
