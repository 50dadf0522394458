//! The lines that change a volume.
ghost use Rattle.std.specs.Prelude.{◌≡◌, IfOk};
ghost use Rattle.tm_machine.specs.Changing.{change_of, attribute_change_of};

use std::alloc::AllocError;
use tm_text::Line;
use tm_tree::{Change, is_exclusion};

/// The change that a line asks for; none where it asks for none, or for one that isn't built.
pub fn change_of(line: &Line) -> Result<Option<Change>, AllocError>
    ensures { IfOk result (λ change. change ≡ change_of line.now) }
{
    match line {
        Line::Mkdir(path) => Ok(Some(Change::Mkdir {
            path: path.clone()?,
        })),
        Line::Write { path, text } => Ok(Some(Change::Write {
            path: path.clone()?,
            bytes: text.clone()?,
        })),
        Line::Append { path, text } => Ok(Some(Change::Append {
            path: path.clone()?,
            bytes: text.clone()?,
        })),
        Line::Fill { path, length, seed } => Ok(Some(Change::Fill {
            path: path.clone()?,
            length: *length,
            seed: *seed,
        })),
        Line::Rm(path) => Ok(Some(Change::Rm {
            path: path.clone()?,
        })),
        Line::Rmdir(path) => Ok(Some(Change::Rmdir {
            path: path.clone()?,
        })),
        Line::Mv { from, to } => Ok(Some(Change::Mv {
            path: from.clone()?,
            to: to.clone()?,
        })),
        Line::Ln { path, target } => Ok(Some(Change::Ln {
            path: path.clone()?,
            target: target.clone()?,
        })),
        _ => attribute_change_of(line),
    }
}

// The same of the lines on attributes.
fn attribute_change_of(line: &Line) -> Result<Option<Change>, AllocError>
    ensures { IfOk result (λ change. change ≡ attribute_change_of line.now) }
{
    match line {
        Line::Chmod { path, mode } => Ok(Some(Change::Chmod {
            path: path.clone()?,
            mode: *mode,
        })),
        Line::Chown { path, uid, gid } => Ok(Some(Change::Chown {
            path: path.clone()?,
            uid: *uid,
            gid: *gid,
        })),
        Line::Setx { path, name, value } if !is_exclusion(name) => Ok(Some(Change::Setx {
            path: path.clone()?,
            name: name.clone()?,
            value: value.clone()?,
        })),
        Line::Rmx { path, name } if !is_exclusion(name) => Ok(Some(Change::Rmx {
            path: path.clone()?,
            name: name.clone()?,
        })),
        _ => Ok(None),
    }
}
