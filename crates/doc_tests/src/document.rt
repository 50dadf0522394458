//! The examples of a document.
use crate::example::{Example, Images};
use std::alloc::{AllocError, Global};

/// What the first line of an example's block begins with.
const OPENING: &str = "```tmvol";

/// The last line of a block.
const CLOSING: &str = "```";

/// What stands before a line of a script.
const PROMPT: &str = "> ";

/// What a line that isn't built is answered.
const NOT_BUILT: &str = "refused 27 NotBuilt";

/// What the block is in which a line stands.
#[derive(Clone, Copy, Debug, PartialEq, Eq)]
enum Block {
    /// None of an example.
    Other,
    /// What the examples after it begin with.
    Setup,
    /// An example, with its replies.
    Built,
    /// An example whose lines aren't built; its replies stand for later.
    Planned,
}

/// The lines of a script, and their replies.
#[derive(Drop)]
struct Transcript {
    script: String,
    replies: String,
}

impl Transcript {
    // One without lines.
    fn new(alloc: Global) -> Transcript {
        Transcript {
            script: String::new(alloc),
            replies: String::new(alloc),
        }
    }

    // The same once more.
    fn copy(&self, alloc: Global) -> Result<Transcript, AllocError> {
        Ok(Transcript {
            script: String::from_str(alloc, self.script.as_str())?,
            replies: String::from_str(alloc, self.replies.as_str())?,
        })
    }

    // Another line of the script, or another of the replies.
    fn add(&mut self, line: &str) -> Result<(), AllocError> {
        match line.strip_prefix(PROMPT) {
            Some(line) => add_line(&mut self.script, line),
            None => add_line(&mut self.replies, line),
        }
    }

    // Another line of the script that isn't built. Other lines are passed over.
    fn add_planned(&mut self, line: &str) -> Result<(), AllocError> {
        let Some(line) = line.strip_prefix(PROMPT) else {
            return Ok(());
        };
        add_line(&mut self.script, line)?;
        add_line(&mut self.replies, NOT_BUILT)
    }
}

// Puts a line at the end of a text.
fn add_line(text: &mut String, line: &str) -> Result<(), AllocError> {
    text.push_str(line)?;
    text.push_str("\n")
}

/// A document, as it is read line by line.
#[derive(Drop)]
pub(crate) struct Document {
    alloc: Global,
    block: Block,
    images: Images,
    setup: Transcript,
    transcript: Transcript,
}

impl Document {
    /// A document of which no line was read.
    pub(crate) fn new(alloc: Global) -> Document {
        Document {
            alloc,
            block: Block::Other,
            images: Images::Usual,
            setup: Transcript::new(alloc),
            transcript: Transcript::new(alloc),
        }
    }

    /// Reads the next line, without its end. The example whose block ends with it, if one does.
    pub(crate) fn read(&mut self, line: &str) -> Result<Option<Example>, AllocError> {
        if line == CLOSING {
            return self.close();
        }
        match self.block {
            Block::Other => self.open(line)?,
            Block::Setup | Block::Built => self.transcript.add(line)?,
            Block::Planned => self.transcript.add_planned(line)?,
        }
        Ok(None)
    }

    // Begins a block, if this is the first line of one (`docs/SCRIPT.md`, "Examples").
    fn open(&mut self, line: &str) -> Result<(), AllocError> {
        let Some(kind) = line.strip_prefix(OPENING) else {
            return Ok(());
        };
        self.images = if kind == " small store" {
            Images::SmallStore
        } else {
            Images::Usual
        };
        self.block = if kind == " setup" {
            Block::Setup
        } else if kind == " planned" {
            Block::Planned
        } else {
            Block::Built
        };
        self.transcript = if kind == " setup" || kind == " alone" {
            Transcript::new(self.alloc)
        } else {
            self.setup.copy(self.alloc)?
        };
        Ok(())
    }

    // Ends the block.
    fn close(&mut self) -> Result<Option<Example>, AllocError> {
        let block = self.block;
        self.block = Block::Other;
        match block {
            Block::Other => Ok(None),
            Block::Setup => {
                self.setup = self.transcript.copy(self.alloc)?;
                Ok(None)
            }
            Block::Built | Block::Planned => {
                let Transcript { script, replies } = self.transcript.copy(self.alloc)?;
                let mut example = Example::new(self.alloc, self.images);
                example.add(script, replies.as_str())?;
                Ok(Some(example))
            }
        }
    }
}
