//! An example: scripts that run one after the other over the same images, and their replies.
use std::alloc::{AllocError, Global};
use std::io;
use tm_run_testing::{run_next, said};
use tm_testing::pair;

/// The images of an example, which are new.
#[derive(Clone, Copy, Debug, PartialEq, Eq)]
pub(crate) enum Images {
    /// Of 64 blocks each.
    Usual,
    /// A volume of 64 blocks, and a store of 8.
    SmallStore,
}

impl Images {
    // How many blocks the store has.
    fn store_blocks(self) -> u32 {
        match self {
            Images::Usual => 64,
            Images::SmallStore => 8,
        }
    }
}

/// Scripts that run one after the other over the same images, and what they are answered.
#[derive(Drop)]
pub(crate) struct Example {
    images: Images,
    scripts: Vec<String>,
    replies: String,
}

impl Example {
    /// An example without scripts.
    pub(crate) fn new(alloc: Global, images: Images) -> Example {
        Example {
            images,
            scripts: Vec::new(alloc),
            replies: String::new(alloc),
        }
    }

    /// Another script, which runs after the others, and what it is answered.
    pub(crate) fn add(&mut self, script: String, replies: &str) -> Result<(), AllocError> {
        self.scripts.push(script)?;
        self.replies.push_str(replies)
    }

    /// The scripts, in order.
    pub(crate) fn scripts(&self) -> &[String] {
        self.scripts.as_slice()
    }

    /// What they are answered.
    pub(crate) fn replies(&self) -> &str {
        self.replies.as_str()
    }
}

/// What the program says to an example.
pub(crate) fn says(alloc: Global, example: &Example) -> io::Result<String> {
    let mut world = pair(alloc, 64, example.images.store_blocks()).or(Err(AllocError))?;
    for script in example.scripts() {
        run_next(alloc, &mut world, script.as_str())?;
    }
    Ok(String::from_str(alloc, said(&world))?)
}
