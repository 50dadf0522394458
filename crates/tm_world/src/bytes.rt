//! Owned bytes, owned block numbers, and a blob of both.
ghost use Rattle.std.specs.Prelude.{◌≡◌};

use std::alloc::AllocError;
use std::marker::Model;

/// Bytes that are owned. Seen as their list.
#[derive(Drop)]
pub struct Bytes {
    list: Vec<u8>,
}

impl Model for Bytes {
    ghost use Rattle.std.specs.Prelude.{List, ℕ};

    ghost Value = { List ℕ };

    ghost view = { λ b. b.list.items };
}

impl Bytes {
    /// The bytes of a list. It takes no memory.
    pub fn of(list: Vec<u8>) -> Bytes
        ensures { result ≡ list.items }
    {
        Bytes { list }
    }

    /// The bytes, to read. It takes no memory.
    pub fn as_slice(&self) -> &[u8]
        ensures { result.now ≡ self.now }
    {
        self.list.as_slice()
    }
}

impl Clone for Bytes {
    ghost is_clone = { λ bytes copy. copy ≡ bytes };

    fn clone(&self) -> Result<Bytes, AllocError> {
        Ok(Bytes {
            list: self.list.to_vec(*self.list.allocator())?,
        })
    }
}

/// Block numbers that are owned. Seen as their list.
#[derive(Drop)]
pub struct Blocks {
    list: Vec<u32>,
}

impl Model for Blocks {
    ghost use Rattle.std.specs.Prelude.{List, ℕ};

    ghost Value = { List ℕ };

    ghost view = { λ b. b.list.items };
}

impl Blocks {
    /// The block numbers of a list. It takes no memory.
    pub fn of(list: Vec<u32>) -> Blocks
        ensures { result ≡ list.items }
    {
        Blocks { list }
    }

    /// The block numbers, to read. It takes no memory.
    pub fn as_slice(&self) -> &[u32]
        ensures { result.now ≡ self.now }
    {
        self.list.as_slice()
    }
}

/// So many bytes that lie in these blocks, in order, 4,096 to a block.
#[derive(Drop)]
pub struct Blob {
    /// The number of bytes.
    pub length: u64,
    /// The blocks that hold them.
    pub blocks: Blocks,
}
