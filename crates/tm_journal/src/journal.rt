//! The rows of a journal, with memory that is taken before it is needed.
ghost use Rattle.std.specs.Prelude.{◌≡◌, [], ◌∷◌, ◌++◌, ◌+◌, ◌^◌, ◌<◌, ◌≤◌, OnOk, OnErr, IfOk, All, length, filter, not};
ghost use Rattle.std.specs.Int.{w128, to_be_bytes};
ghost use Rattle.std.specs.Int.Bits.{bit_xor};
ghost use Rattle.tm_journal.specs.Rows.{replaces, root_row, add_touch, dropped};
ghost use Rattle.tm_journal.specs.Journals.{JournalState, IsInOrder, rows_since};

use crate::kept;
use crate::since::Since;
use std::alloc::{AllocError, Global};
use std::marker::Model;
use tm_base::Path;
use tm_tree::{Mark, Row, RowList};
use uuid::Uuid;

/// The flags of the row that takes the place of too many: MustScanSubDirs and UserDropped.
const OVERFLOWN: u8 = 3;

/// The flags of the row that a drop leaves: MustScanSubDirs and KernelDropped.
const DROPPED: u8 = 5;

/// The event journal of a volume. Seen as its [`JournalState`]: its rows by rising id, and for how
/// many more touches it has memory.
#[derive(Drop)]
pub struct Journal {
    id: u128,
    generation: u64,
    capacity: u32,
    /// The row at the root that an overflow or a drop left; it is older than the others.
    root: Option<Row>,
    /// The others.
    rows: Vec<Row>,
}

impl Model for Journal {
    ghost use Rattle.std.specs.Prelude.{◌++◌, ◌-◌, vec_len, vec_capacity, option_to_list};
    ghost use Rattle.tm_journal.specs.Journals.{JournalState};
    ghost use Rattle.tm_journal.specs.Kept.{by_id, IsKept};

    ghost Value = { JournalState };

    ghost view = { λ j. record { id = j.id; generation = j.generation; capacity = j.capacity; rows = by_id (option_to_list j.root ++ j.rows.items); room = vec_capacity j.rows - vec_len j.rows } };

    ghost invariant = { λ j. IsKept j.capacity (option_to_list j.root) j.rows.items };
}

impl Journal {
    /// A journal without rows, of a volume's id and generation, for at most `capacity` rows, at
    /// least 1. It takes no memory.
    pub fn new(alloc: Global, id: u128, generation: u64, capacity: u32) -> Journal
        requires { 1 ≤ capacity }
        ensures id { result.id ≡ id }
        ensures generation { result.generation ≡ generation }
        ensures capacity { result.capacity ≡ capacity }
        ensures rows { result.rows ≡ [] }
    {
        Journal {
            id,
            generation,
            capacity,
            root: None,
            rows: Vec::new(alloc),
        }
    }

    /// A journal of rows that were kept, which rise and are no more than the capacity. It takes no
    /// memory.
    pub fn from_rows(id: u128, generation: u64, capacity: u32, rows: RowList) -> Journal
        requires { IsInOrder capacity rows }
        ensures id { result.id ≡ id }
        ensures generation { result.generation ≡ generation }
        ensures capacity { result.capacity ≡ capacity }
        ensures rows { result.rows ≡ rows }
    {
        let mut rows = rows.into_list();
        kept::sort(&mut rows);
        Journal {
            id,
            generation,
            capacity,
            root: None,
            rows,
        }
    }

    /// Takes memory for so many more touches; only want of memory can refuse it.
    pub fn reserve(&mut self, more: usize) -> Result<(), AllocError>
        ensures ok { OnOk result (more ≤ self.new.room) }
        ensures err { OnErr result (self.new ≡ self.old) }
        ensures id { self.new.id ≡ self.old.id }
        ensures generation { self.new.generation ≡ self.old.generation }
        ensures capacity { self.new.capacity ≡ self.old.capacity }
        ensures rows { self.new.rows ≡ self.old.rows }
    {
        self.rows.reserve(more)
    }

    /// Adds a touch of a folder, with an id above all others, into memory that was taken for it.
    /// The flags are 0 for the folder alone, and 1 (MustScanSubDirs) for all beneath it too. Rows
    /// that it makes needless go; where there are too many then, one at the root takes their place.
    pub fn add(&mut self, id: u64, path: Path, flags: u8)
        requires room { 1 ≤ self.old.room }
        requires above { All (λ row. row.id < id) self.old.rows }
        ensures id { self.new.id ≡ self.old.id }
        ensures generation { self.new.generation ≡ self.old.generation }
        ensures capacity { self.new.capacity ≡ self.old.capacity }
        ensures rows { self.new.rows ≡ add_touch self.old.capacity self.old.rows (record { id = id; path = path; flags = flags }) }
        ensures room { self.old.room ≤ self.new.room + 1 }
    {
        let touch = Row { id, path, flags };
        self.forget(&touch);
        if self.count() >= self.capacity as usize {
            self.leave_one(id, OVERFLOWN);
        } else {
            self.put(touch);
        }
    }

    /// The rows since a mark, or that they are lost: exactly where the mark is of another
    /// generation. Only want of memory can refuse it.
    pub fn since(&self, mark: &Mark) -> Result<Since, AllocError>
        ensures { IfOk result (λ since. since ≡ rows_since self.now.generation self.now.rows mark.now) }
    {
        if mark.generation != self.generation {
            return Ok(Since::Lost);
        }
        let rows = kept::copies_above(&self.root, &self.rows, mark.cursor)?;
        Ok(Since::Rows(RowList::of(rows)))
    }

    /// Drops all events: one row at the root, with a new id, stands for them. It takes no memory.
    pub fn drop_all(&mut self, id: u64)
        ensures id { self.new.id ≡ self.old.id }
        ensures generation { self.new.generation ≡ self.old.generation }
        ensures capacity { self.new.capacity ≡ self.old.capacity }
        ensures rows { self.new.rows ≡ dropped id }
        ensures room { self.old.room ≤ self.new.room }
    {
        self.leave_one(id, DROPPED);
    }

    /// Loses the history: the next generation begins, without rows. It takes no memory.
    pub fn lose(&mut self)
        requires { self.old.generation < 2 ^ 62 }
        ensures id { self.new.id ≡ self.old.id }
        ensures generation { self.new.generation ≡ self.old.generation + 1 }
        ensures capacity { self.new.capacity ≡ self.old.capacity }
        ensures rows { self.new.rows ≡ [] }
        ensures room { self.old.room ≤ self.new.room }
    {
        self.generation += 1;
        self.root = None;
        self.rows.clear();
    }

    /// The generation, which a mark must have for rows to be told. It takes no memory.
    pub fn generation(&self) -> u64
        ensures { result ≡ self.now.generation }
    {
        self.generation
    }

    /// The UUID of the journal: the volume's id, exclusive-or the generation. It takes no memory.
    pub fn uuid(&self) -> Uuid
        ensures { result ≡ to_be_bytes w128 (bit_xor self.now.id self.now.generation) }
    {
        Uuid::from_u128(self.id ^ self.generation as u128)
    }

    /// What every journal keeps: some rows are allowed, there are no more, and they rise.
    pub fn rules(&self)
        ensures { IsInOrder self.now.capacity self.now.rows }
    {
        let _ = &self.id;
    }

    /// How many rows there are.
    fn count(&self) -> usize
        ensures { result ≡ length self.now.rows }
    {
        match &self.root {
            None => self.rows.len(),
            Some(_) => self.rows.len() + 1,
        }
    }

    /// Removes the rows that a touch takes away.
    fn forget(&mut self, touch: &Row)
        ensures id { self.new.id ≡ self.old.id }
        ensures generation { self.new.generation ≡ self.old.generation }
        ensures capacity { self.new.capacity ≡ self.old.capacity }
        ensures rows { self.new.rows ≡ filter (λ row. not (replaces touch.now row)) self.old.rows }
        ensures room { self.old.room ≤ self.new.room }
    {
        kept::forget_root(&mut self.root, touch);
        kept::forget(&mut self.rows, touch);
    }

    /// Adds a row above the others, into memory that is there.
    fn put(&mut self, row: Row)
        requires room { 1 ≤ self.old.room }
        requires few { length self.old.rows < self.old.capacity }
        requires above { All (λ other. other.id < row.id) self.old.rows }
        ensures id { self.new.id ≡ self.old.id }
        ensures generation { self.new.generation ≡ self.old.generation }
        ensures capacity { self.new.capacity ≡ self.old.capacity }
        ensures rows { self.new.rows ≡ self.old.rows ++ row ∷ [] }
        ensures room { self.old.room ≤ self.new.room + 1 }
    {
        kept::put(&mut self.rows, row);
    }

    /// Puts one row at the root in place of all.
    fn leave_one(&mut self, id: u64, flags: u8)
        ensures id { self.new.id ≡ self.old.id }
        ensures generation { self.new.generation ≡ self.old.generation }
        ensures capacity { self.new.capacity ≡ self.old.capacity }
        ensures rows { self.new.rows ≡ root_row id flags }
        ensures room { self.old.room ≤ self.new.room }
    {
        let path = Path::root(*self.rows.allocator());
        self.root = Some(Row { id, path, flags });
        self.rows.clear();
    }
}
