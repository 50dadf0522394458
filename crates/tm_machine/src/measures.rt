//! The lines that tell the store in numbers.
ghost use Rattle.std.specs.Prelude.{◌≡◌, [], ℕ, List, IfSome, length};
ghost use Rattle.std.specs.Option.{option_map_or};
ghost use Rattle.tm_store_records.specs.Held.{IsWhole, store_on};
ghost use Rattle.tm_tree.specs.Changes.{item_tests};
ghost use Rattle.tm_world.specs.Outside.{Outside};
ghost use Rattle.tm_machine.specs.Answers.{AnswersQuery, IsRow};
ghost use Rattle.tm_machine.specs.Queries.{df_rows, holding_snapshot, reply_kind, stat_rows};
ghost use Rattle.tm_machine.specs.Session.{IsIdle, state_on};
ghost use Rattle.tm_machine.specs.States.{store_in};
ghost use Rattle.tm_machine.specs.Steps.{on_store, stored_tests};

use crate::session::Session;
use crate::store::date_of;
use crate::volume::one_row;
use std::alloc::Global;
use tm_base::LineFault;
use tm_identity::{links_are_counted, stored_is_counted};
use tm_reply::{Kind, ReplyRow, ReplyRows};
use tm_store::laws::snapshots_are_named;
use tm_store::{Df, Store};
use tm_store_records::{held_is_store, held_sizes};
use tm_text::ItemAt;

fn reply_kind(kind: tm_store::Kind) -> Kind
    ensures { result ≡ reply_kind kind }
{
    match kind {
        tm_store::Kind::Folder => Kind::Folder,
        tm_store::Kind::File => Kind::File,
        tm_store::Kind::Link => Kind::Link,
    }
}

// The line of a store in numbers.
fn df_row(alloc: Global, df: Df) -> Result<ReplyRows, LineFault>
    ensures { IsRow (ReplyRow.Df df.blocks df.free df.nodes df.stored df.snapshots) result }
{
    one_row(
        alloc,
        ReplyRow::Df {
            blocks: df.blocks,
            free: df.free,
            nodes: df.nodes,
            stored: df.stored,
            snapshots: df.snapshots,
        },
    )
}

// What a store holds, in numbers.
fn tell_df(alloc: Global, store: &Store) -> Result<ReplyRows, LineFault>
    requires whole { IsWhole store.now }
    requires unstaged { store.now.staged ≡ [] }
    ensures { (bytes : ℕ → List ℕ) → AnswersQuery [] (df_rows (length store.now.image.used) (store_on store.now bytes)) result }
{
    held_sizes();
    held_is_store();
    stored_is_counted();
    df_row(alloc, store.df())
}

// A stored item in short.
fn tell_stat(alloc: Global, store: &Store, item: &ItemAt) -> Result<ReplyRows, LineFault>
    requires { IsWhole store.now }
    ensures { (bytes : ℕ → List ℕ) → let s = store_on store.now bytes in AnswersQuery (stored_tests item_tests (holding_snapshot s item.now) item.now.path) (stat_rows s item.now) result }
{
    snapshots_are_named();
    held_is_store();
    links_are_counted();
    let found = store.lookup(
        &item.snapshot.machine,
        date_of(&item.snapshot.at),
        &item.volume,
        &item.path,
    )?;
    let stat = store.stat(found.node);
    one_row(
        alloc,
        ReplyRow::Stat {
            kind: reply_kind(stat.kind),
            label: stat.label,
            links: stat.links,
        },
    )
}

impl Session {
    /// `store df`.
    pub(crate) fn store_df(&self) -> Result<ReplyRows, LineFault>
        requires idle { IfSome self.now.store (λ h. IsIdle h self.now.store_blocks) }
        ensures { (o : Outside) → let z = store_in (state_on self.now o).store in AnswersQuery (on_store z (λ store. [])) (option_map_or (df_rows self.now.store_blocks) z []) result }
    {
        let store = self.store()?;
        tell_df(self.alloc, store)
    }

    /// `store stat`.
    pub(crate) fn store_stat(&self, item: &ItemAt) -> Result<ReplyRows, LineFault>
        requires idle { IfSome self.now.store (λ h. IsIdle h self.now.store_blocks) }
        ensures { (o : Outside) → let z = store_in (state_on self.now o).store in AnswersQuery (on_store z (λ store. stored_tests item_tests (holding_snapshot store item.now) item.now.path))
            (option_map_or (λ store. stat_rows store item.now) z []) result }
    {
        let store = self.store()?;
        tell_stat(self.alloc, store, item)
    }
}
