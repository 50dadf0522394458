//! The tag of a store (`docs/FORMATS.md`, "Selector and slots").
ghost use Rattle.std.specs.Prelude.{◌≡◌, ◌==◌, ◌≤◌, ◌<◌, ◌^◌, Some, None, IfSome, if◌then◌else◌};
ghost use Rattle.tm_gate.specs.Tag.{store_tag, IsStoreTag, IsTag, latest};
ghost use Rattle.tm_store_records.specs.Tags.{tag_of, FitsTag};

use tm_base::Moment;
use tm_codec::get_u64;

/// A tag with these fields.
fn lay_tag(running: u8, date: u64, number: u64) -> [u8; 64]
    ensures { result ≡ store_tag running date number }
{
    let mut tag = [0u8; 64];
    tag[..1].copy_from_slice(&[running]);
    tag[8..16].copy_from_slice(&date.to_be_bytes());
    tag[16..24].copy_from_slice(&number.to_be_bytes());
    tag
}

/// The tag that says these: a date if a backup runs, and the number of the next one.
pub fn write_tag(running: Option<Moment>, number: u64) -> [u8; 64]
    ensures tag { result ≡ tag_of running number }
    ensures date { IfSome running (λ date. date ≤ latest) }
{
    match running {
        None => lay_tag(0, 0, number),
        Some(date) => lay_tag(1, date.seconds(), number),
    }
}

/// What a tag says.
#[derive(Clone, Copy)]
pub struct StoreTag {
    /// The date of the backup that runs, if one does.
    pub running: Option<Moment>,
    /// The number of the next backup.
    pub number: u64,
}

/// The date that a tag has, if a backup runs.
fn date_in(tag: &[u8; 64]) -> Option<Moment>
    requires { IsStoreTag tag.now }
    ensures { (t : IsStoreTag tag.now) → result ≡ (if t.running == 1 then Some t.date else None) }
{
    if tag[0] == 1 {
        Moment::from_seconds(get_u64(tag, 8).unwrap())
    } else {
        None
    }
}

/// What the 64 bytes of a tag say.
pub fn read_tag(tag: &[u8; 64]) -> StoreTag
    requires { IsStoreTag tag.now }
    ensures is { tag.now ≡ tag_of result.running result.number }
    ensures fits { FitsTag result.running result.number }
{
    StoreTag {
        running: date_in(tag),
        number: get_u64(tag, 16).unwrap(),
    }
}
