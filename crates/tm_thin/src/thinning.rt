//! Whether a snapshot stays, by the one before it.
ghost use Rattle.std.specs.Prelude.{◌≡◌, ◌<◌, ◌≤◌, length, slice_index};
ghost use Rattle.std.specs.List.Sorted.{IsStrictlyIncreasing};
ghost use Rattle.tm_thin.specs.Buckets.{bucket_of, monday_of, same_bucket};
ghost use Rattle.tm_thin.specs.Staying.{has_earlier, stays};

use tm_base::Moment;

/// The seconds of an hour.
const HOUR: u64 = 3_600;

/// The seconds of a day.
const DAY: u64 = 86_400;

/// The seconds of 30 days.
const MONTH: u64 = 2_592_000;

/// The time of which one snapshot stays, in UTC and counted from 1 January 1970.
#[derive(Clone, Copy, Debug, PartialEq, Eq)]
pub enum Bucket {
    /// The hour of a snapshot of the past 24 hours.
    Hour(u64),
    /// The day of one of the past 30 days.
    Day(u64),
    /// The week of an older one, by the day that begins it: its Monday.
    Week(u64),
}

/// Whether the snapshot at a place in the list of dates stays when the list is thinned at a moment:
/// the last one, one that is later than the moment, and the first of each bucket. It looks at the
/// date before alone, and takes no memory.
pub fn keep(dates: &[Moment], at: usize, moment: Moment) -> bool
    requires rising { IsStrictlyIncreasing dates.now }
    requires within { at < length dates.now }
    ensures { result ≡ stays dates.now at moment }
{
    at + 1 == dates.len() || dates[at] > moment || !has_earlier(dates, at, moment)
}

/// Whether an earlier date has the bucket of one that is past. Of rising dates the one before it
/// tells.
fn has_earlier(dates: &[Moment], at: usize, moment: Moment) -> bool
    requires rising { IsStrictlyIncreasing dates.now }
    requires within { at < length dates.now }
    requires past { slice_index dates.now at ≤ moment }
    ensures { result ≡ has_earlier dates.now at moment }
{
    at > 0
        && is_same(
            bucket_of(dates[at - 1], moment),
            bucket_of(dates[at], moment),
        )
}

/// Whether two buckets are the same.
fn is_same(a: Bucket, b: Bucket) -> bool
    ensures { result ≡ same_bucket a b }
{
    a == b
}

/// The bucket of a date at a moment.
fn bucket_of(date: Moment, moment: Moment) -> Bucket
    ensures { result ≡ bucket_of date moment }
{
    let date = date.seconds();
    let age = moment.seconds().saturating_sub(date);
    if age <= DAY {
        Bucket::Hour(date / HOUR)
    } else if age <= MONTH {
        Bucket::Day(date / DAY)
    } else {
        Bucket::Week(monday_of(date / DAY))
    }
}

/// The day that begins the week of a day. Day 0, 1 January 1970, was a Thursday, and begins the rest
/// of its week.
#[tactic(auto, using(crate::proofs::BucketLemmas::monday_is))]
fn monday_of(day: u64) -> u64
    ensures { result ≡ monday_of day }
{
    day.saturating_sub((day % 7 + 3) % 7)
}
