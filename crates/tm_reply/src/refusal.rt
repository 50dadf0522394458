//! The closing line of a reply.
ghost use Rattle.std.specs.Prelude.{◌≡◌, IfOk, string_bytes};
ghost use Rattle.tm_reply.specs.Closings.{refusal_text, closing_text};

use std::alloc::{AllocError, Global};
use tm_base::Refused;

// A refusal's name, and the values that it shows.
#[tactic(auto, unfolding(crate::specs::Closings::refusal_text))]
fn print_refusal(alloc: Global, refused: &Refused) -> Result<String, AllocError>
    ensures { IfOk result (λ text. string_bytes text ≡ refusal_text refused.now) }
{
    match refused {
        Refused::NoVolume => String::from_str(alloc, "NoVolume"),
        Refused::NoStore => String::from_str(alloc, "NoStore"),
        Refused::Already => String::from_str(alloc, "Already"),
        Refused::Small => String::from_str(alloc, "Small"),
        Refused::NotFound => String::from_str(alloc, "NotFound"),
        Refused::Exists => String::from_str(alloc, "Exists"),
        Refused::NotFolder => String::from_str(alloc, "NotFolder"),
        Refused::IsFolder => String::from_str(alloc, "IsFolder"),
        Refused::NotEmpty => String::from_str(alloc, "NotEmpty"),
        Refused::IntoSelf => String::from_str(alloc, "IntoSelf"),
        Refused::TooDeep => String::from_str(alloc, "TooDeep"),
        Refused::TooLong { length } => format!(in alloc; "TooLong {length}"),
        Refused::TooMany { count } => format!(in alloc; "TooMany {count}"),
        Refused::RootItem => String::from_str(alloc, "RootItem"),
        Refused::Full { need, free } => format!(in alloc; "Full {need} {free}"),
        Refused::Busy { date } => {
            let date = date.print(alloc)?;
            format!(in alloc; "Busy {date}")
        }
        Refused::NoBackup => String::from_str(alloc, "NoBackup"),
        Refused::DateNotLater { date } => {
            let date = date.print(alloc)?;
            format!(in alloc; "DateNotLater {date}")
        }
        Refused::NoMoment => String::from_str(alloc, "NoMoment"),
        Refused::ClockBack { date } => {
            let date = date.print(alloc)?;
            format!(in alloc; "ClockBack {date}")
        }
        Refused::NoSnapshot => String::from_str(alloc, "NoSnapshot"),
        Refused::NotExcluded => String::from_str(alloc, "NotExcluded"),
        Refused::NoAttribute => String::from_str(alloc, "NoAttribute"),
        Refused::IdsSpent => String::from_str(alloc, "IdsSpent"),
        Refused::IdTaken => String::from_str(alloc, "IdTaken"),
        Refused::NotBuilt => String::from_str(alloc, "NotBuilt"),
    }
}

/// The closing line: `ok`, or `refused NUMBER TEXT`.
#[tactic(auto, unfolding(crate::specs::Closings::closing_text))]
pub fn print_closing(alloc: Global, refused: &Option<Refused>) -> Result<String, AllocError>
    ensures { IfOk result (λ text. string_bytes text ≡ closing_text refused.now) }
{
    match refused {
        None => String::from_str(alloc, "ok\n"),
        Some(refused) => {
            let number = refused.number();
            let text = print_refusal(alloc, refused)?;
            format!(in alloc; "refused {number} {text}\n")
        }
    }
}
