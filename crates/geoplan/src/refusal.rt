//! The outcome of a command whose files were not loaded.
ghost use Rattle.std.specs.Prelude.{◌≡◌};
ghost use Rattle.geoplan.specs.Reporting.{Refused};

use crate::load::LoadFault;
use crate::outcome::Outcome;
use crate::refusal_text::{table_refusal, too_long_refusal, unread_refusal};
use crate::status::Status;
use std::alloc::Global;

/// The outcome of a command whose files were not loaded.
pub fn refuse(alloc: Global, why: LoadFault<'_>) -> Outcome
    ensures { Refused why.entry result.status result.text.items }
{
    match why {
        LoadFault::TooLong(name) => {
            let text = too_long_refusal(alloc, name);
            Outcome::made(alloc, Status::FileTooLong, text)
        }
        LoadFault::Unread(name) => {
            let text = unread_refusal(alloc, name);
            Outcome::made(alloc, Status::ReadFault, text)
        }
        LoadFault::Refused(refused) => {
            let text = table_refusal(alloc, refused);
            Outcome::made(alloc, Status::TableRefused, text)
        }
        LoadFault::NoMemory => Outcome::silent(alloc, Status::NoMemory),
    }
}
