ghost use Rattle.std.specs.Prelude.{◌≡◌, ◌≤◌, Some, None};
ghost use Rattle.std.specs.String.{string_bytes};
ghost use Rattle.shelf_io.specs.Faults.{next_count};

use crate::access::Access;
use crate::fault::Fault;

/// How many calls on a shelf failed, and the latest of them. The count stands still at its end.
#[derive(Drop)]
pub(crate) struct Faults {
    count: u64,
    last: Option<Fault>,
}

impl Faults {
    pub(crate) fn none() -> Faults
        ensures count { result.count ≡ 0 }
        ensures last { result.last ≡ None }
    {
        Faults {
            count: 0,
            last: None,
        }
    }

    pub(crate) fn add(&mut self, access: Access, name: String)
        ensures count { self.new.count ≡ next_count self.old.count }
        ensures later { self.old.count ≤ self.new.count }
        ensures last { self.new.last ≡ Some (record { access = access; name = string_bytes name }) }
    {
        self.count = self.count.saturating_add(1);
        self.last = Some(Fault::new(access, name));
    }
}
