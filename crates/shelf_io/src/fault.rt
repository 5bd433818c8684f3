use crate::access::Access;
use std::marker::Model;

/// A call on a shelf that failed.
#[derive(Drop)]
pub(crate) struct Fault {
    access: Access,
    name: String,
}

impl Model for Fault {
    ghost use Rattle.std.specs.String.{string_bytes};
    ghost use Rattle.shelf_io.specs.States.{LastFault};

    ghost Value = { LastFault };

    ghost view = { λ fault. record { access = fault.access; name = string_bytes fault.name } };
}

impl Fault {
    ghost use Rattle.std.specs.Prelude.{◌≡◌};
    ghost use Rattle.std.specs.String.{string_bytes};

    pub(crate) fn new(access: Access, name: String) -> Fault
        ensures { result ≡ record { access = access; name = string_bytes name } }
    {
        Fault { access, name }
    }
}
