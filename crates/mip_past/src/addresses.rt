//! The moment, and whose an address is.

ghost use Rattle.std.specs.Prelude.{◌≡◌};
ghost use Rattle.mip_past.specs.Asking.{moment_at, holder_at, own_at};

use crate::past::Past;
use mip_settled::claims;
use mip_words::{Address, Moment};

impl Past<'_> {
    /// The moment.
    pub fn moment(&self) -> Moment
        ensures { result.0 ≡ moment_at self.now }
    {
        claims::moment(self.entries, self.start)
    }

    /// Who holds an address: a node's number, or 32 plus an outsider's.
    pub fn holder(&self, address: Address) -> Option<u8>
        ensures { result ≡ holder_at self.now address.0 }
    {
        claims::holder(self.entries, address)
    }

    /// The own address of whoever has this number: the first that it claimed.
    pub fn own_address(&self, who: u8) -> Option<Address>
        ensures { result ≡ own_at self.now who }
    {
        claims::declared(self.entries, who)
    }
}
