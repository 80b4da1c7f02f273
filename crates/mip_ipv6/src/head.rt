ghost use Rattle.std.specs.Prelude.{◌≡◌};
ghost use Rattle.mip_ipv6.specs.Packet.{destination_of, is_plain, is_routable_if_any, names_no_body, source_of};

use mip_words::Address;

/// The fields of a packet's headers.
#[derive(Clone, Copy, Debug, PartialEq, Eq)]
pub struct Head {
    pub source: Address,
    pub destination: Address,
    /// The hop limit.
    pub hop: u8,
    /// The traffic class.
    pub class: u8,
    /// The flow label, of 20 bits.
    pub flow: u32,
    /// The home address in a routing header of type 2 (RFC 6275 section 6.4).
    pub route: Option<Address>,
    /// The Home Address option (RFC 6275 section 6.3).
    pub home: Option<Address>,
    /// The next-header number of the body.
    pub proto: u8,
}

impl Head {
    /// Whether the head can be written: its flow label has 20 bits, its proto names a body, and its route and
    /// home are routable.
    pub fn plain(&self) -> bool
        ensures { result ≡ is_plain self.now }
    {
        self.flow < 0x10_0000
            && !no_body(self.proto)
            && routable_if_any(self.route)
            && routable_if_any(self.home)
    }

    /// Whom the packet is from: the Home Address option, or the source (RFC 6275 section 6.3).
    pub fn sender(&self) -> Address
        ensures { result ≡ source_of self.now }
    {
        self.home.unwrap_or(self.source)
    }

    /// Whom the packet is for: the routing header's address, or the destination (RFC 6275 section 6.4).
    pub fn receiver(&self) -> Address
        ensures { result ≡ destination_of self.now }
    {
        self.route.unwrap_or(self.destination)
    }
}

fn routable_if_any(address: Option<Address>) -> bool
    ensures { result ≡ is_routable_if_any address }
{
    match address {
        Some(address) => address.routable(),
        None => true,
    }
}

/// Whether a next-header number names no body: Hop-by-Hop, Routing, Fragment, ESP, AH and Destination Options.
pub(crate) fn no_body(number: u8) -> bool
    ensures { result ≡ names_no_body number }
{
    matches!(number, 0 | 43 | 44 | 50 | 51 | 60)
}
