ghost use Rattle.std.specs.Prelude.{◌≡◌};
ghost use Rattle.mip_mobhdr.specs.OptionValues.{values, set_values};
ghost use Rattle.mip_c_words.specs.Addresses.{some_if};
ghost use Rattle.mip_c.specs.Options.{fields_of, no_fields, values_of, home_index, careof_index};

use mip_c_words::addresses::{address_if, bytes_if_any};
use mip_mobhdr::{Indices, OptionSet, Options};

/// Mobility options (RFC 6275 section 6.2).
#[repr(C)]
#[derive(Clone, Copy)]
pub struct OptionFields {
    /// Whether there is a Binding Refresh Advice (section 6.2.4).
    pub has_advice: bool,
    /// In units of 4 s.
    pub advice: u16,
    /// Whether there is an Alternate Care-of Address (section 6.2.5).
    pub has_alternate: bool,
    pub alternate: [u8; 16],
    /// Whether there are Nonce Indices (section 6.2.6).
    pub has_nonces: bool,
    pub home_index: u16,
    pub careof_index: u16,
    /// Whether there is a binding number. Type 200 is this library's own, and in no standard.
    pub has_number: bool,
    /// Below 8.
    pub number: u8,
    /// Whether there is Binding Authorization Data (section 6.2.7).
    pub has_authorization: bool,
    pub authorization: [u8; 12],
}

fn home_index(nonces: Option<Indices>) -> u16
    ensures { result ≡ home_index nonces }
{
    match nonces {
        Some(indices) => indices.home,
        None => 0,
    }
}

fn careof_index(nonces: Option<Indices>) -> u16
    ensures { result ≡ careof_index nonces }
{
    match nonces {
        Some(indices) => indices.careof,
        None => 0,
    }
}

/// The fields of options that were read.
pub fn option_fields(options: &Options<'_>) -> OptionFields
    ensures { result ≡ fields_of (values options.now) }
{
    OptionFields {
        has_advice: options.advice.is_some(),
        advice: options.advice.unwrap_or(0),
        has_alternate: options.alternate.is_some(),
        alternate: bytes_if_any(options.alternate),
        has_nonces: options.nonces.is_some(),
        home_index: home_index(options.nonces),
        careof_index: careof_index(options.nonces),
        has_number: options.number.is_some(),
        number: options.number.unwrap_or(0),
        has_authorization: options.authorization.is_some(),
        authorization: options.authorization.unwrap_or([0; 12]),
    }
}

/// No option.
pub fn no_options() -> OptionFields
    ensures { result ≡ no_fields }
{
    OptionFields {
        has_advice: false,
        advice: 0,
        has_alternate: false,
        alternate: [0; 16],
        has_nonces: false,
        home_index: 0,
        careof_index: 0,
        has_number: false,
        number: 0,
        has_authorization: false,
        authorization: [0; 12],
    }
}

fn number_if(counts: bool, number: u16) -> Option<u16>
    ensures { result ≡ some_if counts number }
{
    if counts { Some(number) } else { None }
}

fn byte_if(counts: bool, number: u8) -> Option<u8>
    ensures { result ≡ some_if counts number }
{
    if counts { Some(number) } else { None }
}

fn indices_if(counts: bool, home: u16, careof: u16) -> Option<Indices>
    ensures { result ≡ some_if counts (record { home = home; careof = careof }) }
{
    if counts {
        Some(Indices { home, careof })
    } else {
        None
    }
}

fn authorization_if(counts: bool, bytes: &[u8; 12]) -> Option<[u8; 12]>
    ensures { result ≡ some_if counts bytes.now }
{
    if counts { Some(*bytes) } else { None }
}

/// The options that such fields say.
pub fn options_of(fields: &OptionFields) -> OptionSet
    ensures { set_values result ≡ values_of fields.now }
{
    OptionSet {
        advice: number_if(fields.has_advice, fields.advice),
        alternate: address_if(fields.has_alternate, &fields.alternate),
        nonces: indices_if(fields.has_nonces, fields.home_index, fields.careof_index),
        number: byte_if(fields.has_number, fields.number),
        authorization: authorization_if(fields.has_authorization, &fields.authorization),
    }
}
