ghost use Rattle.std.specs.Prelude.{◌≡◌, ◌≤◌, IsTrue};
ghost use Rattle.mip_mobhdr.specs.OptionValues.{set_values};
ghost use Rattle.mip_mobhdr.specs.Said.{said, said_plain};
ghost use Rattle.mip_mobhdr.specs.Spelling.{HasNumber};
ghost use Rattle.mip_c.specs.Options.{no_fields};
ghost use Rattle.mip_c.specs.Messages.{blank, fields_of, fault_status, fault_fields, is_message, said_by, said_of};

use crate::option_fields::{OptionFields, no_options, option_fields, options_of};
use mip_c_words::addresses::address_of;
use mip_c_words::status::{
    MESSAGE_CHECKSUM, MESSAGE_HEADERLEN, MESSAGE_OPTION, MESSAGE_PROTO, MESSAGE_SIZE, MESSAGE_TYPE,
};
use mip_mobhdr::{Fault, Message, OptionSet, Plain};
use mip_words::{Cookie, Token};

/// A mobility message (RFC 6275 section 6.1). A field that its kind does not have is 0, and a writer does not read it.
#[repr(C)]
#[derive(Clone, Copy)]
pub struct MessageFields {
    /// The MH Type: 0 Binding Refresh Request, 1 Home Test Init, 2 Care-of Test Init, 3 Home Test, 4 Care-of Test,
    /// 5 Binding Update, 6 Binding Acknowledgement, 7 Binding Error.
    pub kind: u8,
    /// Of 1 to 4: the cookie, its first byte the highest.
    pub cookie: u64,
    /// Of 3 and 4: the index of the nonce.
    pub index: u16,
    /// Of 3 and 4: the keygen token.
    pub token: [u8; 8],
    /// Of 5 and 6.
    pub sequence: u16,
    /// Of 5: flag A, an acknowledgement is asked for.
    pub ack: bool,
    /// Of 5: flag H, a home registration.
    pub registration: bool,
    /// Of 5: flag L, the link-local address is that of the home address.
    pub local: bool,
    /// Of 5 and 6: flag K.
    pub key: bool,
    /// Of 5 and 6: the lifetime, in units of 4 s.
    pub lifetime: u16,
    /// Of 6 and 7.
    pub status: u8,
    /// Of 7: the home address.
    pub home: [u8; 16],
    pub options: OptionFields,
    /// Of a refused message: where in it the field stands that is wrong. A writer does not read it.
    pub place: usize,
}

/// A message of this kind with these options and zeros.
pub fn blank(kind: u8, options: OptionFields) -> MessageFields
    ensures { result ≡ blank kind options }
{
    MessageFields {
        kind,
        cookie: 0,
        index: 0,
        token: [0; 8],
        sequence: 0,
        ack: false,
        registration: false,
        local: false,
        key: false,
        lifetime: 0,
        status: 0,
        home: [0; 16],
        options,
        place: 0,
    }
}

fn init_fields(kind: u8, cookie: Cookie, options: OptionFields) -> MessageFields
    ensures { result ≡ record (blank kind options) { cookie = cookie.0 } }
{
    MessageFields {
        cookie: cookie.0,
        ..blank(kind, options)
    }
}

fn test_fields(
    kind: u8,
    index: u16,
    cookie: Cookie,
    token: Token,
    options: OptionFields,
) -> MessageFields
    ensures { result ≡ record (blank kind options) { index = index; cookie = cookie.0; token = token.0 } }
{
    let token = token.0;
    MessageFields {
        index,
        cookie: cookie.0,
        token,
        ..blank(kind, options)
    }
}

/// The fields of a message that was read.
pub fn fields_of(message: &Message<'_>) -> MessageFields
    ensures { result ≡ fields_of (said message.now) }
{
    match message {
        Message::Refresh { options } => blank(0, option_fields(options)),
        Message::HomeInit { cookie, options } => init_fields(1, *cookie, option_fields(options)),
        Message::CareofInit { cookie, options } => init_fields(2, *cookie, option_fields(options)),
        Message::HomeTest {
            index,
            cookie,
            token,
            options,
        } => test_fields(3, *index, *cookie, *token, option_fields(options)),
        Message::CareofTest {
            index,
            cookie,
            token,
            options,
        } => test_fields(4, *index, *cookie, *token, option_fields(options)),
        Message::Update {
            sequence,
            ack,
            home,
            local,
            key,
            lifetime,
            options,
        } => MessageFields {
            sequence: *sequence,
            ack: *ack,
            registration: *home,
            local: *local,
            key: *key,
            lifetime: *lifetime,
            ..blank(5, option_fields(options))
        },
        Message::Acknowledgement {
            status,
            key,
            sequence,
            lifetime,
            options,
        } => MessageFields {
            status: *status,
            key: *key,
            sequence: *sequence,
            lifetime: *lifetime,
            ..blank(6, option_fields(options))
        },
        Message::Error {
            status,
            home,
            options,
        } => MessageFields {
            status: *status,
            home: home.bytes(),
            ..blank(7, option_fields(options))
        },
    }
}

/// The status of a fault.
pub fn fault_status(fault: Fault) -> u32
    ensures { result ≡ fault_status fault }
{
    match fault {
        Fault::Size => MESSAGE_SIZE,
        Fault::Checksum => MESSAGE_CHECKSUM,
        Fault::Unknown(_) => MESSAGE_TYPE,
        Fault::Proto => MESSAGE_PROTO,
        Fault::HeaderLen => MESSAGE_HEADERLEN,
        Fault::Option { .. } => MESSAGE_OPTION,
    }
}

fn faulty(kind: u8, place: usize) -> MessageFields
    ensures { result ≡ record (blank kind no_fields) { place = place } }
{
    MessageFields {
        place,
        ..blank(kind, no_options())
    }
}

/// The MH Type that is unknown, and where in the message the field stands that is wrong.
pub fn fault_fields(fault: Fault) -> MessageFields
    ensures { result ≡ fault_fields fault }
{
    match fault {
        Fault::Size => faulty(0, 0),
        Fault::Checksum => faulty(0, 4),
        Fault::Unknown(kind) => faulty(kind, 2),
        Fault::Proto => faulty(0, 0),
        Fault::HeaderLen => faulty(0, 1),
        Fault::Option { place } => faulty(0, place),
    }
}

/// Whether the fields say a message.
pub fn is_message(fields: &MessageFields) -> bool
    ensures { result ≡ is_message fields.now }
{
    fields.kind < 8 && (!fields.options.has_number || fields.options.number < 8)
}

/// A test init or a test.
fn test_of(fields: &MessageFields, options: OptionSet) -> Plain
    requires some { 1 ≤ fields.now.kind }
    requires few { fields.now.kind ≤ 4 }
    ensures { said_plain result ≡ said_by fields.now (set_values options) }
{
    let cookie = Cookie(fields.cookie);
    let index = fields.index;
    let token = Token(fields.token);
    match fields.kind {
        1 => Plain::HomeInit { cookie, options },
        2 => Plain::CareofInit { cookie, options },
        3 => Plain::HomeTest {
            index,
            cookie,
            token,
            options,
        },
        _ => Plain::CareofTest {
            index,
            cookie,
            token,
            options,
        },
    }
}

/// The message that such fields say.
pub fn plain_of(fields: &MessageFields) -> Plain
    ensures says { said_plain result ≡ said_of fields.now }
    ensures number { IsTrue (is_message fields.now) → HasNumber (said_plain result) }
{
    let options = options_of(&fields.options);
    match fields.kind {
        0 => Plain::Refresh { options },
        1..=4 => test_of(fields, options),
        5 => Plain::Update {
            sequence: fields.sequence,
            ack: fields.ack,
            home: fields.registration,
            local: fields.local,
            key: fields.key,
            lifetime: fields.lifetime,
            options,
        },
        6 => Plain::Acknowledgement {
            status: fields.status,
            key: fields.key,
            sequence: fields.sequence,
            lifetime: fields.lifetime,
            options,
        },
        _ => Plain::Error {
            status: fields.status,
            home: address_of(&fields.home),
            options,
        },
    }
}
