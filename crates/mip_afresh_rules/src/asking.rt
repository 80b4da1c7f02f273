//! What an update asks (RFC 6275 sections 6.1.7 and 9.5.1).

ghost use Rattle.std.specs.Prelude.{◌≡◌, Ok};
ghost use Rattle.mip_mobhdr.specs.Said.{said};
ghost use Rattle.mip_reception.specs.Registrations.{registration_said, home_of, careof_of, deletes, registered_of};

use mip_mobhdr::Message;
use mip_reception::Registration;
use mip_words::Address;

/// What a message asks, by the source and the Home Address option of its packet. `None` where it is no Binding Update.
pub fn asked_by(
    source: Address,
    home_option: Option<Address>,
    message: &Message<'_>,
) -> Option<Registration>
    ensures { result ≡ registration_said source home_option (Ok (said message.now)) }
{
    match *message {
        Message::Update {
            sequence,
            ack,
            home: for_agent,
            lifetime,
            options,
            ..
        } => Some(Registration {
            source,
            home_option,
            sequence,
            ack,
            for_agent,
            lifetime,
            alternate: options.alternate,
            nonces: options.nonces,
            number: options.number,
            authorized: options.authorization.is_some(),
        }),
        _ => None,
    }
}

/// The home address: that of the Home Address option, else the source.
pub fn home_of(asked: &Registration) -> Address
    ensures { result ≡ home_of asked.now }
{
    match asked.home_option {
        Some(home) => home,
        None => asked.source,
    }
}

/// The care-of address: the alternate one, else the source.
pub fn careof_of(asked: &Registration) -> Address
    ensures { result ≡ careof_of asked.now }
{
    match asked.alternate {
        Some(careof) => careof,
        None => asked.source,
    }
}

/// It ends a binding: it asks for no time, or for the home address.
pub fn deletes(asked: &Registration) -> bool
    ensures { result ≡ deletes asked.now }
{
    asked.lifetime == 0 || careof_of(asked).0 == home_of(asked).0
}

/// The address that it registers: the home address where it ends a binding.
pub fn registered_of(asked: &Registration) -> Address
    ensures { result ≡ registered_of asked.now }
{
    if deletes(asked) {
        home_of(asked)
    } else {
        careof_of(asked)
    }
}
