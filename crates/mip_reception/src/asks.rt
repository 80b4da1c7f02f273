//! What an update asks (RFC 6275 sections 6.1.7 and 9.5.1).

ghost use Rattle.std.specs.Prelude.{◌≡◌, Ok, Some};
ghost use Rattle.mip_mobhdr.specs.Said.{said};
ghost use Rattle.mip_reception.specs.Registrations.{IsUpdate, registration_said, registration_in, home_of, careof_of, deletes, registered_of};

use crate::registration::Registration;
use mip_entries::UpdateSeen;
use mip_mobhdr::{Message, read_update};
use mip_words::Address;

/// What a message asks, by the source and the Home Address option of its packet. `None` where it is no
/// Binding Update.
pub fn registration_of(
    source: Address,
    home_option: Option<Address>,
    message: &Message<'_>,
) -> Option<Registration>
    ensures { result ≡ registration_said source home_option (Ok (said message.now)) }
{
    match *message {
        Message::Update {
            sequence,
            ack,
            home,
            lifetime,
            options,
            ..
        } => Some(Registration {
            source,
            home_option,
            sequence,
            ack,
            for_agent: home,
            lifetime,
            alternate: options.alternate,
            nonces: options.nonces,
            number: options.number,
            authorized: options.authorization.is_some(),
        }),
        _ => None,
    }
}

/// What an update that its receiver sees asks.
pub fn registration_in(update: &UpdateSeen<'_>) -> Registration
    requires { IsUpdate update.now.message.now }
    ensures { registration_in update.now.source update.now.home update.now.message.now ≡ Some result }
{
    match read_update(update.message) {
        Ok(message) => match registration_of(update.source, update.home, &message) {
            Some(registration) => registration,
            None => unreachable!(),
        },
        Err(_) => unreachable!(),
    }
}

/// The home address: the Home Address option, else the source.
pub fn home_of(registration: &Registration) -> Address
    ensures { result ≡ home_of registration.now }
{
    registration.home_option.unwrap_or(registration.source)
}

/// The care-of address: the alternate one, else the source.
pub fn careof_of(registration: &Registration) -> Address
    ensures { result ≡ careof_of registration.now }
{
    registration.alternate.unwrap_or(registration.source)
}

/// Whether it ends a binding: it asks for no time, or for the home address.
pub fn deletes(registration: &Registration) -> bool
    ensures { result ≡ deletes registration.now }
{
    registration.lifetime == 0 || careof_of(registration).0 == home_of(registration).0
}

/// The address that it registers: where it ends a binding, the home address.
pub fn registered_of(registration: &Registration) -> Address
    ensures { result ≡ registered_of registration.now }
{
    if deletes(registration) {
        home_of(registration)
    } else {
        careof_of(registration)
    }
}
