ghost use Rattle.std.specs.Prelude.{◌≡◌, ◌++◌, OnOk, false};
ghost use Rattle.mip_mobhdr.specs.OptionValues.{values};
ghost use Rattle.mip_mobhdr.specs.Said.{said};
ghost use Rattle.mip_explain.specs.Lines.{cookie_line, flags_line, index_line, lifetime_line, sequence_line, status_line, token_line};
ghost use Rattle.mip_explain.specs.Listing.{field_lines, options_in, message_lines};

use crate::option_listing::put_options;
use crate::rows::{
    put_address_line, put_digits_line, put_flags_line, put_number_line, put_word_line,
};
use crate::words::message_word;
use mip_mobhdr::{Message, Options};
use mip_words::{Bytes, Cookie, Memory, Token, u64_bytes};

fn put_cookie(out: &mut Bytes, cookie: Cookie) -> Result<(), Memory>
    ensures { OnOk result (out.new ≡ out.old ++ cookie_line cookie.0) }
{
    put_digits_line(out, b"cookie", &u64_bytes(cookie.0))
}

/// The fields of a Home Test or a Care-of Test.
fn put_test(out: &mut Bytes, index: u16, cookie: Cookie, token: Token) -> Result<(), Memory>
    ensures { OnOk result (out.new ≡ out.old ++ (index_line index ++ (cookie_line cookie.0 ++ token_line token.0))) }
{
    put_number_line(out, b"index", u64::from(index))?;
    put_cookie(out, cookie)?;
    put_digits_line(out, b"token", &token.0)
}

/// The fields of a Binding Acknowledgement.
fn put_acknowledgement(
    out: &mut Bytes,
    status: u8,
    key: bool,
    sequence: u16,
    lifetime: u16,
) -> Result<(), Memory>
    ensures { OnOk result (out.new ≡ out.old
        ++ (status_line status ++ (flags_line false false false key ++ (sequence_line sequence ++ lifetime_line lifetime)))) }
{
    put_number_line(out, b"status", u64::from(status))?;
    put_flags_line(out, false, false, false, key)?;
    put_number_line(out, b"sequence", u64::from(sequence))?;
    put_number_line(out, b"lifetime", u64::from(lifetime))
}

/// Appends one line for each field.
#[tactic(auto, unfolding(crate::specs::Listing::field_lines))]
fn put_fields(out: &mut Bytes, message: &Message) -> Result<(), Memory>
    ensures { OnOk result (out.new ≡ out.old ++ field_lines (said message.now)) }
{
    match *message {
        Message::Refresh { .. } => Ok(()),
        Message::HomeInit { cookie, .. } => put_cookie(out, cookie),
        Message::CareofInit { cookie, .. } => put_cookie(out, cookie),
        Message::HomeTest {
            index,
            cookie,
            token,
            ..
        } => put_test(out, index, cookie, token),
        Message::CareofTest {
            index,
            cookie,
            token,
            ..
        } => put_test(out, index, cookie, token),
        Message::Update {
            sequence,
            ack,
            home,
            local,
            key,
            lifetime,
            ..
        } => {
            put_number_line(out, b"sequence", u64::from(sequence))?;
            put_flags_line(out, ack, home, local, key)?;
            put_number_line(out, b"lifetime", u64::from(lifetime))
        }
        Message::Acknowledgement {
            status,
            key,
            sequence,
            lifetime,
            ..
        } => put_acknowledgement(out, status, key, sequence, lifetime),
        Message::Error { status, home, .. } => {
            put_number_line(out, b"status", u64::from(status))?;
            put_address_line(out, b"home", home)
        }
    }
}

fn options_in<'a>(message: &Message<'a>) -> Options<'a>
    ensures { values result ≡ options_in (said message.now) }
{
    match *message {
        Message::Refresh { options }
        | Message::HomeInit { options, .. }
        | Message::CareofInit { options, .. }
        | Message::HomeTest { options, .. }
        | Message::CareofTest { options, .. }
        | Message::Update { options, .. }
        | Message::Acknowledgement { options, .. }
        | Message::Error { options, .. } => options,
    }
}

/// Appends the lines of a mobility message.
#[tactic(auto, unfolding(crate::specs::Listing::message_lines))]
pub(crate) fn put_message(out: &mut Bytes, message: &Message) -> Result<(), Memory>
    ensures { OnOk result (out.new ≡ out.old ++ message_lines (said message.now)) }
{
    put_word_line(out, b"message", message_word(message))?;
    put_fields(out, message)?;
    put_options(out, &options_in(message))
}
