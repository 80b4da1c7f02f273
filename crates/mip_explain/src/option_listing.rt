ghost use Rattle.std.specs.Prelude.{◌≡◌, ◌++◌, OnOk};
ghost use Rattle.mip_mobhdr.specs.OptionValues.{values};
ghost use Rattle.mip_explain.specs.Lines.{advice_line, indices_line, nonces_line, binding_number_line, alternate_line, authorization_line};
ghost use Rattle.mip_explain.specs.Listing.{option_lines};

use crate::rows::{put_address_line, put_digits_line, put_number_line};
use mip_lines::put_number;
use mip_mobhdr::{Indices, Options};
use mip_words::{Address, Bytes, Memory};

fn put_advice(out: &mut Bytes, advice: Option<u16>) -> Result<(), Memory>
    ensures { OnOk result (out.new ≡ out.old ++ advice_line advice) }
{
    match advice {
        Some(units) => put_number_line(out, b"advice", u64::from(units)),
        None => Ok(()),
    }
}

#[tactic(auto, using(crate::proofs::LineLaws::triple_is))]
fn put_indices(out: &mut Bytes, indices: Indices) -> Result<(), Memory>
    ensures { OnOk result (out.new ≡ out.old ++ indices_line indices) }
{
    out.extend(b"nonces")?;
    out.extend(b" ")?;
    put_number(out, u64::from(indices.home))?;
    out.extend(b" ")?;
    put_number(out, u64::from(indices.careof))?;
    out.extend(b"\n")
}

fn put_nonces(out: &mut Bytes, nonces: Option<Indices>) -> Result<(), Memory>
    ensures { OnOk result (out.new ≡ out.old ++ nonces_line nonces) }
{
    match nonces {
        Some(indices) => put_indices(out, indices),
        None => Ok(()),
    }
}

fn put_binding_number(out: &mut Bytes, number: Option<u8>) -> Result<(), Memory>
    ensures { OnOk result (out.new ≡ out.old ++ binding_number_line number) }
{
    match number {
        Some(number) => put_number_line(out, b"number", u64::from(number)),
        None => Ok(()),
    }
}

fn put_alternate(out: &mut Bytes, alternate: Option<Address>) -> Result<(), Memory>
    ensures { OnOk result (out.new ≡ out.old ++ alternate_line alternate) }
{
    match alternate {
        Some(address) => put_address_line(out, b"alternate", address),
        None => Ok(()),
    }
}

fn put_authorization(out: &mut Bytes, authorization: Option<[u8; 12]>) -> Result<(), Memory>
    ensures { OnOk result (out.new ≡ out.old ++ authorization_line authorization) }
{
    match authorization {
        Some(bytes) => put_digits_line(out, b"authorization", &bytes),
        None => Ok(()),
    }
}

/// Appends one line for each option that is present.
#[tactic(auto, unfolding(crate::specs::Listing::option_lines))]
pub(crate) fn put_options(out: &mut Bytes, options: &Options) -> Result<(), Memory>
    ensures { OnOk result (out.new ≡ out.old ++ option_lines (values options.now)) }
{
    put_advice(out, options.advice)?;
    put_nonces(out, options.nonces)?;
    put_binding_number(out, options.number)?;
    put_alternate(out, options.alternate)?;
    put_authorization(out, options.authorization)
}
