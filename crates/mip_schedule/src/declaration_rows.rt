//! The lines of declarations: what each reads, and what each owes to those before it.

ghost use Rattle.std.specs.Prelude.{◌≡◌};
ghost use Rattle.mip_lines.specs.Cutting.{texts};
ghost use Rattle.mip_schedule.specs.DeclarationRows as rows;

use mip_symbols::kinds::{address, link, new_name, node, prefix, some_agent, u16_in, u32_in};
use mip_symbols::{Declaration, FewDeclarations, Reason, Sort};

#[tactic(auto, unfolding(crate::specs::DeclarationRows::link_row))]
fn link_row(ds: &FewDeclarations<'_>, fields: &[&[u8]]) -> Result<Declaration, Reason>
    ensures { result ≡ rows.link_row ds.now (texts fields.now) }
{
    let [name, digits] = fields else {
        return Err(Reason::Form);
    };
    Ok(Declaration::Link {
        name: new_name(ds.as_slice(), name)?,
        prefix: prefix(digits)?,
    })
}

#[tactic(auto, unfolding(crate::specs::DeclarationRows::agent_row))]
fn agent_row(ds: &FewDeclarations<'_>, fields: &[&[u8]]) -> Result<Declaration, Reason>
    ensures { result ≡ rows.agent_row ds.now (texts fields.now) }
{
    let [name, on, digits, preference, life, room] = fields else {
        return Err(Reason::Form);
    };
    Ok(Declaration::Agent {
        name: new_name(ds.as_slice(), name)?,
        link: link(ds, on)?,
        address: address(digits)?,
        preference: u16_in(0, u16::MAX, preference)?,
        life: u16_in(0, u16::MAX, life)?,
        room: u32_in(1, 64, room)?,
    })
}

#[tactic(auto, unfolding(crate::specs::DeclarationRows::correspondent_row))]
fn correspondent_row(ds: &FewDeclarations<'_>, fields: &[&[u8]]) -> Result<Declaration, Reason>
    ensures { result ≡ rows.correspondent_row ds.now (texts fields.now) }
{
    let [name, on, digits, room] = fields else {
        return Err(Reason::Form);
    };
    Ok(Declaration::Correspondent {
        name: new_name(ds.as_slice(), name)?,
        link: link(ds, on)?,
        address: address(digits)?,
        room: u32_in(1, 64, room)?,
    })
}

#[tactic(auto, unfolding(crate::specs::DeclarationRows::mobile_row))]
fn mobile_row(ds: &FewDeclarations<'_>, fields: &[&[u8]]) -> Result<Declaration, Reason>
    ensures { result ≡ rows.mobile_row ds.now (texts fields.now) }
{
    let [name, on, digits, agent] = fields else {
        return Err(Reason::Form);
    };
    Ok(Declaration::Mobile {
        name: new_name(ds.as_slice(), name)?,
        link: link(ds, on)?,
        address: address(digits)?,
        agent: some_agent(ds, agent)?,
    })
}

#[tactic(auto, unfolding(crate::specs::DeclarationRows::serve_row))]
fn serve_row(ds: &FewDeclarations<'_>, fields: &[&[u8]]) -> Result<Declaration, Reason>
    ensures { result ≡ rows.serve_row ds.now (texts fields.now) }
{
    let [agent, mobile] = fields else {
        return Err(Reason::Form);
    };
    Ok(Declaration::Serve {
        agent: node(Sort::Agent, ds, agent)?,
        mobile: node(Sort::Mobile, ds, mobile)?,
    })
}

#[tactic(auto, unfolding(crate::specs::DeclarationRows::outsider_row))]
fn outsider_row(ds: &FewDeclarations<'_>, fields: &[&[u8]]) -> Result<Declaration, Reason>
    ensures { result ≡ rows.outsider_row ds.now (texts fields.now) }
{
    let [name] = fields else {
        return Err(Reason::Form);
    };
    Ok(Declaration::Outsider {
        name: new_name(ds.as_slice(), name)?,
    })
}

/// A line of a node.
#[tactic(auto, unfolding(crate::specs::DeclarationRows::node_fields))]
fn node_fields(
    ds: &FewDeclarations<'_>,
    word: &[u8],
    fields: &[&[u8]],
) -> Result<Declaration, Reason>
    ensures { result ≡ rows.node_fields ds.now word.now (texts fields.now) }
{
    if word == b"agent".as_slice() {
        agent_row(ds, fields)
    } else if word == b"correspondent".as_slice() {
        correspondent_row(ds, fields)
    } else if word == b"mobile".as_slice() {
        mobile_row(ds, fields)
    } else {
        Err(Reason::Form)
    }
}

/// A line of declarations by its first field.
#[tactic(auto, unfolding(crate::specs::DeclarationRows::declaration_fields))]
pub fn declaration_fields(ds: &FewDeclarations<'_>, row: &[&[u8]]) -> Result<Declaration, Reason>
    ensures { result ≡ rows.declaration_fields ds.now (texts row.now) }
{
    let [first, fields @ ..] = row else {
        return Err(Reason::Form);
    };
    let word = *first;
    if word == b"link".as_slice() {
        link_row(ds, fields)
    } else if word == b"serve".as_slice() {
        serve_row(ds, fields)
    } else if word == b"outsider".as_slice() {
        outsider_row(ds, fields)
    } else {
        node_fields(ds, word, fields)
    }
}
