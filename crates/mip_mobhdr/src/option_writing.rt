//! Writing the options of a message.

ghost use Rattle.std.specs.Prelude.{◌≡◌, ℕ, ◌+◌, ◌%◌, ◌^◌, ◌<◌, ◌≤◌, List, ◌++◌, length, IfSome};
ghost use Rattle.mip_words.specs.declared.address.Address.{Address};
ghost use Rattle.mip_mobhdr.specs.declared.indices.Indices.{Indices};
ghost use Rattle.mip_mobhdr.specs.OptionValues.{set_values};
ghost use Rattle.mip_mobhdr.specs.OptionValuesLaws.{IsInRange};
ghost use Rattle.mip_mobhdr.specs.OptionWriting.{with_advice, with_nonces, with_number, with_alternate, with_authorization, closed, canonical, AppendsOptions};

use crate::alignment::Alignment;
use crate::indices::Indices;
use crate::message_bytes::MessageBytes;
use crate::option_set::OptionSet;
use crate::padding::{Area, align, put};
use crate::start::Start;
use mip_words::{Address, u16_bytes};

/// Where a Binding Refresh Advice, Nonce Indices and a binding number stand.
const EVEN: Alignment = Alignment {
    multiple: 2,
    rest: 0,
};

/// Where an Alternate Care-of Address stands.
const ALTERNATE: Alignment = Alignment {
    multiple: 8,
    rest: 6,
};

/// Where Binding Authorization Data stand.
const AUTHORIZATION: Alignment = Alignment {
    multiple: 8,
    rest: 2,
};

/// Where a message ends.
const END: Alignment = Alignment {
    multiple: 8,
    rest: 0,
};

/// Appends options to the fixed fields of a message, which they bring to a multiple of 8 bytes.
pub fn write_options(out: &mut MessageBytes, options: &OptionSet)
    requires start { length out.old ≤ 24 }
    requires number { IfSome options.now.number (λ n. n < 8) }
    ensures ok { out.new ≡ out.old ++ canonical (length out.old) (set_values options.now) }
    ensures spelled { AppendsOptions (set_values options.now) out.old out.new }
    ensures whole { length out.new % 8 ≡ 0 }
    ensures short { length out.new ≤ length out.old + 72 }
{
    let area = area_of(Start { place: out.len() }, options);
    out.extend(area.as_slice());
}

#[tactic(auto, unfolding(crate::specs::OptionWriting::canonical))]
fn area_of(start: Start, options: &OptionSet) -> Area
    requires number { IfSome options.now.number (λ n. n < 8) }
    ensures exact { result.items ≡ canonical start.place (set_values options.now) }
    ensures fits { IsInRange (set_values options.now) }
{
    let mut area = Area::new();
    put_advice(start, &mut area, options.advice);
    put_nonces(start, &mut area, options.nonces);
    put_number(start, &mut area, options.number);
    put_alternate(start, &mut area, options.alternate);
    put_authorization(start, &mut area, options.authorization);
    close(start, &mut area);
    area
}

#[tactic(auto, unfolding(crate::specs::OptionWriting::with_advice, crate::specs::OptionWriting::aligned))]
fn put_advice(start: Start, area: &mut Area, advice: Option<u16>)
    requires room { length area.old.items + 5 ≤ 72 }
    ensures ok { area.new.items ≡ with_advice start.place advice area.old.items }
    ensures fits { (units : ℕ) → advice ≡ Some units → units < 2 ^ 16 }
    ensures grows { length area.new.items ≤ length area.old.items + 5 }
{
    let Some(advice) = advice else {
        return;
    };
    align(start, area, EVEN);
    put(area, &[2, 2]);
    put(area, &u16_bytes(advice));
}

#[tactic(auto, unfolding(crate::specs::OptionWriting::with_nonces, crate::specs::OptionWriting::aligned))]
fn put_nonces(start: Start, area: &mut Area, nonces: Option<Indices>)
    requires room { length area.old.items + 7 ≤ 72 }
    ensures ok { area.new.items ≡ with_nonces start.place nonces area.old.items }
    ensures fits { (i : Indices) → nonces ≡ Some i → (i.home < 2 ^ 16) × (i.careof < 2 ^ 16) }
    ensures grows { length area.new.items ≤ length area.old.items + 7 }
{
    let Some(nonces) = nonces else {
        return;
    };
    align(start, area, EVEN);
    put(area, &[4, 4]);
    put(area, &u16_bytes(nonces.home));
    put(area, &u16_bytes(nonces.careof));
}

#[tactic(auto, unfolding(crate::specs::OptionWriting::with_number, crate::specs::OptionWriting::aligned))]
fn put_number(start: Start, area: &mut Area, number: Option<u8>)
    requires room { length area.old.items + 5 ≤ 72 }
    requires number { IfSome number (λ n. n < 8) }
    ensures ok { area.new.items ≡ with_number start.place number area.old.items }
    ensures fits { (n : ℕ) → number ≡ Some n → n < 8 }
    ensures grows { length area.new.items ≤ length area.old.items + 5 }
{
    let Some(number) = number else {
        return;
    };
    align(start, area, EVEN);
    put(area, &[200, 2]);
    put(area, &u16_bytes(u16::from(number)));
}

#[tactic(auto, unfolding(crate::specs::OptionWriting::with_alternate, crate::specs::OptionWriting::aligned))]
fn put_alternate(start: Start, area: &mut Area, alternate: Option<Address>)
    requires room { length area.old.items + 25 ≤ 72 }
    ensures ok { area.new.items ≡ with_alternate start.place alternate area.old.items }
    ensures fits { (a : Address) → alternate ≡ Some a → a.0 < 2 ^ 128 }
    ensures grows { length area.new.items ≤ length area.old.items + 25 }
{
    let Some(alternate) = alternate else {
        return;
    };
    align(start, area, ALTERNATE);
    put(area, &[3, 16]);
    put(area, &alternate.bytes());
}

#[tactic(auto, unfolding(crate::specs::OptionWriting::with_authorization, crate::specs::OptionWriting::aligned))]
fn put_authorization(start: Start, area: &mut Area, authorization: Option<[u8; 12]>)
    requires room { length area.old.items + 21 ≤ 72 }
    ensures ok { area.new.items ≡ with_authorization start.place authorization area.old.items }
    ensures fits { (bytes : List ℕ) → authorization ≡ Some bytes → length bytes ≡ 12 }
    ensures grows { length area.new.items ≤ length area.old.items + 21 }
{
    let Some(authorization) = authorization else {
        return;
    };
    align(start, area, AUTHORIZATION);
    put(area, &[5, 12]);
    put(area, &authorization);
}

#[tactic(auto, unfolding(crate::specs::OptionWriting::closed))]
fn close(start: Start, area: &mut Area)
    requires room { length area.old.items + 7 ≤ 72 }
    ensures { area.new.items ≡ closed start.place area.old.items }
{
    align(start, area, END);
}
