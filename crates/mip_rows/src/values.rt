ghost use Rattle.std.specs.Prelude.{◌≡◌, ◌<◌, ◌∷◌, ◌++◌, [], List, length, slice_get};
ghost use Rattle.mip_rows.specs.Values.{u8_at, u16_at, u32_at, u64_at, moment_at, address_at, token_at, node_at, link_at, outsider_at, who_at, some_u16_at, some_u64_at, some_address_at, some_token_at, some_link_at, shield_at, answer_at, why_at};

use crate::value::Value;
use arrayvec::ArrayVec;
use mip_words::{Address, LinkId, Moment, NodeId, Token, Why};
use std::marker::Model;

/// How many values a row has at most.
pub const ROOM: usize = 10;

/// The values of a row, in order. A row's table says what stands at which place; a method that is asked for something
/// else answers a first value of its kind: 0, false, None, or the reason `nolink`.
#[derive(Drop)]
pub struct Values {
    list: ArrayVec<Value, ROOM>,
}

impl Model for Values {
    ghost use Rattle.std.specs.Prelude.{List};
    ghost use Rattle.mip_rows.specs.declared.value.Value.{Value as OneValue};

    ghost Value = { List OneValue };

    ghost view = { λ v. v.list.items };
}

/// A value is read by the kind that its row has at that place. One of another kind, which no row asks for, reads as 0.
impl Values {
    /// No values.
    pub fn new() -> Values
        ensures { result ≡ [] }
    {
        Values {
            list: ArrayVec::new(),
        }
    }

    /// Appends a value.
    pub fn push(&mut self, value: Value)
        requires { length self.old < 10 }
        ensures { self.new ≡ self.old ++ value ∷ [] }
    {
        self.list.push(value)
    }

    fn at(&self, place: usize) -> Option<Value>
        ensures { result ≡ slice_get self.now place }
    {
        self.list.as_slice().get(place).copied()
    }

    pub fn u8(&self, place: usize) -> u8
        ensures { result ≡ u8_at self.now place }
    {
        match self.at(place) {
            Some(Value::U8(x)) => x,
            _ => 0,
        }
    }

    pub fn u16(&self, place: usize) -> u16
        ensures { result ≡ u16_at self.now place }
    {
        match self.at(place) {
            Some(Value::U16(x)) => x,
            _ => 0,
        }
    }

    pub fn u32(&self, place: usize) -> u32
        ensures { result ≡ u32_at self.now place }
    {
        match self.at(place) {
            Some(Value::U32(x)) => x,
            _ => 0,
        }
    }

    pub fn u64(&self, place: usize) -> u64
        ensures { result ≡ u64_at self.now place }
    {
        match self.at(place) {
            Some(Value::U64(x)) => x,
            _ => 0,
        }
    }

    pub fn moment(&self, place: usize) -> Moment
        ensures { result ≡ moment_at self.now place }
    {
        match self.at(place) {
            Some(Value::Moment(x)) => x,
            _ => Moment(0),
        }
    }

    pub fn address(&self, place: usize) -> Address
        ensures { result ≡ address_at self.now place }
    {
        match self.at(place) {
            Some(Value::Address(x)) => x,
            _ => Address(0),
        }
    }

    pub fn token(&self, place: usize) -> Token
        ensures { result ≡ token_at self.now place }
    {
        match self.at(place) {
            Some(Value::Token(x)) => x,
            _ => Token([0; 8]),
        }
    }

    pub fn node(&self, place: usize) -> NodeId
        ensures { result ≡ node_at self.now place }
    {
        match self.at(place) {
            Some(Value::Node(x)) => x,
            _ => NodeId(0),
        }
    }

    pub fn link(&self, place: usize) -> LinkId
        ensures { result ≡ link_at self.now place }
    {
        match self.at(place) {
            Some(Value::Link(x)) => x,
            _ => LinkId(0),
        }
    }

    pub fn outsider(&self, place: usize) -> u8
        ensures { result ≡ outsider_at self.now place }
    {
        match self.at(place) {
            Some(Value::Outsider(x)) => x,
            _ => 0,
        }
    }

    pub fn who(&self, place: usize) -> u8
        ensures { result ≡ who_at self.now place }
    {
        match self.at(place) {
            Some(Value::Who(x)) => x,
            _ => 0,
        }
    }

    pub fn some_u16(&self, place: usize) -> Option<u16>
        ensures { result ≡ some_u16_at self.now place }
    {
        match self.at(place) {
            Some(Value::SomeU16(x)) => x,
            _ => None,
        }
    }

    pub fn some_u64(&self, place: usize) -> Option<u64>
        ensures { result ≡ some_u64_at self.now place }
    {
        match self.at(place) {
            Some(Value::SomeU64(x)) => x,
            _ => None,
        }
    }

    pub fn some_address(&self, place: usize) -> Option<Address>
        ensures { result ≡ some_address_at self.now place }
    {
        match self.at(place) {
            Some(Value::Address(x)) => Some(x),
            _ => None,
        }
    }

    pub fn some_token(&self, place: usize) -> Option<Token>
        ensures { result ≡ some_token_at self.now place }
    {
        match self.at(place) {
            Some(Value::SomeToken(x)) => x,
            _ => None,
        }
    }

    pub fn some_link(&self, place: usize) -> Option<LinkId>
        ensures { result ≡ some_link_at self.now place }
    {
        match self.at(place) {
            Some(Value::SomeLink(x)) => x,
            _ => None,
        }
    }

    pub fn shield(&self, place: usize) -> bool
        ensures { result ≡ shield_at self.now place }
    {
        match self.at(place) {
            Some(Value::Shield(x)) => x,
            _ => false,
        }
    }

    pub fn answer(&self, place: usize) -> bool
        ensures { result ≡ answer_at self.now place }
    {
        match self.at(place) {
            Some(Value::Answer(x)) => x,
            _ => false,
        }
    }

    pub fn why(&self, place: usize) -> Why
        ensures { result ≡ why_at self.now place }
    {
        match self.at(place) {
            Some(Value::Why(x)) => x,
            _ => Why::NoLink,
        }
    }
}
