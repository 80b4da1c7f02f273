ghost use Rattle.std.specs.Prelude.{◌≡◌};

use mip_words::Address;
use std::marker::Model;

/// An address as bytes, which may begin anywhere: as a number it begins at a multiple of 16. Clauses see the address.
#[derive(Drop)]
pub struct KeptAddress {
    bytes: [u8; 16],
}

impl Model for KeptAddress {
    ghost use Rattle.mip_words.specs.Addresses.{address_at};
    ghost use Rattle.mip_words.specs.declared.address.Address.{Address};

    ghost Value = { Address };

    ghost view = { λ k. address_at 0 k.bytes };
}

impl KeptAddress {
    #[tactic(auto, using(crate::proofs::KeptLaws::address_again))]
    pub fn new(address: Address) -> KeptAddress
        ensures { result ≡ address }
    {
        KeptAddress {
            bytes: address.bytes(),
        }
    }

    pub fn get(&self) -> Address
        ensures { result ≡ self.now }
    {
        Address::at(&self.bytes, 0)
    }
}
