//! Laws of the claims that stand, and of what is told of them. The functions do nothing: what they ensure is the law.

ghost use Rattle.std.specs.Prelude.{◌≡◌, ℕ, ◌<◌, List, [], ◌∷◌, ◌++◌, length, false, Option, Some};
ghost use Rattle.std.specs.List.{AllByRecursion};
ghost use Rattle.mip_words.specs.declared.address.Address as addresses;
ghost use Rattle.mip_words.specs.declared.ids.LinkId.{LinkId};
ghost use Rattle.mip_symbols.specs.Places.{members};
ghost use Rattle.mip_symbols.specs.declared.declaration.Declaration.{Declaration};
ghost use Rattle.mip_symbols.specs.declared.places.Sort.TheVariants as sorts;
ghost use Rattle.mip_entries.specs.declared.entry.Entry as entries;
ghost use Rattle.mip_entries.specs.declared.entry.Entry.TheVariants.{Claimed};
ghost use Rattle.mip_proxynd.specs.declared.claim.Claim.{Claim};
ghost use Rattle.mip_proxynd.specs.Claims.{claim_in, row_of, rows_in};
ghost use Rattle.mip_proxynd.specs.ClaimsLaws.{IsOwn, Rise};
ghost use Rattle.mip_proxynd.specs.Fields.{is_group};
ghost use Rattle.mip_proxynd.specs.Text.{advert_line, holds_line, claims_text};
ghost use Rattle.mip_proxynd.specs.TextLaws.{StandsIn};

use mip_entries::Entry;

/// A law: a claim stands behind a history exactly where the last claimed or released entry of its address is that
/// claim. The rows rise by address, so each address has one, and the claim of a row is one of the row's address,
/// which is no multicast address.
pub fn claims_stand_by_their_last_entries(history: &[Entry])
    ensures last { (a : addresses.Address) → is_group a ≡ false → row_of (rows_in [] history.now) a.0 ≡ claim_in history.now a.0 }
    ensures rise { Rise (rows_in [] history.now) }
    ensures own { AllByRecursion IsOwn (rows_in [] history.now) }
{
    // For the prover alone: once the history is read, the facts of its entries are at hand.
    let _count = history.len();
}

/// Two laws of the text of claims, of whatever address it asks: each claim of a history has its advertisement in it, a node's
/// like an outsider's, and each claim that stands behind the history has its holder in it, on whichever declared link.
/// Multicast addresses have neither.
pub fn claims_are_told()
    ensures adverts { (ds : List Declaration) (before : List entries.Entry) (who : ℕ) (link : LinkId) (address : addresses.Address) (after : List entries.Entry) (ask : Option addresses.Address)
        → is_group address ≡ false
        → StandsIn (advert_line ds (record { link = link; address = address; who = who })) (claims_text ds (before ++ Claimed who link address ∷ after) ask) }
    ensures holds { (ds : List Declaration) (history : List entries.Entry) (a : addresses.Address) (claim : Claim) (ask : Option addresses.Address)
        → is_group a ≡ false → claim_in history a.0 ≡ Some claim → claim.link.0 < length (members sorts.Link ds)
        → StandsIn (holds_line ds claim) (claims_text ds history ask) }
{}
