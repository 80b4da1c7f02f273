//! Laws on the checks. The functions do nothing: what they ensure is the law.

ghost use Rattle.std.specs.Prelude.{◌≡◌, ◌↔◌, ℕ, IsTrue, IsFalse, Option, Some, Ok};
ghost use Rattle.mip_words.specs.declared.address.Address.{Address};
ghost use Rattle.mip_ipv6.specs.Packet.{Packet};
ghost use Rattle.mip_mobhdr.specs.declared.fault.Fault.{Fault};
ghost use Rattle.mip_mobhdr.specs.Said.{Said};
ghost use Rattle.mip_mobhdr.specs.Pointer.{pointer_of};
ghost use Rattle.mip_reception.specs.declared.address_match.AddressMatch.{AddressMatch};
ghost use Rattle.mip_reception.specs.declared.reply.Reply.TheVariants.{ParameterProblem};
ghost use Rattle.mip_reception.specs.Checks.{fault_reply, is_probe, is_update, checked};
ghost use Rattle.mip_reception.specs.Passing.{Passes, RefusesInOrder};

/// A packet passes exactly where no row refuses it.
pub fn passes_where_nothing_refuses()
    ensures { (standing : AddressMatch) (place : ℕ) (p : Packet) (m : Option Said) → (checked standing place p ≡ Ok m) ↔ Passes standing place p m }
{}

/// Each refusal comes where its row says, and no row before it applies.
pub fn refusals_in_order()
    ensures { (standing : AddressMatch) (place : ℕ) (p : Packet) → RefusesInOrder standing place p }
{}

/// A packet that passes with a Home Address option brings no test init, and where no binding from its home to its
/// source stands it brings an update.
pub fn unheld_homes_bring_updates_alone()
    ensures probe { (standing : AddressMatch) (place : ℕ) (p : Packet) (m : Option Said) (home : Address)
        → checked standing place p ≡ Ok m → p.head.home ≡ Some home → IsFalse (is_probe m) }
    ensures update { (standing : AddressMatch) (place : ℕ) (p : Packet) (m : Option Said) (home : Address)
        → checked standing place p ≡ Ok m → p.head.home ≡ Some home → IsFalse standing.holds → IsTrue (is_update m) }
{}

/// A Parameter Problem points to the field that is at fault (RFC 6275 section 9.2), and comes for no other fault.
pub fn problems_point_to_the_fault()
    ensures { (place n : ℕ) (home : Option Address) (fault : Fault)
        → (fault_reply place home fault ≡ ParameterProblem n) ↔ (pointer_of place fault ≡ Some n) }
{}
