//! What is written stands in an area of its own, since items are aligned with padding between them.

ghost use Rattle.std.specs.Prelude.{◌≡◌, ◌+◌, ◌<◌, ◌≤◌, ◌++◌, length};
ghost use Rattle.mip_mobhdr.specs.OptionWriting.{gap, padding};

use crate::alignment::Alignment;
use crate::start::Start;
use arrayvec::ArrayVec;

/// The options of one message: with all five and the longest gaps they take 70 bytes.
pub type Area = ArrayVec<u8, 72>;

/// Appends these bytes.
pub fn put(area: &mut Area, bytes: &[u8])
    requires { length area.old.items + length bytes.now ≤ 72 }
    ensures { area.new.items ≡ area.old.items ++ bytes.now }
{
    area.try_extend_from_slice(bytes).unwrap()
}

/// Appends a gap of this many bytes (RFC 6275 sections 6.2.2 and 6.2.3).
#[tactic(auto, using(crate::proofs::PaddingLaws::padding_long), unfolding(crate::specs::OptionWriting::padding))]
pub fn pad(area: &mut Area, count: usize)
    requires small { count < 8 }
    requires room { length area.old.items + count ≤ 72 }
    ensures { area.new.items ≡ area.old.items ++ padding count }
{
    if count == 0 {
        return;
    }
    if count == 1 {
        put(area, &[0]);
        return;
    }
    put(area, &[1, (count - 2) as u8]);
    put(area, &[0; 6][..count - 2]);
}

/// Pads to the next place of the message that has this alignment. The area begins at the place `start`.
pub fn align(start: Start, area: &mut Area, to: Alignment)
    requires { length area.old.items + to.multiple ≤ 73 }
    ensures aligned { area.new.items ≡ area.old.items ++ padding (gap to.multiple to.rest (start.place + length area.old.items)) }
    ensures grows { length area.new.items < length area.old.items + to.multiple }
{
    let count = gap_at(to, start.place + area.len());
    pad(area, count);
}

#[tactic(auto, unfolding(crate::specs::OptionWriting::gap))]
fn gap_at(to: Alignment, place: usize) -> usize
    ensures exact { result ≡ gap to.multiple to.rest place }
    ensures small { result < to.multiple }
{
    (to.multiple + to.rest - place % to.multiple) % to.multiple
}
