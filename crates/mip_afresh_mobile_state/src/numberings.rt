//! The sequences that the next updates to home agents take (RFC 6275 section 11.1).

ghost use Rattle.std.specs.Prelude.{◌≡◌, ◌==◌, not, filter, IfOk};
ghost use Rattle.mip_rules_mobile.specs.HomeQuestions.{with_next, number_after};

use mip_rules_mobile::Numbering;
use mip_words::{Address, Memory};
use std::alloc::Global;

/// The sequence behind this one.
pub fn number_after(sequence: u16) -> u16
    ensures { result ≡ number_after sequence }
{
    sequence.wrapping_add(1)
}

/// The sequences of other agents.
fn others(alloc: Global, agent: Address, numberings: &[Numbering]) -> Result<Vec<Numbering>, Memory>
    ensures { IfOk result (λ v. v.items ≡ filter (λ n. not (n.agent.0 == agent.0)) numberings.now) }
{
    let left = numberings
        .iter()
        .filter(|numbering| numbering.agent.0 != agent.0)
        .copied()
        .collect(alloc)?;
    Ok(left)
}

/// The next update to an agent takes this sequence.
pub fn with_next(
    alloc: Global,
    agent: Address,
    next: u16,
    numberings: &[Numbering],
) -> Result<Vec<Numbering>, Memory>
    ensures { IfOk result (λ v. v.items ≡ with_next agent next numberings.now) }
{
    let mut left = others(alloc, agent, numberings)?;
    left.push(Numbering { agent, next })?;
    Ok(left)
}
