use crate::member::Member;
use mip_afresh::Telling;
use std::marker::Model;

/// A correspondent as it stands in a run that is between two calls of its nodes: what the history has of the node is what the node keeps.
#[derive(Drop)]
pub(crate) struct Standing<'a> {
    pub(crate) telling: &'a Telling,
    pub(crate) member: Member,
}

impl<'a> Model for Standing<'a> {
    ghost use Rattle.mip_afresh_nodes.specs.Members.{StandingSeen, Stands};

    ghost Value = { StandingSeen };

    ghost view = { λ s. record { telling = s.telling.now; member = s.member } };

    ghost invariant = { λ s. Stands s.telling.now s.member };
}
