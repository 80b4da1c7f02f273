ghost use Rattle.std.specs.Prelude.{◌≤◌, IsTrue, IsFalse, length};
ghost use Rattle.mip_ipv6.specs.Packet.{names_no_body};
ghost use Rattle.mip_rules_correspondent.specs.Rules.{is_data};

/// Data that can be sent: of a protocol that carries data, with a body, and short.
#[derive(Clone, Copy)]
pub struct Data<'a> {
    pub proto: u8,
    pub payload: &'a [u8],
    pub ghost kind: { IsTrue (is_data proto) },
    pub ghost body: { IsFalse (names_no_body proto) },
    pub ghost short: { length payload.now ≤ 512 },
}
