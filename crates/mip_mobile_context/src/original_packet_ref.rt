ghost use Rattle.mip_mobile_context.specs.Outgoing.{CanEnter};

/// The bytes of a packet that a tunnel takes.
#[derive(Clone, Copy)]
pub struct OriginalPacketRef<'a> {
    pub bytes: &'a [u8],
    pub ghost enters: { CanEnter bytes.now },
}
