ghost use Rattle.std.specs.Prelude.{◌<◌, ◌^◌};

use mip_rules_mobile::HomeUpdate;

/// The home registration or deregistration that an acknowledgement answers. It was sent at a moment that a clock says.
#[derive(Clone, Copy)]
pub struct SentUpdate {
    pub update: HomeUpdate,
    pub ghost early: { update.at.0 < 2 ^ 62 },
}
