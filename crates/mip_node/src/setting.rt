ghost use Rattle.std.specs.Prelude.{◌≡◌, [], IfOk};
ghost use Rattle.mip_links.specs.Nets.{new_net};
ghost use Rattle.mip_outside.specs.Places.{free};
ghost use Rattle.mip_roles.specs.Places.{around_seen};
ghost use Rattle.mip_config.specs.Configs.{content};

use mip_config::Config;
use mip_links::Net;
use mip_roles::NetPlace;
use mip_words::Memory;
use std::alloc::Global;

/// What a node is run with: its configuration, and a network in which nobody holds an address.
#[derive(Drop)]
pub struct Setting<'a> {
    pub alloc: Global,
    pub config: &'a Config,
    net: Net,
    ghost empty: { net ≡ new_net [] },
}

impl<'a> Setting<'a> {
    pub fn new(alloc: Global, config: &'a Config) -> Result<Setting<'a>, Memory>
        ensures { IfOk result (λ s. content s.config.now ≡ content config.now) }
    {
        Ok(Setting {
            alloc,
            config,
            net: Net::new(alloc, &[])?,
        })
    }

    /// The place of the node, where nobody else is.
    pub fn place(&self) -> NetPlace<'_>
        ensures { around_seen result ≡ free }
    {
        NetPlace::new(&self.net, self.config.node.0, None)
    }
}
