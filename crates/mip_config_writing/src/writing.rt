//! A configuration as it is written.

ghost use Rattle.std.specs.Prelude.{◌≡◌, Ok, IfOk};
ghost use Rattle.mip_config.specs.Configs.{content};
ghost use Rattle.mip_config.specs.Reading.{reading};
ghost use Rattle.mip_config_writing.specs.Spelling.{spelling};

use crate::lines::{put_default, put_head, put_homes, put_payloads, put_role, put_routes};
use mip_config::Config;
use mip_words::{Bytes, Memory};
use std::alloc::Global;

/// The text of a configuration, from which it is read again.
pub fn write_config(alloc: Global, config: &Config) -> Result<Bytes, Memory>
    ensures spelled { IfOk result (λ b. b ≡ spelling (content config.now)) }
    ensures back { IfOk result (λ b. reading b ≡ Ok (content config.now)) }
{
    let mut out = Bytes::new(alloc);
    put_head(&mut out, &config.seed, config.node, config.port)?;
    put_routes(&mut out, &config.routes)?;
    put_default(&mut out, config.fallback)?;
    put_role(&mut out, config.role)?;
    put_homes(&mut out, config.serves.as_slice())?;
    put_payloads(&mut out, config.payloads.as_slice())?;
    Ok(out)
}
