use mip_words::Prefix;

/// Where packets to the addresses with a prefix go: a port of this host.
#[derive(Clone, Copy, Debug, PartialEq, Eq)]
pub struct Route {
    pub prefix: Prefix,
    pub port: u16,
}
