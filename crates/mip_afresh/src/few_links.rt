ghost use Rattle.std.specs.Prelude.{◌≤◌, length};

use mip_words::Prefix;

/// The prefixes of the links of a run: they are few, so that the number of a link is small.
#[derive(Clone, Copy)]
pub(crate) struct FewLinks<'a> {
    pub(crate) prefixes: &'a [Prefix],
    ghost few: { length prefixes.now ≤ 32 },
}
