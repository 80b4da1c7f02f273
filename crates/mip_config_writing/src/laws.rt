//! The laws, each the contract of a function that does nothing.

ghost use Rattle.std.specs.Prelude.{◌≡◌, ◌<◌, ◌^◌, ℕ, List, length, Ok};
ghost use Rattle.mip_config.specs.Configs.{Content};
ghost use Rattle.mip_config.specs.Reading.{reading};
ghost use Rattle.mip_config_writing.specs.Grammar.{InGrammar};
ghost use Rattle.mip_config_writing.specs.Spelling.{spelling};

/// A law: a text that is read as a configuration is the configuration's spelling, so no other text is read as it.
#[tactic(auto, using(crate::proofs::TextLaws::text_spelled))]
pub fn spelled_as_read()
    ensures { (text : List ℕ) (c : Content) → reading text ≡ Ok c → text ≡ spelling c }
{}

/// A law: a configuration that some text is read as is read from its spelling.
#[tactic(auto, using(crate::proofs::TextLaws::spelling_again))]
pub fn read_back()
    ensures { (text : List ℕ) (c : Content) → reading text ≡ Ok c → reading (spelling c) ≡ Ok c }
{}

/// A law: a configuration in the grammar is read from its spelling.
#[tactic(auto, using(crate::proofs::TextReadings::spelling_read))]
pub fn grammar_is_read()
    ensures { (c : Content) → InGrammar c → reading (spelling c) ≡ Ok c }
{}

/// A law: what is read is in the grammar, so a configuration is in it exactly where some text is read as it.
pub fn read_is_in_grammar()
    ensures { (text : List ℕ) (c : Content) → reading text ≡ Ok c → InGrammar c }
{}

/// A law: the spelling of a configuration in the grammar has fewer than 2 to the 23 bytes, so it may be given to the reader.
#[tactic(auto, using(crate::proofs::ShortLaws::spelling_short))]
pub fn spelling_is_short()
    ensures { (c : Content) → InGrammar c → length (spelling c) < 2 ^ 23 }
{}
