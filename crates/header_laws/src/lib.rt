//! The law of the header and the grammar.
#![tactic(auto)]

ghost use Rattle.header_laws.specs.NamesAgree.{NamesAgree};

/// The law that the global name of a header is that of the file's heads.
pub fn the_header_has_the_name_of_the_heads(text: &[u8])
    ensures { NamesAgree text.now }
{}
