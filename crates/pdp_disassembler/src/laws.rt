// Laws of the texts, as contracts of functions with an empty body.
ghost use Rattle.pdp_disassembler.specs.TextLaw.{TextsAreOfWords};

/// A law and no code: two instructions at one address have one text exactly if they have the same
/// words, as many as each takes. So the text can be assembled back, and it shows no word that the
/// instruction doesn't take.
///
/// Source: this project's profile.
#[tactic(auto, using(crate::proofs::TextsAndWords::texts_are_of_words))]
pub fn equal_texts_have_equal_words()
    ensures { TextsAreOfWords }
{}
