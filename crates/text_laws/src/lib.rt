//! Laws on what is read of texts, in the words of the formats.
#![tactic(auto)]

ghost use Rattle.text_laws.specs.Spelled.{ReadAsSpelled, RefusedAtItsFault, SpelledOrFaulty};

/// A DIMACS text is read as the formula that it spells, and any other text is refused at the line of its first word that no formula has there,
/// or at its last line where words are missing alone.
pub fn dimacs_texts_spell_formulas()
    ensures spells { ReadAsSpelled }
    ensures faults { RefusedAtItsFault }
    ensures either { SpelledOrFaulty }
{}
