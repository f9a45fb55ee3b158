//! Laws of the definitions. Each function does nothing; its contract is the law.
ghost use Rattle.cast_record.specs.Laws.{HaveTextsOfTheirOwn};

/// No two lines within their ranges have the same text.
pub fn has_text_of_its_own()
    ensures { HaveTextsOfTheirOwn }
{}
