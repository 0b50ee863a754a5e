// What is written of a text in which values stand is its tokens.
ghost use Rattle.sw_convert_texts.specs.Adjoining.{PartsAdjoin};
ghost use Rattle.sw_convert_texts.specs.AtInserts.{AtInsertsAreWritten};
ghost use Rattle.sw_convert_texts.specs.Comments.{CommentsAreWritten};
ghost use Rattle.sw_convert_texts.specs.Names.{AtNamesAreWritten, CalledWordsAreWritten, CustomNamesAreWritten, WordsWithValuesAreWritten};
ghost use Rattle.sw_convert_texts.specs.RawKinds.{RawTextsAreWritten, SelectorsAreWritten};
ghost use Rattle.sw_convert_texts.specs.RuleTexts.{RuleTextsAreWritten};
ghost use Rattle.sw_convert_texts.specs.Specials.{SpecialsAreWritten};
ghost use Rattle.sw_convert_texts.specs.Urls.{UrlsAreWritten};

/// A law: what is written of a word with `#{}` in it is its tokens, where this is so of the values in it.
pub fn words_with_values_are_written()
    ensures { WordsWithValuesAreWritten }
{}

/// A law: and so before the arguments of a call, where no url may begin with the end of the word.
pub fn called_words_are_written()
    ensures { CalledWordsAreWritten }
{}

/// A law: what is written of the name of a custom property, with `#{}` in it or without, is its tokens, where this is so
/// of the values in it.
pub fn custom_names_are_written()
    ensures { CustomNamesAreWritten }
{}

/// A law: what is written of the name of an at-rule, `@` with a name and with `#{}` in it or without, is its tokens, where
/// this is so of the values in it.
pub fn at_names_are_written()
    ensures { AtNamesAreWritten }
{}

/// A law: and so is that of one with a `#{}` directly behind the `@`, or behind a `-` there.
pub fn at_inserts_are_written()
    ensures { AtInsertsAreWritten }
{}

/// A law: what is written of a url without a `}` and a `#{` is its token.
pub fn urls_are_written()
    ensures { UrlsAreWritten }
{}

/// A law: what a word or a name that was read goes on with begins where it ends, and no comment stands between them.
pub fn parts_adjoin()
    ensures { PartsAdjoin }
{}

/// A law: what is written of raw text is its tokens, with values in `#{}` and through any number of brackets, where this is
/// so of the values in it, and white space stands beside each comment.
pub fn raw_texts_are_written()
    ensures { RawTextsAreWritten }
{}

/// A law: and so what is written before the block of a rule, where it needs no empty comment.
pub fn selectors_are_written()
    ensures { SelectorsAreWritten }
{}

/// A law: and to the pass over tokens these begin a rule, where the text begins with no word, or with one behind which none
/// of a declaration or a custom property stands.
pub fn rule_texts_are_written()
    ensures { RuleTextsAreWritten }
{}

/// A law: what is written of a loud comment, with `#{}` in it or without, is its tokens, where this is so of the values in
/// it.
pub fn comments_are_written()
    ensures { CommentsAreWritten }
{}

/// A law: what is written of a special function in whose parentheses names, commas, operators, strings, values and further
/// brackets stand is its tokens, where this is so of the values in it.
pub fn specials_are_written()
    ensures { SpecialsAreWritten }
{}
