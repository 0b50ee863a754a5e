//! The signs that decide how a text is read, as numbers beside which the end of a text has one too.

/// Past the last byte.
pub const END: u16 = 256;

/// A tab, U+0009: white space.
pub const TAB: u16 = b'\t' as u16;

/// A line feed, U+000A: a line break.
pub const LINE_FEED: u16 = b'\n' as u16;

/// A form feed, U+000C: a line break (CSS Syntax Level 3, "Preprocessing the input stream").
pub const FORM_FEED: u16 = 12;

/// A carriage return, U+000D: a line break.
pub const CARRIAGE_RETURN: u16 = b'\r' as u16;

/// A space, U+0020: white space.
pub const SPACE: u16 = b' ' as u16;

/// `!`, U+0021: the exclamation mark.
pub const EXCLAMATION: u16 = b'!' as u16;

/// `"`, U+0022: the double quote.
pub const QUOTE: u16 = b'"' as u16;

/// `#`, U+0023: the number sign.
pub const HASH: u16 = b'#' as u16;

/// `$`, U+0024: the dollar sign.
pub const DOLLAR: u16 = b'$' as u16;

/// `%`, U+0025: the percent sign.
pub const PERCENT: u16 = b'%' as u16;

/// `&`, U+0026: the ampersand.
pub const AMPERSAND: u16 = b'&' as u16;

/// `'`, U+0027: the single quote.
pub const APOSTROPHE: u16 = b'\'' as u16;

/// `(`, U+0028: the opening parenthesis.
pub const OPEN_PAREN: u16 = b'(' as u16;

/// `)`, U+0029: the closing parenthesis.
pub const CLOSE_PAREN: u16 = b')' as u16;

/// `*`, U+002A: the asterisk.
pub const STAR: u16 = b'*' as u16;

/// `+`, U+002B: the plus sign.
pub const PLUS: u16 = b'+' as u16;

/// `,`, U+002C: the comma.
pub const COMMA: u16 = b',' as u16;

/// `-`, U+002D: the hyphen.
pub const MINUS: u16 = b'-' as u16;

/// `.`, U+002E: the full stop.
pub const DOT: u16 = b'.' as u16;

/// `/`, U+002F: the slash.
pub const SLASH: u16 = b'/' as u16;

/// `:`, U+003A: the colon.
pub const COLON: u16 = b':' as u16;

/// `;`, U+003B: the semicolon.
pub const SEMICOLON: u16 = b';' as u16;

/// `<`, U+003C: the less-than sign.
pub const LESS: u16 = b'<' as u16;

/// `=`, U+003D: the equals sign.
pub const EQUALS: u16 = b'=' as u16;

/// `>`, U+003E: the greater-than sign.
pub const GREATER: u16 = b'>' as u16;

/// `?`, U+003F: the question mark.
pub const QUESTION: u16 = b'?' as u16;

/// `@`, U+0040: the at sign.
pub const AT: u16 = b'@' as u16;

/// `[`, U+005B: the opening square bracket.
pub const OPEN_BRACKET: u16 = b'[' as u16;

/// `\`, U+005C: the backslash, which begins an escape.
pub const BACKSLASH: u16 = b'\\' as u16;

/// `]`, U+005D: the closing square bracket.
pub const CLOSE_BRACKET: u16 = b']' as u16;

/// `^`, U+005E: the caret.
pub const CARET: u16 = b'^' as u16;

/// `_`, U+005F: the underscore.
pub const UNDERSCORE: u16 = b'_' as u16;

/// `{`, U+007B: the opening brace.
pub const OPEN_BRACE: u16 = b'{' as u16;

/// `|`, U+007C: the vertical bar.
pub const BAR: u16 = b'|' as u16;

/// `}`, U+007D: the closing brace.
pub const CLOSE_BRACE: u16 = b'}' as u16;

/// `~`, U+007E: the tilde.
pub const TILDE: u16 = b'~' as u16;

/// The least byte of a character from U+0080 on; such a character goes on with bytes below the least that begins one.
pub const FIRST_WIDE: u16 = 0x80;

/// The bytes from this one on may begin a character from U+0080 on; those below it, from 0x80, go on with one (UTF-8).
pub const FIRST_LEAD: u16 = 0xc0;
