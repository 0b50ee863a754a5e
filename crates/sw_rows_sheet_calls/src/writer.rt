// The text that a tree is written into.
use std::alloc::Global;
use sw_fixed::Fixed;
use sw_rows_files::{Refusal, TextWriter, text_of};
use sw_text::{Name, Pos, Span};

/// A text that is being written.
#[derive(Drop)]
pub struct Writer {
    alloc: Global,
    out: TextWriter,
    // Each part that has a span is followed by it.
    marks: bool,
    // It is a media query that is written.
    in_query: bool,
}

impl Writer {
    /// Nothing is written yet; with `marks` each part that has a span is followed by it.
    pub fn new(alloc: Global, marks: bool) -> Writer {
        Writer {
            alloc,
            out: TextWriter::new(alloc),
            marks,
            in_query: false,
        }
    }

    /// The whole text, or the first refusal: `Memory` where none was found.
    pub fn written(self) -> Result<String, Refusal> {
        let Writer { out, .. } = self;
        out.written()
    }

    /// Writes a text as it is; where no memory is found, the whole is refused.
    pub fn text(&mut self, text: &str) {
        self.out.text(text);
    }

    /// Writes `/**/` between two texts that a dropped comment keeps apart. Those of a media query, which are made of its
    /// parts, stand side by side without one.
    pub fn seam(&mut self) {
        if !self.in_query {
            self.text("/**/");
        }
    }

    /// Media queries begin, or end.
    pub fn set_in_query(&mut self, in_query: bool) {
        self.in_query = in_query;
    }

    /// Writes a name as it is, without escapes.
    pub fn name(&mut self, name: &Name) {
        self.out.text(name.as_str());
    }

    /// A text between two others.
    pub fn name_between(&mut self, before: &str, name: &Name, behind: &str) {
        self.text(before);
        self.name(name);
        self.text(behind);
    }

    /// Writes a decimal, without units; where no memory is found, the whole is refused.
    pub fn number(&mut self, value: Fixed) {
        self.out.add(decimal(self.alloc, value));
    }

    /// Writes a place in decimal digits.
    pub fn place(&mut self, place: usize) {
        self.out.shown(&place);
    }

    /// A text of the sheet, with an escape for each `\`, `"` and end of line, and for `#{`.
    pub fn escaped(&mut self, text: &str) {
        let mut before = ' ';
        for c in text.chars() {
            self.character(before, c);
            before = c;
        }
    }

    fn character(&mut self, before: char, c: char) {
        match c {
            '\\' => self.text("\\\\"),
            '"' => self.text("\\\""),
            '\n' => self.text("\\n"),
            '\r' => self.text("\\r"),
            '\t' => self.text("\\t"),
            '\u{c}' => self.text("\\f"),
            '{' if before == '#' => self.text("\\{"),
            _ => self.out.character(c),
        }
    }

    /// `@` and a span, where spans are written.
    pub fn mark(&mut self, span: &Span) {
        if self.marks {
            self.text("@");
            self.span(span);
        }
    }

    /// Writes a span's two ends, as `line:column-line:column`, whether spans are written or not.
    pub fn span(&mut self, span: &Span) {
        self.pos(span.from);
        self.text("-");
        self.pos(span.to);
    }

    fn pos(&mut self, pos: Pos) {
        self.out.shown(&pos.line);
        self.text(":");
        self.out.shown(&pos.column);
    }
}

fn decimal(alloc: Global, value: Fixed) -> Result<String, Refusal> {
    let mut bytes = Vec::new(alloc);
    value.write_into(&mut bytes)?;
    text_of(alloc, &bytes)
}
