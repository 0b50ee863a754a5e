// Values as rows write them: `1px/s`, `1/2` with its sides, `"a"`, `#fff`, `red`, `a`, `'var(--a)'` without quotes,
// `null`, `(a, b)`, `(a b)`, `(a / b)`, `(a,)`, `[a b]`, `()`, `(k: v)`, `args(a, $n: b)`; and `text*9`, `nested*9` and
// `nulls*9` for what is too long to be written.
use crate::values::{DEPTH, value_of};
use std::alloc::Global;
use sw_colour::Colour;
use sw_fixed::Fixed;
use sw_ops::kept_quotient;
use sw_rows_files::{Refusal, add_unescaped, answer_of, names, text_of};
use sw_text::{List, Name, Shared};
use sw_units::{Number, Units};
use sw_values::{Node, Separator, Value, list_of, map_of};

/// A text that is read from its start.
#[derive(Clone, Copy, Debug)]
pub struct Reader<'a> {
    rest: &'a str,
}

// What stands behind an item.
#[derive(Clone, Copy, Debug, PartialEq, Eq)]
enum Mark {
    Colon,
    Comma,
    Space,
    Slash,
    End,
    Other,
}

// What stands between two brackets: items, and of a map the keys beside them.
#[derive(Drop)]
struct Items {
    keys: List<Value>,
    values: List<Value>,
    separator: Separator,
}

impl Items {
    fn new(alloc: Global) -> Items {
        Items {
            keys: List::new(alloc),
            values: List::new(alloc),
            separator: Separator::Undecided,
        }
    }

    // An item with what stands behind it.
    fn add(&mut self, item: Value, mark: Mark) -> Result<(), Refusal> {
        match mark {
            Mark::Colon => return Ok(self.keys.push(item)?),
            Mark::Comma => self.separator = Separator::Comma,
            Mark::Space => self.separator = Separator::Space,
            Mark::Slash => self.separator = Separator::Slash,
            Mark::End => {}
            Mark::Other => return Err(Refusal::NoCall),
        }
        Ok(self.values.push(item)?)
    }

    fn value(&self, alloc: Global, bracketed: bool) -> Result<Value, Refusal> {
        if self.keys.is_empty() {
            let items = self.values.as_slice();
            return answer_of(alloc, list_of(alloc, items, self.separator, bracketed));
        }
        map(alloc, self.keys.as_slice(), self.values.as_slice())
    }
}

fn map(alloc: Global, keys: &[Value], values: &[Value]) -> Result<Value, Refusal> {
    if keys.len() != values.len() {
        return Err(Refusal::NoCall);
    }
    let mut pairs = Vec::new(alloc);
    for (key, value) in keys.iter().zip(values) {
        pairs.push((key.share()?, value.share()?))?;
    }
    answer_of(alloc, map_of(alloc, &pairs))
}

// The values of an argument list, those without names and the others.
#[derive(Drop)]
struct Arguments {
    items: List<Value>,
    named: List<(Name, Value)>,
}

impl Arguments {
    fn new(alloc: Global) -> Arguments {
        Arguments {
            items: List::new(alloc),
            named: List::new(alloc),
        }
    }

    fn add(&mut self, alloc: Global, name: Option<&str>, value: Value) -> Result<(), Refusal> {
        match name {
            None => Ok(self.items.push(value)?),
            Some(name) => Ok(self.named.push((Name::new(alloc, name)?, value))?),
        }
    }

    fn value(self, alloc: Global) -> Result<Value, Refusal> {
        let Arguments { items, named } = self;
        let items = Shared::new(alloc, items)?;
        let named = Shared::new(alloc, named)?;
        value_of(alloc, Node::Args { items, named })
    }
}

impl<'a> Reader<'a> {
    /// A reader at the start of a text.
    pub fn new(text: &'a str) -> Reader<'a> {
        Reader { rest: text }
    }

    /// Whether the whole text was read.
    pub fn is_done(&self) -> bool {
        self.rest.is_empty()
    }

    /// Whether this text came next, which is passed over.
    pub fn took(&mut self, text: &str) -> bool {
        match self.rest.strip_prefix(text) {
            Some(rest) => {
                self.rest = rest;
                true
            }
            None => false,
        }
    }

    /// The characters before the next of those that end a word.
    pub fn word(&mut self) -> &'a str {
        let rest = self.rest.trim_start_matches(|c: char| {
            !matches!(c, ' ' | ',' | ':' | ')' | ']' | '(' | '[' | '"')
        });
        let word = self.rest.strip_suffix(rest).unwrap_or("");
        self.rest = rest;
        word
    }

    /// The next value, in which so many brackets stand in one another at most.
    #[cycle(reading)]
    pub fn value(&mut self, alloc: Global, depth: u32) -> Result<Value, Refusal> {
        if depth == 0 {
            return Err(Refusal::NoCall);
        }
        if self.took("\"") {
            return self.string(alloc, '"', true);
        }
        if self.took("'") {
            return self.string(alloc, '\'', false);
        }
        if self.took("args(") {
            return self.arguments(alloc, depth - 1);
        }
        if self.took("[") {
            return self.list(alloc, depth - 1, "]");
        }
        if self.took("(") {
            return self.list(alloc, depth - 1, ")");
        }
        word_value(alloc, self.word())
    }

    /// Reads the next value, behind those that were read before.
    pub fn read_into(&mut self, alloc: Global, values: &mut List<Value>) -> Result<(), Refusal> {
        Ok(values.push(self.value(alloc, DEPTH)?)?)
    }

    // The string behind its first quote.
    fn string(&mut self, alloc: Global, quote: char, quoted: bool) -> Result<Value, Refusal> {
        let (text, rest) = self.rest.split_once(quote).unwrap_or((self.rest, ""));
        self.rest = rest;
        let mut bytes = Vec::new(alloc);
        add_unescaped(text, &mut bytes)?;
        let text = text_of(alloc, &bytes)?;
        string(alloc, text.as_str(), quoted)
    }

    // The list or map behind its first bracket.
    #[cycle(reading)]
    fn list(&mut self, alloc: Global, depth: u32, end: &str) -> Result<Value, Refusal> {
        let mut items = Items::new(alloc);
        self.items(alloc, depth, end, &mut items)?;
        items.value(alloc, end == "]")
    }

    // The items before the last bracket.
    #[cycle(reading)]
    fn items(
        &mut self,
        alloc: Global,
        depth: u32,
        end: &str,
        items: &mut Items,
    ) -> Result<(), Refusal> {
        for _ in 0..self.rest.len() {
            if self.took(end) {
                return Ok(());
            }
            let item = self.value(alloc, depth)?;
            items.add(item, self.mark(end))?;
        }
        Err(Refusal::NoCall)
    }

    // What stands behind an item, but for the last bracket.
    fn mark(&mut self, end: &str) -> Mark {
        if self.took(": ") {
            Mark::Colon
        } else if self.took(" / ") {
            Mark::Slash
        } else if self.took(", ") || self.took(",") {
            Mark::Comma
        } else if self.took(" ") {
            Mark::Space
        } else if self.rest.starts_with(end) {
            Mark::End
        } else {
            Mark::Other
        }
    }

    // The argument list behind `args(`.
    #[cycle(reading)]
    fn arguments(&mut self, alloc: Global, depth: u32) -> Result<Value, Refusal> {
        let mut passed = Arguments::new(alloc);
        for _ in 0..self.rest.len() {
            if self.took(")") {
                return passed.value(alloc);
            }
            self.took(", ");
            let name = self.name();
            let value = self.value(alloc, depth)?;
            passed.add(alloc, name, value)?;
        }
        Err(Refusal::NoCall)
    }

    /// The name before a value, as `$a: `, if one stands there.
    pub fn name(&mut self) -> Option<&'a str> {
        if !self.took("$") {
            return None;
        }
        let name = self.word();
        self.took(": ");
        Some(name)
    }
}

/// Values with ` ; ` between two.
pub fn values_of(alloc: Global, text: &str) -> Result<List<Value>, Refusal> {
    let mut values = List::new(alloc);
    let mut reader = Reader::new(text);
    for _ in 0..text.len() {
        if reader.is_done() {
            return Ok(values);
        }
        reader.read_into(alloc, &mut values)?;
        reader.took(" ; ");
    }
    Ok(values)
}

// A string.
fn string(alloc: Global, text: &str, quoted: bool) -> Result<Value, Refusal> {
    let text = Name::new(alloc, text)?;
    value_of(alloc, Node::Text { text, quoted })
}

fn word_value(alloc: Global, word: &str) -> Result<Value, Refusal> {
    if let Some((form, count)) = word.split_once('*') {
        if let Ok(count) = count.parse::<u32>() {
            return repeated(alloc, form, count);
        }
    }
    if starts_number(word) {
        return number_value(alloc, word);
    }
    if word.starts_with('#') {
        return colour_value(alloc, Colour::from_hex(alloc, word)?);
    }
    match word {
        "" => Err(Refusal::NoCall),
        "null" => Ok(Value::null()),
        "true" => Ok(Value::of_truth(true)),
        "false" => Ok(Value::of_truth(false)),
        _ => match Colour::by_name(alloc, word)? {
            Some(colour) => value_of(alloc, Node::Colour(colour)),
            None => string(alloc, word, false),
        },
    }
}

fn colour_value(alloc: Global, colour: Option<Colour>) -> Result<Value, Refusal> {
    match colour {
        Some(colour) => value_of(alloc, Node::Colour(colour)),
        None => Err(Refusal::named(alloc, "NotColour")?),
    }
}

fn starts_number(word: &str) -> bool {
    let unsigned = word.strip_prefix('-').unwrap_or(word);
    unsigned.starts_with(|c: char| c.is_ascii_digit() || c == '.')
}

// A number with its units, or a chain of quotients that keep their sides.
fn number_value(alloc: Global, word: &str) -> Result<Value, Refusal> {
    let (left, right) = word.split_once('/').unwrap_or((word, ""));
    if !starts_number(right) {
        return plain_number(alloc, left, right);
    }
    let mut value = plain_number(alloc, left, "")?;
    for part in right.split('/') {
        value = kept(alloc, value, part)?;
    }
    Ok(value)
}

fn plain_number(alloc: Global, text: &str, under: &str) -> Result<Value, Refusal> {
    value_of(alloc, Node::Number(number(alloc, text, under)?))
}

fn kept(alloc: Global, left: Value, part: &str) -> Result<Value, Refusal> {
    let right = number(alloc, part, "")?;
    match left.node() {
        Node::Number(left) => answer_of(alloc, kept_quotient(alloc, left, &right)),
        _ => Err(Refusal::NoCall),
    }
}

// A number with the units behind it, and those under the line.
fn number(alloc: Global, text: &str, under: &str) -> Result<Number, Refusal> {
    let over = text.trim_start_matches(|c: char| c.is_ascii_digit() || c == '.' || c == '-');
    let value = text.strip_suffix(over).unwrap_or("");
    let value = answer_of(alloc, Fixed::read(value))?;
    Ok(Number::plain(value, units(alloc, over, under)?))
}

fn units(alloc: Global, over: &str, under: &str) -> Result<Units, Refusal> {
    let over = names(alloc, over, '*')?;
    let under = names(alloc, under, '*')?;
    answer_of(alloc, Units::of(&over, &under))
}

// A text of so many letters, a null in so many lists, or a list of so many nulls.
fn repeated(alloc: Global, form: &str, count: u32) -> Result<Value, Refusal> {
    match form {
        "text" => letters(alloc, count),
        "nested" => nested(alloc, count),
        "nulls" => nulls(alloc, count),
        _ => Err(Refusal::NoCall),
    }
}

fn letters(alloc: Global, count: u32) -> Result<Value, Refusal> {
    let mut text = String::new(alloc);
    for _ in 0..count {
        text.push('x')?;
    }
    string(alloc, text.as_str(), false)
}

fn nested(alloc: Global, count: u32) -> Result<Value, Refusal> {
    let mut value = Value::null();
    for _ in 0..count {
        value = answer_of(alloc, list_of(alloc, &[value], Separator::Comma, false))?;
    }
    Ok(value)
}

fn nulls(alloc: Global, count: u32) -> Result<Value, Refusal> {
    let mut items = Vec::new(alloc);
    for _ in 0..count {
        items.push(Value::null())?;
    }
    answer_of(alloc, list_of(alloc, &items, Separator::Comma, false))
}
