// The variables that a load configures, over a reader of lists without commas.
ghost use Rattle.std.specs.Prelude.{◌≡◌, ◌∷◌, [], ◌++◌, map, IfOk, IfErr, OnOk};
ghost use Rattle.std.specs.List.{list_any};
ghost use Rattle.sw_parse_grammar.specs.Grammar.{sep};
ghost use Rattle.sw_parse_grammar.specs.Readers.{Answers};
ghost use Rattle.sw_parse_terminals.specs.declared.terminal.Terminal.TheVariants.{Comma, Default};
ghost use Rattle.sw_parse_terminals.specs.Numbers.{just};
ghost use Rattle.sw_parse_table.specs.Parts.{Place, Behind, Gives, places_of};
ghost use Rattle.sw_parse_table.specs.Sources.{span_between};
ghost use Rattle.sw_parse_table.specs.Expressions.{colon_space};
ghost use Rattle.sw_parse_table.specs.Statements.{given_name};
ghost use Rattle.sw_parse_table.specs.Actions.{name_at, stands_at, to_given};
ghost use Rattle.sw_parse_table.specs.Reads.{reader, reads, Reads, ReadsValue};
ghost use Rattle.sw_parse_expr_lists.specs.Deeper.{CallableAt, ReadingAt, Callable, Reading};
ghost use Rattle.sw_parse_statement_text.specs.Rows.{place_in};
ghost use Rattle.sw_parse_statement_text.specs.Loads.{flag_of, valued_of, valued_parts, named_row, given_row, giving_row, configuration_row, worded_row, with_row};

use crate::name::dollar_name_at;
use std::alloc::Global;
use sw_parse_expr_nodes::{given_up, is_dollar, skipped};
use sw_parse_grammar::ReadError;
use sw_parse_table::{Source, bytes_at, found, is_at, span_between};
use sw_parse_terminals::Terminal;
use sw_text::{List, Memory, Name, Span};
use sw_tree::{Expr, Given};

/// Which statement configures a load.
#[derive(Clone, Copy, Debug)]
pub enum Load {
    Use,
    /// `@forward`, whose variables may have `!default`.
    Forward,
}

/// `!default`, where it may stand: the place of the word.
#[tactic(auto, unfolding(sw_parse_grammar::specs::Readers::parse, sw_parse_table::specs::Statements::default_flag))]
fn flag_at(
    source: &Source,
    levels: u8,
    at: usize,
    load: Load,
) -> Result<(Option<usize>, usize), ReadError>
    ensures { Reads place_in result (reader source.now levels (flag_of source.now load) at) }
{
    match load {
        Load::Use => Ok((None, at)),
        Load::Forward => {
            if !is_at(source, at, Terminal::Ending) {
                return Ok((None, at));
            }
            if !is_at(source, at + 1, Terminal::Default) {
                return Err(ReadError::Unexpected(at + 1));
            }
            Ok((Some(at + 1), at + 2))
        }
    }
}

/// A value behind a `:`.
#[tactic(auto, unfolding(sw_parse_grammar::specs::Readers::parse, sw_parse_table::specs::Expressions::colon_space))]
fn value_at<F: Fn(u8, usize) -> Result<(Expr, usize), ReadError> + Copy>(
    deeper: F,
    source: &Source,
    levels: u8,
    at: usize,
) -> Result<(Expr, usize), ReadError>
    requires callable { CallableAt (F.Fn.pre deeper) levels }
    requires reading { ReadingAt (F.Fn.post deeper) source.now levels }
    ensures { ReadsValue result (reads source.now levels colon_space at) }
{
    let place = skipped(source, levels, at, Terminal::Colon)?;
    deeper(levels, place)
}

/// A value, and the place of `default` where that is written behind it.
#[derive(Drop)]
pub(crate) struct Valued {
    pub value: Expr,
    pub flag: Option<usize>,
}

/// A value behind a `:`, with its flag.
#[tactic(auto, unfolding(sw_parse_grammar::specs::Readers::parse))]
fn valued_at<F: Fn(u8, usize) -> Result<(Expr, usize), ReadError> + Copy>(
    deeper: F,
    source: &Source,
    levels: u8,
    at: usize,
    load: Load,
) -> Result<(Valued, usize), ReadError>
    requires callable { CallableAt (F.Fn.pre deeper) levels }
    requires reading { ReadingAt (F.Fn.post deeper) source.now levels }
    ensures { Reads valued_parts result (reader source.now levels (valued_of source.now load) at) }
{
    let (value, place) = value_at(deeper, source, levels, at)?;
    match flag_at(source, levels, place, load) {
        Ok((flag, next)) => Ok((Valued { value, flag }, next)),
        Err(error) => Err(given_up(value, error)),
    }
}

fn name_of(
    alloc: Global,
    source: &Source,
    at: usize,
    head: usize,
    name: usize,
) -> Result<(Name, Span), Memory>
    ensures name { IfOk result (λ both. both.0 ≡ name_at source.now name) }
    ensures span { IfOk result (λ both. both.1 ≡ span_between source.now at head) }
{
    let span = span_between(source, at, head)?;
    Ok((Name::dashed(alloc, bytes_at(source, name))?, span))
}

fn is_default(source: &Source, flag: Option<usize>) -> bool
    ensures { result ≡ list_any (λ at. stands_at source.now at Default) (places_of (place_in flag)) }
{
    match flag {
        None => false,
        Some(at) => is_at(source, at, Terminal::Default),
    }
}

fn given_of(
    alloc: Global,
    source: &Source,
    at: usize,
    head: usize,
    name: usize,
    valued: Valued,
) -> Result<Given, Memory>
    ensures { IfOk result (λ given. to_given source.now at head (Place name ∷ Behind head ∷ valued_parts valued) ≡ Gives
        given ∷ []) }
{
    let default = is_default(source, valued.flag);
    let Valued { value, flag: _ } = valued;
    match name_of(alloc, source, at, head, name) {
        Ok((name, name_span)) => Ok(Given {
            name,
            name_span,
            value,
            default,
        }),
        Err(error) => Err(given_up(value, error)),
    }
}

/// The place of the name of such a variable, and the one behind it.
#[tactic(auto, unfolding(sw_parse_grammar::specs::Readers::parse, sw_parse_table::specs::Statements::given_name))]
fn given_name_at(source: &Source, levels: u8, at: usize) -> Result<(usize, usize), ReadError>
    ensures { Answers (λ read. Place read.0 ∷ Behind read.1 ∷ []) (λ read. read.1) result (reads source.now levels
        given_name at) }
{
    dollar_name_at(source, levels, at)
}

#[tactic(auto, unfolding(sw_parse_grammar::specs::Readers::parse))]
fn named_at<F: Fn(u8, usize) -> Result<(Expr, usize), ReadError> + Copy>(
    alloc: Global,
    deeper: F,
    source: &Source,
    levels: u8,
    at: usize,
    load: Load,
) -> Result<(Given, usize), ReadError>
    requires callable { CallableAt (F.Fn.pre deeper) levels }
    requires reading { ReadingAt (F.Fn.post deeper) source.now levels }
    ensures { Reads (λ given. Gives given ∷ []) result (reader source.now levels (named_row source.now load) at) }
{
    let (name, head) = given_name_at(source, levels, at)?;
    let (valued, place) = valued_at(deeper, source, levels, head, load)?;
    let given = found(given_of(alloc, source, at, head, name, valued))?;
    Ok((given, place))
}

/// A variable that a load configures.
fn given_at<F: Fn(u8, usize) -> Result<(Expr, usize), ReadError> + Copy>(
    alloc: Global,
    deeper: F,
    source: &Source,
    levels: u8,
    at: usize,
    load: Load,
) -> Result<(Given, usize), ReadError>
    requires callable { CallableAt (F.Fn.pre deeper) levels }
    requires reading { ReadingAt (F.Fn.post deeper) source.now levels }
    ensures { Reads (λ given. Gives given ∷ []) result (reader source.now levels (given_row source.now load) at) }
{
    named_at(alloc, deeper, source, levels, at, load)
}

fn added(list: &mut List<Given>, given: Given) -> Result<(), ReadError>
    ensures more { OnOk result (map Gives list.new ≡ map Gives list.old ++ Gives given ∷ []) }
    ensures memory { IfErr result (λ error. error ≡ ReadError.Memory) }
{
    found(list.push(given))
}

/// Further variables, each behind a `,`, which may stand behind the last one too.
#[tactic(auto, unfolding(sw_parse_grammar::specs::Readers::parse))]
fn givens_at<F: Fn(u8, usize) -> Result<(Expr, usize), ReadError> + Copy>(
    alloc: Global,
    deeper: F,
    source: &Source,
    levels: u8,
    at: usize,
    load: Load,
) -> Result<(List<Given>, usize), ReadError>
    requires callable { CallableAt (F.Fn.pre deeper) levels }
    requires reading { ReadingAt (F.Fn.post deeper) source.now levels }
    ensures { Reads (λ list. map Gives list) result (reader source.now levels (sep (just Comma) (given_row source.now
        load)) at) }
{
    let mut list = List::new(alloc);
    let mut place = at;
    'items: while is_at(source, place, Terminal::Comma) {
        if !is_dollar(source, place + 1) {
            return Ok((list, place + 1));
        }
        let (item, next) = given_at(alloc, deeper, source, levels, place + 1, load)?;
        added(&mut list, item)?;
        place = next;
    }
    Ok((list, place))
}

fn all_of(first: Given, rest: List<Given>) -> Result<List<Given>, Memory>
    ensures { IfOk result (λ list. map Gives list ≡ Gives first ∷ map Gives rest) }
{
    let mut list = rest.into_vec();
    list.insert(0, first)?;
    Ok(List::from_vec(list))
}

/// All the variables that a load configures.
#[tactic(auto, unfolding(sw_parse_grammar::specs::Readers::parse))]
fn giving_at<F: Fn(u8, usize) -> Result<(Expr, usize), ReadError> + Copy>(
    alloc: Global,
    deeper: F,
    source: &Source,
    levels: u8,
    at: usize,
    load: Load,
) -> Result<(List<Given>, usize), ReadError>
    requires callable { CallableAt (F.Fn.pre deeper) levels }
    requires reading { ReadingAt (F.Fn.post deeper) source.now levels }
    ensures { Reads (λ list. map Gives list) result (reader source.now levels (giving_row source.now load) at) }
{
    let (first, place) = given_at(alloc, deeper, source, levels, at, load)?;
    let (rest, place) = givens_at(alloc, deeper, source, levels, place, load)?;
    let list = found(all_of(first, rest))?;
    Ok((list, place))
}

/// The same in parentheses, which open a level.
#[tactic(auto, unfolding(sw_parse_grammar::specs::Readers::parse))]
fn configuration_at<F: Fn(u8, usize) -> Result<(Expr, usize), ReadError> + Copy>(
    alloc: Global,
    deeper: F,
    source: &Source,
    levels: u8,
    at: usize,
    load: Load,
) -> Result<(List<Given>, usize), ReadError>
    requires callable { Callable (F.Fn.pre deeper) levels }
    requires reading { Reading (F.Fn.post deeper) source.now levels }
    ensures { Reads (λ list. map Gives list) result (reader source.now levels (configuration_row load) at) }
{
    if !is_at(source, at, Terminal::HeadParen) {
        return Err(ReadError::Unexpected(at));
    }
    if levels == 0 {
        return Err(ReadError::TooDeep(at));
    }
    let (list, place) = giving_at(alloc, deeper, source, levels - 1, at + 1, load)?;
    if !is_at(source, place, Terminal::ParenEnd) {
        return Err(ReadError::Unexpected(place));
    }
    Ok((list, place + 1))
}

/// `with` and the parentheses behind it.
#[tactic(auto, unfolding(sw_parse_grammar::specs::Readers::parse))]
fn worded_at<F: Fn(u8, usize) -> Result<(Expr, usize), ReadError> + Copy>(
    alloc: Global,
    deeper: F,
    source: &Source,
    levels: u8,
    at: usize,
    load: Load,
) -> Result<(List<Given>, usize), ReadError>
    requires callable { Callable (F.Fn.pre deeper) levels }
    requires reading { Reading (F.Fn.post deeper) source.now levels }
    ensures { Reads (λ list. map Gives list) result (reader source.now levels (worded_row load) at) }
{
    let place = skipped(source, levels, at, Terminal::With)?;
    configuration_at(alloc, deeper, source, levels, place, load)
}

/// `with (..)` behind a load, where it stands.
pub fn with_at<F: Fn(u8, usize) -> Result<(Expr, usize), ReadError> + Copy>(
    alloc: Global,
    deeper: F,
    source: &Source,
    levels: u8,
    at: usize,
    load: Load,
) -> Result<(List<Given>, usize), ReadError>
    requires callable { Callable (F.Fn.pre deeper) levels }
    requires reading { Reading (F.Fn.post deeper) source.now levels }
    ensures { Reads (λ list. map Gives list) result (reader source.now levels (with_row source.now load) at) }
{
    if !is_at(source, at, Terminal::With) {
        return Ok((List::new(alloc), at));
    }
    worded_at(alloc, deeper, source, levels, at, load)
}
