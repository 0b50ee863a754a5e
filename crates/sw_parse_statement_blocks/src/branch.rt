// `@if` with its branches, and `@while`: a condition and a block.
ghost use Rattle.std.specs.Prelude.{◌≡◌, ◌∷◌, [], ◌++◌, map, IfOk, IfErr, OnOk, IsTrue, ◌<◌, length};
ghost use Rattle.sw_parse_grammar.specs.Grammar.{member, many, seq};
ghost use Rattle.sw_tree.specs.declared.statement.Statement.TheVariants as statements;
ghost use Rattle.sw_parse_table.specs.Parts.{Values, Behind, Blocks, Branches, States};
ghost use Rattle.sw_parse_table.specs.Sources.{terminal_at, span_between};
ghost use Rattle.sw_parse_table.specs.Actions.{to_if, to_while};
ghost use Rattle.sw_parse_table.specs.Statements.{block as block_row, else_if, else_, if_, while_};
ghost use Rattle.sw_parse_table.specs.Reads.{reader, reads, Reads};
ghost use Rattle.sw_parse_expr_lists.specs.Deeper.{Callable};
ghost use Rattle.sw_parse_statement_blocks.specs.Inner.{ReadingInner};
ghost use Rattle.sw_parse_statement_blocks.specs.Rows.{else_ifs, tail_row, tail_parts, chosen_parts, block_in};

use crate::block::{block_at, headed_at};
use std::alloc::Global;
use sw_expr_parse::read_value;
use sw_parse_expr_nodes::given_up;
use sw_parse_grammar::ReadError;
use sw_parse_statement_heads::{else_if_word_at, if_head_at, while_head_at};
use sw_parse_table::{Source, found, is_at, span_between};
use sw_parse_terminals::Terminal;
use sw_text::{List, Memory};
use sw_tree::{Branch, Expr, Statement, While};

fn while_of(
    source: &Source,
    at: usize,
    head: usize,
    condition: Expr,
    block: List<Statement>,
) -> Result<Statement, Memory>
    ensures { IfOk result (λ statement. to_while source.now at head (Values condition ∷ Behind head ∷ Blocks block ∷ [])
        ≡ States statement ∷ []) }
{
    match span_between(source, at, head) {
        Ok(span) => Ok(Statement::While(While {
            condition,
            block,
            span,
        })),
        Err(error) => Err(given_up((condition, block), error)),
    }
}

/// `@while` with its condition and its block.
#[tactic(auto, unfolding(sw_parse_grammar::specs::Readers::parse, sw_parse_table::specs::Statements::while_))]
pub fn while_at<S: Fn(u8, usize) -> Result<(List<Statement>, usize), ReadError> + Copy>(
    alloc: Global,
    inner: S,
    source: &Source,
    levels: u8,
    at: usize,
) -> Result<(Statement, usize), ReadError>
    requires callable { Callable (S.Fn.pre inner) levels }
    requires reading { ReadingInner (S.Fn.post inner) source.now levels }
    ensures { Reads (λ statement. States statement ∷ []) result (reads source.now levels while_ at) }
{
    let (condition, head) = while_head_at(alloc, source, levels, at)?;
    let ((condition, block), place) = headed_at(inner, source, levels, head, condition)?;
    let statement = found(while_of(source, at, head, condition, block))?;
    Ok((statement, place))
}

fn is_else_if(source: &Source, at: usize) -> bool
    ensures test { result ≡ member (terminal_at source.now at) else_ifs }
    ensures within { IsTrue result → at < length source.now.lexemes.now }
{
    is_at(source, at, Terminal::AtElseIfWhole) || is_at(source, at, Terminal::AtElseIf)
}

/// A further condition with its block.
#[tactic(auto, unfolding(sw_parse_grammar::specs::Readers::parse, sw_parse_table::specs::Statements::else_if))]
fn else_if_at<S: Fn(u8, usize) -> Result<(List<Statement>, usize), ReadError> + Copy>(
    alloc: Global,
    inner: S,
    source: &Source,
    levels: u8,
    at: usize,
) -> Result<(Branch, usize), ReadError>
    requires callable { Callable (S.Fn.pre inner) levels }
    requires reading { ReadingInner (S.Fn.post inner) source.now levels }
    ensures { Reads (λ branch. Branches branch ∷ []) result (reads source.now levels else_if at) }
{
    let place = else_if_word_at(source, levels, at)?;
    let (condition, place) = read_value(alloc, source, levels, place)?;
    let ((condition, block), place) = headed_at(inner, source, levels, place, condition)?;
    Ok((Branch { condition, block }, place))
}

fn added(list: &mut List<Branch>, branch: Branch) -> Result<(), ReadError>
    ensures more { OnOk result (map Branches list.new ≡ map Branches list.old ++ Branches branch ∷ []) }
    ensures memory { IfErr result (λ error. error ≡ ReadError.Memory) }
{
    found(list.push(branch))
}

/// Any number of further conditions with their blocks.
#[tactic(auto, unfolding(sw_parse_grammar::specs::Readers::parse))]
fn else_ifs_at<S: Fn(u8, usize) -> Result<(List<Statement>, usize), ReadError> + Copy>(
    alloc: Global,
    inner: S,
    source: &Source,
    levels: u8,
    at: usize,
) -> Result<(List<Branch>, usize), ReadError>
    requires callable { Callable (S.Fn.pre inner) levels }
    requires reading { ReadingInner (S.Fn.post inner) source.now levels }
    ensures { Reads (λ list. map Branches list) result (reader source.now levels (many (else_if source.now)) at) }
{
    let mut list = List::new(alloc);
    let mut place = at;
    'items: while is_else_if(source, place) {
        let (item, next) = else_if_at(alloc, inner, source, levels, place)?;
        added(&mut list, item)?;
        place = next;
    }
    Ok((list, place))
}

/// `@else` with its block, where it stands.
#[tactic(auto, unfolding(sw_parse_grammar::specs::Readers::parse, sw_parse_table::specs::Statements::else_))]
fn else_at<S: Fn(u8, usize) -> Result<(List<Statement>, usize), ReadError> + Copy>(
    inner: S,
    source: &Source,
    levels: u8,
    at: usize,
) -> Result<(Option<List<Statement>>, usize), ReadError>
    requires callable { Callable (S.Fn.pre inner) levels }
    requires reading { ReadingInner (S.Fn.post inner) source.now levels }
    ensures { Reads block_in result (reads source.now levels else_ at) }
{
    if !is_at(source, at, Terminal::AtElse) {
        return Ok((None, at));
    }
    let (list, place) = block_at(inner, source, levels, at + 1)?;
    Ok((Some(list), place))
}

/// What stands behind the first block of `@if`.
#[derive(Drop)]
pub(crate) struct Tail {
    pub branches: List<Branch>,
    /// The block of `@else`.
    pub otherwise: Option<List<Statement>>,
}

#[tactic(auto, unfolding(sw_parse_grammar::specs::Readers::parse))]
fn tail_at<S: Fn(u8, usize) -> Result<(List<Statement>, usize), ReadError> + Copy>(
    alloc: Global,
    inner: S,
    source: &Source,
    levels: u8,
    at: usize,
) -> Result<(Tail, usize), ReadError>
    requires callable { Callable (S.Fn.pre inner) levels }
    requires reading { ReadingInner (S.Fn.post inner) source.now levels }
    ensures { Reads tail_parts result (reader source.now levels (tail_row source.now) at) }
{
    let (branches, place) = else_ifs_at(alloc, inner, source, levels, at)?;
    match else_at(inner, source, levels, place) {
        Ok((otherwise, place)) => {
            let tail = Tail {
                branches,
                otherwise,
            };
            Ok((tail, place))
        }
        Err(error) => Err(given_up(branches, error)),
    }
}

/// The blocks of `@if` with their conditions.
#[derive(Drop)]
pub(crate) struct Chosen {
    pub first: Branch,
    pub tail: Tail,
}

/// The first block, and all that stands behind it.
#[tactic(auto, unfolding(sw_parse_grammar::specs::Readers::parse))]
fn chosen_at<S: Fn(u8, usize) -> Result<(List<Statement>, usize), ReadError> + Copy>(
    alloc: Global,
    inner: S,
    source: &Source,
    levels: u8,
    at: usize,
    condition: Expr,
) -> Result<(Chosen, usize), ReadError>
    requires callable { Callable (S.Fn.pre inner) levels }
    requires reading { ReadingInner (S.Fn.post inner) source.now levels }
    ensures parts { Reads chosen_parts result (reader source.now levels (seq (block_row source.now) (tail_row source.now))
        at) }
    ensures condition { IfOk result (λ read. read.0.first.condition ≡ condition) }
{
    let ((condition, block), place) = headed_at(inner, source, levels, at, condition)?;
    let first = Branch { condition, block };
    match tail_at(alloc, inner, source, levels, place) {
        Ok((tail, place)) => Ok((Chosen { first, tail }, place)),
        Err(error) => Err(given_up(first, error)),
    }
}

fn branches_of(first: Branch, rest: List<Branch>) -> Result<List<Branch>, Memory>
    ensures { IfOk result (λ list. list ≡ first ∷ rest) }
{
    let mut list = rest.into_vec();
    list.insert(0, first)?;
    Ok(List::from_vec(list))
}

fn if_with(
    source: &Source,
    at: usize,
    head: usize,
    branches: List<Branch>,
    otherwise: Option<List<Statement>>,
) -> Result<Statement, Memory>
    ensures { IfOk result (λ statement. statement ≡ statements.If branches otherwise (span_between source.now at head)) }
{
    match span_between(source, at, head) {
        Ok(span) => Ok(Statement::If {
            branches,
            otherwise,
            span,
        }),
        Err(error) => Err(given_up((branches, otherwise), error)),
    }
}

#[tactic(auto, using(crate::proofs::Collected::collected))]
fn if_of(source: &Source, at: usize, head: usize, chosen: Chosen) -> Result<Statement, Memory>
    ensures { IfOk result (λ statement. to_if source.now at head (Values chosen.first.condition ∷ Behind head
        ∷ chosen_parts chosen) ≡ States statement ∷ []) }
{
    let Chosen { first, tail } = chosen;
    let Tail {
        branches,
        otherwise,
    } = tail;
    match branches_of(first, branches) {
        Ok(branches) => if_with(source, at, head, branches, otherwise),
        Err(error) => Err(given_up(otherwise, error)),
    }
}

/// `@if` with its block, each `@else if`, and `@else`.
#[tactic(auto, unfolding(sw_parse_grammar::specs::Readers::parse, sw_parse_table::specs::Statements::if_))]
pub fn if_at<S: Fn(u8, usize) -> Result<(List<Statement>, usize), ReadError> + Copy>(
    alloc: Global,
    inner: S,
    source: &Source,
    levels: u8,
    at: usize,
) -> Result<(Statement, usize), ReadError>
    requires callable { Callable (S.Fn.pre inner) levels }
    requires reading { ReadingInner (S.Fn.post inner) source.now levels }
    ensures { Reads (λ statement. States statement ∷ []) result (reads source.now levels if_ at) }
{
    let (condition, head) = if_head_at(alloc, source, levels, at)?;
    let (chosen, place) = chosen_at(alloc, inner, source, levels, head, condition)?;
    let statement = found(if_of(source, at, head, chosen))?;
    Ok((statement, place))
}
