// Parameter lists that are made of names.
ghost use Rattle.std.specs.Prelude.{◌≡◌, ◌++◌, ◌∷◌, [], IfOk, OnOk};
ghost use Rattle.sw_text.specs.Starts.{start_of};
ghost use Rattle.sw_builtins.specs.Shapes.{kind_of as kind_of_default, default_of as default_expr, number as number_kind, needed, optional, fixed, with_rest, joining};
ghost use Rattle.sw_builtins.specs.Signatures.{color_and_parts};
ghost use Rattle.sw_builtins.specs.declared.shapes.Fallback.TheVariants as F;

use std::alloc::Global;
use sw_fixed::Fixed;
use sw_text::{List, Memory, Name, Span};
use sw_tree::{Constant, Expr, ExprKind, Number, Param, Params, Parts};

/// What a parameter is where no argument is given for it.
#[derive(Clone, Copy, Debug)]
pub(crate) enum Fallback {
    Null,
    /// `auto`
    Auto,
    /// -1, the last place.
    Last,
    /// 50%
    Half,
    /// 100%
    Whole,
}

// ---- defaults

fn number(alloc: Global, value: Fixed, unit: &str) -> Result<ExprKind, Memory>
    ensures { IfOk result (λ kind. kind ≡ number_kind value unit.now) }
{
    let unit = Name::new(alloc, unit)?;
    Ok(ExprKind::Number(Number {
        value: Some(value),
        unit,
    }))
}

fn kind_of(alloc: Global, fallback: Fallback) -> Result<ExprKind, Memory>
    ensures { IfOk result (λ kind. kind ≡ kind_of_default fallback) }
{
    match fallback {
        Fallback::Null => Ok(ExprKind::Constant(Constant::Null)),
        Fallback::Auto => {
            let word = Name::new(alloc, "auto")?;
            Ok(ExprKind::Word(Parts::Plain(word)))
        }
        Fallback::Last => number(alloc, Fixed::from_mantissa(-10_000_000_000), ""),
        Fallback::Half => number(alloc, Fixed::from_mantissa(500_000_000_000), "%"),
        Fallback::Whole => number(alloc, Fixed::from_mantissa(1_000_000_000_000), "%"),
    }
}

fn nowhere(alloc: Global) -> Result<Span, Memory>
    ensures { IfOk result (λ span. span ≡ start_of []) }
{
    let file = Name::new(alloc, "")?;
    Span::start_of(&file)
}

fn default_of(alloc: Global, fallback: Fallback) -> Result<Expr, Memory>
    ensures { IfOk result (λ expr. expr ≡ default_expr fallback) }
{
    let span = nowhere(alloc)?;
    match kind_of(alloc, fallback) {
        Ok(kind) => Ok(Expr { kind, span }),
        Err(_) => Err(Memory),
    }
}

// ---- parameters

fn push_needed(alloc: Global, items: &mut List<Param>, name: &str) -> Result<(), Memory>
    ensures { OnOk result (items.new ≡ items.old ++ needed name.now ∷ []) }
{
    let name = Name::new(alloc, name)?;
    items.push(Param {
        name,
        default: None,
    })
}

fn optional(alloc: Global, name: &str, fallback: Fallback) -> Result<Param, Memory>
    ensures { IfOk result (λ param. param ≡ optional name.now fallback) }
{
    let name = Name::new(alloc, name)?;
    match default_of(alloc, fallback) {
        Ok(default) => Ok(Param {
            name,
            default: Some(default),
        }),
        Err(_) => Err(Memory),
    }
}

fn push_optional(
    alloc: Global,
    items: &mut List<Param>,
    name: &str,
    fallback: Fallback,
) -> Result<(), Memory>
    ensures { OnOk result (items.new ≡ items.old ++ optional name.now fallback ∷ []) }
{
    match optional(alloc, name, fallback) {
        Ok(param) => items.push(param),
        Err(_) => Err(Memory),
    }
}

// ---- lists

fn fixed(items: List<Param>) -> Params
    ensures { result ≡ fixed items }
{
    Params { items, rest: None }
}

pub(crate) fn none(alloc: Global) -> Params
    ensures { result ≡ fixed [] }
{
    fixed(List::new(alloc))
}

pub(crate) fn one(alloc: Global, name: &str) -> Result<Params, Memory>
    ensures { IfOk result (λ params. params ≡ fixed (needed name.now ∷ [])) }
{
    let mut items = List::new(alloc);
    push_needed(alloc, &mut items, name)?;
    Ok(fixed(items))
}

pub(crate) fn two(alloc: Global, first: &str, second: &str) -> Result<Params, Memory>
    ensures { IfOk result (λ params. params ≡ fixed (needed first.now ∷ needed second.now ∷ [])) }
{
    let mut items = List::new(alloc);
    push_needed(alloc, &mut items, first)?;
    push_needed(alloc, &mut items, second)?;
    Ok(fixed(items))
}

pub(crate) fn three(alloc: Global, first: &str, second: &str, third: &str) -> Result<Params, Memory>
    ensures { IfOk result (λ params. params ≡ fixed (needed first.now ∷ needed second.now ∷ needed third.now ∷ [])) }
{
    let mut items = List::new(alloc);
    push_needed(alloc, &mut items, first)?;
    push_needed(alloc, &mut items, second)?;
    push_needed(alloc, &mut items, third)?;
    Ok(fixed(items))
}

pub(crate) fn four(
    alloc: Global,
    first: &str,
    second: &str,
    third: &str,
    fourth: &str,
) -> Result<Params, Memory>
    ensures { IfOk result (λ params. params
        ≡ fixed (needed first.now ∷ needed second.now ∷ needed third.now ∷ needed fourth.now ∷ [])) }
{
    let mut items = List::new(alloc);
    push_needed(alloc, &mut items, first)?;
    push_needed(alloc, &mut items, second)?;
    push_needed(alloc, &mut items, third)?;
    push_needed(alloc, &mut items, fourth)?;
    Ok(fixed(items))
}

/// One parameter, and one with a default.
pub(crate) fn one_or(
    alloc: Global,
    first: &str,
    second: &str,
    fallback: Fallback,
) -> Result<Params, Memory>
    ensures { IfOk result (λ params. params ≡ fixed (needed first.now ∷ optional second.now fallback ∷ [])) }
{
    let mut items = List::new(alloc);
    push_needed(alloc, &mut items, first)?;
    push_optional(alloc, &mut items, second, fallback)?;
    Ok(fixed(items))
}

/// Two parameters, and one with a default.
pub(crate) fn two_or(
    alloc: Global,
    first: &str,
    second: &str,
    third: &str,
    fallback: Fallback,
) -> Result<Params, Memory>
    ensures { IfOk result (λ params. params
        ≡ fixed (needed first.now ∷ needed second.now ∷ optional third.now fallback ∷ [])) }
{
    let mut items = List::new(alloc);
    push_needed(alloc, &mut items, first)?;
    push_needed(alloc, &mut items, second)?;
    push_optional(alloc, &mut items, third, fallback)?;
    Ok(fixed(items))
}

/// The parameters of `join`.
pub(crate) fn joining(alloc: Global) -> Result<Params, Memory>
    ensures { IfOk result (λ params. params ≡ joining) }
{
    let mut items = List::new(alloc);
    push_needed(alloc, &mut items, "list1")?;
    push_needed(alloc, &mut items, "list2")?;
    push_optional(alloc, &mut items, "separator", Fallback::Auto)?;
    push_optional(alloc, &mut items, "bracketed", Fallback::Auto)?;
    Ok(fixed(items))
}

// Three parameters that are null where they aren't given.
fn push_three(
    alloc: Global,
    items: &mut List<Param>,
    first: &str,
    second: &str,
    third: &str,
) -> Result<(), Memory>
    ensures { OnOk result (items.new ≡ items.old ++ optional first.now F.Null
        ∷ optional second.now F.Null ∷ optional third.now F.Null ∷ []) }
{
    push_optional(alloc, items, first, Fallback::Null)?;
    push_optional(alloc, items, second, Fallback::Null)?;
    push_optional(alloc, items, third, Fallback::Null)
}

/// A colour and its parts.
pub(crate) fn color_and_parts(alloc: Global) -> Result<Params, Memory>
    ensures { IfOk result (λ params. params ≡ color_and_parts) }
{
    let mut items = List::new(alloc);
    push_needed(alloc, &mut items, "color")?;
    push_three(alloc, &mut items, "red", "green", "blue")?;
    push_three(alloc, &mut items, "hue", "saturation", "lightness")?;
    push_optional(alloc, &mut items, "alpha", Fallback::Null)?;
    Ok(fixed(items))
}

/// A parameter that takes all arguments.
pub(crate) fn rest(alloc: Global, rest: &str) -> Result<Params, Memory>
    ensures { IfOk result (λ params. params ≡ with_rest [] rest.now) }
{
    let rest = Name::new(alloc, rest)?;
    Ok(Params {
        items: List::new(alloc),
        rest: Some(rest),
    })
}

/// One parameter, and one that takes the rest.
pub(crate) fn one_and_rest(alloc: Global, first: &str, rest: &str) -> Result<Params, Memory>
    ensures { IfOk result (λ params. params ≡ with_rest (needed first.now ∷ []) rest.now) }
{
    let mut items = List::new(alloc);
    push_needed(alloc, &mut items, first)?;
    let rest = Name::new(alloc, rest)?;
    Ok(Params {
        items,
        rest: Some(rest),
    })
}

/// Two parameters, and one that takes the rest.
pub(crate) fn two_and_rest(
    alloc: Global,
    first: &str,
    second: &str,
    rest: &str,
) -> Result<Params, Memory>
    ensures { IfOk result (λ params. params ≡ with_rest (needed first.now ∷ needed second.now ∷ []) rest.now) }
{
    let mut items = List::new(alloc);
    push_needed(alloc, &mut items, first)?;
    push_needed(alloc, &mut items, second)?;
    let rest = Name::new(alloc, rest)?;
    Ok(Params {
        items,
        rest: Some(rest),
    })
}
