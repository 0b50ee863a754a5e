// The texts of a made folder.
ghost use Rattle.std.specs.Prelude.{◌≡◌, string_bytes, IfOk};
ghost use Rattle.sw_cmd_workload.specs.Texts.{parts_of, width_of, part_path, part_text, main_text, use_text, edited_place, edited_width, summary, work_text};

use std::alloc::{AllocError, Global};

/// The sheet of which each part asks.
pub const LIB_PATH: &str = "lib.scss";

/// Its text.
pub const LIB_TEXT: &str = "$c: 0; @mixin bump($x) { $c: $c + $x !global; }";

/// The sheet that uses the parts.
pub const MAIN_PATH: &str = "main.scss";

/// How many parts there are.
pub fn parts_of(number: u32) -> u32
    ensures { result ≡ parts_of number }
{
    1 + number % 1000
}

/// By how much a part raises the count.
pub fn width_of(number: u32, place: u32) -> u32
    ensures { result ≡ width_of number place }
{
    ((u64::from(number) + 7 * u64::from(place)) % 100) as u32
}

/// Which part is made anew before this compile.
pub fn edited_place(number: u32, turn: u32) -> u32
    ensures { result ≡ edited_place number turn }
{
    ((u64::from(number) + 13 * u64::from(turn)) % u64::from(parts_of(number))) as u32
}

/// By how much it raises the count then.
pub fn edited_width(number: u32, turn: u32) -> u32
    ensures { result ≡ edited_width number turn }
{
    let place = edited_place(number, turn);
    ((u64::from(number) + 7 * u64::from(place) + u64::from(turn)) % 100) as u32
}

/// Where a part stands.
pub fn part_path(alloc: Global, place: u32) -> Result<String, AllocError>
    ensures { IfOk result (λ path. string_bytes path ≡ part_path place) }
{
    format!(in alloc; "m{place}.scss")
}

/// What stands in a part that raises the count by this width.
pub fn part_text(alloc: Global, place: u32, width: u32) -> Result<String, AllocError>
    ensures { IfOk result (λ text. string_bytes text ≡ part_text place width) }
{
    let mut text = format!(in alloc; "@use \"lib\"; @include lib.bump({width});")?;
    let rule = format!(in alloc; " .m{place}")?;
    text.push_str(rule.as_str())?;
    text.push_str(" { w: lib.$c; }")?;
    Ok(text)
}

/// What stands in the sheet that uses so many parts.
pub fn main_text(alloc: Global, parts: u32) -> Result<String, AllocError>
    ensures { IfOk result (λ text. string_bytes text ≡ main_text parts) }
{
    let mut text = String::from_str(alloc, "@use \"lib\";")?;
    'parts: for place in 0..parts {
        let part = use_text(alloc, place)?;
        text.push_str(part.as_str())?;
    }
    text.push_str(" .main { w: lib.$c; }")?;
    Ok(text)
}

fn use_text(alloc: Global, place: u32) -> Result<String, AllocError>
    ensures { IfOk result (λ text. string_bytes text ≡ use_text place) }
{
    format!(in alloc; " @use \"m{place}\";")
}

/// What is told in the end.
pub fn summary(alloc: Global, modules: u32, ran: u64, css: u64) -> Result<String, AllocError>
    ensures { IfOk result (λ text. string_bytes text ≡ summary modules ran css) }
{
    let mut text = work_text(alloc, modules, ran)?;
    let bytes = format!(in alloc; "css {css}\n")?;
    text.push_str(bytes.as_str())?;
    Ok(text)
}

fn work_text(alloc: Global, modules: u32, ran: u64) -> Result<String, AllocError>
    ensures { IfOk result (λ text. string_bytes text ≡ work_text modules ran) }
{
    let mut text = format!(in alloc; "modules {modules}\ncompiles 51\n")?;
    let bodies = format!(in alloc; "ran {ran}\n")?;
    text.push_str(bodies.as_str())?;
    Ok(text)
}
