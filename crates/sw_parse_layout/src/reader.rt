// The tokens of an indented sheet.
ghost use Rattle.std.specs.Prelude.{◌≡◌, length, Ok, IfOk, IfErr};
ghost use Rattle.sw_text.specs.Places.{mark_length};
ghost use Rattle.std.specs.Str.{IsCharBoundary};
ghost use Rattle.sw_parse_layout.specs.Layout.{layout};
ghost use Rattle.sw_parse_layout.specs.Laws.{Statements};
ghost use Rattle.sw_parse_layout.specs.LawsOfText.{Fills};
ghost use Rattle.sw_parse_layout.specs.Faults.{fault_at, TellsFault};

use crate::walk::{LayoutEnd, Place, layout};
use std::alloc::Global;
use sw_text::{Fault, FaultCode, Memory, Shared, SheetText, Span};
use sw_tokens::{Fault10, Tokens};

/// The SCSS tokens that an indented sheet stands for, in time that is linear in its bytes. The sheet is shared, not
/// copied. A sheet that has none has a fault: at the first character of the first string or `#{` that isn't closed,
/// else at the first token that its layout refuses.
pub fn tokens_of(alloc: Global, sheet: &Shared<SheetText>) -> Result<Tokens, Fault10>
    ensures tokens { IfOk result (λ tokens. layout sheet.now.bytes ≡ Ok tokens.list) }
    ensures statements { IfOk result (λ tokens. Statements sheet.now.bytes 0 tokens.list) }
    ensures text { IfOk result (λ tokens.
        Fills sheet.now.bytes (mark_length sheet.now.bytes) (length sheet.now.bytes) tokens.list) }
    ensures sheet { IfOk result (λ tokens. tokens.sheet ≡ sheet.now) }
    ensures fault { IfErr result (TellsFault sheet.now (layout sheet.now.bytes)) }
{
    let _end = sheet.get().end();
    match layout(alloc, sheet.get().text()) {
        Ok(list) => Ok(Tokens::from_list(sheet, list)?),
        Err(LayoutEnd::Memory) => Err(Fault10::Memory),
        Err(LayoutEnd::Refused(place)) => {
            let fault = refused(sheet.get(), place)?;
            Err(Fault10::Fault(fault))
        }
    }
}

/// The fault of a token that the layout refuses.
fn refused(sheet: &SheetText, place: Place) -> Result<Fault, Memory>
    requires from { IsCharBoundary sheet.now.bytes place.from }
    requires to { IsCharBoundary sheet.now.bytes place.to }
    ensures { IfOk result (λ fault. fault ≡ fault_at sheet.now place) }
{
    Ok(Fault {
        code: FaultCode::Syntax,
        span: Span {
            file: sheet.path().share()?,
            from: sheet.pos(place.from),
            to: sheet.pos(place.to),
        },
    })
}
