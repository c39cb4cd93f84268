//! A text read as an expression, or its fault with its place.
ghost use Rattle.std.specs.Prelude.{◌≡◌, ◌<◌, ◌^◌, ℕ, length, IfOk, IfErr, Ok, Err, ◌⊎◌};
ghost use Rattle.periodic_expr.specs.Sketch.{KeepsSketch};
ghost use Rattle.periodic_expr.specs.Drafts.{seen};
ghost use Rattle.periodic_expr.specs.Reading.{judged, ended, read_expr};

use crate::drafts::{ExprDraft, acted};
use crate::exprs::Expr;
use crate::faults::{ExprFault, ExprKind};
use crate::scan::{ScanPlace, moved};
use std::alloc::{AllocError, Global};

/// A fault of the grammar; `at` is the length of the longest front that can be continued.
fn syntax(at: u32) -> Result<Expr, ExprFault>
    ensures { result ≡ Err (record { at = at; kind = ExprKind.Syntax }) }
{
    Err(ExprFault {
        at,
        kind: ExprKind::Syntax,
    })
}

/// The first fault, or the expression, where there is a part.
fn judged(d: ExprDraft, at: u32) -> Result<Expr, ExprFault>
    requires { KeepsSketch (seen d) }
    ensures { result ≡ judged at (seen d).parts (seen d) (seen d).fault }
{
    match d.fault {
        Some(fault) => Err(fault),
        None if d.parts.is_empty() => syntax(at),
        None => Ok(Expr::of(d.parts, d.count, d.unit)),
    }
}

/// What the text says that ends here; one that breaks off has a fault of the grammar at its end.
fn ended(place: ScanPlace, d: ExprDraft, at: u32) -> Result<Expr, ExprFault>
    requires { KeepsSketch (seen d) }
    ensures { result ≡ ended at place (seen d) }
{
    match place {
        ScanPlace::PartDone | ScanPlace::Finished => judged(d, at),
        _ => syntax(at),
    }
}

/// What the text says, or its fault.
fn scanned(alloc: Global, text: &[u8]) -> Result<Result<Expr, ExprFault>, AllocError>
    requires { length text.now < 2 ^ 32 }
    ensures { IfOk result (λ said. said ≡ read_expr text.now) }
{
    let mut place = ScanPlace::Start;
    let mut draft = ExprDraft::new(alloc);
    'bytes: for (i, b) in text.iter().enumerate() {
        let Some(step) = moved(place, *b) else {
            return Ok(syntax(i as u32));
        };
        draft = acted(alloc, draft, step.act, i as u32)?;
        place = step.place;
    }
    Ok(ended(place, draft, text.len() as u32))
}

/// The expression that a text is, or its fault of the least place, from 0 in the text. A text
/// outside the grammar has the kind Syntax, at the length of its longest front that can be
/// continued to a text of the grammar.
pub fn parse_expr(alloc: Global, text: &[u8]) -> Result<Expr, ExprFault>
    requires { length text.now < 2 ^ 32 }
    ensures ok { IfOk result (λ e. read_expr text.now ≡ Ok e) }
    ensures fault { IfErr result (λ f. (f ≡ record { at = 0; kind = ExprKind.Memory })
        ⊎ (read_expr text.now ≡ Err f)) }
{
    match scanned(alloc, text) {
        Ok(said) => said,
        Err(_) => Err(ExprFault {
            at: 0,
            kind: ExprKind::Memory,
        }),
    }
}
