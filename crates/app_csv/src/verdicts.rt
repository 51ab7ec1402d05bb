//! What became of the rows of a voucher file, as a text of lines.

ghost use Rattle.std.specs.Prelude.{◌≡◌, ◌++◌, [], IfOk, OnOk, codes, unwrap_or};
ghost use Rattle.std.specs.Fmt.{decimal};
ghost use Rattle.app_csv.specs.VerdictLines.{codes_of, verdict_line, verdict_lines, verdict_text};

use base_values::{List, Text};
use itoa::Buffer;
use model_commands::{NewVoucher, Verdict};
use std::alloc::{AllocError, Global};

/// The codes of rows, each a copy; of a row without one it is an empty text.
pub fn codes_of(alloc: Global, vouchers: &[NewVoucher]) -> Result<List<Text>, AllocError>
    ensures { IfOk result (λ codes. codes ≡ codes_of vouchers.now) }
{
    let mut codes = Vec::new(alloc);
    for new in vouchers {
        codes.push(code_of(alloc, new)?)?;
    }
    Ok(List::new(codes))
}

// The code of a row.
fn code_of(alloc: Global, new: &NewVoucher) -> Result<Text, AllocError>
    ensures { IfOk result (λ code. code ≡ unwrap_or new.now.code []) }
{
    match &new.code {
        Some(code) => code.copy(alloc),
        None => Text::copy_of(alloc, ""),
    }
}

/// A line `CODE VERDICT` for each row: its code, and `added`, `same`, `other`, or `refused N` with the refusal's number.
pub fn verdict_lines(
    alloc: Global,
    codes: &[Text],
    verdicts: &[Verdict],
) -> Result<Vec<u8>, AllocError>
    ensures { IfOk result (λ text. text.items ≡ verdict_lines codes.now verdicts.now) }
{
    let mut text = Vec::new(alloc);
    let mut at = 0;
    for verdict in verdicts {
        let Some(code) = codes.get(at) else {
            return Ok(text);
        };
        append_line(&mut text, code.as_str(), verdict)?;
        at += 1;
    }
    Ok(text)
}

// Appends the line of a row.
fn append_line(text: &mut Vec<u8>, code: &str, verdict: &Verdict) -> Result<(), AllocError>
    ensures { OnOk result (text.new.items ≡ text.old.items ++ verdict_line code.now verdict.now) }
{
    text.extend_from_slice(code.as_bytes())?;
    text.extend_from_slice(b" ")?;
    append_verdict(text, verdict)?;
    text.extend_from_slice(b"\n")
}

// Appends what became of a row.
fn append_verdict(text: &mut Vec<u8>, verdict: &Verdict) -> Result<(), AllocError>
    ensures { OnOk result (text.new.items ≡ text.old.items ++ verdict_text verdict.now) }
{
    match verdict {
        Verdict::Added(_) => text.extend_from_slice(b"added"),
        Verdict::Same => text.extend_from_slice(b"same"),
        Verdict::Other => text.extend_from_slice(b"other"),
        Verdict::Refused(refusal) => append_refused(text, refusal.number()),
    }
}

// Appends that a row is refused, with a number.
fn append_refused(text: &mut Vec<u8>, number: u8) -> Result<(), AllocError>
    ensures { OnOk result (text.new.items
        ≡ text.old.items ++ (codes "refused " ++ decimal number)) }
{
    let mut buffer = Buffer::new();
    text.extend_from_slice(b"refused ")?;
    text.extend_from_slice(buffer.format(number).as_bytes())
}
