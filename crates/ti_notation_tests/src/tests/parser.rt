//! Worked rows of the terminal's parser, from ECMA-48, the VT500 manual, xterm's ctlseqs, console_codes(4) and screen(1).

use crate::tests::check_rows;
use ti_fixtures::{Finds, Given, Unfound, show, show_debug};
use ti_parser::{
    Coding, Configuration, Function, FunctionKind, FunctionNumber, HandedOut, Intermediates,
    Reading, Within,
};

/// Bytes, what those above 7F are, whether a function goes on at a control; and the functions with the last state.
const ROWS: &str = r"
# control sequences
\E[1;2H | utf8 | anew => Sequence 1;2H, Ground
\E[m | utf8 | anew => Sequence m, Ground
\E[;m | utf8 | anew => Sequence ;m, Ground
\E[4:3m | utf8 | anew => Sequence 4;3m, Ground
\E[?25;1003h | utf8 | anew => Sequence ?25;1003h, Ground
\E[2 q | utf8 | anew => Sequence 2 q, Ground
\E[65535;65536;99999999999c | utf8 | anew => Sequence 65535;*;*c, Ground
\E[1?h | utf8 | anew => Ground
\E[1 2h | utf8 | anew => Ground
\E[ | utf8 | anew => SequenceEntry
\E[1;2;3;4;5;6;7;8;9;10;11;12;13;14;15;16;17;18;19;20;21;22;23;24;25;26;27;28;29;30;31;32m | utf8 | anew => Sequence 1;2;3;4;5;6;7;8;9;10;11;12;13;14;15;16;17;18;19;20;21;22;23;24;25;26;27;28;29;30;31;32m, Ground
\E[;;;;;;;;;;;;;;;;;;;;;;;;;;;;;;;;;m | utf8 | anew => Sequence ;;;;;;;;;;;;;;;;;;;;;;;;;;;;;;;m and more, Ground
# a control within a sequence is carried out, DEL is ignored, CAN and SUB end it, and an escape starts another
\E[1^Gm | utf8 | anew => Control 7, Sequence 1m, Ground
\E^JM | utf8 | anew => Control 10, Escape M, Ground
\E[1\1772m | utf8 | anew => Sequence 12m, Ground
\E\177M | utf8 | anew => Escape M, Ground
\E[1\030m | utf8 | anew => Control 24, Ground
\E[1\032m | utf8 | anew => Control 26, Ground
\E[1\E[K | utf8 | anew => Sequence K, Ground
\E\E[K | utf8 | anew => Sequence K, Ground
# escape sequences
\E7 | utf8 | anew => Escape 7, Ground
\E(0 | utf8 | anew => Escape (0, Ground
\E%G | utf8 | anew => Escape %G, Ground
\E%@ | utf8 | anew => Escape %@, Ground
\E$(C | utf8 | anew => Escape $(C, Ground
\E !!0 | utf8 | anew => Escape many0, Ground
\E | utf8 | anew => AfterEscape
# strings
\E]2;a^Gb | utf8 | anew => System 2, Ground
\E]2;a\E\\b | utf8 | anew => System 2, Escape \\, Ground
\E]2;a\E[K | utf8 | anew => System 2, Sequence K, Ground
\E]2;a\030b | utf8 | anew => System 2, Control 24, Ground
\E]2;a\E | utf8 | anew => System 2, AfterCut
\E]52^G | utf8 | anew => System 52, Ground
\E]52;c;?^G | utf8 | anew => System 52?, Ground
\E]ltitle\E\\ | utf8 | anew => System l, Escape \\, Ground
\E]2;a^Jb^G | utf8 | anew => System 2, Ground
\E_Gi=1^G | utf8 | anew => StringBody
\E_Gi=1\E\\ | utf8 | anew => Application G, Escape \\, Ground
\E\^x\E\\ | utf8 | anew => Privacy x, Escape \\, Ground
\EXx\E\\ | utf8 | anew => Start x, Escape \\, Ground
\EP1$qm\E\\ | utf8 | anew => Device 1$q, Escape \\, Ground
\EP+q544e\E\\ | utf8 | anew => Device +q, Escape \\, Ground
\EP>|x\E\\ | utf8 | anew => Device >|, Escape \\, Ground
\EP1?x\E\\ | utf8 | anew => Device 1, Escape \\, Ground
# screen's title, and the palette of the Linux console
\Ekvi\E\\ | utf8 | anew => Title v, Escape \\, Ground
\E]Rx | utf8 | anew => System R, Ground
\E]P1aF0000x | utf8 | anew => System 1;10;15;0;0;0;0P, Ground
\E]P1^G | utf8 | anew => Control 7, Palette
\E]P1g | utf8 | anew => Ground
# C1
\2336n | utf8 | anew => Ground
\2336n | stray | anew => Sequence 6n, Ground
\2336n | bytes | anew => Sequence 6n, Ground
\302\2336n | utf8 | anew => Sequence 6n, Ground
\302\2336n | stray | anew => Sequence 6n, Ground
\302\2336n | bytes | anew => Sequence 6n, Ground
\303\2336n | stray | anew => Ground
\303\2336n | bytes | anew => Sequence 6n, Ground
\340\2336n | stray | anew => Sequence 6n, Ground
\342\224\2336n | stray | anew => Ground
\304 | utf8 | anew => Ground
\E[\266\356 | bytes | anew => Sequence 6n, Ground
\E[1\204m | bytes | anew => Escape D, Ground
\E[1\204m | bytes | on => Escape D, Sequence 1m, Ground
\E[1\2332m | bytes | on => Sequence 2m, Ground
\E]2;a\204b^G | bytes | anew => System 2, Escape D, Control 7, Ground
\E]2;a\204b^G | bytes | on => Escape D, System 2, Ground
# within a string a control is ignored, or carried out
\E]2;a^Eb^G | utf8 | anew => System 2, Ground
\E]2;a^Eb^G | utf8 | on => Control 5, System 2, Ground
\Eka^Eb\E\\ | utf8 | on => Control 5, Title a, Escape \\, Ground
\E_a^G | utf8 | on => Control 7, StringBody
\EP^G\030 | utf8 | on => Control 7, Device , Control 24, Ground
\E]2;a\234 | bytes | on => System 2, Escape \\, Ground
- | bytes | on => Ground
";

/// The reading of a row.
fn reading_of(given: &Given<'_, '_>) -> Reading {
    let [_, coding, within, ..] = given.fields();
    Reading {
        coding: match coding {
            "bytes" => Coding::Bytes,
            "stray" => Coding::Utf8WithC1,
            _ => Coding::Utf8,
        },
        within: match within {
            "on" => Within::GoesOn,
            _ => Within::StartsAnew,
        },
    }
}

/// Adds the byte that there may be.
fn show_byte(found: &mut Vec<u8>, byte: Option<u8>) -> Result<(), Unfound> {
    match byte {
        Some(byte) => Ok(found.push(byte)?),
        None => Ok(()),
    }
}

/// Adds a number; a large one as an asterisk.
fn show_number(found: &mut Vec<u8>, number: FunctionNumber) -> Result<(), Unfound> {
    match number {
        FunctionNumber::Absent => Ok(()),
        FunctionNumber::Known(value) => show(found, &value),
        FunctionNumber::Large => Ok(found.push(b'*')?),
        FunctionNumber::Any => Ok(found.push(b'?')?),
    }
}

/// Adds numbers.
fn show_numbers(found: &mut Vec<u8>, numbers: &[FunctionNumber]) -> Result<(), Unfound> {
    let mut is_first = true;
    for number in numbers {
        if !is_first {
            found.push(b';')?;
        }
        is_first = false;
        show_number(found, *number)?;
    }
    Ok(())
}

/// Adds intermediate bytes.
fn show_intermediates(found: &mut Vec<u8>, bytes: Intermediates) -> Result<(), Unfound> {
    match bytes {
        Intermediates::Empty => Ok(()),
        Intermediates::Single(byte) => Ok(found.push(byte)?),
        Intermediates::Pair(first, second) => {
            found.push(first)?;
            Ok(found.push(second)?)
        }
        Intermediates::Many => Ok(found.extend_from_slice(b"many")?),
    }
}

/// Adds a function.
fn show_function(found: &mut Vec<u8>, function: &Function) -> Result<(), Unfound> {
    show_debug(found, &function.kind)?;
    found.push(b' ')?;
    if function.kind == FunctionKind::Control {
        return show(found, &function.letter.unwrap_or(0));
    }
    show_byte(found, function.marker)?;
    show_numbers(found, function.numbers.as_slice())?;
    show_intermediates(found, function.intermediates)?;
    show_byte(found, function.letter)?;
    if function.asks {
        found.push(b'?')?;
    }
    if function.is_overfull {
        found.extend_from_slice(b" and more")?;
    }
    Ok(())
}

/// Adds a function that may be handed out.
fn show_handed_out(found: &mut Vec<u8>, function: &Option<Function>) -> Result<(), Unfound> {
    match function {
        Some(function) => {
            show_function(found, function)?;
            Ok(found.extend_from_slice(b", ")?)
        }
        None => Ok(()),
    }
}

/// The functions of some bytes, and the state after them.
struct Parsed;

impl Finds for Parsed {
    fn find(&self, given: &Given<'_, '_>, found: &mut Vec<u8>) -> Result<(), Unfound> {
        let reading = reading_of(given);
        let mut parser = Configuration::new();
        for byte in given.bytes {
            let HandedOut { ended, function } = parser.step(reading, *byte);
            show_handed_out(found, &ended)?;
            show_handed_out(found, &function)?;
        }
        show_debug(found, &parser.state)
    }
}

#[test]
fn bytes_hand_out_functions(rt: HostRuntime) {
    check_rows(&rt, ROWS, &Parsed);
}
