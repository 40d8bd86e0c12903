//! Control functions of hostile entries, and of sound ones.

use super::entries::{add_lines, lines_on, look_of};
use crate::tests::check_rows;
use std::str::from_utf8;
use ti_fixtures::{Finds, Given, Unfound, show};
use ti_rules::Trials;

/// The words of findings on what strings make a terminal do.
const WORDS: &[&'static str] = &[
    "answer",
    "reports",
    "title",
    "window",
    "clipboard",
    "palette",
    "print",
    "reset",
    "other-control",
    "unknown-function",
    "computed-byte",
    "string-open",
    "string-cut",
    "not-tried",
];

/// What comes before the line of a finding: the name of the string, and the column of the caret.
#[derive(Clone, Copy)]
struct Above<'l> {
    name: &'l str,
    column: Option<usize>,
}

/// Whether a word is one of them.
fn is_control(word: &str) -> bool {
    for known in WORDS {
        if word == *known {
            return true;
        }
    }
    false
}

/// Adds the function that a sentence names, if it does.
fn add_named(found: &mut Vec<u8>, sentence: &str) -> Result<(), Unfound> {
    let Some((function, _effect)) = sentence.split_once(": the terminal ") else {
        return Ok(());
    };
    found.push(b' ')?;
    Ok(found.extend_from_slice(function.as_bytes())?)
}

/// Adds a finding: the string, the word, the function, and the column of the caret in the string.
fn add_finding(
    found: &mut Vec<u8>,
    above: Above<'_>,
    word: &str,
    sentence: &str,
) -> Result<(), Unfound> {
    if !found.is_empty() {
        found.extend_from_slice(b"; ")?;
    }
    found.extend_from_slice(above.name.as_bytes())?;
    found.push(b' ')?;
    found.extend_from_slice(word.as_bytes())?;
    add_named(found, sentence)?;
    if let Some(column) = above.column {
        found.extend_from_slice(b" at ")?;
        show(found, &column)?;
    }
    Ok(())
}

/// Adds the finding of a line, if it is on what a string makes a terminal do.
fn add_meaning(found: &mut Vec<u8>, above: Above<'_>, line: &str) -> Result<(), Unfound> {
    let Some((word, sentence)) = line.split_once(": ") else {
        return Ok(());
    };
    if is_control(word.trim()) {
        return add_finding(found, above, word.trim(), sentence);
    }
    Ok(())
}

/// Adds the findings of lines that are on what strings make a terminal do. The caret stands alone in its line.
fn add_findings(found: &mut Vec<u8>, lines: &str) -> Result<(), Unfound> {
    let mut above = Above {
        name: "",
        column: None,
    };
    for line in lines.split('\n') {
        if !line.starts_with("  ") {
            above = Above {
                name: line,
                column: None,
            };
        } else if line.trim() == "^" {
            above.column = Some(line.len().saturating_sub(3));
        } else {
            add_meaning(found, above, line)?;
        }
    }
    Ok(())
}

/// The findings on the entry of a row that are on what strings make a terminal do.
struct FunctionsOf;

impl Finds for FunctionsOf {
    fn find(&self, given: &Given<'_, '_>, found: &mut Vec<u8>) -> Result<(), Unfound> {
        let alloc = *found.allocator();
        let mut lines = Vec::new(alloc);
        add_lines(&mut lines, &mut Trials::new(alloc), given.text)?;
        add_findings(found, from_utf8(lines.as_slice())?)
    }
}

/// Entries, with what their strings make a terminal do that they may not: the string, the word, the function, and the column of the
/// caret, which stands at the token that completes the function.
const ROWS: &str = r"
mistakes | clear=\E[H\E[2J\E]52;c;YQ==^G => clear clipboard OSC 52 at 21
mistakes | clear=\E[H\E[6n => clear answer CSI 6n at 8
mistakes | bold=\E[1m\E[?1003h | cup=\E[%i%p1%d;%p2%dH => bold reports CSI ?1003h at 13
mistakes | cup=\E[%i%p1%d;%p2%dH\E[6n => cup answer CSI 6n at 21
mistakes | u7=\E[6n | home=\E[H => -
mistakes | smcup=\E[?1049h\E[22;0;0t | home=\E[H => -
mistakes | clear=\E]2;a^G | home=\E[H => clear title OSC 2 at 6
mistakes | clear=\E[H\EP\E]52;c;YQ==^G\E\\ => clear other-control DCS at 7; clear clipboard OSC 52 at 19
mistakes | smcup=\E[H\EP\E]52;c;YQ==^G\E\\ => smcup clipboard OSC 52 at 19
mistakes | clear=\E[H\EPa^G\E[6n\E\\ => clear other-control DCS a at 10; clear answer CSI 6n at 14
mistakes | setaf=\E[3%p1%dm\E]5$<5>2;c;YQ==^G => setaf clipboard OSC 52 at 26
mistakes | is2=\E[!p\E[?5i => is2 print CSI ?5i at 10
mistakes | rs1=\Ec\E]104^G | home=\E[H => -
mistakes | +Ms=\E]52;%p1%s;%p2%s^G => -
mistakes | +XM=\E[?1006;1000%?%p1%{1}%=%th%el%; => -
# Programs send what is in an arm, whatever the test is: 300 is no color.
mistakes | setaf=%?%p1%{300}%=%t\E]52;c;YQ==^G%;%p1%d => setaf clipboard OSC 52 at 27
mistakes | pln=%?%p2%l%t\E]52;c;YQ==^G%;%p1%d => pln clipboard OSC 52 at 21
# A command that starts in one arm, or after one, is of what both send.
mistakes | setaf=%?%p1%{300}%=%t\E]5%e\E[1m%;2;c;YQ==^G%p1%d => setaf clipboard OSC 52 at 36
mistakes | setaf=%?%p1%{300}%=%t\E]52;c;%;YQ==^G%p1%d => setaf clipboard OSC 52 at 29
mistakes | setaf=%?%p1%t\E[%;%?%p1%t5i%; => setaf print CSI 5i at 20
mistakes | home=\E[H | setaf=%?%p1%t\E[%;%?%p1%t5i%; => setaf print CSI 5i at 20; setaf string-open at 7
# Numbers of constants are known, and those of parameters and variables are not.
mistakes | setaf=%{27}%c[6n%p1%d => setaf answer CSI 6n at 9
mistakes | setaf=\E[%{6}%dn%p1%d => setaf answer CSI 6n at 9
mistakes | scp=\E[%p1%dn => scp answer CSI *n at 8
mistakes | scp=\E[%p1%dt => -
mistakes | scp=\E[%p1%dt\E[6n => scp answer CSI 6n at 13
mistakes | mrcup=\E[%i%p1%d;%p2%dt => -
untrusted | mrcup=\E[%i%p1%d;%p2%dt => mrcup unknown-function CSI *;*t at 16
untrusted | setaf=\E[%gA%dt => setaf unknown-function CSI *t at 8
# After a byte of which nothing is known nothing is known either.
mistakes | setaf=%p1%c\E[6n => -
mistakes | setaf=\E[6n%p1%c => setaf answer CSI 6n at 4
untrusted | setaf=%p1%c\E[6n => setaf computed-byte
untrusted all | setaf=\E[6n%p1%c => setaf answer CSI 6n at 4; setaf computed-byte
mistakes | cup=\E=%p1%' '%+%c%p2%' '%+%c\E]52;c;YQ==^G => -
untrusted | cup=\E=%p1%' '%+%c%p2%' '%+%c\E]52;c;YQ==^G => cup computed-byte
# The first parameter of rep is a character that shows, and that of S0 names a character set.
untrusted | rep=%p1%c\E[%p2%{1}%-%db | +S0=\E(%p1%c | home=\E[H => -
# Each character is a form of its own.
mistakes | rep=\E_%p1%c\E\\ => -
untrusted | rep=\E_%p1%c\E\\ => rep not-tried
# A control, an escape sequence and a title of screen(1) are others on a terminal that is not of ECMA-48. The others are not.
mistakes | bel=\EZ => -
mistakes | bel=^E => -
mistakes | bel=\Ekx\E\\ => -
mistakes | home=\E[H | bel=\EZ => bel answer ESC Z at 2
mistakes | home=\E[H | bel=^G^E => bel answer \^E at 2
mistakes | home=\E[H | bel=\Ekx\E\\ => bel title ESC k x at 4
untrusted | bel=\EZ => bel answer ESC Z at 2
untrusted | bel=^E => bel answer \^E at 0
untrusted | bel=\Ekx\E\\ => bel title ESC k x at 4
mistakes | bel=\E]2;x^G\E[2t\EP$qm\E\\ => bel title OSC 2 at 6; bel window CSI 2t at 12; bel answer DCS $q at 19
# By which strings an entry is of ECMA-48.
mistakes | cup=\E[%i%p1%d;%p2%dH | bel=\EZ => bel answer ESC Z at 2
mistakes | clear=^L\E[J | bel=\EZ => bel answer ESC Z at 2
mistakes | el=\E[K | bel=\EZ => bel answer ESC Z at 2
mistakes | ed=\E[J | bel=\EZ => bel answer ESC Z at 2
mistakes | sgr0=\E[m | bel=\EZ => bel answer ESC Z at 2
mistakes | home=\EH | clear=\EH\E | el=[K | smul=\E[4m | rmul=\E[m | bel=\EZ => -
# tmux(1) sends Sync, whatever it is. Nothing is known of xyzzy, which may be sent as it stands or expanded. Names of keys start with k.
mistakes | +Sync=\E[6n => Sync answer CSI 6n at 4
mistakes | +xyzzy=\E[6n => xyzzy answer CSI 6n at 4
mistakes | +xyzzy=\E]52;c;%p1%s^G => xyzzy clipboard OSC 52 at 13
mistakes | +xyzzy=%{27}%c[6n%p1%d => xyzzy answer CSI 6n at 9
mistakes | +xyzzy=\E[6n%; => xyzzy answer CSI 6n at 4
mistakes | +xyzzy=\E]11;%?^G%; => xyzzy answer OSC 11;? at 8
mistakes | +xyzzy=\E[%p1%dm | home=\E[H => -
untrusted | +xyzzy=\E[%p1%dm | home=\E[H => xyzzy unknown-function CSI %p at 4
untrusted | +xyzzy=100% => -
mistakes | +kxyz=\E[6n | +rv=\E[6n | +KJ=\E[6n => -
# These are not sent, or send nothing of the entry.
untrusted | home=\E[H | dispc=\E[6n | lf1=\E[6n | box1=\E[6n | +PS=\E[6n | +PE=\E[6n => -
untrusted | home=\E[H | pad=^E\033 => pad answer \^E at 0
untrusted | home=\E[H | pad=a^E => -
untrusted | home=\E[H | acsc=^Eaq^N => acsc unknown-function \^N at 4
mistakes | home=\E[H | acsc=a^E | pad=^N => -
untrusted | kf1=\E[6n | u8=\E[?1;2c | acsc=\E[6n\E[ => -
# These stand where they may.
untrusted | +Sync=\EP=%?%p1%{1}%=%t1%e2%;s\E\\ | +RV=\E[>c | +XR=\E[>q | +fe=\E[?1004h | +Enfcs=\E[?1004h | +Enbp=\E[?2004h => -
untrusted | +WS=\E[8;%p1%d;%p2%dt | +Hls=\E]8;;%p2%s\E\\ | +Swd=\E]7; | fsl=^G => -
untrusted | pfkey=\EP1;1|%p1%d/%p2%s\E\\ | home=\E[H => -
# What the terminal keeps must be the parameter: the data of the clipboard, and the text of a key.
untrusted | +Ms=\E]52;%p1%s;%p2%s^G | home=\E[H => -
untrusted | +Ms=\E]52;c;%p2%s\E\\ | home=\E[H => -
untrusted | +Ms=\E]52;c;cm0=^G | home=\E[H => Ms clipboard OSC 52 at 12
untrusted | +Ms=\E]52;c;cm0=%p2%s^G | home=\E[H => Ms clipboard OSC 52 at 17
untrusted | +Ms=\E]52%{59}%cc;%p2%s^G | home=\E[H => Ms clipboard OSC 52 at 19
untrusted | pfkey=\EP1;1|17/6c730d\E\\ | home=\E[H => pfkey other-control DCS 1;1| at 16
untrusted | pfx=\EP1;1|17/6c73;18/%p2%s\E\\ | home=\E[H => pfx other-control DCS 1;1| at 23
untrusted | pfloc=\EP1;1|17%{47}%c6c73/%p2%s\E\\ | home=\E[H => pfloc other-control DCS 1;1| at 26
# A fault hides no harm. A string that is no capability is looked at as it stands, and so is one without parameters.
mistakes | setaf=\E[6n%;%p1%d => setaf answer CSI 6n at 4
mistakes | csr=\E[%i%i%p1%d;%p2%dr\E[6n => csr answer CSI 6n at 23
mistakes | setaf=100%\E[6nabc => setaf answer CSI 6n at 8
mistakes | +xyzzy=%%100%\E[6nabc => xyzzy answer CSI 6n at 10
mistakes | bold=100%\E[6nabc => bold answer CSI 6n at 8
mistakes | bold=%p1%d%%\E[6n%;abc => bold answer CSI 6n at 11
mistakes | bold=%{27}%c[6n => -
# What is found twice is reported once for each word.
mistakes | bold=\E[6n\E[5n\E[2t\E[1t => bold answer CSI 6n at 4; bold window CSI 2t at 14
mistakes | bold=\E[6n | smul=\E[6n => bold answer CSI 6n at 4; smul answer CSI 6n at 4
mistakes | bold=\E]52;c;?^G\E]52;c;x^G => bold answer OSC 52;? at 9; bold clipboard OSC 52 at 20
";

#[test]
fn control_functions_of_entries_are_reported(rt: HostRuntime) {
    check_rows(&rt, ROWS, &FunctionsOf);
}

/// Functions of each kind, by ECMA-48, xterm's ctlseqs, and for CSI ?u and CSI >u kitty's protocol of keys, with their words. A number
/// that a parameter gives, or that is above 65535, is a `*`.
const FUNCTIONS: &str = r"
mistakes | bold=\E[#R => bold answer CSI #R at 4
mistakes | bold=\E[?1;1;0S => bold answer CSI ?1;1;0S at 9
mistakes | bold=\E[c => bold answer CSI c at 3
mistakes | bold=\E[>q => bold answer CSI >q at 4
mistakes | bold=\E[?u => bold answer CSI ?u at 4
mistakes | bold=\E[1$w => bold answer CSI 1$w at 5
mistakes | bold=\E[x => bold answer CSI x at 3
mistakes | bold=\E[1;1*y => bold answer CSI 1;1*y at 7
mistakes | bold=\E[21t\E[1m => bold answer CSI 21t at 5
mistakes | home=\E[H | bold=\E[1^Em => bold answer \^E at 4
mistakes | home=\E[H | bold=\E_a^E\E\\ => bold other-control APC a at 6; bold answer \^E at 4
mistakes | bold=\EP$qm\E\\ => bold answer DCS $q at 6
mistakes | bold=\EP$qm\030 => bold answer DCS $q at 6
mistakes | bold=\E]4;1;?^G => bold answer OSC 4;? at 8
mistakes | bold=\E]4;1;?\030 => bold answer OSC 4;? at 8
mistakes | bold=\E[2h => bold reports CSI 2h at 4
mistakes | bold=\E[>1u => bold reports CSI >1u at 5
mistakes | bold=\E[22t => bold title CSI 22t at 5
mistakes | bold=\E]Lx\E\\ => bold title OSC L at 5
mistakes | bold=\E[2t => bold window CSI 2t at 4
mistakes | bold=\E[4i => bold print CSI 4i at 4
mistakes | bold=\E[!p => bold reset CSI !p at 4
mistakes | bold=\E]4;1;red^G => bold palette OSC 4 at 10
mistakes | bold=\E]R => bold palette OSC R at 3
mistakes | bold=\E]P1ff0000 => bold palette OSC P at 10
mistakes | bold=\E]777;notify;a^G => bold other-control OSC 777 at 15
mistakes | bold=\EP1;2|\E\\ => bold other-control DCS 1;2| at 7
mistakes | bold=\EP\E\\ => bold other-control DCS at 3
mistakes | bold=\E[12] => bold other-control CSI 12] at 5
# No effect is known of these, and strings of a stranger may not send them.
mistakes | bold=\E[?1$p | smul=\E[>4;2m | smso=\E_Gx\E\\ => bold answer CSI ?1$p at 6; smso other-control APC G at 5; smul reports CSI >4;2m at 7
untrusted | bold=\E[?1$p => bold answer CSI ?1$p at 6
untrusted | bold=\E[>4;2m => bold reports CSI >4;2m at 7
untrusted | u7=\E[5n => u7 unknown-function CSI 5n at 4
untrusted | bold=\E[>;70000;5~ => bold unknown-function CSI >;*;5~ at 12
untrusted | setaf=\E[%p1%d;7!y => setaf unknown-function CSI *;7!y at 11
untrusted | bold=\E$(C => bold unknown-function ESC $(C at 4
untrusted | bold=\E &!!0 => bold unknown-function ESC ..0 at 6
untrusted | bold=\E_Gx\E\\ => bold other-control APC G at 5
untrusted | bold=\E_G?\E\\ => bold other-control APC G;? at 5
untrusted | bold=\E_?x\E\\ => bold other-control APC ? at 5
untrusted | bold=\EXtext\E\\ => bold unknown-function SOS t at 7
untrusted | bold=\E\^text\E\\ => bold unknown-function PM t at 8
untrusted | bold=\E]666;?^G => bold unknown-function OSC 666;? at 8
untrusted | bold=^Z => bold unknown-function \^Z at 0
untrusted | bold=\E]^G => bold title OSC at 3
untrusted | bold=\Ek\E\\ => bold title ESC k at 3
";

#[test]
fn functions_have_words(rt: HostRuntime) {
    check_rows(&rt, FUNCTIONS, &FunctionsOf);
}

/// Strings that end within a function, and those that a title and `fsl` follow. The caret stands where the function starts.
const ENDS: &str = r"
mistakes | home=\E[H | bold=\E => bold string-open at 0
mistakes | home=\E[H | bold=\E[1m\E( => bold string-open at 5
mistakes | home=\E[H | bold=\E[1;2 => bold string-open at 0
mistakes | home=\E[H | bold=\E[1 2 => bold string-open at 0
mistakes | home=\E[H | bold=\E[1m\EPq => bold string-open at 5
mistakes | home=\E[H | bold=\EXa => bold string-open at 0
mistakes | home=\E[H | bold=\E\^a => bold string-open at 0
mistakes | home=\E[H | bold=\E]0;x^G\E]0;y => bold title OSC 0 at 6; bold string-open at 8
mistakes | home=\E[H | dsl=\E]2;x => dsl string-open at 0
# An escape that cuts a string off, in the entry of a stranger; the caret stands below the byte that shows it.
mistakes | home=\E[H | dsl=\E]2;x\E[K => -
untrusted | home=\E[H | dsl=\E]2;x\E[K => dsl string-cut at 8
untrusted | home=\E[H | dsl=\E]2;x\E\\\E[K => -
untrusted | home=\E[H | dsl=\E]2;x^X\E[K => -
untrusted | home=\E[H | tsl=\E]2;%?%p1%tx%e\E\\%;\E[K => tsl string-cut at 23
# It is a terminal of another kind.
mistakes | bold=\E[1;2 => -
untrusted | bold=\E[1;2 => bold string-open at 0
# Programs write a title and fsl after these three.
mistakes | tsl=\E]2; | fsl=^G | home=\E[H => -
mistakes | tsl=\E]2; | home=\E[H => tsl string-open at 0
mistakes | tsl=\E]2; => -
untrusted | tsl=\E]2; => tsl string-open at 0
mistakes | tsl=\E]2; | fsl=x | home=\E[H => tsl string-open at 0
mistakes | +TS=\E]0; | +Swd=\E]7; | home=\E[H => TS string-open at 0; Swd string-open at 0
mistakes | +TS=\E]0; | +Swd=\E]7; | fsl=^G | home=\E[H => -
mistakes | tsl=\E]2;a%p1%da | fsl=x | home=\E[H => tsl string-open at 0
mistakes | tsl=\E]0;%p1%d | fsl=^G%% | home=\E[H => -
mistakes | +TS=\E]0;100% | fsl=^G | home=\E[H => -
# They are one string.
mistakes | tsl=\E]52;c; | fsl=^G => tsl clipboard OSC 52 at 7
mistakes | tsl=\E]2; | fsl=^G\E[5n => fsl answer CSI 5n at 6; tsl answer CSI 5n at 4
mistakes | +Swd=\E[6n%\E]7; | fsl=^G => Swd answer CSI 6n at 4
mistakes | +TS=%%\E[6n\E]0; | fsl=^G => TS answer CSI 6n at 6
mistakes | tsl=%\E[6n\E]2; | fsl=^G => tsl answer CSI 6n at 5
mistakes | tsl=\E[%i%p1%dG\E[6n\E]2; | fsl=^G => tsl answer CSI 6n at 15
mistakes | tsl=\E]2; | fsl=%{27}%c^G | home=\E[H => -
mistakes | tsl= | fsl=\E[6n => fsl answer CSI 6n at 4; tsl answer CSI 6n at 0
untrusted | tsl=\E]%p1%d; | fsl=^G => tsl unknown-function OSC - at 8
untrusted | tsl=\E]0 | fsl=\E\\ => tsl computed-byte
";

#[test]
fn strings_that_are_left_open_are_reported(rt: HostRuntime) {
    check_rows(&rt, ENDS, &FunctionsOf);
}

/// The lines on the entry of a row.
struct LinesOf;

impl Finds for LinesOf {
    fn find(&self, given: &Given<'_, '_>, found: &mut Vec<u8>) -> Result<(), Unfound> {
        let mut trials = Trials::new(*found.allocator());
        add_lines(found, &mut trials, given.text)
    }
}

/// Entries, with the lines on them.
const LINES: &str = r"
mistakes in file | cup=\E[%i%p1%d;%p2%dH\E[6n => file: cup\n  \\E[%i%p1%d;%p2%dH\\E[6n\n                       \^\n  answer: CSI 6n: the terminal types an answer at the shell\n  do: leave it out, or send it in a string that is for it\n
mistakes in file | tsl=\E]0;%p1%d | home=\E[H => file: tsl\n  \\E]0;%p1%d\n  \^\n  string-open: the terminal takes what follows for part of a function\n  do: add fsl, or end it with \^G or \\E\\\\\n
mistakes in file | bold=\E[1m\EPq | home=\E[H => file: bold\n  \\E[1m\\EPq\n       \^\n  string-open: the terminal takes what follows for part of a function\n  do: write its end, or leave it out; \^G or \\E\\\\ ends a string\n
# What the terminal does on each.
mistakes in file | bold=\E[2h => file: bold\n  \\E[2h\n      \^\n  reports: CSI 2h: the terminal types reports at the shell from then on, or takes no keys\n  do: leave it out, or send it in a string that is for it\n
mistakes in file | bold=\E[22t => file: bold\n  \\E[22t\n       \^\n  title: CSI 22t: the terminal sets, saves or restores the title of its window\n  do: leave it out, or send it in a string that is for it\n
mistakes in file | bold=\E[4i => file: bold\n  \\E[4i\n      \^\n  print: CSI 4i: the terminal prints, or stops printing\n  do: leave it out, or send it in a string that is for it\n
mistakes in file | home=\E[H | clear=\Ec => file: clear\n  \\Ec\n    \^\n  reset: ESC c: the terminal resets itself\n  do: leave it out, or send it in a string that is for it\n
mistakes in file | bold=\E[2t => file: bold\n  \\E[2t\n      \^\n  window: CSI 2t: the terminal moves, resizes or hides its window\n  do: leave it out, or send it in a string that is for it\n
mistakes in file | bold=\E]4;1;red^G => file: bold\n  \\E]4;1;red\^G\n            \^\n  palette: OSC 4: the terminal changes its colors\n  do: leave it out, or send it in a string that is for it\n
mistakes in file | bold=\E]52;c;aGk=^G => file: bold\n  \\E]52;c;aGk=\^G\n              \^\n  clipboard: OSC 52: the terminal writes the clipboard\n  do: leave it out, or send it in a string that is for it\n
mistakes in file | bold=\E]9;x^G => file: bold\n  \\E]9;x\^G\n        \^\n  other-control: OSC 9: the terminal notifies, links, draws, programs keys or runs a command of its own\n  do: leave it out, or send it in a string that is for it\n
# Those of a stranger alone.
untrusted in file | bold=\E[?6q => file: bold\n  \\E[?6q\n       \^\n  unknown-function: CSI ?6q: the terminal does what this string is not known to need\n  do: leave it out, or send it in a string that is for it\n
untrusted in file | setaf=%p1%c => file: setaf\n  %p1%c\n  computed-byte: a byte is computed, so that nothing is known of what the terminal does\n  do: write the byte itself\n
untrusted in file | rep=\E_%p1%c\E\\ => file: rep\n  \\E_%p1%c\\E\\\\\n  parameter-unused: nothing pushes %p2\n  do: push each parameter that the string has\nfile: rep\n  \\E_%p1%c\\E\\\\\n  not-tried: it is too long, or has more forms than are followed\n  do: shorten the string, or write fewer conditionals into it\n
# One line says how many there are in the strings of a stranger's terminal of another kind.
untrusted in file | bel=\EZ\E[6n => file: bel\n  \\EZ\\E[6n\n    \^\n  answer: ESC Z: the terminal types an answer at the shell\n  do: leave it out, or send it in a string that is for it\n
untrusted in file | bel=\EZ | cr=\E[2t => file: entry\n  not-ecma: its strings are not those of ECMA-48; with --all each is reported; findings: 2\n  do: leave out what the terminal does not need\n
untrusted in file | bel=\EZ\E[2t | cr=\E[?6q => file: entry\n  not-ecma: its strings are not those of ECMA-48; with --all each is reported; findings: 3\n  do: leave out what the terminal does not need\n
mistakes in file | bel=\E[6n | cr=\E[2t => file: bel\n  \\E[6n\n      \^\n  answer: CSI 6n: the terminal types an answer at the shell\n  do: leave it out, or send it in a string that is for it\nfile: cr\n  \\E[2t\n      \^\n  window: CSI 2t: the terminal moves, resizes or hides its window\n  do: leave it out, or send it in a string that is for it\n
untrusted all in file | bel=\E[6n | cr=\E[2t => file: bel\n  \\E[6n\n      \^\n  answer: CSI 6n: the terminal types an answer at the shell\n  do: leave it out, or send it in a string that is for it\nfile: cr\n  \\E[2t\n      \^\n  window: CSI 2t: the terminal moves, resizes or hides its window\n  do: leave it out, or send it in a string that is for it\n
all in file | bel=\E[6n => file: bel\n  \\E[6n\n      \^\n  answer: CSI 6n: the terminal types an answer at the shell\n  do: leave it out, or send it in a string that is for it\n
untrusted in file | bel=\E[6n | cr=\E[2t | home=\E[H => file: bel\n  \\E[6n\n      \^\n  answer: CSI 6n: the terminal types an answer at the shell\n  do: leave it out, or send it in a string that is for it\nfile: cr\n  \\E[2t\n      \^\n  window: CSI 2t: the terminal moves, resizes or hides its window\n  do: leave it out, or send it in a string that is for it\n
# A clear of ECMA-48, and a bel that is the first byte of a character alone, which is no function.
mistakes in file | ^Z^A^B\000\000\000\000\000^F\000^F\000t\000\377\377\000\000\377\377\377\377\377\377^B\000\302\000\E[H\000 => -
untrusted in file | ^Z^A^B\000\000\000\000\000^F\000^F\000t\000\377\377\000\000\377\377\377\377\377\377^B\000\302\000\E[H\000 => file: bel\n  \\302\n  string-open: the terminal takes what follows for part of a function\n  do: write its end, or leave it out; \^G or \\E\\\\ ends a string\n
# They come after all other findings, which are listed in any case.
mistakes in file | bel=\E[6n | cuf=\E[%p1%{0}%/%dC | iprog=reset => file: iprog\n  reset\n  runs: tput init, tset and reset run it as a command\n  do: leave it out\nfile: cuf\n  \\E[%p1%{0}%/%dC\n            \^\n  crash: it divides by 0, at which Neovim, by unibilium 2.1, ends with SIGFPE\n  do: divide by a constant that is neither 0 nor -1\nfile: bel\n  \\E[6n\n      \^\n  answer: CSI 6n: the terminal types an answer at the shell\n  do: leave it out, or send it in a string that is for it\n
untrusted in file | bel=\E[6n\E[2t | iprog=reset => file: iprog\n  reset\n  runs: tput init, tset and reset run it as a command\n  do: leave it out\nfile: entry\n  not-ecma: its strings are not those of ECMA-48; with --all each is reported; findings: 2\n  do: leave out what the terminal does not need\n
";

#[test]
fn lines_say_what_the_terminal_does(rt: HostRuntime) {
    check_rows(&rt, LINES, &LinesOf);
}

/// The entry `t`, whose cbt, bel and cr are the same 16384 bytes `a`, of which the three have 49152.
fn shared_by_three() -> [u8; 16405] {
    let mut bytes = [b'a'; 16405];
    let front = [
        0x1a, 0x01, 0x02, 0, 0, 0, 0, 0, 0x03, 0, 0x01, 0x40, b't', 0, 0, 0, 0, 0, 0, 0,
    ];
    bytes[..20].copy_from_slice(&front);
    bytes[16404] = 0;
    bytes
}

/// How the entry is looked at, and the lines on it.
const SHARED: &str = r"
mistakes => entry\n  layout: the bytes are not those that tic writes\n  do: write the entry anew with ti convert\nentry\n  not-tried: its strings share bytes, and have more than 32768 together, so not all are looked at\n  do: leave out some of them\n
# The first two have 32768.
untrusted => entry\n  layout: the bytes are not those that tic writes\n  do: write the entry anew with ti convert\nentry\n  not-tried: its strings share bytes, and have more than 32768 together, so not all are looked at; not at cr\n  do: leave out some of them\n
";

/// The lines on the entry.
struct SharedLines;

impl Finds for SharedLines {
    fn find(&self, given: &Given<'_, '_>, found: &mut Vec<u8>) -> Result<(), Unfound> {
        let file = shared_by_three();
        let lines = lines_on(*found.allocator(), look_of(given.text), &file)?;
        Ok(found.extend_from_slice(lines.as_slice())?)
    }
}

#[test]
fn strings_that_share_bytes_are_not_all_looked_at(rt: HostRuntime) {
    check_rows(&rt, SHARED, &SharedLines);
}
