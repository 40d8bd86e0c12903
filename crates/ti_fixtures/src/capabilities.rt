//! Capabilities, with what they write for their parameters by terminfo(5): rows of a capability, its first parameters and the
//! bytes that it writes.

use std::alloc::{AllocError, Global};
use ti_expand::Value;
use ti_expand::Value::{Num, Text};

/// The nine parameters, of which the first are these and the others the number 0.
pub fn nine<'a>(first: &[Value<'a>]) -> [Value<'a>; 9] {
    let mut parameters = [Num(0); 9];
    for i in 0..first.len().min(9) {
        parameters[i] = first[i];
    }
    parameters
}

/// The nine parameters that words give, numbers or texts, and the number 0 for those that they lack. The word `-` is none.
pub fn values_of(words: &str) -> [Value<'_>; 9] {
    let mut values = [Num(0); 9];
    let mut count = 0;
    for word in words.split_whitespace() {
        if count < 9 && word != "-" {
            values[count] = match word.parse::<i32>() {
                Ok(number) => Num(number),
                Err(_) => Text(word.as_bytes()),
            };
            count += 1;
        }
    }
    values
}

/// A capability of depth 32 whose conditionals nest 32 deep: 31 values, each test one more, and then 31 numbers.
pub fn deep(alloc: Global) -> Result<Vec<u8>, AllocError> {
    let parts: [(&[u8], usize); 4] = [(b"%p1", 31), (b"%?%p1%t", 32), (b"%d", 31), (b"%;", 32)];
    let mut bytes = Vec::new(alloc);
    for (part, count) in parts {
        for _ in 0..count {
            bytes.extend_from_slice(part)?;
        }
    }
    Ok(bytes)
}

/// `cup` of many terminals.
pub const CUP: &[u8] = b"\x1b[%i%p1%d;%p2%dH";

/// `setaf` of xterm-256color.
pub const SETAF: &[u8] = b"\x1b[%?%p1%{8}%<%t3%p1%d%e%p1%{16}%<%t9%p1%{8}%-%d%e38;5;%p1%d%;m";

/// `setab` of xterm-256color.
pub const SETAB: &[u8] = b"\x1b[%?%p1%{8}%<%t4%p1%d%e%p1%{16}%<%t10%p1%{8}%-%d%e48;5;%p1%d%;m";

/// `sgr` of xterm-256color.
pub const XTERM_SGR: &[u8] =
    b"%?%p9%t\x1b(0%e\x1b(B%;\x1b[0%?%p6%t;1%;%?%p5%t;2%;%?%p2%t;4%;%?%p1%p3%|%t;7%;%?%p4%t;5%;%?%p7%t;8%;m";

/// `sgr` of screen.
pub const SCREEN_SGR: &[u8] =
    b"\x1b[0%?%p6%t;1%;%?%p1%t;3%;%?%p2%t;4%;%?%p3%t;7%;%?%p4%t;5%;%?%p5%t;2%;m%?%p9%t\x0e%e\x0f%;";

/// `sgr` of linux.
pub const LINUX_SGR: &[u8] =
    b"\x1b[0;10%?%p1%t;7%;%?%p2%t;4%;%?%p3%t;7%;%?%p4%t;5%;%?%p5%t;2%;%?%p6%t;1%;m%?%p9%t\x0e%e\x0f%;";

/// `sgr` of vt220 in terminfo(5).
pub const VT220_SGR: &[u8] =
    b"\x1b[0%?%p1%p6%|%t;1%;%?%p2%t;4%;%?%p4%t;5%;%?%p1%p3%|%t;7%;%?%p7%t;8%;m%?%p9%t\x0e%e\x0f%;";

/// 32 values on the stack.
pub const PUSHED_32: &[u8] =
    b"%p1%p1%p1%p1%p1%p1%p1%p1%p1%p1%p1%p1%p1%p1%p1%p1%p1%p1%p1%p1%p1%p1%p1%p1%p1%p1%p1%p1%p1%p1%p1%p1";

/// 32 conditionals that are open at the end.
pub const OPEN_32: &[u8] =
    b"%?%p1%t%?%p1%t%?%p1%t%?%p1%t%?%p1%t%?%p1%t%?%p1%t%?%p1%t%?%p1%t%?%p1%t%?%p1%t%?%p1%t%?%p1%t%?%p1%t%?%p1%t%?%p1%t%?%p1%t%?%p1%t%?%p1%t%?%p1%t%?%p1%t%?%p1%t%?%p1%t%?%p1%t%?%p1%t%?%p1%t%?%p1%t%?%p1%t%?%p1%t%?%p1%t%?%p1%t%?%p1%tx";

/// 32 conditionals, each inside the one before.
pub const CLOSED_32: &[u8] =
    b"%?%p1%t%?%p1%t%?%p1%t%?%p1%t%?%p1%t%?%p1%t%?%p1%t%?%p1%t%?%p1%t%?%p1%t%?%p1%t%?%p1%t%?%p1%t%?%p1%t%?%p1%t%?%p1%t%?%p1%t%?%p1%t%?%p1%t%?%p1%t%?%p1%t%?%p1%t%?%p1%t%?%p1%t%?%p1%t%?%p1%t%?%p1%t%?%p1%t%?%p1%t%?%p1%t%?%p1%t%?%p1%tx%;%;%;%;%;%;%;%;%;%;%;%;%;%;%;%;%;%;%;%;%;%;%;%;%;%;%;%;%;%;%;%;";

/// Conditionals in both parts of a conditional.
pub const INNER_PARTS: &[u8] = b"%?%p1%t%?%p2%ta%eb%;c%e%?%p3%td%;e%;f";

/// Capabilities that push, pop and print, without a conditional.
pub const STACK: &str = r"
\E[%p1%dG | 7 => \E[7G
%{65}%d%% | - => 65%
%p1%p2%d%d | 1 2 => 21
%d | - => 0
%p1%d | -2147483648 => -2147483648
@CUP | 4 9 => \E[5;10H
- | - => -
%i%p1%d | 2147483647 => -2147483648
\E[%i%d;%dR | - => \E[0;0R
%p1%PA%gA%gA%*%d | 12 => 144
%gA%d | - => 0
%'''%d | - => 39
%{5}%p1%A%d | abc => 0
";

/// Operations, and `%c`.
pub const OPERATIONS: &str = r"
%p1%{0}%/%d | 7 => 0
%p1%p2%/%d | -2147483648 -1 => -2147483648
%p1%{3}%/%d,%p1%{3}%m%d | -7 => -2,-1
%p1%p2%-%d | 3 5 => -2
%p1%~%d%p1%!%d | 0 => -11
%p1%c | 0 => \200
%p1%c | 256 => \200
%p1%c | 65 => A
# x-5, and `rep` of ansi, in terminfo(5)
%p1%Px%gx%{5}%-%d | 12 => 7
%p1%c\E[%p2%{1}%-%db | 120 5 => x\E[4b
# `cup` of the ACT-IV in terminfo(5), which takes row and column in binary, and of the ADM-3a, which adds a space to each
^T%p1%c%p2%c | 5 9 => ^T^E^I
\E=%p1%' '%+%c%p2%' '%+%c | 3 12 => \E=#,
";

/// Formats of numbers.
pub const FORMATS: &str = r"
%p1%x | -1 => ffffffff
%p1%#o | 8 => 010
%p1%.0d | 0 => -
%p1%#.0o | 0 => 0
%p1%03d | -5 => -05
%p1%2.2X | 10 => 0A
%p1%:+d | 5 => +5
%p1%#x | 0 => 0
%p1%:-05d| | 7 => 7    |
%p1%05.3d | 7 => \s 007
%p1%#06x | 255 => 0x00ff
%p1% d | 5 => \s5
%p1%o | -1 => 37777777777
# what the HP2645 takes for line 3 and column 12 in terminfo(5)
\E&a%p2%02dc%p1%02dY | 3 12 => \E&a12c03Y
";

/// Capabilities with texts among their parameters, or with formats of texts.
pub const TEXTS: &str = r"
%p1%d | abc => 0
%p1%:-6s| | abc => abc   |
%p1%.2s | abc => ab
%p1%s | 5 => -
%p1%l%d | abc => 3
%i%p1%s%p2%d | a 5 => a6
%p1%.s| | abc => |
%p1%s | $<5> => $<5>
";

/// Capabilities with conditionals.
pub const CONDITIONAL: &str = r"
@SETAF | 1 => \E[31m
@SETAF | 9 => \E[91m
@SETAF | 200 => \E[38;5;200m
%?%p1%t%?%p2%tA%eB%;%eC | 0 1 => C
%?%p1%t%?%p2%tA%eB%;%eC | 1 0 => B
%?%p1%t%'%'%c%%e%eX%; | 0 => X
%?%p1%t%'%'%c%%e%eX%; | 1 => %%e
%?%p1%tabc%ed%; | 1 => abc
%?%p1%tabc%ed%; | 0 => d
%?%p1%tA%e%p2%tB | 0 0 => -
@INNER_PARTS | 0 0 0 => ef
@INNER_PARTS | 1 0 0 => bcf
# no attribute, each but dim and protect, and all, in terminfo(5)
@VT220_SGR | - => \E[0m^O
@VT220_SGR | 1 => \E[0;1;7m^O
@VT220_SGR | 0 1 => \E[0;4m^O
@VT220_SGR | 0 0 1 => \E[0;7m^O
@VT220_SGR | 0 0 0 1 => \E[0;5m^O
@VT220_SGR | 0 0 0 0 0 1 => \E[0;1m^O
@VT220_SGR | 0 0 0 0 0 0 1 => \E[0;8m^O
@VT220_SGR | 0 0 0 0 0 0 0 0 1 => \E[0m^N
@VT220_SGR | 1 1 1 1 1 1 1 1 1 => \E[0;1;4;5;7;8m^N
";

/// Colours and the cursor of xterm-256color, screen and linux, with what `tput` prints of them.
pub const COLORS: &str = r"
@SETAF | 1 => \E[31m
@SETAF | 9 => \E[91m
@SETAF | 200 => \E[38;5;200m
@SETAB | 2 => \E[42m
@SETAB | 12 => \E[104m
@SETAB | 100 => \E[48;5;100m
@CUP | 0 0 => \E[1;1H
@CUP | 23 79 => \E[24;80H
\E[3%p1%dm | 1 => \E[31m
\E[3%p1%dm | 9 => \E[39m
\E[3%p1%dm | 200 => \E[3200m
\E[4%p1%dm | 2 => \E[42m
\E[4%p1%dm | 12 => \E[412m
\E[4%p1%dm | 100 => \E[4100m
";

/// `sgr` of xterm-256color, screen and linux, with what `tput` prints of it.
pub const SGR: &str = r"
@XTERM_SGR | 0 0 0 0 0 0 0 0 0 => \E(B\E[0m
@XTERM_SGR | 1 1 1 1 1 1 1 1 1 => \E(0\E[0;1;2;4;7;5;8m
@XTERM_SGR | 0 1 0 0 0 1 0 0 0 => \E(B\E[0;1;4m
@SCREEN_SGR | 0 0 0 0 0 0 0 0 0 => \E[0m^O
@SCREEN_SGR | 1 1 1 1 1 1 1 1 1 => \E[0;1;3;4;7;5;2m^N
@SCREEN_SGR | 0 1 0 0 0 1 0 0 0 => \E[0;1;4m^O
@LINUX_SGR | 0 0 0 0 0 0 0 0 0 => \E[0;10m^O
@LINUX_SGR | 1 1 1 1 1 1 1 1 1 => \E[0;10;7;4;7;5;2;1m^N
@LINUX_SGR | 0 1 0 0 0 1 0 0 0 => \E[0;10;4;1m^O
";
