//! The texts of help. A line on an argument has at most 58 characters, so that help fits into 80 columns.

pub(crate) const PARAMS: &str = "Parameters: n:NUMBER (-2147483648 to 2147483647) or
s:STRING; at most nine, a missing one is the number 0";

pub(crate) const TRACE_PARAMS: &str = "Parameters: n:NUMBER or s:STRING, or with --of 5 or red;
at most nine, a missing one is the number 0";

pub(crate) const ANY_PARAMS: &str = "Parameters, such as 5 or red; n:5 and s:5 force the type;
without parameters the string is padded, but its % escapes
are left alone";

pub(crate) const FILES: &str = "Compiled entries, or directories of them; - or nothing
means standard input";

pub(crate) const FILE: &str = "A compiled entry; - or nothing means standard input";

pub(crate) const PAIR: &str = "One entry, to compare standard input with, or two entries;
either can be -, which means standard input";

pub(crate) const OF: &str = "Trace this string of an entry, by any name that ti get
takes; without --of the string is read from standard input";

pub(crate) const TEXT_NAME: &str = "The name of a string, such as cup, or a user-defined name;
or #N, the string with index N, such as #10";

pub(crate) const ANY_NAME: &str = "The name: cup, cursor_address or a user-defined name; or
flag#N, number#N or text#N, by its index; #N is text#N";

pub(crate) const SOURCE: &str = "Read the string as terminfo(5) writes it, such as
\\E[%p1%dG; a newline at its end is left out";

pub(crate) const HEX: &str = "Write the output as lower-case hex and a newline; not with
--escape";

pub(crate) const ESCAPE: &str = "Write names, strings and outputs in the notation of
terminfo(5), such as \\E[H";

pub(crate) const JSON: &str = "Write JSON; names are of all 497 capabilities, and strings
are in the notation of terminfo(5)";

pub(crate) const COLOR: &str = "Use color: always, never or auto; auto, the default, means
only at a terminal, and only if NO_COLOR is not set";

pub(crate) const ALL_NAMES: &str = "Name all 497 capabilities (default: 114; the others print
as #N)";

pub(crate) const FAULTS: &str = "Write only the strings with a fault, and leave out u6 and
u8, which are patterns of input";

pub(crate) const ALL: &str = "Report also findings that may be intended, such as two
keys that send the same string";

pub(crate) const UNTRUSTED: &str = "For entries that you don't trust: also report all that
strings can send beside the table of harmless functions";

pub(crate) const SUMMARY: &str = "Print a summary on standard error (the default at a
terminal)";

pub(crate) const EXPLAIN: &str = "Explain the findings with these words, in place of reading
files, or list all words";

pub(crate) const EXPAND: &str = "Ignore differences in spelling, such as %{65} and %'A',
which expand to the same";

pub(crate) const RATE: &str = "Speed of the line in bytes per second, 0 to 1000000;
default 0, at which a delay writes nothing";

pub(crate) const LINES: &str = "Lines that the string affects, 0 to 65535 (default 1); a
delay with * is multiplied by it";

pub(crate) const XON: &str = "Flow control: of the delays write only the mandatory ones,
which are marked by /";

pub(crate) const WIDE: &str = "Write the format with numbers of 32 bits";

pub(crate) const NARROW: &str = "Write the format with numbers of 16 bits, which are
at most 32767; not with --wide";

pub(crate) const FORCE: &str = "Write the entry even to a terminal";

/// The exit statuses in help, and examples.
pub(crate) const STATUSES: &str = "Status:
  0  done
  1  a fault (check), a mistake (lint), a difference (diff),
     or a boolean that is not set (get)
  2  usage error
  3  not a valid entry
  4  invalid or missing capability
  5  reading or writing failed
  6  out of memory

Examples (ti-path prints the file of your terminal's entry):
  ti show --escape \"$(ti-path)\"
  ti lint \"$(ti-path)\"
  ti get cup 4 9 --entry \"$(ti-path)\"";
