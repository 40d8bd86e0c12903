//! The table that says the word, the sentence and the remedy of each finding.

ghost use Rattle.std.specs.Prelude.{◌≡◌};
ghost use Rattle.ti_rules.specs.Findings.{effect_word, finding_word};

use crate::finding::Finding;
use ti_allow::Effect;
use ti_cap::CapFault;
use ti_lint::TokenFinding;

/// The sentence on a token, and what to do about it.
fn token_words(finding: TokenFinding) -> (&'static str, &'static str) {
    match finding {
        TokenFinding::StackUnderflow => (
            "on some path it pops more values than there are",
            "push as many values before it as it pops, on each path",
        ),
        TokenFinding::TermcapParameter => (
            "it pops a value, and the string has no %p",
            "push the parameter before it, such as with %p1",
        ),
        TokenFinding::ParameterRange => (
            " is the last parameter by terminfo(5)",
            "push a parameter that the string has",
        ),
        TokenFinding::RepeatedIncrement => (
            "on some path another %i comes before it",
            "leave out the second %i, and write %{1}%+ after a %p that should be greater by 1",
        ),
        TokenFinding::UnsetVariable => (
            "on some path nothing is stored into it before",
            "store into it with %P before, on each path",
        ),
        TokenFinding::StackResidue => (
            "on some path the value that it pushes is left",
            "print the value, or leave it out",
        ),
        TokenFinding::UnusedIncrement => (
            "no %p1 or %p2 comes after it",
            "push %p1 or %p2 after it, or leave it out",
        ),
        TokenFinding::LateIncrement => (
            "a %p1 or %p2 comes before it, and one after it",
            "write %i before the first %p1 or %p2",
        ),
        TokenFinding::DeadStore => (
            "nothing pushes the variable after it",
            "leave it out, or push the variable with %g",
        ),
        TokenFinding::OperandType => (
            "it takes a number as a string, or a string as a number",
            "write the conversion for what the parameter is, %d or %s",
        ),
        TokenFinding::NoEffect => (
            "this conditional has no effect",
            "leave out the conditional, or write what it should send",
        ),
        TokenFinding::ConstantCondition => (
            "its test has constants alone, and is always ",
            "test a parameter, or leave out the test and what is never sent",
        ),
        TokenFinding::RepeatedCondition => (
            "an earlier arm has the test after it",
            "write the test that is meant, or leave out the arm",
        ),
    }
}

/// What is wrong with a text that is no capability, the fault with its sentence, and what to do about it.
fn fault_words(fault: CapFault) -> (&'static str, &'static str) {
    match fault {
        CapFault::TooLong => (
            "TooLong, it has more than 32767 bytes",
            "shorten the string",
        ),
        CapFault::CutShort => (
            "CutShort, it ends inside an escape",
            "write %% for a percent sign, or the rest of the escape",
        ),
        CapFault::UnknownEscape => (
            "UnknownEscape, no escape of terminfo(5) starts so",
            "write %% for a percent sign, or an escape of terminfo(5)",
        ),
        CapFault::BadParameter => (
            "BadParameter, %p takes a digit from 1 to 9",
            "count parameters from 1, as in %p1",
        ),
        CapFault::BadVariable => (
            "BadVariable, %P and %g take a letter",
            "name the variable a to z or A to Z",
        ),
        CapFault::BadConstant => (
            "BadConstant, this is no number up to 2147483647 in %{5}, and no character in %'c'",
            "write the digits alone, as in %{5}, and %{0}%{5}%- for a negative number",
        ),
        CapFault::BadFormat => (
            "BadFormat, its width or precision is above 255, or a flag does not go with it",
            "use a smaller width, or write the spaces in the string",
        ),
        CapFault::StrayThen => (
            "StrayThen, no conditional needs a %t here",
            "put the missing %? before the test, or %e if one is open",
        ),
        CapFault::StrayElse => (
            "StrayElse, no conditional can have a %e here",
            "put the missing %t after the test before it",
        ),
        CapFault::StrayEnd => ("StrayEnd, no conditional is open", "leave out %;"),
        CapFault::NoThen => (
            "NoThen, the conditional has no %t before here",
            "put the missing %t after the test",
        ),
        CapFault::NestTooDeep => (
            "NestTooDeep, more than 32 conditionals are open",
            "close each with %;, or write %e with another test in place of a nested one",
        ),
        CapFault::StackTooDeep => (
            "StackTooDeep, more than 32 values are on the stack",
            "use or print values sooner, and push none that is not used",
        ),
    }
}

/// The word for an effect.
fn effect_word(effect: Effect) -> &'static str
    ensures { result.now ≡ effect_word effect }
{
    match effect {
        Effect::Answer => "answer",
        Effect::Reports => "reports",
        Effect::Title => "title",
        Effect::Window => "window",
        Effect::Clipboard => "clipboard",
        Effect::Palette => "palette",
        Effect::Print => "print",
        Effect::Reset => "reset",
        Effect::OtherControl => "other-control",
    }
}

/// Says what comes of it, as a clause whose subject is the terminal.
fn consequence(effect: Effect) -> &'static str {
    match effect {
        Effect::Answer => "types an answer at the shell",
        Effect::Reports => "types reports at the shell from then on, or takes no keys",
        Effect::Title => "sets, saves or restores the title of its window",
        Effect::Window => "moves, resizes or hides its window",
        Effect::Clipboard => "writes the clipboard",
        Effect::Palette => "changes its colors",
        Effect::Print => "prints, or stops printing",
        Effect::Reset => "resets itself",
        Effect::OtherControl =>
            "notifies, links, draws, programs keys or runs a command of its own",
    }
}

/// The row of a finding: its word, the sentence on it, which its evidence completes, and its remedy.
pub fn row(finding: Finding) -> (&'static str, &'static str, &'static str)
    ensures word { result.0.now ≡ finding_word finding }
{
    match finding {
        Finding::Token(finding) => {
            let (sentence, remedy) = token_words(finding);
            (finding.word(), sentence, remedy)
        }
        Finding::Malformed(fault) => {
            let (sentence, remedy) = fault_words(fault);
            ("malformed", sentence, remedy)
        }
        Finding::UnusedParameter => (
            "parameter-unused",
            "nothing pushes",
            "push each parameter that the string has",
        ),
        Finding::UnusedColumn => (
            "parameter-unused",
            "nothing pushes",
            "push the column with %p1, if the terminal takes one",
        ),
        Finding::UninterpretedEscape => (
            "uninterpreted-escape",
            "the string is sent as it stands",
            "write the bytes that the terminal should get, without % sequences",
        ),
        Finding::UninterpretedPercent => (
            "uninterpreted-percent",
            "%% is sent as two characters: this string is not expanded",
            "write one %",
        ),
        Finding::FalseMark => (
            "padding-malformed",
            "this starts no delay",
            "write the delay as $<5>, or leave it out",
        ),
        Finding::MarkInKey => (
            "padding-in-key",
            "what a key sends has no delay",
            "leave out the delay",
        ),
        Finding::HalfPaired => (
            "acsc-odd",
            "the bytes are pairs, and one is left",
            "add the byte that is missing",
        ),
        Finding::EqualPair => (
            "pair-equal",
            "one should undo the other",
            "write the sequence that undoes the other",
        ),
        Finding::ToggledPair => (
            "pair-equal",
            "one should undo the other",
            "write a sequence of its own, unless the terminal toggles the mode",
        ),
        Finding::KeyPrefix => (
            "key-prefix",
            "one is the first part of the other",
            "leave out one of the keys, or write what it sends",
        ),
        Finding::AlikeKeys => (
            "keys-alike",
            "two keys send the same",
            "leave out one of the keys, or write what it sends",
        ),
        Finding::RepeatedName => (
            "name-repeated",
            "the entry has the name twice",
            "leave out one of the two",
        ),
        Finding::StandardName => (
            "name-repeated",
            "the name is one of terminfo(5)",
            "leave it out, and write the capability of terminfo(5)",
        ),
        Finding::ColorsStay => (
            "colors-pair",
            "there are colors, and neither op nor oc",
            "add op, or leave out colors",
        ),
        Finding::NoColors => (
            "colors-pair",
            "there are colors, and none of setaf, setf and scp",
            "add setaf, or leave out colors",
        ),
        Finding::ColorsAreFixed => (
            "colors-pair",
            "there is ccc, and neither initc nor initp",
            "add initc, or leave out ccc",
        ),
        Finding::Layout => (
            "layout",
            "the bytes are not those that tic writes",
            "write the entry anew with ti convert",
        ),
        Finding::Base => (
            "base",
            "readers differ in where the user-defined names start",
            "write the entry anew with ti convert",
        ),
        Finding::EmptyOutput => (
            "empty-output",
            " it sends nothing",
            "send something for each value, in an otherwise part if need be",
        ),
        Finding::SameOutput => ("same-output", "", "send something else for each of the two"),
        Finding::NegativeNumber => (
            "negative-number",
            ", with a number below 0",
            "subtract in the %e of a test, as in %?%p1%{8}%<%t3%p1%d%e9%p1%{8}%-%d%;",
        ),
        Finding::OriginDiffers => (
            "origin-differs",
            "their numbers for the first line or column differ",
            "count from 1 in both, with %i before the parameters",
        ),
        Finding::IgnoredAttribute => (
            "sgr-attribute-ignored",
            " it sends the same as for no attribute, and there is ",
            "send the attribute in sgr too",
        ),
        Finding::DifferingAttribute => (
            "sgr-attribute-differs",
            ", and ",
            "send the same in sgr as in the string for the attribute",
        ),
        Finding::Combination => (
            "sgr-combination",
            ", without what one of them sends alone",
            "send the part of each attribute, whatever the others are",
        ),
        Finding::ShownText => (
            "sgr-text",
            ", of which some is shown",
            "leave out what is in no sequence",
        ),
        Finding::UnendedSequence => (
            "control-sequence",
            ", with an unterminated \\E[ sequence",
            "write the final byte of the sequence",
        ),
        Finding::SpacedSequence => (
            "control-sequence",
            ", where a space stands among the numbers of a \\E[",
            "write %d or %02d, and no space",
        ),
        Finding::SignedSequence => (
            "control-sequence",
            ", where a minus stands among the numbers of a \\E[",
            "leave out the minus",
        ),
        Finding::SpacedText => (
            "control-sequence",
            "a space stands among the numbers of a \\E[",
            "leave out the space",
        ),
        Finding::SignedText => (
            "control-sequence",
            "a minus stands among the numbers of a \\E[",
            "leave out the minus",
        ),
        Finding::UnendedText => (
            "control-sequence",
            "unterminated \\E[ sequence",
            "write the final byte of the sequence",
        ),
        Finding::EmptyKey => (
            "key-empty",
            "no key sends nothing",
            "write what the key sends, or leave it out",
        ),
        Finding::LongDelay => (
            "long-delay",
            "this delay is longer than a second",
            "write a shorter delay",
        ),
        Finding::LongDelays => (
            "long-delay",
            "its delays are longer than two seconds together",
            "write shorter delays",
        ),
        Finding::Runs => (
            "runs",
            "tput init, tset and reset run it as a command",
            "leave it out",
        ),
        Finding::Reads => (
            "reads",
            "tput init, tset and reset send the file to the terminal",
            "name a file below /usr/share/tabset, or leave it out",
        ),
        Finding::Size => (
            "size",
            "lines times columns are above a million",
            "write the lines and columns that the terminal has",
        ),
        Finding::ManyColors => (
            "size",
            "there are more than 16777216 colors or pairs",
            "write the colors and pairs that the terminal has",
        ),
        Finding::LoneMir => (
            "mir-alone",
            "there is mir, and none of smir, ich and ich1",
            "add how to insert, or leave out mir",
        ),
        Finding::NamesControl => (
            "names-control",
            "this is a control character",
            "leave it out",
        ),
        Finding::NamesMalformed => (
            "names-control",
            "from here on it is no UTF-8",
            "write the names in UTF-8",
        ),
        Finding::EmptyAlias => (
            "names-odd",
            "an alias is empty",
            "leave out the | before or after it",
        ),
        Finding::UnfitAlias => (
            "names-odd",
            "an alias has a space or a /, so no file has its name",
            "write an alias without it",
        ),
        Finding::LongNames => (
            "names-odd",
            "the names are longer than 512 bytes",
            "leave out some of the names",
        ),
        Finding::OwnNameControl => (
            "names-control",
            "the name has a control character, or is no UTF-8",
            "give it another name, or leave it out",
        ),
        Finding::RepeatedAlias => (
            "alias-repeated",
            "the entry has the alias twice",
            "leave out one of the two",
        ),
        Finding::NotTried => (
            "not-tried",
            "it is too long, or may send too much",
            "shorten the string",
        ),
        Finding::NotAllTried => (
            "not-tried",
            "its strings share bytes, and have more than 32768 together, so not all are looked at",
            "leave out some of them",
        ),
        Finding::DividesByZero => (
            "crash",
            "it divides by 0, at which Neovim, by unibilium 2.1, ends with SIGFPE",
            "divide by a constant that is neither 0 nor -1",
        ),
        Finding::DividesByParameter => (
            "crash",
            " may be 0 and is divided by, at which Neovim, by unibilium 2.1, ends with SIGFPE",
            "divide by a constant that is neither 0 nor -1",
        ),
        Finding::DividesLeast => (
            "crash",
            "it divides -2147483648 by -1, at which tput, less and nano, by ncurses 6.4, and Neovim end with SIGFPE",
            "divide by a constant that is neither 0 nor -1",
        ),
        Finding::Control(effect) => (
            effect_word(effect),
            consequence(effect),
            "leave it out, or send it in a string that is for it",
        ),
        Finding::UnknownFunction => (
            "unknown-function",
            "does what this string is not known to need",
            "leave it out, or send it in a string that is for it",
        ),
        Finding::ComputedByte => (
            "computed-byte",
            "a byte is computed, so that nothing is known of what the terminal does",
            "write the byte itself",
        ),
        Finding::OpenString => (
            "string-open",
            "the terminal takes what follows for part of a function",
            "write its end, or leave it out; ^G or \\E\\\\ ends a string",
        ),
        Finding::OpenLine => (
            "string-open",
            "the terminal takes what follows for part of a function",
            "add fsl, or end it with ^G or \\E\\\\",
        ),
        Finding::CutString => (
            "string-cut",
            "an escape cuts a string off, which on some terminals goes on",
            "end the string before it, with ^G or \\E\\\\",
        ),
        Finding::NotFollowed => (
            "not-tried",
            "it is too long, or has more forms than are followed",
            "shorten the string, or write fewer conditionals into it",
        ),
        Finding::NotEcma => (
            "not-ecma",
            "its strings are not those of ECMA-48; with --all each is reported; findings: ",
            "leave out what the terminal does not need",
        ),
    }
}
