//! What the parser hands out.

ghost use Rattle.std.specs.Prelude.{◌≡◌, Some, None};
ghost use Rattle.std.specs.Bool.{OnTrue};
ghost use Rattle.ti_parser.specs.Functions.{blank, control, escape, finished, nothing, only, pushed, with_intermediate};

use crate::number::{FunctionNumber, FunctionNumbers, MOST_NUMBERS};

/// The kind of a function.
#[derive(Clone, Copy, Debug, PartialEq, Eq)]
pub enum FunctionKind {
    /// A control of C0.
    Control,
    /// An escape sequence.
    Escape,
    /// A control sequence, CSI.
    Sequence,
    /// A device control string, DCS.
    Device,
    /// An operating system command, OSC.
    System,
    /// A character string, SOS.
    Start,
    /// A privacy message, PM.
    Privacy,
    /// An application program command, APC.
    Application,
    /// A title of screen(1), `ESC k`.
    Title,
}

/// The intermediate bytes of a function.
#[derive(Clone, Copy, Debug, PartialEq, Eq)]
pub enum Intermediates {
    /// None.
    Empty,
    /// One.
    Single(u8),
    /// Two, in their order.
    Pair(u8, u8),
    /// More than two, which no function has.
    Many,
}

impl Intermediates {
    /// The intermediate bytes with one more.
    pub(crate) fn with(self, byte: u8) -> Intermediates
        ensures { result ≡ with_intermediate self byte }
    {
        match self {
            Intermediates::Empty => Intermediates::Single(byte),
            Intermediates::Single(first) => Intermediates::Pair(first, byte),
            Intermediates::Pair(_, _) => Intermediates::Many,
            Intermediates::Many => Intermediates::Many,
        }
    }
}

/// A function of a terminal: a control, an escape sequence, a control sequence or a string.
#[derive(Drop)]
pub struct Function {
    /// Its kind.
    pub kind: FunctionKind,
    /// Its private marker, from `<` to `?`.
    pub marker: Option<u8>,
    /// Its intermediate bytes.
    pub intermediates: Intermediates,
    /// Its numbers; of an `ESC ] P` of the Linux console its seven digits.
    pub numbers: FunctionNumbers,
    /// The control itself, the final byte, or the first character of a string. `None` if a string has no such character of
    /// ASCII, or a number comes first and separates it.
    pub letter: Option<u8>,
    /// Whether a `?` stands in the body of a string.
    pub asks: bool,
    /// Whether more numbers came than are kept.
    pub is_overfull: bool,
}

/// What one byte hands out.
#[derive(Drop)]
pub struct HandedOut {
    /// A string that the byte ends or cuts off.
    pub ended: Option<Function>,
    /// Any other function, which comes after the string.
    pub function: Option<Function>,
}

impl Function {
    /// A function of which nothing is known.
    pub(crate) fn blank() -> Function
        ensures { result ≡ blank }
    {
        Function {
            kind: FunctionKind::Control,
            marker: None,
            intermediates: Intermediates::Empty,
            numbers: FunctionNumbers::new(),
            letter: None,
            asks: false,
            is_overfull: false,
        }
    }

    /// A control of C0.
    pub(crate) fn control(byte: u8) -> Function
        ensures { result ≡ control byte }
    {
        let mut function = Function::blank();
        function.letter = Some(byte);
        function
    }

    /// An escape sequence without intermediate bytes.
    pub(crate) fn escape(byte: u8) -> Function
        ensures { result ≡ escape byte blank }
    {
        let mut function = Function::control(byte);
        function.kind = FunctionKind::Escape;
        function
    }

    /// The same function.
    pub fn duplicate(&self) -> Function
        ensures { result ≡ self.now }
    {
        Function {
            kind: self.kind,
            marker: self.marker,
            intermediates: self.intermediates,
            numbers: self.numbers.duplicate(),
            letter: self.letter,
            asks: self.asks,
            is_overfull: self.is_overfull,
        }
    }

    /// Whether it is the same function.
    pub fn is_same(&self, other: &Function) -> bool
        ensures { OnTrue result (self.now ≡ other.now) }
    {
        if self.kind != other.kind || self.marker != other.marker {
            return false;
        }
        if self.intermediates != other.intermediates || self.letter != other.letter {
            return false;
        }
        if self.asks != other.asks || self.is_overfull != other.is_overfull {
            return false;
        }
        if !self.numbers.is_same(&other.numbers) {
            return false;
        }
        true
    }

    /// Forgets all.
    pub(crate) fn clear(&mut self)
        ensures { self.new ≡ blank }
    {
        self.kind = FunctionKind::Control;
        self.marker = None;
        self.intermediates = Intermediates::Empty;
        self.numbers.clear();
        self.letter = None;
        self.asks = false;
        self.is_overfull = false;
    }

    /// Keeps one more number, if there is room.
    pub(crate) fn push(&mut self, number: FunctionNumber)
        ensures { self.new ≡ pushed number self.old }
    {
        if self.numbers.len() < MOST_NUMBERS {
            self.numbers.push(number);
        } else {
            self.is_overfull = true;
        }
    }

    /// Keeps the number that is underway, if there is any.
    pub(crate) fn finish(&mut self, number: FunctionNumber)
        ensures { self.new ≡ finished number self.old }
    {
        match number {
            FunctionNumber::Absent if self.numbers.len() == 0 => {}
            _ => self.push(number),
        }
    }
}

impl HandedOut {
    /// Nothing.
    pub(crate) fn nothing() -> HandedOut
        ensures { result ≡ nothing }
    {
        HandedOut {
            ended: None,
            function: None,
        }
    }

    /// A function that is no string.
    pub(crate) fn only(function: Function) -> HandedOut
        ensures { result ≡ only function }
    {
        HandedOut {
            ended: None,
            function: Some(function),
        }
    }
}
