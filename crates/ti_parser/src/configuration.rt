//! The parser, byte by byte.

ghost use Rattle.std.specs.Prelude.{◌≡◌, ◌<◌, ◌≤◌, ◌-◌, Some, None};
ghost use Rattle.std.specs.Bool.{OnTrue};
ghost use Rattle.ti_parser.specs.Covers.{CoversConfiguration};
ghost use Rattle.ti_parser.specs.Functions.{escape, nothing, only};
ghost use Rattle.ti_parser.specs.Numbers.{with_digit};
ghost use Rattle.ti_parser.specs.inner.Colors.{with_any_digit, with_color};
ghost use Rattle.ti_parser.specs.Machine.{act, added_hex, after_text, anew, collected, complete, entered, goes_on, ground, hexed, introduced, is_ignored, is_introducer, is_swallowed, marked, moved, named, next_by_character, opened, plain, put, separated, step, system_named, taken, with_character};

use crate::character::{Begun, Symbol, decode};
use crate::class::class_of;
use crate::function::{Function, FunctionKind, HandedOut};
use crate::number::{FunctionNumber, forgotten, hex_value, is_absent, is_hex};
use crate::reading::{Reading, Within};
use crate::state::State;
use crate::transition::{ParserAction, transition_of};

/// What is kept of the numbers of a configuration.
#[derive(Clone, Copy)]
pub(crate) enum Detail {
    /// All of them.
    Whole,
    /// All, but of digits that came last only that they came.
    ButLast,
    /// Only whether they came.
    Shape,
}

/// All that the parser remembers between two bytes.
#[derive(Drop)]
pub struct Configuration {
    /// Where it is.
    pub state: State,
    /// How much of a character of UTF-8 has come.
    pub begun: Begun,
    /// What has come of a function, but for its last number.
    pub underway: Function,
    /// The number that is underway.
    pub number: FunctionNumber,
}

/// Whether the byte of a control of C1 introduces a function or ends a string.
fn is_introducer(byte: u8) -> bool
    ensures { result ≡ is_introducer byte }
{
    byte == b'P' || byte == b'X' || b'[' <= byte
}

/// Whether a function goes on after a control of C1.
fn goes_on(within: Within, byte: u8, state: State) -> bool
    ensures { result ≡ goes_on within byte state }
{
    match (within, state) {
        (Within::StartsAnew, _) => false,
        (Within::GoesOn, State::Ground) => false,
        (Within::GoesOn, _) => {
            if state.is_string() {
                byte != b'\\'
            } else {
                !is_introducer(byte)
            }
        }
    }
}

/// Whether an action is none.
fn is_ignored(action: ParserAction) -> bool
    ensures { result ≡ is_ignored action }
{
    matches!(action, ParserAction::Ignore)
}

/// Whether a control of C0 that a string ignores is carried out.
fn is_swallowed(within: Within, byte: u8, state: State) -> bool
    ensures { result ≡ is_swallowed within byte state }
{
    match within {
        Within::StartsAnew => false,
        Within::GoesOn => {
            state.is_string()
                && byte < 0x20
                && is_ignored(transition_of(state, class_of(byte)).action)
        }
    }
}

/// The next state after a character beyond ASCII.
fn next_by_character(state: State) -> State
    ensures { result ≡ next_by_character state }
{
    match state {
        State::SystemNumber => State::SystemBody,
        State::StringStart => State::StringBody,
        State::Palette => State::Ground,
        _ => state,
    }
}

impl Configuration {
    ghost use Rattle.ti_parser.specs.declared.configuration.Configuration.{Configuration};

    /// The parser before any byte.
    pub fn new() -> Configuration
        ensures { result ≡ ground }
    {
        Configuration {
            state: State::Ground,
            begun: Begun::Nothing,
            underway: Function::blank(),
            number: FunctionNumber::Absent,
        }
    }

    /// The same configuration.
    pub fn duplicate(&self) -> Configuration
        ensures { result ≡ self.now }
    {
        Configuration {
            state: self.state,
            begun: self.begun,
            underway: self.underway.duplicate(),
            number: self.number,
        }
    }

    /// The configuration after a byte of text.
    pub(crate) fn after_text(&self) -> Configuration
        ensures { result ≡ after_text self.now }
    {
        let mut next = self.duplicate();
        next.begun = Begun::Nothing;
        next.enter(self.state);
        next
    }

    /// Whether it is the same configuration.
    pub fn is_same(&self, other: &Configuration) -> bool
        ensures { OnTrue result (self.now ≡ other.now) }
    {
        if self.state != other.state || self.begun != other.begun || self.number != other.number {
            return false;
        }
        if !self.underway.is_same(&other.underway) {
            return false;
        }
        true
    }

    /// Forgets numbers.
    pub(crate) fn reduce(&mut self, detail: Detail)
        ensures { (c : Configuration) → CoversConfiguration self.old c → CoversConfiguration self.new c }
    {
        match detail {
            Detail::Whole => {}
            Detail::ButLast => {
                if self.state.takes_number() {
                    self.number = forgotten(self.number);
                }
            }
            Detail::Shape => {
                self.number = forgotten(self.number);
                self.underway.numbers = self.underway.numbers.forgotten();
            }
        }
    }

    /// Goes to a state.
    fn enter(&mut self, next: State)
        ensures { self.new ≡ entered next self.old }
    {
        self.state = next;
        if next.is_fresh() {
            self.underway.clear();
            self.number = FunctionNumber::Absent;
        }
    }

    /// Goes to a state, and hands out nothing.
    fn go(&mut self, next: State) -> HandedOut
        ensures configuration { self.new ≡ entered next self.old }
        ensures output { result ≡ nothing }
    {
        self.enter(next);
        HandedOut::nothing()
    }

    /// Goes to a state, and hands out a function.
    fn give(&mut self, next: State, function: Function) -> HandedOut
        ensures configuration { self.new ≡ entered next self.old }
        ensures output { result ≡ only function }
    {
        self.enter(next);
        HandedOut::only(function)
    }

    /// The function that is underway, with its last number.
    fn complete(&self) -> Function
        ensures { result ≡ complete self.now }
    {
        let mut function = self.underway.duplicate();
        function.finish(self.number);
        function
    }

    /// Keeps an intermediate byte.
    fn collect(&mut self, byte: u8)
        ensures { self.new ≡ collected byte self.old }
    {
        self.underway.intermediates = self.underway.intermediates.with(byte);
    }

    /// Keeps the number, and starts the next.
    fn separate(&mut self)
        ensures { self.new ≡ separated self.old }
    {
        self.underway.push(self.number);
        self.number = FunctionNumber::Absent;
    }

    /// Keeps the private marker.
    fn mark(&mut self, byte: u8)
        ensures { self.new ≡ marked byte self.old }
    {
        self.underway.marker = Some(byte);
    }

    /// Keeps the first character of a string, or the byte that starts the body of a device control string.
    fn name(&mut self, byte: u8)
        ensures { self.new ≡ named byte self.old }
    {
        self.underway.letter = Some(byte);
        self.underway.asks = byte == b'?';
    }

    /// Takes a byte of a body.
    fn put(&mut self, byte: u8)
        ensures { self.new ≡ put byte self.old }
    {
        self.underway.asks = self.underway.asks || byte == b'?';
    }

    /// Starts a function of a kind.
    fn open(&mut self, kind: FunctionKind, next: State) -> HandedOut
        ensures configuration { self.new ≡ (opened kind next self.old).configuration }
        ensures output { result ≡ (opened kind next self.old).output }
    {
        self.underway.kind = kind;
        self.go(next)
    }

    /// Hands out an escape sequence.
    fn escape(&mut self, next: State, byte: u8) -> HandedOut
        ensures configuration { self.new ≡ entered next self.old }
        ensures output { result ≡ only (escape byte self.old.underway) }
    {
        let mut function = self.underway.duplicate();
        function.kind = FunctionKind::Escape;
        function.letter = Some(byte);
        self.give(next, function)
    }

    /// Starts the function of the byte after an escape.
    #[tactic(auto, unfolding(crate::specs::Machine::introduced))]
    fn introduce(&mut self, byte: u8) -> HandedOut
        ensures configuration { self.new ≡ (introduced byte self.old).configuration }
        ensures output { result ≡ (introduced byte self.old).output }
    {
        match byte {
            b'[' => self.open(FunctionKind::Sequence, State::SequenceEntry),
            b']' => self.open(FunctionKind::System, State::SystemNumber),
            b'P' => self.open(FunctionKind::Device, State::DeviceEntry),
            b'X' => self.open(FunctionKind::Start, State::StringStart),
            b'^' => self.open(FunctionKind::Privacy, State::StringStart),
            b'_' => self.open(FunctionKind::Application, State::StringStart),
            b'k' => self.open(FunctionKind::Title, State::StringStart),
            _ => self.escape(State::Ground, byte),
        }
    }

    /// Takes the first character of an operating system command, which may be one of the Linux console.
    fn name_system(&mut self, next: State, byte: u8) -> HandedOut
        ensures configuration { self.new ≡ (system_named next byte self.old).configuration }
        ensures output { result ≡ (system_named next byte self.old).output }
    {
        self.name(byte);
        if is_absent(self.number) && byte == b'R' {
            let function = self.underway.duplicate();
            self.give(State::Ground, function)
        } else if is_absent(self.number) && byte == b'P' {
            self.go(State::Palette)
        } else {
            self.go(next)
        }
    }

    /// Adds the value of a digit to a color of the Linux console.
    fn add_color(&mut self, next: State, digit: FunctionNumber) -> HandedOut
        ensures configuration { self.new ≡ (with_color next digit self.old).configuration }
        ensures output { result ≡ (with_color next digit self.old).output }
    {
        self.underway.finish(self.number);
        self.number = digit;
        if self.underway.numbers.len() == 6 {
            let function = self.complete();
            self.give(State::Ground, function)
        } else {
            self.go(next)
        }
    }

    /// Adds a digit to a color of the Linux console.
    fn add_hex(&mut self, next: State, byte: u8) -> HandedOut
        ensures configuration { self.new ≡ (added_hex next byte self.old).configuration }
        ensures output { result ≡ (added_hex next byte self.old).output }
    {
        if !is_hex(byte) {
            return self.go(State::Ground);
        }
        self.add_color(next, FunctionNumber::Known(u16::from(hex_value(byte))))
    }

    /// Takes a digit of a color of the Linux console, of which no more is known.
    pub(crate) fn take_any_digit(&mut self) -> HandedOut
        ensures configuration { self.new ≡ (with_any_digit self.old).configuration }
        ensures output { result ≡ (with_any_digit self.old).output }
    {
        self.begun = Begun::Nothing;
        self.add_color(State::Palette, FunctionNumber::Any)
    }

    /// Hands out the string that is ended, and a control with it.
    fn end(&mut self, next: State, function: Option<Function>) -> HandedOut
        ensures configuration { self.new ≡ entered next self.old }
        ensures ended { result.ended ≡ Some (complete self.old) }
        ensures function { result.function ≡ function }
    {
        let ended = self.complete();
        self.enter(next);
        HandedOut {
            ended: Some(ended),
            function,
        }
    }

    /// Hands out a control sequence.
    fn sequence(&mut self, next: State, byte: u8) -> HandedOut
        ensures configuration { self.new ≡ entered next self.old }
        ensures output { result ≡ only (record (complete self.old) { letter = Some byte }) }
    {
        let mut function = self.complete();
        function.letter = Some(byte);
        self.give(next, function)
    }

    /// Adds a digit to the number.
    fn add_digit(&mut self, byte: u8)
        ensures { self.new ≡ record self.old { number = with_digit self.old.number (byte - 48) } }
    {
        self.number = self.number.with_digit(byte.saturating_sub(b'0'));
    }

    /// Does what an action says.
    #[tactic(auto, unfolding(crate::specs::Machine::act))]
    fn act(&mut self, action: ParserAction, next: State, byte: u8) -> HandedOut
        ensures configuration { self.new ≡ (act action next byte self.old).configuration }
        ensures output { result ≡ (act action next byte self.old).output }
    {
        match action {
            ParserAction::Ignore => self.go(next),
            ParserAction::Execute => self.give(next, Function::control(byte)),
            ParserAction::End => self.end(next, None),
            ParserAction::Abort => self.end(next, Some(Function::control(byte))),
            ParserAction::Collect => {
                self.collect(byte);
                self.go(next)
            }
            ParserAction::HandOutEscape => self.escape(next, byte),
            ParserAction::Introduce => self.introduce(byte),
            ParserAction::AddDigit => {
                self.add_digit(byte);
                self.go(next)
            }
            ParserAction::Separate => {
                self.separate();
                self.go(next)
            }
            ParserAction::Mark => {
                self.mark(byte);
                self.go(next)
            }
            ParserAction::HandOutSequence => self.sequence(next, byte),
            ParserAction::Name => {
                self.name(byte);
                self.go(next)
            }
            ParserAction::NameSystem => self.name_system(next, byte),
            ParserAction::Put => {
                self.put(byte);
                self.go(next)
            }
            ParserAction::AddHex => self.add_hex(next, byte),
        }
    }

    /// Takes a byte below 80.
    #[tactic(auto, unfolding(crate::specs::Machine::plain))]
    fn take_plain(&mut self, byte: u8) -> HandedOut
        ensures configuration { self.new ≡ (plain byte self.old).configuration }
        ensures output { result ≡ (plain byte self.old).output }
    {
        let transition = transition_of(self.state, class_of(byte));
        self.act(transition.action, transition.next, byte)
    }

    /// Takes a character beyond ASCII.
    fn take_character(&mut self) -> HandedOut
        ensures configuration { self.new ≡ (with_character self.old).configuration }
        ensures output { result ≡ (with_character self.old).output }
    {
        self.go(next_by_character(self.state))
    }

    /// Takes a control of C1 as an escape and a byte.
    #[tactic(auto, unfolding(crate::specs::Machine::anew))]
    fn start_anew(&mut self, byte: u8) -> HandedOut
        ensures configuration { self.new ≡ (anew byte self.old).configuration }
        ensures output { result ≡ (anew byte self.old).output }
    {
        let cut = self.take_plain(0x1b);
        let new = self.introduce(byte);
        HandedOut {
            ended: cut.ended,
            function: new.function,
        }
    }

    /// Takes a symbol.
    #[tactic(auto, unfolding(crate::specs::Machine::taken))]
    fn take(&mut self, within: Within, symbol: Symbol) -> HandedOut
        ensures configuration { self.new ≡ (taken within symbol self.old).configuration }
        ensures output { result ≡ (taken within symbol self.old).output }
    {
        match symbol {
            Symbol::Unfinished => HandedOut::nothing(),
            Symbol::Character => self.take_character(),
            Symbol::Plain(byte) => {
                if is_swallowed(within, byte, self.state) {
                    HandedOut::only(Function::control(byte))
                } else {
                    self.take_plain(byte)
                }
            }
            Symbol::Upper(byte) => {
                if goes_on(within, byte, self.state) {
                    HandedOut::only(Function::escape(byte))
                } else {
                    self.start_anew(byte)
                }
            }
        }
    }

    /// Takes a byte, and returns what it hands out.
    #[tactic(auto, unfolding(crate::specs::Machine::step))]
    pub fn step(&mut self, reading: Reading, byte: u8) -> HandedOut
        ensures configuration { self.new ≡ (step reading self.old byte).configuration }
        ensures output { result ≡ (step reading self.old byte).output }
    {
        let decoded = decode(reading.coding, self.begun, self.state.is_header(), byte);
        self.begun = decoded.begun;
        self.take(reading.within, decoded.symbol)
    }
}
