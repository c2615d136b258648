//! A bare item that is being read (RFC 9651 section 4.2.3.1).
ghost use Rattle.std.specs.Prelude.{◌≡◌, is_some, true, ⊤, IfNone, IfOk, IsOk};
ghost use Rattle.sf_parse.specs.AllocationFree.{BareFree};
ghost use Rattle.sf_parse.specs.BarePlaces.{IsPlace};
ghost use Rattle.sf_parse.specs.Expected.{MarksStep};
ghost use Rattle.sf_parse.specs.Prefixes.{Starts};
ghost use Rattle.sf_parse.specs.BareView.{bare_stuck};
ghost use Rattle.sf_parse.specs.Machine.Bares.{InBoolean, bare_start, bare_step, bare_finish};
ghost use Rattle.sf_parse.specs.declared.boolean.BooleanState.TheVariants.{WithValue};
ghost use Rattle.sf_parse.specs.StaysFree.{bare_keeps};

use crate::blob::{BlobPhase, Held};
use crate::boolean::BooleanState;
use crate::context::Context;
use crate::date::DateReader;
use crate::display_string::ShownPlace;
use crate::gathering::extend;
use crate::level::Level;
use crate::number::NumberReader;
use crate::text::TextPhase;
use sf_scan::place::BarePlace;
use sf_value::classes::{ByteClass, InToken, long_prefix};
use sf_value::{Bare, Blob, Dialect, OutOfMemory, ShortBytes, Shown, Text, Token, can_start_token};
use std::marker::Model;
use std::mem;

/// The types of bare items; a number is an Integer or a Decimal.
#[derive(Clone, Copy)]
pub enum BareKind {
    Number,
    Text,
    Token,
    Boolean,
    Date,
    Blob,
    Shown,
}

/// What was read of a bare item. Its kind says which of the other fields count; the types that
/// consist of bytes collect them in `bytes`.
#[derive(Drop)]
pub struct BareReader {
    kind: BareKind,
    number: NumberReader,
    date: DateReader,
    boolean: BooleanState,
    text: TextPhase,
    blob: BlobPhase,
    shown: ShownPlace,
    bytes: ShortBytes,
}

impl Model for BareReader {
    ghost use Rattle.sf_parse.specs.Machine.Bares.{BareState};

    ghost Value = { BareState };

    ghost use Rattle.sf_parse.specs.BareView.{bare_of, FitsBare};

    ghost view = { bare_of };

    ghost invariant = { FitsBare };
}

impl BareReader {
    /// A reader in which no bare item was begun. It does not allocate.
    pub fn new(context: &Context) -> BareReader {
        BareReader {
            kind: BareKind::Boolean,
            number: NumberReader::none(),
            date: DateReader::open(),
            boolean: BooleanState::QuestionMark,
            text: TextPhase::Inside,
            blob: BlobPhase::Ended,
            shown: ShownPlace::OPEN,
            bytes: ShortBytes::new(context.alloc),
        }
    }

    /// Begins a bare item with this byte, or reports that none begins with it.
    pub fn start(&mut self, context: &Context, byte: u8) -> Result<bool, OutOfMemory>
        // The new state is the one that the byte begins, or none begins with it.
        ensures start { IfOk result (λ took. Starts took (bare_start context.now.dialect byte)
            self.new) }
        // It does not fail.
        ensures allocation_free { IsOk result }
    {
        if self.number.start(byte) {
            self.kind = BareKind::Number;
            return Ok(true);
        }
        if can_start_token(byte) {
            self.bytes = ShortBytes::one(context.alloc, byte);
            self.kind = BareKind::Token;
            return Ok(true);
        }
        match (byte, context.dialect) {
            (b'"', _) => {
                self.bytes = ShortBytes::new(context.alloc);
                self.text = TextPhase::Inside;
                self.kind = BareKind::Text;
                Ok(true)
            }
            (b'?', _) => {
                self.boolean = BooleanState::QuestionMark;
                self.kind = BareKind::Boolean;
                Ok(true)
            }
            (b':', _) => {
                self.bytes = ShortBytes::new(context.alloc);
                self.blob = BlobPhase::Group(Held::H0);
                self.kind = BareKind::Blob;
                Ok(true)
            }
            (b'@', Dialect::Rfc9651) => {
                self.date = DateReader::open();
                self.kind = BareKind::Date;
                Ok(true)
            }
            (b'%', Dialect::Rfc9651) => {
                self.bytes = ShortBytes::new(context.alloc);
                self.shown = ShownPlace::OPEN;
                self.kind = BareKind::Shown;
                Ok(true)
            }
            _ => Ok(false),
        }
    }

    /// Makes the bare item Boolean true.
    pub fn set_true(&mut self)
        ensures { self.new ≡ InBoolean (WithValue true) }
    {
        self.boolean = BooleanState::WithValue(true);
        self.kind = BareKind::Boolean;
    }

    /// The bytes that a bare item may begin with.
    pub fn first_bytes(dialect: Dialect) -> u128
        ensures { MarksStep result (bare_start dialect) }
    {
        BarePlace::Start.expected(dialect)
    }

    /// The place in the grammar after what was read.
    #[inline(always)]
    fn place(&self) -> BarePlace
        // The machine takes what may come there, and has a value if it may be the end.
        ensures { IsPlace result (bare_step self.now) (bare_finish self.now) }
    {
        match self.kind {
            BareKind::Number => return self.number.place(),
            BareKind::Text => return self.text.place(),
            BareKind::Token => return BarePlace::InToken,
            BareKind::Boolean => return self.boolean.place(),
            BareKind::Date => return self.date.place(),
            BareKind::Blob => return self.blob.place(),
            BareKind::Shown => return self.shown.place(),
        }
    }

    /// The bare item, if it is complete. Its value is taken out of the reader. If the value is made
    /// of bytes, the kind becomes Boolean, to which no bytes belong: a Token, for example, can't be
    /// empty.
    pub fn finish(&mut self, context: &Context) -> Option<Bare>
        // It is the value that the state has at the end, if it has one.
        ensures value { result ≡ bare_finish self.old }
        // Otherwise the reader is unchanged.
        ensures kept { IfNone result (self.new ≡ self.old) }
    {
        if !self.may_end() {
            return None;
        }
        match self.kind {
            BareKind::Number => return self.number.finish(),
            BareKind::Boolean => return Some(Bare::Boolean(self.boolean.finish()?)),
            BareKind::Date => return Some(Bare::Date(self.date.finish()?)),
            BareKind::Text => {
                self.kind = BareKind::Boolean;
                let bytes = mem::replace(&mut self.bytes, ShortBytes::new(context.alloc));
                return Some(Bare::Text(Text::from_bytes(bytes)));
            }
            BareKind::Token => {
                self.kind = BareKind::Boolean;
                let bytes = mem::replace(&mut self.bytes, ShortBytes::new(context.alloc));
                return Some(Bare::Token(Token::from_bytes(bytes)));
            }
            BareKind::Blob => {
                self.kind = BareKind::Boolean;
                let bytes = mem::replace(&mut self.bytes, ShortBytes::new(context.alloc));
                return Some(Bare::Blob(Blob::from_bytes(bytes)));
            }
            BareKind::Shown => {
                self.kind = BareKind::Boolean;
                let bytes = mem::replace(&mut self.bytes, ShortBytes::new(context.alloc));
                return Some(Bare::Shown(Shown::from_bytes(bytes)));
            }
        }
    }
}

impl Level for BareReader {
    ghost next = { λ d s b. bare_step s b };

    ghost stuck = { λ d s b. bare_stuck s b };

    ghost ends = { λ s. is_some (bare_finish s) };

    ghost allocation_free = { λ d s more. BareFree s more };

    ghost keeps = { λ d s t b more h e. bare_keeps s t b more h e };

    fn take_part<'a>(
        &mut self,
        _context: &Context,
        chunk: &'a [u8],
    ) -> Result<&'a [u8], OutOfMemory> {
        match self.kind {
            BareKind::Text => return self.text.take_run(&mut self.bytes, chunk),
            BareKind::Token => {
                let (run, rest) = long_prefix::<InToken>(chunk);
                extend(&mut self.bytes, run)?;
                return Ok(rest);
            }
            BareKind::Blob => return self.blob.take_run(&mut self.bytes, chunk),
            BareKind::Shown => return self.shown.take_run(&mut self.bytes, chunk),
            BareKind::Number => return Ok(self.number.take_run(chunk)),
            BareKind::Date => return Ok(self.date.take_run(chunk)),
            BareKind::Boolean => return Ok(chunk),
        }
    }

    fn push_part(&mut self, _context: &Context, byte: u8) -> Result<bool, OutOfMemory> {
        match self.kind {
            BareKind::Number => return Ok(self.number.step(byte)),
            BareKind::Text | BareKind::Token | BareKind::Boolean => return Ok(false),
            BareKind::Date | BareKind::Blob | BareKind::Shown => return Ok(false),
        }
    }

    #[inline(always)]
    fn turn(&mut self, _context: &Context, byte: u8) -> Result<bool, OutOfMemory> {
        match self.kind {
            // The run of a number is as long as possible, so the number can't continue.
            BareKind::Number => return Ok(false),
            BareKind::Boolean => return Ok(self.boolean.step(byte)),
            BareKind::Date => return Ok(self.date.step(byte)),
            BareKind::Text => return self.text.step(&mut self.bytes, byte),
            BareKind::Token => {
                if !InToken::has(byte) {
                    return Ok(false);
                }
                self.bytes.push(byte)?;
                return Ok(true);
            }
            BareKind::Blob => return self.blob.step(&mut self.bytes, byte),
            BareKind::Shown => return self.shown.step(&mut self.bytes, byte),
        }
    }

    fn expected(&self, dialect: Dialect) -> u128 {
        self.place().expected(dialect)
    }

    fn may_end(&self) -> bool {
        self.place().may_end()
    }
}
