//! Parameters that are being read (RFC 9651 section 4.2.3.2).
ghost use Rattle.std.specs.Prelude.{◌≡◌, is_some, [], IfOk, IfNone, OnOk};
ghost use Rattle.sf_value.specs.Grammar.Pairs.{put as put_pair};
ghost use Rattle.sf_value.specs.Grammar.Tokens.{IsKey};
ghost use Rattle.sf_parse.specs.Machine.Params.{Between, Opened, params_step, params_finish};
ghost use Rattle.sf_parse.specs.ParamsView.{params_stuck};

use crate::bare::BareReader;
use crate::context::Context;
use crate::gathering::extend;
use crate::level::Level;
use crate::whole_parts::add_params;
use sf_scan::byte_sets::{AFTER_KEY, KEY_START, SEMICOLON, SPACE, set_if};
use sf_value::classes::{ByteClass, InKey, Space, any_prefix, few_prefix};
use sf_value::{Bare, Dialect, Entries, Key, OutOfMemory, ShortBytes, can_start_key};
use std::marker::Model;
use std::mem;

/// The part of parameters that is being read.
#[derive(Clone, Copy)]
pub enum ParamsPhase {
    /// After a bare item or a parameter.
    Between,
    /// After a semicolon.
    Opened,
    /// In a key.
    InKey,
    /// After an equals sign.
    Equals,
    /// In a value.
    InValue,
}

/// What was read of parameters: the complete ones, and the key and the value of the open one.
#[derive(Drop)]
pub struct ParamsReader {
    phase: ParamsPhase,
    key: ShortBytes,
    value: BareReader,
    params: Entries<Bare>,
}

impl Model for ParamsReader {
    ghost use Rattle.sf_parse.specs.Machine.Params.{ParamsState};

    ghost Value = { ParamsState };

    ghost use Rattle.sf_parse.specs.ParamsView.{params_of, FitsParams};

    ghost view = { λ r. params_of r.phase r.key r.value r.params };

    ghost invariant = { λ r. FitsParams r.phase r.key };
}

impl ParamsReader {
    /// A reader after the bare item or bracket of the parameters. It does not allocate.
    pub fn new(context: &Context) -> ParamsReader
        ensures { result ≡ Between [] }
    {
        ParamsReader {
            phase: ParamsPhase::Between,
            key: ShortBytes::new(context.alloc),
            value: BareReader::new(context),
            params: Entries::new(context.alloc, &context.seed),
        }
    }

    /// Begins again, after a bare item or a bracket.
    pub fn begin(&mut self, context: &Context)
        ensures { self.new ≡ Between [] }
    {
        self.phase = ParamsPhase::Between;
        self.params = Entries::new(context.alloc, &context.seed);
    }

    /// Begins again, after the first semicolon.
    pub fn open(&mut self, context: &Context)
        ensures { self.new ≡ Opened [] }
    {
        self.phase = ParamsPhase::Opened;
        self.params = Entries::new(context.alloc, &context.seed);
    }

    /// The parameters, if the last one is complete. Their value is taken out of the reader.
    pub fn finish(&mut self, context: &Context) -> Result<Option<Entries<Bare>>, OutOfMemory>
        // They are the value that the state has at the end, if it has one.
        ensures value { IfOk result (λ params. params ≡ params_finish self.old) }
        // Otherwise the reader is unchanged.
        ensures kept { IfOk result (λ params. IfNone params (self.new ≡ self.old)) }
    {
        match self.phase {
            ParamsPhase::Between => {}
            ParamsPhase::InKey => {
                self.phase = ParamsPhase::Between;
                put(
                    &mut self.params,
                    &mut self.key,
                    context,
                    Bare::Boolean(true),
                )?;
            }
            ParamsPhase::InValue => {
                let Some(value) = self.value.finish(context) else {
                    return Ok(None);
                };
                self.phase = ParamsPhase::Between;
                put(&mut self.params, &mut self.key, context, value)?;
            }
            ParamsPhase::Opened | ParamsPhase::Equals => return Ok(None),
        }
        let empty = Entries::new(context.alloc, &context.seed);
        Ok(Some(mem::replace(&mut self.params, empty)))
    }
}

impl Level for ParamsReader {
    ghost next = { params_step };

    ghost stuck = { λ d s b. params_stuck s b };

    ghost ends = { λ s. is_some (params_finish s) };

    ghost allocation_free = { λ d s more. ⊥ };

    ghost keeps = { λ d s t b more h e. absurd h };

    fn take_part<'a>(
        &mut self,
        context: &Context,
        chunk: &'a [u8],
    ) -> Result<&'a [u8], OutOfMemory> {
        match self.phase {
            ParamsPhase::Opened => {
                let (_, params) = few_prefix::<Space>(chunk);
                // Taken apart: see `FieldState::take_run`.
                let rest = add_params(context, params, &mut self.params)?;
                return Ok(rest);
            }
            ParamsPhase::InKey => {
                let (run, rest) = any_prefix::<InKey>(chunk);
                extend(&mut self.key, run)?;
                return Ok(rest);
            }
            ParamsPhase::InValue => return self.value.take(context, chunk),
            ParamsPhase::Between | ParamsPhase::Equals => return Ok(chunk),
        }
    }

    fn push_part(&mut self, context: &Context, byte: u8) -> Result<bool, OutOfMemory> {
        match self.phase {
            ParamsPhase::InValue => return self.value.push(context, byte),
            ParamsPhase::Between | ParamsPhase::Opened => return Ok(false),
            ParamsPhase::InKey | ParamsPhase::Equals => return Ok(false),
        }
    }

    #[inline(always)]
    fn turn(&mut self, context: &Context, byte: u8) -> Result<bool, OutOfMemory> {
        match self.phase {
            ParamsPhase::Between => {
                if byte != b';' {
                    return Ok(false);
                }
                self.phase = ParamsPhase::Opened;
                return Ok(true);
            }
            ParamsPhase::Opened => {
                if byte == b' ' {
                    return Ok(true);
                }
                if !can_start_key(byte) {
                    return Ok(false);
                }
                self.key = ShortBytes::one(context.alloc, byte);
                self.phase = ParamsPhase::InKey;
                return Ok(true);
            }
            ParamsPhase::InKey => {
                if byte == b'=' {
                    self.phase = ParamsPhase::Equals;
                    return Ok(true);
                }
                if byte == b';' {
                    self.phase = ParamsPhase::Opened;
                    put(
                        &mut self.params,
                        &mut self.key,
                        context,
                        Bare::Boolean(true),
                    )?;
                    return Ok(true);
                }
                if !InKey::has(byte) {
                    return Ok(false);
                }
                self.key.push(byte)?;
                return Ok(true);
            }
            ParamsPhase::Equals => {
                if !self.value.start(context, byte)? {
                    return Ok(false);
                }
                self.phase = ParamsPhase::InValue;
                return Ok(true);
            }
            ParamsPhase::InValue => {
                if byte != b';' {
                    return Ok(false);
                }
                let Some(value) = self.value.finish(context) else {
                    return Ok(false);
                };
                self.phase = ParamsPhase::Opened;
                put(&mut self.params, &mut self.key, context, value)?;
                return Ok(true);
            }
        }
    }

    fn expected(&self, dialect: Dialect) -> u128 {
        match self.phase {
            ParamsPhase::Between => return SEMICOLON,
            ParamsPhase::Opened => return SPACE | KEY_START,
            ParamsPhase::InKey => return AFTER_KEY,
            ParamsPhase::Equals => return BareReader::first_bytes(dialect),
            ParamsPhase::InValue => {
                return self.value.expected(dialect) | set_if(self.value.may_end(), SEMICOLON);
            }
        }
    }

    fn may_end(&self) -> bool {
        match self.phase {
            ParamsPhase::Between | ParamsPhase::InKey => true,
            ParamsPhase::Opened | ParamsPhase::Equals => false,
            ParamsPhase::InValue => self.value.may_end(),
        }
    }
}

/// Puts a value at the key that was read. A later value of a key overwrites an earlier one. The key
/// is empty afterwards, so the phase is changed before: most phases require a key.
fn put(
    params: &mut Entries<Bare>,
    key: &mut ShortBytes,
    context: &Context,
    value: Bare,
) -> Result<(), OutOfMemory>
    requires { IsKey key.old }
    ensures { OnOk result (params.new ≡ put_pair params.old key.old value) }
{
    let key = mem::replace(key, ShortBytes::new(context.alloc));
    params.set(Key::from_bytes(key), value)
}
