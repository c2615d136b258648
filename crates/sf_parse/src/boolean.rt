//! A Boolean that is being read (RFC 9651 section 4.2.8).
ghost use Rattle.std.specs.Prelude.{◌≡◌};
ghost use Rattle.sf_parse.specs.BarePlaces.{boolean_place};
ghost use Rattle.sf_parse.specs.Machine.Language.{Steps};
ghost use Rattle.sf_parse.specs.Machine.Texts.{boolean_step, boolean_finish};

use sf_scan::place::BarePlace;

/// What was read of a boolean.
#[derive(Clone, Copy)]
pub enum BooleanState {
    /// After the question mark.
    QuestionMark,
    /// After the digit.
    WithValue(bool),
}

impl BooleanState {
    /// Takes one more byte, or reports that the boolean can't continue with it and is unchanged.
    pub fn step(&mut self, byte: u8) -> bool
        // The byte leads to the next state, or it can't and the state is unchanged.
        ensures { Steps result (boolean_step self.old byte) self.old self.new }
    {
        match (*self, byte) {
            (BooleanState::QuestionMark, b'0') => *self = BooleanState::WithValue(false),
            (BooleanState::QuestionMark, b'1') => *self = BooleanState::WithValue(true),
            _ => return false,
        }
        true
    }

    /// The place in the grammar after what was read.
    pub fn place(self) -> BarePlace
        ensures { result ≡ boolean_place self }
    {
        match self {
            BooleanState::QuestionMark => BarePlace::QuestionMark,
            BooleanState::WithValue(_) => BarePlace::Complete,
        }
    }

    /// The boolean, if it is complete.
    pub fn finish(self) -> Option<bool>
        // It is the value that the state has at the end, if it has one.
        ensures { result ≡ boolean_finish self }
    {
        match self {
            BooleanState::QuestionMark => None,
            BooleanState::WithValue(holds) => Some(holds),
        }
    }
}
