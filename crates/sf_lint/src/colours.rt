//! The words that lines begin with, and their colours.
ghost use Rattle.std.specs.Prelude.{◌≡◌};
ghost use Rattle.std.specs.Option.{option_map};
ghost use Rattle.sf_lint.specs.Colours.{verdict_text, is_coloured as is_coloured_in};

use crate::settings::Settings;

/// The first word of a line.
#[derive(Clone, Copy)]
pub(crate) enum Verdict {
    /// A field is accepted.
    Ok,
    /// A field or a line is refused.
    Refused,
    /// A member or a parameter is ignored.
    Ignored,
    /// Parameters are read, but not as their specification requires them.
    Invalid,
}

impl Verdict {
    /// Returns the word, in its colour if the settings ask for that.
    pub(crate) fn text(self, settings: &Settings) -> &'static str
        ensures { result.now ≡ verdict_text settings.now self }
    {
        if settings.colour {
            match self {
                Verdict::Ok => "\x1b[32mok\x1b[0m",
                Verdict::Refused => "\x1b[31mrefused\x1b[0m",
                Verdict::Ignored => "\x1b[33mignored\x1b[0m",
                Verdict::Invalid => "\x1b[33minvalid\x1b[0m",
            }
        } else {
            match self {
                Verdict::Ok => "ok",
                Verdict::Refused => "refused",
                Verdict::Ignored => "ignored",
                Verdict::Invalid => "invalid",
            }
        }
    }
}

/// Returns whether the output is coloured: it is a terminal, and the environment variable
/// `NO_COLOR`, with this value, is not set or is empty. Does not allocate.
///
/// ```
/// is_coloured(true, None) // true
/// is_coloured(true, Some("1")) // false
/// ```
pub fn is_coloured(is_terminal: bool, no_color: Option<&str>) -> bool
    ensures { result ≡ is_coloured_in is_terminal (option_map (λ value. value.now) no_color.entry) }
{
    match no_color {
        Some(value) => is_terminal && value.is_empty(),
        None => is_terminal,
    }
}
