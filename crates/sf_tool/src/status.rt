//! The result of the command.
ghost use Rattle.std.specs.Prelude.{◌≡◌, MatchResult};
ghost use Rattle.std.specs.Option.{option_map};
ghost use Rattle.sf_tool.specs.declared.status.Status.TheVariants.{Stopped};
ghost use Rattle.sf_tool.specs.Status.{code_of, line_of};

/// The result of the command.
///
/// ```
/// let status = run(alloc, &seed, &request, &mut source, &mut sink, &mut errors);
/// let status = status.after_flush(sink.into_inner().flush());
/// if let Some(line) = status.line() {
///     let _ = rt.eprintln(line);
/// }
/// ExitCode::from(status.code())
/// ```
#[derive(Clone, Copy, Debug, PartialEq, Eq)]
pub enum Status {
    /// The input was accepted, and the answer was written.
    Accepted,
    /// The input was refused, and the line of the refusal was written.
    Refused,
    /// The arguments make no request.
    Usage,
    /// An allocation or a device failed.
    Stopped,
}

impl Status {
    /// Returns the exit code: 0, 1, 2 or 3, in the order of the cases. Does not allocate.
    pub fn code(self) -> u8
        ensures { result ≡ code_of self }
    {
        match self {
            Status::Accepted => 0,
            Status::Refused => 1,
            Status::Usage => 2,
            Status::Stopped => 3,
        }
    }

    /// Returns the status after the output was flushed with this result: `Stopped` if the flush
    /// failed, otherwise the same status. Does not allocate.
    pub fn after_flush<E: Drop>(self, flushed: Result<(), E>) -> Status
        // The first case is a flush that succeeded, the second one that failed.
        ensures { MatchResult flushed (λ _. result ≡ self) (λ _. result ≡ Stopped) }
    {
        match flushed {
            Ok(()) => self,
            Err(_) => Status::Stopped,
        }
    }

    /// Returns the line for standard error, without its line feed; `None` if the input was
    /// answered. Does not allocate.
    pub fn line(self) -> Option<&'static str>
        ensures { option_map (λ s. s.now) result ≡ line_of self }
    {
        match self {
            Status::Accepted => None,
            Status::Refused => None,
            Status::Usage => Some(
                "sf: usage: sf show, check or normalise --kind item, list or dict \
                 [--dialect rfc8941 or rfc9651]; sf cache-status; \
                 sf targeted [--fallback cache-control [--age SECONDS]] NAME..; sf priority",
            ),
            Status::Stopped => Some("sf: out of memory or a device failed"),
        }
    }
}
