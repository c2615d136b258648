//! The result of a call.
ghost use Rattle.std.specs.Prelude.{◌≡◌, Some};
ghost use Rattle.sf_c.specs.Statuses.{status_at};

/// The result of a call. C sees the number, an `sf_status` of `include/sf.h`.
#[derive(Clone, Copy, Debug, PartialEq, Eq)]
pub enum Status {
    /// 0: success.
    Answered,
    /// 1: the text spells no value; for a call that takes two texts, the first one. Of
    /// `Cache-Control`, a line is no list of directives.
    Refused,
    /// 2: the second text of a call that takes two spells no value.
    SecondRefused,
    /// 3: the buffer is too small for the answer.
    Short,
    /// 4: an allocation failed.
    OutOfMemory,
    /// 5: the field has no members; of the fields of a target list, each is ignored; of `Expires`,
    /// there is no line.
    Empty,
    /// 6: there is no such kind, dialect, cache or field, or a length or a span exceeds its buffer.
    BadCall,
    /// 7: a member of a Cache-Status List names no cache.
    NotACache,
    /// 8: the nodes, the hop or the priority to be written are not valid; of a decision, seconds
    /// are passed whose flag is 0.
    Invalid,
    /// 9: no node has the role and the key.
    Absent,
    /// 10: the text has 4 GiB or more, or an offset would have to be that large.
    TooLong,
    /// 11: the value has more nodes than the buffer holds.
    TooMany,
}

impl Status {
    /// The number of the status.
    pub fn code(self) -> u32
        ensures { status_at result ≡ Some self }
    {
        match self {
            Status::Answered => 0,
            Status::Refused => 1,
            Status::SecondRefused => 2,
            Status::Short => 3,
            Status::OutOfMemory => 4,
            Status::Empty => 5,
            Status::BadCall => 6,
            Status::NotACache => 7,
            Status::Invalid => 8,
            Status::Absent => 9,
            Status::TooLong => 10,
            Status::TooMany => 11,
        }
    }
}
