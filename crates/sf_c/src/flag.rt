//! The flags of structs.
ghost use Rattle.std.specs.Prelude.{◌≡◌};
ghost use Rattle.sf_c.specs.GivenHops.{GivesFlag, GivesMaybe};
ghost use Rattle.sf_c.specs.Priorities.{flag_at};

/// The flag, if it is set. Any number but 0 is true.
pub(crate) fn flag_of(has_flag: u8, flag: u8) -> Option<bool>
    ensures at { result ≡ flag_at has_flag flag }
    ensures gives { GivesMaybe has_flag (GivesFlag flag) result }
{
    if has_flag == 0 {
        return None;
    }
    Some(flag != 0)
}
