//! The members, which never change.

ghost use Rattle.std.specs.Prelude.{◌≡◌, ◌≢◌, ◌+◌, ◌<◌, ◌≤◌, ◌*◌, MatchOption};
ghost use Rattle.ballots.specs.Members.{member_count};
ghost use Rattle.ballots.specs.declared.members.Members.{Members};

/// How many members there are. Their numbers go from 0 on.
#[derive(Debug, Drop, Clone, Copy, PartialEq, Eq)]
pub enum Members {
    Three,
    Five,
}

impl Members {
    /// So many members, 3 or 5.
    pub fn of(count: u8) -> Option<Members>
        ensures { MatchOption result ((members : Members) → count ≢ member_count members) (λ members. count ≡ member_count members) }
    {
        match count {
            3 => Some(Members::Three),
            5 => Some(Members::Five),
            _ => None,
        }
    }

    /// How many they are.
    pub fn count(self) -> u8
        ensures { result ≡ member_count self }
    {
        match self {
            Members::Three => 3,
            Members::Five => 5,
        }
    }

    /// The least number of members that is more than half of them.
    pub fn majority(self) -> u8
        ensures more { member_count self < 2 * result }
        ensures least { 2 * result ≤ member_count self + 1 }
    {
        match self {
            Members::Three => 2,
            Members::Five => 3,
        }
    }
}
