//! The roles and the types of nodes, and the numbers that nodes have for them.
ghost use Rattle.std.specs.Prelude.{◌≡◌, IfSome, Some};
ghost use Rattle.sf_view.specs.declared.node_types.NodeType.{NodeType as Sort};
ghost use Rattle.sf_view.specs.declared.node_types.Role.{Role as Place};
ghost use Rattle.sf_view.specs.NodeTypes.{role_number as number_of_role};
ghost use Rattle.sf_view.specs.NodeTypes.{type_number as number_of_type};

/// The role of a node in its field. In C, its number: an `sf_role`.
#[derive(Clone, Copy, Debug, PartialEq, Eq)]
pub enum Role {
    /// 11: the Item of an Item field, or a member of a List or of a Dictionary.
    Member,
    /// 12: an Item of an Inner List.
    InnerItem,
    /// 13: a parameter of an Item (RFC 9651 section 3.1.2).
    Parameter,
    /// 14: a parameter of an Inner List as a whole (section 3.1.1).
    InnerParameter,
}

/// What a node describes: an Inner List, or a bare item by its type (RFC 9651 section 3.3). In C,
/// its number: an `sf_type`.
#[derive(Clone, Copy, Debug, PartialEq, Eq)]
pub enum NodeType {
    /// 21: an Inner List (section 3.1.1).
    InnerList,
    /// 22: an Integer (section 3.3.1).
    Integer,
    /// 23: a Decimal (section 3.3.2).
    Decimal,
    /// 24: a String (section 3.3.3).
    Text,
    /// 25: a Token (section 3.3.4).
    Token,
    /// 26: a Byte Sequence (section 3.3.5).
    Blob,
    /// 27: a Boolean (section 3.3.6).
    Boolean,
    /// 28: a Date (section 3.3.7).
    Date,
    /// 29: a Display String (section 3.3.8).
    Shown,
}

impl Role {
    /// The number of the role.
    ///
    /// ```
    /// Role::Member.code() // 11
    /// ```
    #[inline]
    pub fn code(self) -> u8
        ensures { result ≡ number_of_role self }
    {
        match self {
            Role::Member => 11,
            Role::InnerItem => 12,
            Role::Parameter => 13,
            Role::InnerParameter => 14,
        }
    }

    /// The role with this number; `None` if no role has it.
    ///
    /// ```
    /// Role::from_code(11) // Some(Role::Member)
    /// ```
    #[inline]
    pub fn from_code(code: u8) -> Option<Role>
        // The role has this number.
        ensures code { IfSome result (λ r. number_of_role r ≡ code) }
        // Any role that has it is the one returned.
        ensures role { (r : Place) → number_of_role r ≡ code → result ≡ Some r }
    {
        match code {
            11 => return Some(Role::Member),
            12 => return Some(Role::InnerItem),
            13 => return Some(Role::Parameter),
            14 => return Some(Role::InnerParameter),
            _ => return None,
        }
    }
}

impl NodeType {
    /// The number of the type.
    ///
    /// ```
    /// NodeType::Integer.code() // 22
    /// ```
    #[inline]
    pub fn code(self) -> u8
        ensures { result ≡ number_of_type self }
    {
        match self {
            NodeType::InnerList => 21,
            NodeType::Integer => 22,
            NodeType::Decimal => 23,
            NodeType::Text => 24,
            NodeType::Token => 25,
            NodeType::Blob => 26,
            NodeType::Boolean => 27,
            NodeType::Date => 28,
            NodeType::Shown => 29,
        }
    }

    /// The type with this number; `None` if no type has it.
    ///
    /// ```
    /// NodeType::from_code(22) // Some(NodeType::Integer)
    /// ```
    #[inline]
    pub fn from_code(code: u8) -> Option<NodeType>
        // The type has this number.
        ensures code { IfSome result (λ t. number_of_type t ≡ code) }
        // Any type that has it is the one returned.
        ensures node_type { (t : Sort) → number_of_type t ≡ code → result ≡ Some t }
    {
        match code {
            21 => return Some(NodeType::InnerList),
            22 => return Some(NodeType::Integer),
            23 => return Some(NodeType::Decimal),
            24 => return Some(NodeType::Text),
            25 => return Some(NodeType::Token),
            26 => return Some(NodeType::Blob),
            27 => return Some(NodeType::Boolean),
            28 => return Some(NodeType::Date),
            29 => return Some(NodeType::Shown),
            _ => return None,
        }
    }
}
