// The specification's limits, widths and fixed numbers, each under one name. Readers, answers and engine take them from here.
#![tactic(auto)]

ghost use Rattle.std.specs.Prelude.{◌≡◌};
ghost use Rattle.limits.specs.All.{all};
ghost use Rattle.limits.specs.Kinds.{kind_of, number_of};

// ---- "Byte 0: version, 1. Bytes 1 to 4: count of all bytes after them."; a request: "today (4 bytes ..), one node". A policy's versions are 1 and 2.

pub const VERSION: usize = 1;

pub const POLICY_VERSIONS: usize = 2;

pub const LENGTH_AT: usize = 1;

pub const HEADER: usize = 5;

pub const FIRST_NODE: usize = 9;

// ---- "Constants (1 to 255 ..)", "Verbs (0 to 64 ..)", "Assertions (0 to 256)"

pub const CONSTANTS: usize = 255;

pub const VERBS: usize = 64;

pub const ASSERTIONS: usize = 256;

// ---- request 02: "2-byte count (0 to 256)"

pub const WITHDRAWALS: usize = 256;

// ---- request 05: "2-byte count of 0 to 1,024"

pub const HIERARCHY: usize = 1024;

// ---- "arity byte 0 to 3", "a nest byte 0 to 3", "a count byte 0 to 4" of body facts and of constraints, operators 1 to 5

pub const ARITY: usize = 3;

pub const NEST: usize = 3;

pub const BODY: usize = 4;

pub const CONSTRAINTS: usize = 4;

pub const OPERATORS: usize = 5;

// ---- "count byte 1 to 8, nodes"; "8 is the deepest"; "variable byte 0 to 7"

pub const PARTS: usize = 8;

pub const DEPTH: usize = 8;

pub const VARIABLES: usize = 8;

// ---- "days since 1 January 2000, 0 to 36,524"; "label of 1 to 32 bytes in 0x21 to 0x7E"

pub const LAST_DAY: usize = 36524;

pub const LABEL: usize = 32;

pub const LOWEST_LABEL_BYTE: usize = 0x21;

pub const HIGHEST_LABEL_BYTE: usize = 0x7E;

// ---- kinds in their numbers; "a depth byte (0, or 1 for unlimited)"; verb 0, "can act as"

// In the tables of a policy a kind is one of its bytes, compared with a number where it is read.
#[derive(Clone, Copy, PartialEq, Eq)]
pub enum Kind {
    Principal = 1,
    Thing,
    Day,
    Quantity,
}

impl Kind {
    // The kind with a number, if there is one.
    pub fn of(number: u8) -> Option<Kind>
        ensures { result ≡ kind_of number }
    {
        match number {
            1 => Some(Kind::Principal),
            2 => Some(Kind::Thing),
            3 => Some(Kind::Day),
            4 => Some(Kind::Quantity),
            _ => None,
        }
    }

    pub fn number(self) -> u8
        ensures { result ≡ number_of self }
    {
        self as u8
    }
}

pub const UNLIMITED: usize = 1;

pub const CAN_ACT_AS: usize = 0;

// ---- "0x8000 to 0x8007 a variable, 0x4000 today"

pub const FIRST_VARIABLE: usize = 0x8000;

pub const TODAY: usize = 0x4000;

// ---- "Fact record, 16 bytes"; "at most 65,535"; "An answer is 8 bytes .. 255 where not free"

pub const RECORD: usize = 16;

pub const RECORDS: usize = 65535;

pub const ANSWER: usize = 8;

pub const UNBOUND: usize = 255;

// ---- all of them, in this order: each is the model's

pub fn all() -> [usize; 34]
    ensures { result ≡ all }
{
    [
        VERSION,
        POLICY_VERSIONS,
        LENGTH_AT,
        HEADER,
        FIRST_NODE,
        CONSTANTS,
        VERBS,
        ASSERTIONS,
        WITHDRAWALS,
        HIERARCHY,
        ARITY,
        NEST,
        BODY,
        CONSTRAINTS,
        OPERATORS,
        PARTS,
        DEPTH,
        VARIABLES,
        LAST_DAY,
        LABEL,
        LOWEST_LABEL_BYTE,
        HIGHEST_LABEL_BYTE,
        Kind::Principal as usize,
        Kind::Thing as usize,
        Kind::Day as usize,
        Kind::Quantity as usize,
        UNLIMITED,
        CAN_ACT_AS,
        FIRST_VARIABLE,
        TODAY,
        RECORD,
        RECORDS,
        ANSWER,
        UNBOUND,
    ]
}
