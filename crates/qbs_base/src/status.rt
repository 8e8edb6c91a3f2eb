// The statuses of the top call.
ghost use Rattle.std.specs.Prelude.{◌≡◌};
ghost use Rattle.qbs_base.specs.Status.{code_of};

/// How the top call ended.
#[derive(Clone, Copy, PartialEq, Eq)]
pub enum Status {
    /// The command was carried out.
    Ok,
    /// A derivation of the bundle that was checked isn't accepted.
    Refused,
    /// The words aren't plain.
    Words,
    /// A file could not be read.
    ReadFault,
    /// A text could not be written.
    WriteFault,
    /// The schema isn't one.
    Schema,
    /// The source isn't a program.
    Source,
    /// The program, or a word beside it, breaks a type rule.
    Types,
    /// A table's bytes aren't rows of the schema.
    Data,
    /// The program that was run ended with a fault.
    Faulted,
    /// The bundle isn't one.
    Bundle,
    /// The program that was run used up its turns.
    Turns,
    /// Memory ran out.
    NoMemory,
    /// A file is longer than its limit.
    Limit,
    /// What is asked for isn't built yet.
    NotYet,
    /// The store of databases that was handed in isn't one of the schema.
    Store,
    /// The map by which a file is viewed isn't one, or what is seen of the file is too long.
    View,
}

impl Status {
    /// The number that the process ends with.
    pub fn code(&self) -> u8
        ensures { result ≡ code_of self.now }
    {
        match self {
            Status::Ok => 0,
            Status::Refused => 1,
            Status::Words => 2,
            Status::ReadFault => 3,
            Status::WriteFault => 4,
            Status::Schema => 5,
            Status::Source => 6,
            Status::Types => 7,
            Status::Data => 8,
            Status::Faulted => 9,
            Status::Bundle => 10,
            Status::Turns => 11,
            Status::NoMemory => 12,
            Status::Limit => 13,
            Status::NotYet => 14,
            Status::Store => 15,
            Status::View => 16,
        }
    }
}
