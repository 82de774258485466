//! What the gateway is about to do when it asks.
ghost use Rattle.std.specs.Prelude.{◌≡◌, ◌↔◌, ◌==◌, find, nat_eq};
ghost use Rattle.std.specs.Cmp.Lexicographic.{pointwise};
ghost use Rattle.gw_rules.specs.declared.operation.Operation.{Operation};
ghost use Rattle.gw_rules.specs.Operation.{operation_name, operation_number};

/// What the gateway is about to do when it asks. Names and numbers are this project's own.
#[derive(Clone, Copy)]
pub enum Operation {
    /// 1, `cast`: distribute a broadcast to peers, foreign devices and the own subnet (Annex J).
    Cast = 1,
    /// 2, `route`: send a message on to another network (clause 6).
    Route = 2,
    /// 3, `register`: register a foreign device (Annex J).
    Register = 3,
    /// 4, `delete`: delete a foreign device's registration (Annex J).
    Delete = 4,
    /// 5, `read-table`: show a broadcast distribution table or the foreign devices (Annex J).
    ReadTable = 5,
    /// 6, `write-table`: replace a broadcast distribution table (Annex J).
    WriteTable = 6,
    /// 7, `learn`: learn a route to a network from another router (clause 6).
    Learn = 7,
    /// 8, `network`: answer a question about networks (clause 6).
    Network = 8,
    /// 9, `read`: read a property of the device (clause 15).
    Read = 9,
    /// 10, `write`: write a property of the device (clauses 15 and 19).
    Write = 10,
    /// 11, `list`: tell that the device or one of its objects is here (clause 16).
    List = 11,
    /// 12, `enter`: take a datagram from a station that doesn't belong to its port (Annex J), in format 3
    /// alone.
    Enter = 12,
    /// 13, `claim`: take a message that names a source network behind another router (clause 6), in format
    /// 3 alone.
    Claim = 13,
}

impl Operation {
    /// The thirteen operations in the order of their numbers.
    pub const ALL: [Operation; 13] = [
        Operation::Cast,
        Operation::Route,
        Operation::Register,
        Operation::Delete,
        Operation::ReadTable,
        Operation::WriteTable,
        Operation::Learn,
        Operation::Network,
        Operation::Read,
        Operation::Write,
        Operation::List,
        Operation::Enter,
        Operation::Claim,
    ];

    /// The name under which a configuration and the log show it.
    pub fn name(self) -> &'static str
        ensures { result.now ≡ operation_name self }
    {
        match self {
            Operation::Cast => "cast",
            Operation::Route => "route",
            Operation::Register => "register",
            Operation::Delete => "delete",
            Operation::ReadTable => "read-table",
            Operation::WriteTable => "write-table",
            Operation::Learn => "learn",
            Operation::Network => "network",
            Operation::Read => "read",
            Operation::Write => "write",
            Operation::List => "list",
            Operation::Enter => "enter",
            Operation::Claim => "claim",
        }
    }

    /// The operation of this name, or `None` if none has it.
    pub fn from_name(text: &str) -> Option<Self>
        ensures { (operation : Operation) →
            (result ≡ Some operation) ↔ (text.now ≡ operation_name operation) }
    {
        of_name(text)
    }

    /// The number under which asks and rules name it, from 1 to 13.
    pub fn number(self) -> u64
        ensures { result ≡ operation_number self }
    {
        self as u64
    }

    /// The operation of this number, or `None` if none has it.
    pub fn from_number(number: u64) -> Option<Self>
        ensures { (operation : Operation) →
            (result ≡ Some operation) ↔ (number ≡ operation_number operation) }
    {
        of_number(number)
    }
}

fn of_name(text: &str) -> Option<Operation>
    ensures { result ≡ find (λ o. pointwise nat_eq (operation_name o) text.now) Operation.ALL }
{
    Operation::ALL
        .iter()
        .copied()
        .find(|operation| operation.name() == text)
}

fn of_number(number: u64) -> Option<Operation>
    ensures { result ≡ find (λ o. operation_number o == number) Operation.ALL }
{
    Operation::ALL
        .iter()
        .copied()
        .find(|operation| operation.number() == number)
}
