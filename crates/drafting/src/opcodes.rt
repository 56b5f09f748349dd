// The opcodes of 000. From the top: a bit for the operator's type, a bit for "not", four bits for the operation, and two reserved ones.
ghost use Rattle.std.specs.Prelude.{◌≡◌};
ghost use Rattle.paper.specs.Pact.{load_of, relation_of, linking_of, opcode_of};
ghost use Rattle.drafting.specs.Opcodes.{load_meant, relation_read, linking_read, opcode_read};

#[derive(Clone, Copy)]
pub enum Relation {
    Equal,
    Greater,
    AtLeast,
}

// Where the right operand of a comparison comes from.
#[derive(Clone, Copy)]
pub enum Load {
    User,
    Input,
}

#[derive(Clone, Copy)]
pub enum Linking {
    And,
    Or,
    Xor,
}

#[derive(Clone, Copy)]
pub struct Comparator {
    pub inverted: bool,
    pub load: Load,
    pub relation: Relation,
}

#[derive(Clone, Copy)]
pub struct Conjunction {
    pub inverted: bool,
    pub linking: Linking,
}

#[derive(Clone, Copy)]
pub enum Opcode {
    Compares(Comparator),
    Conjoins(Conjunction),
}

// What the bits above others are divided by.
const OPERATION: u8 = 4;

const INVERSION: u8 = 64;

const KIND: u8 = 128;

// Of an operation: how many there are, and of a comparator's, the bit of its load.
const OPERATIONS: u8 = 16;

const LOAD: u8 = 8;

fn load_of(input: bool) -> Load
    ensures { load_meant result ≡ load_of input }
{
    if input { Load::Input } else { Load::User }
}

fn relation_of(operation: u8) -> Option<Relation>
    ensures { relation_read result ≡ relation_of operation }
{
    match operation {
        0 => Some(Relation::Equal),
        1 => Some(Relation::Greater),
        2 => Some(Relation::AtLeast),
        _ => None,
    }
}

fn linking_of(operation: u8) -> Option<Linking>
    ensures { linking_read result ≡ linking_of operation }
{
    match operation {
        0 => Some(Linking::And),
        1 => Some(Linking::Or),
        2 => Some(Linking::Xor),
        _ => None,
    }
}

// What a byte is as an opcode, if it is one.
pub(crate) fn opcode_of(byte: u8) -> Option<Opcode>
    ensures { opcode_read result ≡ opcode_of byte }
{
    if byte % OPERATION != 0 {
        return None;
    }
    let inverted = byte / INVERSION % 2 == 1;
    let operation = byte / OPERATION % OPERATIONS;
    if byte / KIND == 0 {
        let load = load_of(operation / LOAD == 1);
        let relation = relation_of(operation % LOAD)?;
        return Some(Opcode::Compares(Comparator {
            inverted,
            load,
            relation,
        }));
    }
    let linking = linking_of(operation)?;
    Some(Opcode::Conjoins(Conjunction { inverted, linking }))
}
