use ca_term::head::Head;
use ca_term::place::Place;
use ca_value::builtin::Builtin;
use ca_value::seq::Seq;
use ca_value::value::Value;

/// The code of a program: its blocks by number, the first block of the main text, and where its go bodies
/// and functions begin, each by number.
#[derive(Drop)]
pub struct Code {
    pub blocks: Seq<Block>,
    pub main: u64,
    /// The first block of a text that takes one value and has that value. A function that is called by itself
    /// returns to it.
    pub identity: u64,
    pub bodies: Seq<EntryPoint>,
    pub functions: Seq<EntryPoint>,
    /// One for each slot that a block may use. What they say is no part of the code: `validate` works on
    /// them, so that it takes no memory.
    pub marks: Seq<Mark>,
}

/// Where a go body or a function begins: its first block, and how many values it takes, which stand in the
/// first slots there.
#[derive(Clone, Copy)]
pub struct EntryPoint {
    pub block: u64,
    pub values: u64,
}

/// Instructions that run in order, and where they lead. All blocks of a text have its width: the number
/// of slots of a runner in it. The entry slots hold a value that the block may use.
#[derive(Drop)]
pub struct Block {
    pub width: u64,
    pub entry: SlotSet,
    pub instrs: Seq<Instr>,
    pub exit: Exit,
}

/// A set of slots: those below a number, but for the holes.
#[derive(Drop)]
pub struct SlotSet {
    pub below: u64,
    pub holes: Seq<u64>,
}

/// One instruction. `to` is the slot that its value comes into, `place` where it may fault.
#[derive(Drop)]
pub enum Instr {
    /// A value of the text.
    Const {
        to: u64,
        value: Value,
    },
    Copy {
        to: u64,
        from: u64,
    },
    /// The value is taken out of `from`.
    Move {
        to: u64,
        from: u64,
    },
    /// The slot's value is let go.
    Clear {
        slot: u64,
    },
    /// A builtin of one operand, which stays where it is.
    One {
        builtin: Builtin,
        to: u64,
        operand: u64,
        place: Place,
    },
    /// A builtin of two operands, which stay where they are.
    Two {
        builtin: Builtin,
        to: u64,
        left: u64,
        right: u64,
        place: Place,
    },
    /// A builtin of an operand, which stays where it is, and an integer of the text.
    TwoInt {
        builtin: Builtin,
        to: u64,
        left: u64,
        right: i64,
        place: Place,
    },
    /// `conj` of one item, the collection being taken out of its slot.
    Push {
        to: u64,
        collection: u64,
        item: u64,
        place: Place,
    },
    /// `assoc` of one key, the collection being taken out of its slot.
    Put {
        to: u64,
        collection: u64,
        key: u64,
        value: u64,
        place: Place,
    },
    /// A builtin of the values that are taken out of `count` slots, from slot `from` on.
    Many {
        builtin: Builtin,
        to: u64,
        from: u64,
        count: u64,
        place: Place,
    },
}

/// Where a block leads. `next`, `yes` and `no` are blocks.
#[derive(Clone, Copy)]
pub enum Exit {
    /// A turn, where the block doesn't have a greater number.
    Jump {
        next: u64,
        place: Place,
    },
    /// To `no` where the slot holds nil or false, else to `yes`.
    Branch {
        slot: u64,
        yes: u64,
        no: u64,
    },
    /// A builtin of two operands, and a branch by its value, which comes into no slot. What the slot `to`
    /// holds is unknown afterwards, as if the value had come into it and were let go.
    Test {
        builtin: Builtin,
        to: u64,
        left: u64,
        right: u64,
        yes: u64,
        no: u64,
        place: Place,
    },
    /// The same of a builtin of an operand and an integer of the text.
    TestInt {
        builtin: Builtin,
        to: u64,
        left: u64,
        right: i64,
        yes: u64,
        no: u64,
        place: Place,
    },
    /// A function is called with the values that are taken out of `count` slots, from slot `from` on. Its
    /// value comes into the slot `answer`, and `next` goes on.
    Call {
        function: u64,
        from: u64,
        count: u64,
        answer: u64,
        next: u64,
        place: Place,
    },
    /// The call, or the whole text, has the slot's value.
    Return {
        slot: u64,
    },
    /// An operation over the values that are taken out of `count` slots, from slot `from` on. Its answer
    /// comes into the slot `answer`, and `next` goes on.
    Cut {
        head: Head,
        from: u64,
        count: u64,
        answer: u64,
        next: u64,
        place: Place,
    },
}

/// What was last said of a slot, and in which block, counted from 1; in none where that is 0.
#[derive(Clone, Copy)]
pub struct Mark {
    pub block: u64,
    pub known: bool,
}
