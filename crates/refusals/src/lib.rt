// Refusals: document 01's numbers by name, and the one value by which every answer tells a refusal.
#![tactic(auto)]

ghost use Rattle.std.specs.Prelude.{◌≡◌};
ghost use Rattle.refusals.specs.Numbers.{number_of};
ghost use Rattle.refusals.specs.Refusal.{told, refusal, refusal_after};

// Why something is refused: the rows of document 01's table. The cast to a number gives the table's number.
#[derive(Clone, Copy, Debug, PartialEq, Eq)]
pub enum Reason {
    ExpressionSize = 1,
    OpcodeUnknown = 2,
    OpcodeUnsupported = 3,
    OperandsCut = 4,
    OperandBad = 5,
    JumpNoStart = 6,
    JumpNotForward = 7,
    HeightsDiffer = 8,
    CellsTooFew = 9,
    CellsTooMany = 10,
    RunsOff = 11,
    SpanPastEnd = 12,
    SpansShare = 13,
    RegistersMany = 14,
    BufferBad = 15,
    AllowanceSpent = 16,
    DivisorZero = 17,
    RegisterNotLent = 18,
    RangeNotReadable = 19,
    RecordSize = 20,
    BufferFull = 21,
    TrailerBroken = 22,
    RecordBroken = 23,
    NoSuchFrame = 24,
    NoSuchRecord = 25,
}

impl Reason {
    // The number of document 01's table.
    pub fn number(self) -> u8
        ensures { result ≡ number_of self }
    {
        self as u8
    }
}

// Why something is refused, where, and after how many steps. The offset is 0 where a refusal has none, the steps are 0
// where nothing ran.
#[derive(Clone, Copy, Debug, PartialEq, Eq)]
pub struct Refusal {
    pub reason: Reason,
    pub offset: usize,
    pub steps: u64,
}

impl Refusal {
    // A refusal of what did not run.
    pub fn at(reason: Reason, offset: usize) -> Refusal
        ensures { told result ≡ refusal (number_of reason) offset }
    {
        Refusal::after(reason, offset, 0)
    }

    // A refusal of what ran so many steps.
    pub fn after(reason: Reason, offset: usize, steps: u64) -> Refusal
        ensures { told result ≡ refusal_after (number_of reason) offset steps }
    {
        Refusal {
            reason,
            offset,
            steps,
        }
    }
}
